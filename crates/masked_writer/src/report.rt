ghost use Rattle.std.specs.Prelude.{◌≡◌, IfOk, map, string_bytes, false, Some};
ghost use Rattle.std.specs.List.{AllByRecursion};
ghost use Rattle.serde_json.specs.Data.{array, string};
ghost use Rattle.serde_json.specs.View.{view, items_of};
ghost use Rattle.serde_json.specs.Written.{has_float};
ghost use Rattle.agm_net.specs.Writable.{IsWritable};
ghost use Rattle.json_values.specs.Json.{json_of};
ghost use Rattle.masked_writer.specs.Report as spec;

use agm_bits::{Memory, Name};
use serde_json::{Value, json};
use share_wiring::{Balance, Mode, Report};
use std::alloc::{AllocError, Global};

/// A mode as a word.
pub fn mode_text(mode: Mode) -> &'static str
    ensures { result.now ≡ spec.mode_text mode }
{
    match mode {
        Mode::Naive => "naive",
        Mode::Aig => "aig",
        Mode::Bdd => "bdd",
    }
}

/// A balance as a word.
pub fn balance_text(balance: Balance) -> &'static str
    ensures { result.now ≡ spec.balance_text balance }
{
    match balance {
        Balance::Pipe => "pipe",
        Balance::Gate => "gate",
    }
}

/// The mode that a word is, if it is one.
pub fn mode_in(word: &str) -> Option<Mode>
    ensures { result ≡ spec.mode_of word.now }
{
    match word {
        "naive" => Some(Mode::Naive),
        "aig" => Some(Mode::Aig),
        "bdd" => Some(Mode::Bdd),
        _ => None,
    }
}

/// The balance that a word is, if it is one.
pub fn balance_in(word: &str) -> Option<Balance>
    ensures { result ≡ spec.balance_of word.now }
{
    match word {
        "pipe" => Some(Balance::Pipe),
        "gate" => Some(Balance::Gate),
        _ => None,
    }
}

// A name as text: its bytes are ASCII.
fn string_of(alloc: Global, name: &Name) -> Result<String, Memory>
    requires { IsWritable name.now }
    ensures { IfOk result (λ s. string_bytes s ≡ name.now) }
{
    Ok(String::from_utf8_lossy(alloc, name.as_slice())?)
}

// Names as a JSON array.
fn names_value(alloc: Global, names: &[Name]) -> Result<Value, Memory>
    requires { AllByRecursion IsWritable names.now }
    ensures { IfOk result (λ v. view v ≡ array (items_of (map string names.now))) }
{
    let mut items = Vec::new(alloc);
    for name in names {
        items.push(Value::String(string_of(alloc, name)?))?;
    }
    Ok(Value::Array(items))
}

// A report as a JSON object.
#[tactic(auto, unfolding(crate::specs::Report::versioned_data))]
fn report_value(alloc: Global, report: &Report, ports: &Value) -> Result<Value, AllocError>
    requires { view ports.now ≡ array (items_of (map string report.now.ports)) }
    ensures { IfOk result (λ v. view v ≡ spec.report_data report.now) }
{
    let balance = balance_text(report.balance);
    let mode = mode_text(report.mode);
    json!(in alloc; {
        "balance": balance,
        "gadgets": report.gadgets,
        "latency": report.latency,
        "mode": mode,
        "order": report.order,
        "period": report.period,
        "ports": ports,
        "public_registers": report.public_registers,
        "random": report.random,
        "secret_registers": report.secret_registers,
        "streams": report.streams,
        "version": 1
    })
}

/// A report as JSON: one object in compact form, its keys in the order of their bytes, without a line end.
pub fn report_text(alloc: Global, report: &Report) -> Result<String, Memory>
    requires { AllByRecursion IsWritable report.now.ports }
    ensures exact { IfOk result (λ s. string_bytes s ≡ spec.report_text report.now) }
    ensures reads_back { IfOk result (λ s. json_of (string_bytes s) ≡ Some (spec.report_data report.now)) }
{
    let ports = names_value(alloc, report.ports.as_slice())?;
    let value = report_value(alloc, report, &ports)?;
    Ok(value.to_string(alloc)?)
}
