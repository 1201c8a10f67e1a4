ghost use Rattle.std.specs.Prelude.{◌≡◌, ◌≤◌, ◌↔◌, IsTrue, IfOk, IfErr};
ghost use Rattle.std.specs.List.{AllByRecursion};
ghost use Rattle.serde_json.specs.Data.{object};
ghost use Rattle.serde_json.specs.View.{view, members_view};
ghost use Rattle.json_values.specs.Json.{json_of};
ghost use Rattle.masked_writer.specs.Stated as spec;
ghost use Rattle.share_wiring.specs.ReportOf.{streams_of};

use crate::members::{asked, closing, counts, opening, ports};
use crate::{ReportCause, ReportFault};
use agm_bits::{List, Memory, Name};
use json_values::{JsonFault, json_value};
use serde_json::Value;
use share_wiring::{Balance, Mode, Report};
use std::alloc::Global;
use std::collections::btree_map::Iter;

/// A report as a text states it, in some version.
#[derive(Drop)]
pub(crate) struct Stated {
    pub report: Report,
    pub version: u32,
}

// What the members of a report say.
#[tactic(auto, unfolding(crate::specs::Report::versioned_data))]
fn stated_of(
    first: (Balance, u32, u32),
    second: (Mode, u32, u32),
    ports: List<Name>,
    third: (u32, u32, u32),
    last: (u32, u32),
) -> Stated
    ensures report { result.report ≡ spec.report_of first second ports third last }
    ensures version { result.version ≡ last.1 }
{
    let (balance, gadgets, latency) = first;
    let (mode, order, period) = second;
    let (public_registers, random, secret_registers) = third;
    Stated {
        report: Report {
            order,
            mode,
            balance,
            gadgets: gadgets as usize,
            random: random as usize,
            latency: latency as usize,
            period: period as usize,
            streams: last.0 as usize,
            public_registers: public_registers as usize,
            secret_registers: secret_registers as usize,
            ports,
        },
        version: last.1,
    }
}

// The report that the members of an object state.
fn stated_by(alloc: Global, members: &mut Iter<'_, String, Value>) -> Result<Option<Stated>, Memory>
    ensures { IfOk result (spec.FindsReport (object (members_view members.old))) }
{
    let first = match opening(members) {
        Some(first) => first,
        None => return Ok(None),
    };
    let second = match asked(members) {
        Some(second) => second,
        None => return Ok(None),
    };
    let names = match ports(alloc, members)? {
        Some(names) => names,
        None => return Ok(None),
    };
    let third = match counts(members) {
        Some(third) => third,
        None => return Ok(None),
    };
    match closing(members) {
        Some(last) => Ok(Some(stated_of(first, second, names, third, last))),
        None => Ok(None),
    }
}

// The report that a value states.
#[tactic(auto, unfolding(crate::specs::Report::versioned_data))]
fn stated_in(alloc: Global, value: &Value) -> Result<Option<Stated>, Memory>
    ensures { IfOk result (spec.FindsReport (view value.now)) }
{
    match value.as_object() {
        Some(map) => stated_by(alloc, &mut map.iter()),
        None => Ok(None),
    }
}

// How many streams are in flight.
fn streams_in(report: &Report) -> usize
    ensures { result ≡ streams_of report.now.balance report.now.period }
{
    match report.balance {
        Balance::Pipe => report.period,
        Balance::Gate => 1,
    }
}

// Whether the numbers fit each other.
fn is_in_range(report: &Report) -> bool
    requires { AllByRecursion spec.IsSmall (spec.numbers_of report.now 1) }
    ensures { IsTrue result ↔ spec.IsInRange report.now }
{
    let order = report.order as usize;
    if order < 1 || order > 7 {
        return false;
    }
    report.random == report.gadgets * order * (order + 1) / 2
        && report.period == report.latency + 1
        && report.streams == streams_in(report)
}

// The report that is stated, if its version and its numbers are right.
fn judged(stated: Stated) -> Result<Report, ReportFault>
    requires { AllByRecursion spec.IsSmall (spec.numbers_of stated.report stated.version) }
    ensures { spec.Judges stated result }
{
    if stated.version != 1 {
        return Err(ReportFault::Bad {
            cause: ReportCause::Version,
        });
    }
    if !is_in_range(&stated.report) {
        return Err(ReportFault::Bad {
            cause: ReportCause::Range,
        });
    }
    Ok(stated.report)
}

// The report that a JSON value states.
fn report_in(alloc: Global, value: &Value) -> Result<Report, ReportFault>
    ensures { spec.AnswersValue (view value.now) result }
{
    let read = stated_in(alloc, value)?;
    match read {
        Some(stated) => judged(stated),
        None => Err(ReportFault::Bad {
            cause: ReportCause::Shape,
        }),
    }
}

/// Reads a report: the object that `report_text` writes, with any blanks, and with its members in any order.
///
/// # Errors
///
/// The first cause that holds, or `Memory`.
pub fn read_report(alloc: Global, bytes: &[u8]) -> Result<Report, ReportFault>
    ensures { spec.Answers (json_of bytes.now) result }
{
    match json_value(alloc, bytes) {
        Ok(value) => report_in(alloc, &value),
        Err(JsonFault::NoJson) => Err(ReportFault::Bad {
            cause: ReportCause::Json,
        }),
        Err(JsonFault::Memory) => Err(ReportFault::Memory),
    }
}
