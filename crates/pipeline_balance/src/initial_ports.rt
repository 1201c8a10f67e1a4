//! The input ports of a masked net for the initial values of registers.

ghost use Rattle.std.specs.Prelude.{◌≡◌, ◌<◌, ◌≤◌, ◌+◌, ◌-◌, ◌∷◌, [], ◌++◌, ℕ, List, Bool, true, false, not, cond, length, map, replicate, reverse, count_by, codes, IfOk, IsTrue};
ghost use Rattle.agm_net.specs.Role.{state_name as state_name_of};
ghost use Rattle.agm_net.specs.declared.port.Range.{Range as RangeRecord};
ghost use Rattle.share_wiring.specs.Own.{upto};
ghost use Rattle.share_wiring.specs.Recombine.{port_value};
ghost use Rattle.share_wiring.specs.Shape.{header_of, input_of_width};
ghost use Rattle.pipeline_balance.specs.Chained.{value_at};
ghost use Rattle.pipeline_balance.specs.Masked.{initial_values};
ghost use Rattle.pipeline_balance.specs.Entering.{FitInOrder, Enters, state_headers, public_row, state_row, register_headers, merged_values};

use crate::input_ports::{public_in, shared_in};
use crate::nodes::source_value;
use crate::values::Value;
use agm_bits::{List, Memory, Name};
use agm_net::Range;
use share_wiring::{Builder, Report};
use std::alloc::Global;

/// The range of so many bits, from the greatest number to 0.
pub fn falling(width: usize) -> Range
    requires { (1 ≤ width) × (width ≤ 65536) }
    ensures { result ≡ record { msb = width - 1; lsb = 0 } }
{
    Range {
        msb: (width - 1) as u32,
        lsb: 0,
    }
}

// The name of the port with a share of the secret registers' initial values.
fn state_name(alloc: Global, index: usize) -> Result<Name, Memory>
    ensures { IfOk result (λ name. name ≡ state_name_of index) }
{
    let text = format!(in alloc; "agm_q_s{index}")?;
    let name = Name::from_slice(alloc, text.as_bytes())?;
    Ok(name)
}

fn state_names(alloc: Global, count: usize) -> Result<List<Name>, Memory>
    ensures { IfOk result (λ names. names ≡ upto count state_name_of) }
{
    let mut names = List::new(alloc);
    for i in 0..count {
        let name = state_name(alloc, i)?;
        names.push(name)?;
    }
    Ok(names)
}

// Makes the port of the public registers' initial values, none where there is no such register. Answers its values, the last first.
fn publics_in<const S: usize>(builder: &mut Builder, count: usize) -> Result<List<Value<S>>, Memory>
    requires size { (2 ≤ S) × (S ≤ 16) }
    requires few { count ≤ 65536 }
    requires fit { FitInOrder (map header_of builder.old.ports) (input_of_width (codes "agm_q_p") count) }
    ensures { IfOk result (Enters S builder.old builder.new (input_of_width (codes "agm_q_p") count) (replicate count false) (public_row count)) }
{
    if count == 0 {
        let _clock = builder.clock();
        return Ok(List::new(builder.alloc()));
    }
    let values = public_in(builder, b"agm_q_p", Some(falling(count)))?;
    Ok(values)
}

// Makes the ports of the shares of the secret registers' initial values, none where there is no such register. Answers their values, the
// last first.
fn states_in<const S: usize>(builder: &mut Builder, count: usize) -> Result<List<Value<S>>, Memory>
    requires size { (2 ≤ S) × (S ≤ 16) }
    requires few { count ≤ 65536 }
    requires fit { FitInOrder (map header_of builder.old.ports) (state_headers S count) }
    ensures { IfOk result (Enters S builder.old builder.new (state_headers S count) (replicate count true) (state_row S count)) }
{
    if count == 0 {
        let _clock = builder.clock();
        return Ok(List::new(builder.alloc()));
    }
    let names = state_names(builder.alloc(), S)?;
    let values = shared_in(builder, names.as_slice(), Some(falling(count)))?;
    Ok(values)
}

// The last of the values that are left: of the secret ones where `secret`, else of the public ones.
fn last_left<const S: usize>(
    secret: bool,
    publics: &[Value<S>],
    publics_left: usize,
    shared: &[Value<S>],
    shared_left: usize,
) -> Value<S>
    requires public { secret ≡ false → (1 ≤ publics_left) × (publics_left ≤ length publics.now) }
    requires shared { secret ≡ true → (1 ≤ shared_left) × (shared_left ≤ length shared.now) }
    ensures { result ≡ cond secret (value_at shared.now (shared_left - 1)) (value_at publics.now (publics_left - 1)) }
{
    if secret {
        source_value(shared, shared_left - 1)
    } else {
        source_value(publics, publics_left - 1)
    }
}

// How many secret values are left behind a register.
fn shared_behind(secret: bool, left: usize) -> usize
    requires { secret ≡ true → 1 ≤ left }
    ensures { result ≡ cond secret (left - 1) left }
{
    if secret { left - 1 } else { left }
}

// The values of registers in their order, of which those of the public and of the secret ones are given, the last first.
fn merge<const S: usize>(
    alloc: Global,
    secrets: &[bool],
    publics: &[Value<S>],
    shared: &[Value<S>],
) -> Result<List<Value<S>>, Memory>
    requires size { S ≤ 16 }
    requires publics { length publics.now ≡ count_by not secrets.now }
    requires shared { length shared.now ≡ count_by (λ s. s) secrets.now }
    ensures { IfOk result (λ values. values ≡ merged_values secrets.now (reverse publics.now) (reverse shared.now)) }
{
    let mut values = List::new(alloc);
    let mut shared_left = shared.len();
    for r in 0..secrets.len() {
        let publics_left = secrets.len() - r - shared_left;
        let value = last_left(secrets[r], publics, publics_left, shared, shared_left);
        values.push(value)?;
        shared_left = shared_behind(secrets[r], shared_left);
    }
    Ok(values)
}

/// Makes the input ports of the registers' initial values, which stand last. Answers the values of all registers in their order.
pub fn registers_in<const S: usize>(
    builder: &mut Builder,
    secrets: &[bool],
    report: &Report,
) -> Result<List<Value<S>>, Memory>
    requires size { (2 ≤ S) × (S ≤ 16) }
    requires order { report.now.order + 1 ≡ S }
    requires publics { (report.now.public_registers ≤ 65536) × (report.now.public_registers ≡ count_by not secrets.now) }
    requires shared { (report.now.secret_registers ≤ 65536) × (report.now.secret_registers ≡ count_by (λ s. s) secrets.now) }
    requires fit { FitInOrder (map header_of builder.old.ports) (register_headers report.now) }
    ensures { IfOk result (Enters S builder.old builder.new (register_headers report.now) secrets.now (initial_values secrets.now report.now)) }
{
    let publics = publics_in(builder, report.public_registers)?;
    let shared = states_in(builder, report.secret_registers)?;
    let values = merge(
        builder.alloc(),
        secrets,
        publics.as_slice(),
        shared.as_slice(),
    )?;
    Ok(values)
}
