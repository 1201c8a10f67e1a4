//! The original's inputs, as a masked net has them.

ghost use Rattle.std.specs.Prelude.{◌≡◌, ◌≤◌, ◌<◌, ◌+◌, ◌*◌, ◌^◌, ◌++◌, ℕ, Some, length, map, filter, IfOk, OnOk, MatchOption};
ghost use Rattle.std.specs.List.{list_any};
ghost use Rattle.std.specs.Str.{bytes_eq};
ghost use Rattle.agm_net.specs.Plain.{is_input, ports_but};
ghost use Rattle.agm_net.specs.View.{plain_of};
ghost use Rattle.share_wiring.specs.Recombine.{is_shared as is_shared_port};
ghost use Rattle.shared_tape.specs.Inputs as spec;

use crate::sharing::{push_bits, push_shares};
use agm_bits::{BitRow, List, Memory, Name};
use agm_net::{Net, Port, Way};
use share_wiring::Report;
use std::alloc::Global;

/// An input port of the original.
#[derive(Clone, Copy, Debug)]
pub struct Input {
    /// Whether the masked net has a port for each of its shares.
    pub is_shared: bool,
    /// The number of its bits.
    pub width: usize,
}

/// Whether a name is among those of a report's shared ports.
pub(crate) fn is_shared(report: &Report, name: &[u8]) -> bool
    ensures { result ≡ is_shared_port report.now name.now }
{
    report.ports.as_slice().iter().any(|n| n.as_slice() == name)
}

// Adds the input ports among these.
fn add_inputs(report: &Report, inputs: &mut List<Input>, ports: &[Port]) -> Result<(), Memory>
    ensures { OnOk result (inputs.new ≡ inputs.old ++ map (spec.input_of report.now) (filter is_input ports.now)) }
{
    for port in ports {
        if port.way == Way::Input {
            inputs.push(Input {
                is_shared: is_shared(report, port.name.as_slice()),
                width: port.bits.len(),
            })?;
        }
    }
    Ok(())
}

// The input ports among these but the clock's.
fn inputs_among(
    alloc: Global,
    report: &Report,
    ports: &[Port],
    clock: Option<usize>,
) -> Result<List<Input>, Memory>
    requires { (c : ℕ) → clock ≡ Some c → c < length ports.now }
    ensures { IfOk result (λ inputs. inputs ≡ map (spec.input_of report.now) (filter is_input (ports_but clock ports.now))) }
{
    let mut inputs = List::new(alloc);
    match clock {
        None => add_inputs(report, &mut inputs, ports)?,
        Some(number) => {
            add_inputs(report, &mut inputs, &ports[..number])?;
            add_inputs(report, &mut inputs, &ports[number + 1..])?;
        }
    }
    Ok(inputs)
}

/// The input ports but the clock's, in their order.
pub(crate) fn inputs_of(alloc: Global, net: &Net, report: &Report) -> Result<List<Input>, Memory>
    ensures { IfOk result (λ inputs. inputs ≡ spec.inputs_of (plain_of net.now) report.now) }
{
    inputs_among(alloc, report, net.ports.as_slice(), net.clock)
}

// How many bits of a port are shared.
fn shared_width(input: Input) -> usize
    ensures { result ≡ spec.shared_width input }
{
    if input.is_shared { input.width } else { 0 }
}

/// How many sharings a row of inputs has, None where it is no number.
pub(crate) fn sharings(inputs: &[Input]) -> Option<usize>
    ensures { MatchOption result (2 ^ 64 ≤ spec.sharings inputs.now) (λ n. n ≡ spec.sharings inputs.now) }
{
    let mut count: usize = 0;
    for input in inputs {
        match count.checked_add(shared_width(*input)) {
            Some(sum) => count = sum,
            None => return None,
        }
    }
    Some(count)
}

// How many bits a masked net has for a port, None where it is no number.
fn port_width(order: usize, input: Input) -> Option<usize>
    requires { order < 2 ^ 32 }
    ensures { MatchOption result (2 ^ 64 ≤ spec.port_width order input) (λ n. n ≡ spec.port_width order input) }
{
    if input.is_shared {
        (order + 1).checked_mul(input.width)
    } else {
        Some(input.width)
    }
}

// How many bits there are with those that a masked net has for a port, None where it is no number.
fn add_width(count: usize, order: usize, input: Input) -> Option<usize>
    requires { order < 2 ^ 32 }
    ensures { MatchOption result (2 ^ 64 ≤ count + spec.port_width order input) (λ n. n ≡ count + spec.port_width order input) }
{
    match port_width(order, input) {
        Some(width) => count.checked_add(width),
        None => None,
    }
}

/// How many bits a masked net has for inputs, None where it is no number.
pub(crate) fn inputs_width(order: usize, inputs: &[Input]) -> Option<usize>
    requires { order < 2 ^ 32 }
    ensures { MatchOption result (2 ^ 64 ≤ spec.inputs_width order inputs.now) (λ n. n ≡ spec.inputs_width order inputs.now) }
{
    let mut count: usize = 0;
    for input in inputs {
        match add_width(count, order, *input) {
            Some(sum) => count = sum,
            None => return None,
        }
    }
    Some(count)
}

// Adds what a masked net has for a port with these values.
fn push_port(
    alloc: Global,
    row: &mut BitRow,
    draws: &[bool],
    order: usize,
    first: usize,
    input: Input,
    values: &[bool],
) -> Result<(), Memory>
    requires wide { length values.now ≡ input.width }
    requires drawn { (first + spec.shared_width input) * order ≤ length draws.now }
    requires counted { first + spec.shared_width input < 2 ^ 64 }
    requires low { order < 2 ^ 32 }
    ensures { OnOk result (row.new ≡ row.old ++ spec.port_row draws.now order first input values.now) }
{
    if input.is_shared {
        push_shares(alloc, row, draws, order, first, values)
    } else {
        push_bits(row, values)
    }
}

/// Adds what a masked net has for a row of the original's input bits. After `Memory` some may have been added.
pub(crate) fn push_inputs(
    alloc: Global,
    row: &mut BitRow,
    draws: &[bool],
    order: usize,
    inputs: &[Input],
    values: &[bool],
) -> Result<(), Memory>
    requires wide { length values.now ≡ spec.width_of inputs.now }
    requires drawn { spec.sharings inputs.now * order ≤ length draws.now }
    requires counted { spec.sharings inputs.now < 2 ^ 64 }
    requires low { order < 2 ^ 32 }
    ensures { OnOk result (row.new ≡ row.old ++ spec.inputs_row draws.now order 0 inputs.now values.now) }
{
    let mut first = 0;
    let mut rest = values;
    for input in inputs {
        push_port(
            alloc,
            row,
            draws,
            order,
            first,
            *input,
            &rest[..input.width],
        )?;
        first += shared_width(*input);
        rest = &rest[input.width..];
    }
    Ok(())
}
