//! Whether two tapes agree in what probes may depend on.

ghost use Rattle.std.specs.Prelude.{◌≡◌, ◌≤◌, ◌<◌, ◌+◌, ◌-◌, ℕ, List, Some, drop, length, map, slice_get};
ghost use Rattle.agm_net.specs.Plain.{PlainNet};
ghost use Rattle.agm_net.specs.Trace.{Row};
ghost use Rattle.agm_net.specs.View.{plain_of};
ghost use Rattle.agm_net.specs.declared.port.Port.{Port};
ghost use Rattle.probe_cones.specs.Inputs.{bit_role, roles};
ghost use Rattle.twin_tape.specs.Differences as spec;
ghost use Rattle.twin_tape.specs.Security.{Agree, sees};

use crate::indices::holds;
use agm_bits::{BitRow, Tape};
use agm_net::{Net, Port, Role, Way};

/// Whether two tapes agree.
#[derive(Clone, Copy, Debug, PartialEq, Eq)]
pub enum Agreement {
    Agreed,
    /// They differ in this cycle, and not before, and in it at a bit of this port, and of none before it.
    Differs { cycle: usize, port: usize },
}

// Whether a port is the clock's.
fn is_clock(clock: Option<usize>, number: usize) -> bool
    ensures { result ≡ spec.is_clock clock number }
{
    match clock {
        Some(port) => port == number,
        None => false,
    }
}

// Whether a port has no column in a tape without the random bits.
fn lacks_columns(clock: Option<usize>, number: usize, port: &Port) -> bool
    ensures { result ≡ spec.lacks_columns clock number port.now }
{
    if is_clock(clock, number) {
        return true;
    }
    match port.way {
        Way::Input => port.name.as_slice() == b"agm_r".as_slice(),
        Way::Output => true,
    }
}

// How many columns a port has.
fn width_of(clock: Option<usize>, number: usize, port: &Port) -> usize
    ensures { result ≡ length (spec.port_columns clock number port.now) }
{
    if lacks_columns(clock, number, port) {
        0
    } else {
        port.bits.len()
    }
}

// Whether a port is public or of a listed share.
fn is_seen(net: &Net, number: usize, indices: &[usize]) -> bool
    requires { number < length net.now.ports }
    ensures { (p : Port) → slice_get net.now.ports number ≡ Some p → result ≡ sees indices.now (bit_role p.name 0) }
{
    match net.role(number) {
        Role::Share(index) => holds(indices, index as usize),
        Role::Random => false,
        Role::Clock => true,
        Role::Public => true,
    }
}

// Whether two rows differ in one of the bits between two places.
fn differ(first: &BitRow, second: &BitRow, from: usize, to: usize) -> bool
    requires room { to ≤ length first.now }
    requires same { length second.now ≡ length first.now }
    ensures { result ≡ spec.differ_in (to - from) (drop from first.now) (drop from second.now) }
{
    for k in from..to {
        if first.get(k) != second.get(k) {
            return true;
        }
    }
    false
}

// Whether two rows differ in a column of a port that is public or of a listed share. Its columns begin at a place.
fn port_differs(
    net: &Net,
    number: usize,
    indices: &[usize],
    first: &BitRow,
    second: &BitRow,
    from: usize,
) -> bool
    requires number { number < length net.now.ports }
    requires room { (p : Port) → slice_get net.now.ports number ≡ Some p → from + length (spec.port_columns net.now.clock number p) ≤ length first.now }
    requires same { length second.now ≡ length first.now }
    ensures { (p : Port) → slice_get net.now.ports number ≡ Some p → result ≡ spec.port_differs indices.now net.now.clock number p (drop from first.now) (drop from second.now) }
{
    let port = &net.ports.as_slice()[number];
    if lacks_columns(net.clock, number, port) {
        return false;
    }
    if !is_seen(net, number, indices) {
        return false;
    }
    let to = first.len().min(from.saturating_add(port.bits.len()));
    differ(first, second, from, to)
}

// The first port at which two rows differ so.
fn first_port(net: &Net, indices: &[usize], first: &BitRow, second: &BitRow) -> Option<usize>
    requires wide { length first.now ≡ length (spec.columns (plain_of net.now)) }
    requires same { length second.now ≡ length first.now }
    ensures { result ≡ spec.first_difference indices.now (spec.columns (plain_of net.now)) first.now second.now }
{
    let mut from = 0;
    for (number, port) in net.ports.as_slice().iter().enumerate() {
        if port_differs(net, number, indices, first, second, from) {
            return Some(number);
        }
        let width = width_of(net.clock, number, port);
        from = first.len().min(from.saturating_add(width));
    }
    None
}

/// Whether two tapes without the random bits agree in each public bit and in each share of a listed index; else the first cycle in
/// which they do not, and in it the first port. Takes no memory.
pub fn agree(net: &Net, indices: &[usize], first: &Tape, second: &Tape) -> Agreement
    requires first_width { first.now.width ≡ length (spec.columns (plain_of net.now)) }
    requires second_width { second.now.width ≡ length (spec.columns (plain_of net.now)) }
    requires as_long { length first.now.rows ≡ length second.now.rows }
    ensures { result ≡ spec.agreement indices.now (spec.columns (plain_of net.now)) 0 first.now.rows second.now.rows }
{
    let rows = first.rows.as_slice();
    let others = second.rows.as_slice();
    for cycle in 0..rows.len() {
        if let Some(port) = first_port(net, indices, &rows[cycle], &others[cycle]) {
            return Agreement::Differs { cycle, port };
        }
    }
    Agreement::Agreed
}

/// The columns of a tape have the roles of its bits, and tapes that are told to agree do so, as isolation asks it of them.
pub fn agreed_tapes_agree()
    ensures columns { (net : PlainNet) → map (λ c. c.1) (spec.columns net) ≡ roles net }
    ensures agreed { (net : PlainNet) (indices : List ℕ) (first second : List Row) → length first ≡ length second →
        spec.agreement indices (spec.columns net) 0 first second ≡ Agreement.Agreed → Agree net indices first second }
{}
