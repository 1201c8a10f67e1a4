//! Rows of input bits, put together from the bits of `agm_r` and the others.

ghost use Rattle.std.specs.Prelude.{◌≡◌, ◌<◌, ◌++◌, ℕ, All, IfOk, OnOk, Some, codes, false, length, replicate, slice_index_or};
ghost use Rattle.std.specs.Str.{bytes_eq};
ghost use Rattle.agm_net.specs.Plain as plain;
ghost use Rattle.agm_net.specs.Plain.{data_ports, ports_but};
ghost use Rattle.agm_net.specs.View.{plain_of};
ghost use Rattle.probe_cones.specs.Observing as spec;

use agm_bits::{BitRow, List, Memory};
use agm_net::{Net, Port, Way};
use std::alloc::Global;

// Whether a name is that of the port for random bits.
fn is_random_name(name: &[u8]) -> bool
    ensures { result ≡ bytes_eq name.now (codes "agm_r") }
{
    name == b"agm_r".as_slice()
}

// Whether a port is an input.
pub(crate) fn is_input(port: &Port) -> bool
    ensures { result ≡ plain.is_input port.now }
{
    match port.way {
        Way::Input => true,
        Way::Output => false,
    }
}

// Adds a flag so many times.
fn add_times(flags: &mut List<bool>, flag: bool, count: usize) -> Result<(), Memory>
    ensures { OnOk result (flags.new ≡ flags.old ++ replicate count flag) }
{
    for _added in 0..count {
        flags.push(flag)?;
    }
    Ok(())
}

// Adds whether each bit of a port is random.
fn add_port(flags: &mut List<bool>, port: &Port) -> Result<(), Memory>
    ensures { OnOk result (flags.new ≡ flags.old ++ spec.port_flags port.now) }
{
    add_times(flags, is_random_name(port.name.as_slice()), port.bits.len())
}

// Adds whether each bit of the input ports is random.
fn add_flags(flags: &mut List<bool>, ports: &[Port]) -> Result<(), Memory>
    ensures { OnOk result (flags.new ≡ flags.old ++ spec.flags_of ports.now) }
{
    for port in ports {
        if is_input(port) {
            add_port(flags, port)?;
        }
    }
    Ok(())
}

// The same of the ports without the clock.
fn flags_but(alloc: Global, ports: &[Port], clock: Option<usize>) -> Result<List<bool>, Memory>
    requires { (c : ℕ) → clock ≡ Some c → c < length ports.now }
    ensures { IfOk result (λ flags. flags ≡ spec.flags_of (ports_but clock ports.now)) }
{
    let mut flags = List::new(alloc);
    match clock {
        None => add_flags(&mut flags, ports)?,
        Some(number) => {
            add_flags(&mut flags, &ports[..number])?;
            add_flags(&mut flags, &ports[number + 1..])?;
        }
    }
    Ok(flags)
}

/// Whether each input bit of a net is random.
pub fn random_flags(alloc: Global, net: &Net) -> Result<List<bool>, Memory>
    ensures { IfOk result (λ flags. flags ≡ spec.flags_of (data_ports (plain_of net.now))) }
{
    flags_but(alloc, net.ports.as_slice(), net.clock)
}

/// A bit of a row, and 0 past its end.
pub fn bit_at(row: &BitRow, k: usize) -> bool
    ensures { result ≡ slice_index_or row.now k false }
{
    k < row.len() && row.get(k)
}

/// A row from its random bits and the others.
pub fn join(
    alloc: Global,
    flags: &[bool],
    others: &BitRow,
    random: &BitRow,
) -> Result<List<bool>, Memory>
    ensures { IfOk result (λ row. row ≡ spec.joined_by flags.now others.now random.now) }
{
    let mut row = List::new(alloc);
    let mut next_random = 0;
    let mut next_other = 0;
    for flag in flags {
        if *flag {
            row.push(bit_at(random, next_random))?;
            next_random += 1;
        } else {
            row.push(bit_at(others, next_other))?;
            next_other += 1;
        }
    }
    Ok(row)
}

/// The same for each cycle.
pub(crate) fn join_all(
    alloc: Global,
    flags: &[bool],
    inputs: &[BitRow],
    random: &[BitRow],
) -> Result<List<List<bool>>, Memory>
    requires { length inputs.now ≡ length random.now }
    ensures { IfOk result (λ rows. rows ≡ spec.joined_rows flags.now inputs.now random.now (length inputs.now)) }
{
    let mut rows = List::new(alloc);
    for t in 0..inputs.len() {
        rows.push(join(alloc, flags, &inputs[t], &random[t])?)?;
    }
    Ok(rows)
}
