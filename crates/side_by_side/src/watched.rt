//! The wires that are read.

ghost use Rattle.std.specs.Prelude.{◌≡◌, IfOk, map, not};
ghost use Rattle.agm_net.specs.Plain.{is_input};
ghost use Rattle.agm_net.specs.Role.{share_name as share_name_of};
ghost use Rattle.agm_net.specs.View.{plain_of};
ghost use Rattle.share_wiring.specs.Recombine.{is_shared as is_shared_port};
ghost use Rattle.share_wiring.specs.Shape.{indices};
ghost use Rattle.side_by_side.specs.Pairs as spec;

use agm_bits::{List, Memory, Name};
use agm_net::{Net, Port, Way};
use share_wiring::{Masked, Report};
use std::alloc::Global;

/// An output port of the original: its number, its wires, and those of each of its shares in the masked net, or of the one
/// port there.
#[derive(Debug, Drop)]
pub struct Watched {
    pub port: usize,
    pub bits: List<usize>,
    pub shares: List<List<usize>>,
}

// Whether a name is among those of a report's shared ports.
fn is_shared(report: &Report, name: &[u8]) -> bool
    ensures { result ≡ is_shared_port report.now name.now }
{
    report.ports.as_slice().iter().any(|n| n.as_slice() == name)
}

// The name of the port with a share of a port.
fn share_name(alloc: Global, index: usize, name: &[u8]) -> Result<Name, Memory>
    ensures { IfOk result (λ share. share ≡ share_name_of index name.now) }
{
    let head = format!(in alloc; "agm_s{index}_")?;
    let mut share = Name::from_slice(alloc, head.as_bytes())?;
    share.extend(name)?;
    Ok(share)
}

// The wires of the ports of a name.
fn wires_named(alloc: Global, net: &Net, name: &[u8]) -> Result<List<usize>, Memory>
    ensures { IfOk result (λ wires. wires ≡ spec.wires_named (plain_of net.now) name.now) }
{
    let mut wires = List::new(alloc);
    for port in net.ports.as_slice() {
        if port.name.as_slice() == name {
            wires.extend(port.bits.as_slice())?;
        }
    }
    Ok(wires)
}

// The wires of each share of a port.
fn all_shares(
    alloc: Global,
    net: &Net,
    order: u32,
    name: &[u8],
) -> Result<List<List<usize>>, Memory>
    ensures { IfOk result (λ shares. shares ≡ map (λ i. spec.wires_named (plain_of net.now) (share_name_of i name.now)) (indices order)) }
{
    let mut shares = List::new(alloc);
    for i in 0..order as usize + 1 {
        let share = share_name(alloc, i, name)?;
        shares.push(wires_named(alloc, net, share.as_slice())?)?;
    }
    Ok(shares)
}

// The wires of each share of a port, or of the public port.
fn share_wires(alloc: Global, masked: &Masked, name: &[u8]) -> Result<List<List<usize>>, Memory>
    ensures { IfOk result (λ shares. shares ≡ spec.share_wires (plain_of masked.now.net) masked.now.report name.now) }
{
    if is_shared(&masked.report, name) {
        all_shares(alloc, &masked.net, masked.report.order, name)
    } else {
        let mut one = List::new(alloc);
        one.push(wires_named(alloc, &masked.net, name)?)?;
        Ok(one)
    }
}

// What is read of a port.
fn watch(alloc: Global, masked: &Masked, number: usize, port: &Port) -> Result<Watched, Memory>
    ensures { IfOk result (λ it. it ≡ spec.watched_of masked.now.report (plain_of masked.now.net) (number, port.now)) }
{
    let bits = List::from_slice(alloc, port.bits.as_slice())?;
    let shares = share_wires(alloc, masked, port.name.as_slice())?;
    Ok(Watched {
        port: number,
        bits,
        shares,
    })
}

// Whether a port is an output.
fn is_output(port: &Port) -> bool
    ensures { result ≡ not (is_input port.now) }
{
    port.way == Way::Output
}

/// What is read of each output port of the original.
pub(crate) fn watched_of(alloc: Global, net: &Net, masked: &Masked) -> Result<List<Watched>, Memory>
    ensures { IfOk result (λ all. all ≡ map (spec.watched_of masked.now.report (plain_of masked.now.net)) (spec.numbered_outputs net.now.ports)) }
{
    let mut all = List::new(alloc);
    for (number, port) in net.ports.as_slice().iter().enumerate() {
        if is_output(port) {
            all.push(watch(alloc, masked, number, port)?)?;
        }
    }
    Ok(all)
}
