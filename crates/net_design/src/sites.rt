//! Which wires are bits of ports.

ghost use Rattle.std.specs.Prelude.{◌≡◌, ◌≤◌, fold, IfOk};
ghost use Rattle.std.specs.Int.{abs_diff};
ghost use Rattle.std.specs.List.{AllByRecursion};
ghost use Rattle.agm_net.specs.Checks as checks;
ghost use Rattle.agm_net.specs.View.{plain_of};
ghost use Rattle.net_design.specs.Sites.{IsWithin, BitsFit, port_sites, all_sites, put};
ghost use Rattle.net_design.specs.Sites as spec;

use agm_bits::Memory;
use agm_net::{Net, Port, Range};
use std::alloc::Global;

/// A bit of a port: the port's number, and the bit's index where the port has a range.
#[derive(Clone, Copy)]
pub struct Site {
    pub port: usize,
    pub index: Option<u32>,
}

// The number of a bit of a range.
fn number_at(range: Range, i: usize) -> u32
    requires { i ≤ abs_diff range.msb range.lsb }
    ensures { result ≡ checks.number_at range.msb range.lsb i }
{
    if range.lsb <= range.msb {
        range.msb - i as u32
    } else {
        range.msb + i as u32
    }
}

// The index of bit i of a port with this range, or without one.
fn index_at(range: Option<Range>, i: usize) -> Option<u32>
    requires { IsWithin range i }
    ensures { result ≡ spec.index_at range i }
{
    match range {
        Some(range) => Some(number_at(range, i)),
        None => None,
    }
}

// Writes what a wire is into the table.
fn put_site(sites: &mut [Option<Site>], wire: usize, site: Site)
    ensures { sites.new ≡ put sites.old (wire, site) }
{
    if wire < sites.len() {
        sites[wire] = Some(site);
    }
}

// Writes the bits of a port into the table.
fn put_port(sites: &mut [Option<Site>], number: usize, port: &Port)
    requires { BitsFit port.now }
    ensures { sites.new ≡ fold put sites.old (port_sites (number, port.now)) }
{
    for (i, wire) in port.bits.as_slice().iter().enumerate() {
        let index = index_at(port.range, i);
        put_site(
            sites,
            *wire,
            Site {
                port: number,
                index,
            },
        );
    }
}

// Writes the bits of all ports into the table.
fn put_ports(sites: &mut [Option<Site>], ports: &[Port])
    requires { AllByRecursion BitsFit ports.now }
    ensures { sites.new ≡ fold put sites.old (all_sites ports.now) }
{
    for (number, port) in ports.iter().enumerate() {
        put_port(sites, number, port);
    }
}

/// For each wire of a net the bit of a port that it is, None where it is none.
pub(crate) fn sites_of(alloc: Global, net: &Net) -> Result<Vec<Option<Site>>, Memory>
    ensures { IfOk result (λ v. v.items ≡ spec.sites_of (plain_of net.now)) }
{
    let mut sites = vec![in alloc; None; net.wires.len()]?;
    put_ports(sites.as_mut_slice(), net.ports.as_slice());
    Ok(sites)
}

/// What a wire is in the table.
pub(crate) fn site_at(sites: &[Option<Site>], wire: usize) -> Option<Site>
    ensures { result ≡ spec.site_at sites.now wire }
{
    if wire < sites.len() {
        sites[wire]
    } else {
        None
    }
}
