//! Names of instances.

ghost use Rattle.std.specs.Prelude.{◌≡◌, ◌++◌, IfOk, OnOk, codes, fold, map, nat_eq, replicate};
ghost use Rattle.std.specs.Fmt.{decimal};
ghost use Rattle.std.specs.List.{starts_with};
ghost use Rattle.agm_net.specs.View.{plain_of};
ghost use Rattle.net_design.specs.Design as spec;

use agm_bits::{Memory, Name};
use agm_net::{Net, Port};
use std::alloc::Global;

// Whether a name begins as those of instances do.
fn is_like_instance(name: &Name) -> bool
    ensures { result ≡ starts_with nat_eq name.now (codes "agm_u") }
{
    name.as_slice().starts_with(b"agm_u")
}

// The length of the longest name so far that begins as those of instances do.
fn longer(most: usize, name: &Name) -> usize
    ensures { result ≡ spec.longer most name.now }
{
    if is_like_instance(name) {
        most.max(name.len())
    } else {
        most
    }
}

// The same, behind names of wires.
fn longest_of_names(names: &[Name]) -> usize
    ensures { result ≡ fold spec.longer 0 names.now }
{
    let mut most = 0;
    for name in names {
        most = longer(most, name);
    }
    most
}

// The same, behind ports.
fn longest_of_ports(start: usize, ports: &[Port]) -> usize
    ensures { result ≡ fold spec.longer start (map spec.port_name ports.now) }
{
    let mut most = start;
    for port in ports {
        most = longer(most, &port.name);
    }
    most
}

/// How many `_` stand in the name of an instance: as many as the longest name has bytes that begins as such a name does.
pub(crate) fn margin_of(net: &Net) -> usize
    ensures { result ≡ spec.margin_of (plain_of net.now) }
{
    longest_of_ports(longest_of_names(net.wires.as_slice()), net.ports.as_slice())
}

// Adds so many `_`.
fn add_margin(name: &mut Name, margin: usize) -> Result<(), Memory>
    ensures { OnOk result (name.new ≡ name.old ++ replicate margin 95) }
{
    for _ in 0..margin {
        name.push(b'_')?;
    }
    Ok(())
}

/// The name of the instance of a number.
pub(crate) fn instance_name(alloc: Global, margin: usize, number: usize) -> Result<Name, Memory>
    ensures { IfOk result (λ name. name ≡ spec.instance_name margin number) }
{
    let mut name = Name::new(alloc);
    name.extend(b"agm_u")?;
    add_margin(&mut name, margin)?;
    let digits = format!(in alloc; "{number}")?;
    name.extend(digits.as_bytes())?;
    Ok(name)
}
