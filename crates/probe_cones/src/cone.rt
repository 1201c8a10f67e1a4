//! The cones of wires.

ghost use Rattle.std.specs.Prelude.{◌≡◌, ◌<◌, ◌≤◌, ℕ, IfOk, All, length, map, filter, slice_index_or};
ghost use Rattle.agm_net.specs.Loop.{HasNoLoop};
ghost use Rattle.agm_net.specs.View.{plain_of};
ghost use Rattle.probe_cones.specs.Cone.{cone};
ghost use Rattle.probe_cones.specs.Origins.{AreOrigins, comes_from_source, origin_at};
ghost use Rattle.probe_cones.specs.Walk.{AreLed};

use crate::origins::{Origin, origins_of};
use crate::walk::Walk;
use agm_bits::{List, Memory};
use agm_net::Net;
use std::alloc::Global;

// Whether a wire is an input bit or a register's output.
fn is_source(origin: Origin) -> bool
    ensures { result ≡ comes_from_source origin }
{
    match origin {
        Origin::Source => true,
        Origin::Equation(_) | Origin::Clock => false,
    }
}

// Those of some wires that are input bits or registers' outputs, in their order.
fn sources(alloc: Global, origins: &[Origin], wires: &[usize]) -> Result<Vec<usize>, Memory>
    requires { All (λ w. w < length origins.now) wires.now }
    ensures { IfOk result (λ vs. vs.items ≡ filter (λ v. comes_from_source (origin_at origins.now v)) wires.now) }
{
    let mut found = Vec::new(alloc);
    for wire in wires {
        if is_source(origins[*wire]) {
            found.push(*wire)?;
        }
    }
    Ok(found)
}

// The cone of a wire, of which the wires are known to which reads lead from it.
fn cone_among(
    alloc: Global,
    net: &Net,
    origins: &[Origin],
    wire: usize,
    found: &[usize],
) -> Result<List<usize>, Memory>
    requires no_loop { HasNoLoop (plain_of net.now) }
    requires origins { AreOrigins (plain_of net.now) origins.now }
    requires in_range { wire < length net.now.wires }
    requires found { AreLed (plain_of net.now) wire found.now }
    ensures { IfOk result (λ c. c ≡ cone (plain_of net.now) wire) }
{
    let mut cone = sources(alloc, origins, found)?;
    cone.sort()?;
    Ok(List::from_vec(cone))
}

/// The cones of some wires of a net without a loop: of each the input bits and registers' outputs to which combinational
/// steps lead back from it, ascending.
///
/// Takes time and memory near linear in the net, once, and for each wire in what the steps lead to.
///
/// # Errors
///
/// `Memory` where memory runs out.
pub fn cones(alloc: Global, net: &Net, wires: &[usize]) -> Result<List<List<usize>>, Memory>
    requires no_loop { HasNoLoop (plain_of net.now) }
    requires in_range { All (λ w. w < length net.now.wires) wires.now }
    ensures { IfOk result (λ cs. cs ≡ map (cone (plain_of net.now)) wires.now) }
{
    let origins = origins_of(alloc, net)?;
    let mut walk = Walk {
        stamps: vec![in alloc; 0usize; net.wires.len()]?,
        stamp: 0,
        found: Vec::new(alloc),
    };
    let mut cones = List::new(alloc);
    for (i, wire) in wires.iter().enumerate() {
        walk.run(net, origins.as_slice(), *wire, i + 1)?;
        cones.push(cone_among(alloc, net, origins.as_slice(), *wire, walk.found.as_slice())?)?;
    }
    Ok(cones)
}
