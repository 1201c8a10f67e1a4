ghost use Rattle.std.specs.Prelude.{◌≡◌, ◌++◌, map};
ghost use Rattle.module_outlines.specs.Outlines.{inner_bits as inner};
ghost use Rattle.module_outlines.specs.View.{wide_view};
ghost use Rattle.bound_items.specs.Events as event;
ghost use Rattle.bound_items.specs.State.{state_of, Gives};

use crate::add::add_wire;
use crate::{BindFault, Netlist};
use agm_bits::Name;
use module_outlines::{Wide, inner_bits};

// Adds wires of these names.
fn add_wires(netlist: Netlist, names: &[Name]) -> Result<Netlist, BindFault>
    ensures { Gives (state_of netlist) (map (λ t. event.wire t) names.now) result }
{
    let alloc = netlist.alloc;
    let mut netlist = netlist;
    for name in names {
        let name = Name::from_slice(alloc, name.as_slice())?;
        netlist = add_wire(netlist, name)?;
    }
    Ok(netlist)
}

/// Adds the wires of a module that a walk enters.
///
/// # Errors
///
/// `Clash` for the first whose name is taken, and `Memory` where memory runs out.
pub fn enter(netlist: Netlist, prefix: &Name, wides: &[Wide]) -> Result<Netlist, BindFault>
    ensures { Gives (state_of netlist) (map (λ t. event.wire t) (inner prefix.now (map wide_view wides.now))) result }
{
    let names = inner_bits(netlist.alloc, prefix, wides)?;
    add_wires(netlist, names.as_slice())
}
