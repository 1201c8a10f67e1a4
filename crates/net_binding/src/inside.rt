ghost use Rattle.std.specs.Prelude.{◌≡◌, ◌==◌, ◌++◌, ◌∷◌, ℕ, List, Some, false, map, length, reverse, slice_get, IfOk};
ghost use Rattle.std.specs.List.{list_any};
ghost use Rattle.verilog_reader.specs.Plain.{instance};
ghost use Rattle.verilog_reader.specs.declared.design.Attribute.{Attribute};
ghost use Rattle.verilog_reader.specs.View.{pin_view, item_view, module_view};
ghost use Rattle.form_bits.specs.Forms.{look_in};
ghost use Rattle.module_outlines.specs.View.{Outlines};
ghost use Rattle.bound_items.specs.Items.{before_events, entered};
ghost use Rattle.bound_items.specs.State.{state_of, Gives};
ghost use Rattle.bound_items.specs.declared.fault.BindFault.TheVariants as faults;
ghost use Rattle.net_binding.specs.Ready.{Ready, plain_parts};
ghost use Rattle.net_binding.specs.Rest.{path_of, rest_of, Begins};
ghost use Rattle.net_binding.specs.Walk as spec;

use crate::frame::{Frame, Walker, pushed};
use crate::items::prefixed;
use crate::parts::{Parts, outlined};
use agm_bits::{List, Memory, Name};
use bound_items::{BindFault, Netlist, Outlined, Wires, add_before, dotted, enter};
use std::alloc::Global;
use verilog_reader::Connection;

// Whether one of these frames is in a module.
fn has_number(frames: &[Frame], number: usize) -> bool
    ensures { result ≡ list_any (λ f. f.number == number) frames.now }
{
    frames.iter().any(|frame| frame.number == number)
}

// The same, as a module on a path.
fn is_among(frames: &[Frame], number: usize) -> bool
    ensures { result ≡ list_any (λ j. j == number) (path_of (reverse frames.now)) }
{
    has_number(frames, number)
}

/// Whether a module is on the path, or the path is as long as there are modules.
pub(crate) fn is_recursive(parts: Parts<'_>, frame: &Frame, outer: &[Frame], number: usize) -> bool
    ensures { result ≡ spec.is_recursive (plain_parts parts.entry.modules.now (parts.entry.known.now ++ parts.entry.library.now)) (path_of (frame.now ∷ reverse outer.now)) number }
{
    frame.number == number || is_among(outer, number) || parts.modules.len() <= outer.len() + 1
}

// The fault of a module inside itself.
fn recursive(alloc: Global, cell: &Name) -> Result<BindFault, Memory>
    ensures { IfOk result (λ f. f ≡ faults.Recursive cell.now) }
{
    let module = Name::from_slice(alloc, cell.as_slice())?;
    Ok(BindFault::Recursive { module })
}

// Adds what an instance of a module gives before the first item inside.
fn add_front(
    netlist: Netlist,
    site: &Name,
    prefix: &Name,
    inside: Outlined<'_>,
    wires: Wires<'_>,
) -> Result<Netlist, BindFault>
    requires { Outlines (module_view inside.module.now) inside.outline.now }
    ensures { Gives (state_of netlist) (before_events site.now (module_view inside.entry.module.now) (look_in wires.entry.scope.now.names wires.entry.scope.now.spots) wires.entry.base (length (state_of netlist).names) (map pin_view wires.entry.pins.now) ++ entered prefix.now (module_view inside.entry.module.now)) result }
{
    let netlist = add_before(netlist, site, inside, wires)?;
    enter(netlist, prefix, inside.outline.wides.as_slice())
}

// Begins the walk inside an instance of a module that is not on the path.
fn begin_inside(
    parts: Parts<'_>,
    walker: Walker,
    own: Outlined<'_>,
    inside: Outlined<'_>,
    number: usize,
    name: &Name,
    pins: &[Connection],
) -> Result<Walker, BindFault>
    requires own { slice_get parts.modules.now walker.frame.number ≡ Some own.module.now }
    requires own_outline { Outlines (module_view own.module.now) own.outline.now }
    requires inside { slice_get parts.modules.now number ≡ Some inside.module.now }
    requires inside_outline { Outlines (module_view inside.module.now) inside.outline.now }
    requires fresh { spec.is_recursive (plain_parts parts.modules.now (parts.known.now ++ parts.library.now)) (path_of (walker.frame ∷ reverse walker.outer.items)) number ≡ false }
    ensures { (cell : List ℕ) (attributes : List Attribute) → spec.module_number (map module_view parts.entry.modules.now) cell ≡ Some number → slice_get (map item_view own.entry.module.now.items) walker.frame.item ≡ Some (instance attributes cell name.now (map pin_view pins.now)) → Begins (plain_parts parts.entry.modules.now (parts.entry.known.now ++ parts.entry.library.now)) (state_of walker.netlist) (rest_of (plain_parts parts.entry.modules.now (parts.entry.known.now ++ parts.entry.library.now)) walker) result }
{
    let Walker {
        netlist,
        frame,
        outer,
    } = walker;
    let alloc = netlist.alloc;
    let base = netlist.wires.len();
    let site = prefixed(alloc, &frame.prefix, name)?;
    let prefix = dotted(alloc, &site, &List::new(alloc))?;
    let wires = Wires {
        pins,
        scope: &own.outline.names,
        base: frame.base,
    };
    let netlist = add_front(netlist, &site, &prefix, inside, wires)?;
    let outer = pushed(outer, frame)?;
    let frame = Frame {
        number,
        item: 0,
        base,
        prefix,
    };
    Ok(Walker {
        netlist,
        frame,
        outer,
    })
}

/// Begins the walk inside an instance of a module.
pub(crate) fn go_inside(
    parts: Parts<'_>,
    walker: Walker,
    own: Outlined<'_>,
    number: usize,
    cell: &Name,
    name: &Name,
    pins: &[Connection],
) -> Result<Walker, BindFault>
    requires ready { Ready parts.modules.now parts.numbers.now parts.outlines.now (parts.known.now ++ parts.library.now) parts.cells.now }
    requires own { slice_get parts.modules.now walker.frame.number ≡ Some own.module.now }
    requires own_outline { Outlines (module_view own.module.now) own.outline.now }
    ensures { (attributes : List Attribute) → spec.module_number (map module_view parts.entry.modules.now) cell.now ≡ Some number → slice_get (map item_view own.entry.module.now.items) walker.frame.item ≡ Some (instance attributes cell.now name.now (map pin_view pins.now)) → Begins (plain_parts parts.entry.modules.now (parts.entry.known.now ++ parts.entry.library.now)) (state_of walker.netlist) (rest_of (plain_parts parts.entry.modules.now (parts.entry.known.now ++ parts.entry.library.now)) walker) result }
{
    match outlined(parts, number) {
        Some(inside) => {
            if is_recursive(parts, &walker.frame, walker.outer.as_slice(), number) {
                return Err(recursive(walker.netlist.alloc, cell)?);
            }
            begin_inside(parts, walker, own, inside, number, name, pins)
        }
        None => Err(BindFault::Memory),
    }
}
