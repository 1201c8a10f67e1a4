ghost use Rattle.std.specs.Prelude.{◌≡◌, ◌++◌, Some, None, map, length, reverse, slice_get, IfOk};
ghost use Rattle.std.specs.Option.{option_map};
ghost use Rattle.verilog_reader.specs.View.{pin_view, item_view, module_view};
ghost use Rattle.module_outlines.specs.View.{Outlines};
ghost use Rattle.bound_items.specs.State.{state_of, after, nothing, Gives};
ghost use Rattle.net_binding.specs.Ready.{Ready, plain_parts};
ghost use Rattle.net_binding.specs.Rest.{rest_of, behind, item_module, pins_of as plain_pins, Begins, Steps};
ghost use Rattle.net_binding.specs.Walk.{design_events};

use crate::frame::{Frame, Step, Walker, behind_item, popped};
use crate::inside::go_inside;
use crate::items::add_plain;
use crate::parts::{Parts, outlined};
use agm_bits::{List, Memory};
use bound_items::{BindFault, Netlist, Outlined, Wires, add_behind, empty_netlist, enter};
use std::alloc::Global;
use verilog_reader::{Connection, Item};

// Goes on behind an item that is no instance of a module.
fn stay(
    parts: Parts<'_>,
    walker: Walker,
    own: Outlined<'_>,
    item: &Item,
) -> Result<Walker, BindFault>
    requires ready { Ready parts.modules.now parts.numbers.now parts.outlines.now (parts.known.now ++ parts.library.now) parts.cells.now }
    requires own { slice_get parts.modules.now walker.frame.number ≡ Some own.module.now }
    requires own_outline { Outlines (module_view own.module.now) own.outline.now }
    requires item { slice_get own.module.now.items walker.frame.item ≡ Some item.now }
    requires plain { item_module (plain_parts parts.modules.now (parts.known.now ++ parts.library.now)) (item_view item.now) ≡ None }
    ensures { Begins (plain_parts parts.entry.modules.now (parts.entry.known.now ++ parts.entry.library.now)) (state_of walker.netlist) (rest_of (plain_parts parts.entry.modules.now (parts.entry.known.now ++ parts.entry.library.now)) walker) result }
{
    let Walker {
        netlist,
        frame,
        outer,
    } = walker;
    let netlist = add_plain(netlist, parts, &frame, &own.outline.names, item)?;
    let frame = behind_item(frame)?;
    Ok(Walker {
        netlist,
        frame,
        outer,
    })
}

// Goes on with an item.
fn go_on(
    parts: Parts<'_>,
    walker: Walker,
    own: Outlined<'_>,
    item: &Item,
) -> Result<Walker, BindFault>
    requires ready { Ready parts.modules.now parts.numbers.now parts.outlines.now (parts.known.now ++ parts.library.now) parts.cells.now }
    requires own { slice_get parts.modules.now walker.frame.number ≡ Some own.module.now }
    requires own_outline { Outlines (module_view own.module.now) own.outline.now }
    requires item { slice_get own.module.now.items walker.frame.item ≡ Some item.now }
    ensures { Begins (plain_parts parts.entry.modules.now (parts.entry.known.now ++ parts.entry.library.now)) (state_of walker.netlist) (rest_of (plain_parts parts.entry.modules.now (parts.entry.known.now ++ parts.entry.library.now)) walker) result }
{
    match item {
        Item::Declare { .. } => stay(parts, walker, own, item),
        Item::Assign { .. } => stay(parts, walker, own, item),
        Item::Instance {
            cell,
            name,
            pins,
            ..
        } => match parts.numbers.find(cell.as_slice()) {
            Some(number) => go_inside(parts, walker, own, number, cell, name, pins.as_slice()),
            None => stay(parts, walker, own, item),
        },
    }
}

// The connections of an instance.
fn pins_of(item: &Item) -> &[Connection]
    ensures { map pin_view result.now ≡ plain_pins (item_view item.now) }
{
    match item {
        Item::Declare { .. } => &[],
        Item::Assign { .. } => &[],
        Item::Instance { pins, .. } => pins.as_slice(),
    }
}

// The item of a number.
fn item_at(items: &[Item], number: usize) -> Option<&Item>
    ensures { option_map (λ i. i.now) result ≡ slice_get items.now number }
{
    items.get(number)
}

// Adds what an instance gives behind the walk inside it.
fn add_outside(
    netlist: Netlist,
    parts: Parts<'_>,
    inner: &Frame,
    frame: &Frame,
) -> Result<Netlist, Memory>
    requires { Ready parts.modules.now parts.numbers.now parts.outlines.now (parts.known.now ++ parts.library.now) parts.cells.now }
    ensures { IfOk result (λ t. state_of t ≡ after (state_of netlist) (behind (plain_parts parts.entry.modules.now (parts.entry.known.now ++ parts.entry.library.now)) inner.now frame.now)) }
{
    let Some(inside) = outlined(parts, inner.number) else {
        return Err(Memory);
    };
    let Some(own) = outlined(parts, frame.number) else {
        return Err(Memory);
    };
    match item_at(own.module.items.as_slice(), frame.item) {
        Some(item) => {
            let wires = Wires {
                pins: pins_of(item),
                scope: &own.outline.names,
                base: frame.base,
            };
            add_behind(netlist, inside, inner.base, wires)
        }
        None => Err(Memory),
    }
}

// Goes on behind a module whose items are done.
fn go_outside(parts: Parts<'_>, walker: Walker, own: Outlined<'_>) -> Result<Step, BindFault>
    requires ready { Ready parts.modules.now parts.numbers.now parts.outlines.now (parts.known.now ++ parts.library.now) parts.cells.now }
    requires own { slice_get parts.modules.now walker.frame.number ≡ Some own.module.now }
    requires done { slice_get own.module.now.items walker.frame.item ≡ None }
    ensures { Steps (plain_parts parts.entry.modules.now (parts.entry.known.now ++ parts.entry.library.now)) (state_of walker.netlist) (rest_of (plain_parts parts.entry.modules.now (parts.entry.known.now ++ parts.entry.library.now)) walker) result }
{
    let Walker {
        netlist,
        frame,
        outer,
    } = walker;
    match popped(outer) {
        Some(popped) => {
            let netlist = add_outside(netlist, parts, &frame, &popped.frame)?;
            let frame = behind_item(popped.frame)?;
            Ok(Step::On(Walker {
                netlist,
                frame,
                outer: popped.outer,
            }))
        }
        None => Ok(Step::Done(netlist)),
    }
}

// One step of a walk: the item at which it stands, or the end of a module.
fn step(parts: Parts<'_>, walker: Walker) -> Result<Step, BindFault>
    requires ready { Ready parts.modules.now parts.numbers.now parts.outlines.now (parts.known.now ++ parts.library.now) parts.cells.now }
    ensures { Steps (plain_parts parts.entry.modules.now (parts.entry.known.now ++ parts.entry.library.now)) (state_of walker.netlist) (rest_of (plain_parts parts.entry.modules.now (parts.entry.known.now ++ parts.entry.library.now)) walker) result }
{
    let Some(own) = outlined(parts, walker.frame.number) else {
        return Err(BindFault::Memory);
    };
    match own.module.items.as_slice().get(walker.frame.item) {
        Some(item) => Ok(Step::On(go_on(parts, walker, own, item)?)),
        None => go_outside(parts, walker, own),
    }
}

// Walks to the end.
fn run(parts: Parts<'_>, walker: Walker) -> Result<Netlist, BindFault>
    requires ready { Ready parts.modules.now parts.numbers.now parts.outlines.now (parts.known.now ++ parts.library.now) parts.cells.now }
    ensures { Gives (state_of walker.netlist) (rest_of (plain_parts parts.entry.modules.now (parts.entry.known.now ++ parts.entry.library.now)) walker) result }
{
    let mut walker = walker;
    for turn in 0..u64::MAX {
        match step(parts, walker)? {
            Step::On(next) => walker = next,
            Step::Done(netlist) => return Ok(netlist),
        }
    }
    Err(BindFault::Memory)
}

/// The walk over a design from its top module on.
pub(crate) fn walk(
    alloc: Global,
    parts: Parts<'_>,
    top: usize,
    own: Outlined<'_>,
) -> Result<Netlist, BindFault>
    requires ready { Ready parts.modules.now parts.numbers.now parts.outlines.now (parts.known.now ++ parts.library.now) parts.cells.now }
    requires own { slice_get parts.modules.now top ≡ Some own.module.now }
    requires own_outline { Outlines (module_view own.module.now) own.outline.now }
    ensures { Gives nothing (design_events (plain_parts parts.entry.modules.now (parts.entry.known.now ++ parts.entry.library.now)) top) result }
{
    let prefix = List::new(alloc);
    let netlist = enter(empty_netlist(alloc), &prefix, own.outline.wides.as_slice())?;
    let frame = Frame {
        number: top,
        item: 0,
        base: 0,
        prefix,
    };
    let outer = Vec::new(alloc);
    run(
        parts,
        Walker {
            netlist,
            frame,
            outer,
        },
    )
}
