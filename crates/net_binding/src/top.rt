ghost use Rattle.std.specs.Prelude.{◌≡◌, ◌++◌, None, map, slice_get, slice_index_or, [], IfOk};
ghost use Rattle.cell_library.specs.Spelled.{cell_of};
ghost use Rattle.verilog_reader.specs.View.{design_view, module_view};
ghost use Rattle.top_module.specs.Top.{candidates as candidates_of};
ghost use Rattle.wire_drivers.specs.View.{wiring};
ghost use Rattle.wire_drivers.specs.Wiring as wires_spec;
ghost use Rattle.net_binding.specs.Bound.{Answers, bound, parts_of, top_outcome, module_outcome, wire_outcome, pin_outcome, fault_of as plain_fault};
ghost use Rattle.bound_items.specs.declared.fault.BindFault.TheVariants as faults;
ghost use Rattle.module_rules.specs.Rules.{first_repeated};
ghost use Rattle.net_binding.specs.Walk.{module_name};
ghost use Rattle.net_binding.specs.Ready.{Ready, plain_parts};

use crate::parts::{Parts, numbers_of, outlined, outlines_of};
use crate::ports::ports_of;
use crate::steps::walk;
use agm_bits::{List, Memory, Name};
use agm_net::{Net, Port};
use bound_items::{BindFault, Netlist, Pin};
use cell_faces::{cells_of, known_cells};
use cell_library::Library;
use module_rules::{NameFault, check_modules};
use std::alloc::Global;
use top_module::{TopFault, find_clock, find_top};
use verilog_reader::{Design, Module};
use wire_drivers::{Flop, Line, Wrong, first_wrong, kept_net};

// The fault of a wire with a wrong number of drivers.
fn wrong_wire(alloc: Global, wires: &[Name], wrong: Wrong) -> Result<BindFault, Memory>
    ensures { IfOk result (λ f. f ≡ faults.Driven (slice_index_or wires.now wrong.wire []) wrong.drivers) }
{
    let wire = match wires.get(wrong.wire) {
        Some(name) => Name::from_slice(alloc, name.as_slice())?,
        None => List::new(alloc),
    };
    Ok(BindFault::Driven {
        wire,
        drivers: wrong.drivers,
    })
}

// The net of wires of which none is wrong, unless a pin is.
fn net_of(
    alloc: Global,
    ports: &[Port],
    wires: &[Name],
    lines: &[Line],
    flops: &[Flop],
    clock: Option<usize>,
    pin: Option<Pin>,
) -> Result<Net, BindFault>
    ensures { Answers (pin_outcome (wires_spec.kept_net (wiring ports.now wires.now lines.now flops.now) clock) pin) result }
{
    match pin {
        Some(pin) => Err(BindFault::Driven {
            wire: pin.name,
            drivers: pin.drivers,
        }),
        None => Ok(kept_net(alloc, ports, wires, lines, flops, clock)?),
    }
}

// The net of wires, or the first wire or pin that is wrong.
fn checked_net(
    alloc: Global,
    ports: &[Port],
    netlist: Netlist,
    clock: Option<usize>,
) -> Result<Net, BindFault>
    ensures { Answers (wire_outcome (wiring ports.now netlist.wires netlist.lines netlist.flops) clock netlist.pin (wires_spec.first_wrong (wiring ports.now netlist.wires netlist.lines netlist.flops))) result }
{
    let pin = netlist.pin;
    let wires = netlist.wires.as_slice();
    let lines = netlist.lines.as_slice();
    let flops = netlist.flops.as_slice();
    match first_wrong(alloc, ports, wires, lines, flops)? {
        Some(wrong) => Err(wrong_wire(alloc, wires, wrong)?),
        None => net_of(alloc, ports, wires, lines, flops, clock, pin),
    }
}

// The net of a design with this top module.
fn bind_walk(alloc: Global, parts: Parts<'_>, top: usize) -> Result<Net, BindFault>
    requires { Ready parts.modules.now parts.numbers.now parts.outlines.now (parts.known.now ++ parts.library.now) parts.cells.now }
    ensures { Answers (module_outcome (plain_parts parts.entry.modules.now (parts.entry.known.now ++ parts.entry.library.now)) top (slice_get (map module_view parts.entry.modules.now) top)) result }
{
    let Some(own) = outlined(parts, top) else {
        return Err(BindFault::Memory);
    };
    let netlist = walk(alloc, parts, top, own)?;
    let clock = find_clock(alloc, own.module)?;
    let ports = ports_of(alloc, own.outline)?;
    checked_net(alloc, ports.as_slice(), netlist, clock)
}

// The same, from the modules on.
fn bind_top(
    alloc: Global,
    library: &Library,
    modules: &[Module],
    top: usize,
) -> Result<Net, BindFault>
    requires { first_repeated [] (map module_name (map module_view modules.now)) ≡ None }
    ensures { Answers (module_outcome (parts_of (map cell_of library.now.cells) (map module_view modules.now)) top (slice_get (map module_view modules.now) top)) result }
{
    let known = known_cells(alloc)?;
    let cells = cells_of(alloc, known.as_slice(), library.cells.as_slice())?;
    let numbers = numbers_of(alloc, modules)?;
    let outlines = outlines_of(alloc, modules)?;
    let parts = Parts {
        modules,
        numbers: &numbers,
        outlines: outlines.as_slice(),
        known: known.as_slice(),
        library: library.cells.as_slice(),
        cells: &cells,
    };
    bind_walk(alloc, parts, top)
}

// The net of a design whose names break no rule.
fn bind_named(alloc: Global, library: &Library, design: &Design) -> Result<Net, BindFault>
    requires { first_repeated [] (map module_name (design_view design.now)) ≡ None }
    ensures { Answers (top_outcome (parts_of (map cell_of library.now.cells) (design_view design.now)) (candidates_of (design_view design.now))) result }
{
    match find_top(alloc, design) {
        Ok(top) => bind_top(alloc, library, design.modules.as_slice(), top),
        Err(TopFault::Candidates(candidates)) => Err(BindFault::Top { candidates }),
        Err(TopFault::Memory) => Err(BindFault::Memory),
    }
}

// A fault of a name as one of binding.
fn fault_of(fault: NameFault) -> BindFault
    ensures { result ≡ plain_fault fault }
{
    match fault {
        NameFault::Clash(name) => BindFault::Clash { name },
        NameFault::UnknownWire(name) => BindFault::UnknownWire { name },
    }
}

/// The net that a design binds to over the cells of a library, or the first rule that the design breaks.
///
/// Takes near linear time in the design as it is with a copy of each module for each of its instances, and for each instance of a module
/// time in its depth.
///
/// # Errors
///
/// The variants of `BindFault`, each exactly where that is the first rule that is broken; `Memory` where memory runs out.
pub fn bind(alloc: Global, library: &Library, design: &Design) -> Result<Net, BindFault>
    ensures { Answers (bound (map cell_of library.now.cells) (design_view design.now)) result }
{
    match check_modules(alloc, library, design)? {
        Some(fault) => Err(fault_of(fault)),
        None => bind_named(alloc, library, design),
    }
}
