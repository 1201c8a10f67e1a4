//! Declarations, assigns and instances of a net.

ghost use Rattle.std.specs.Prelude.{◌≡◌, ◌∷◌, ◌++◌, [], IfOk, OnOk, map, slice_get, slice_index_or};
ghost use Rattle.agm_net.specs.Plain.{line_of, stored_of};
ghost use Rattle.agm_net.specs.View.{plain_of};
ghost use Rattle.net_design.specs.Bits as bits;
ghost use Rattle.net_design.specs.Design as spec;
ghost use Rattle.net_design.specs.declared.cells.Cell.TheVariants as cell;
ghost use Rattle.net_design.specs.declared.cells.Next.TheVariants as next;
ghost use Rattle.net_design.specs.Sites.{name_of};
ghost use Rattle.verilog_reader.specs.Plain.{assign, constant as constant_form, instance as an_instance};
ghost use Rattle.verilog_reader.specs.View.{form_view, item_view, pin_view};

use crate::cells::{Cell, Next, cell_of, next_of};
use crate::names::instance_name;
use crate::sites::{Site, site_at};
use agm_bits::{List, Memory, Name};
use agm_net::{Equation, Net, Port, Register};
use std::alloc::Global;
use verilog_reader::{Connection, Form, Item};

// The name of a port, from its number.
fn port_name(alloc: Global, ports: &[Port], number: usize) -> Result<Name, Memory>
    ensures { IfOk result (λ name. name ≡ name_of (slice_get ports.now number)) }
{
    match ports.get(number) {
        Some(port) => Name::from_slice(alloc, port.name.as_slice()),
        None => Ok(Name::new(alloc)),
    }
}

// The name of a wire.
fn wire_name(alloc: Global, wires: &[Name], wire: usize) -> Result<Name, Memory>
    ensures { IfOk result (λ name. name ≡ slice_index_or wires.now wire []) }
{
    match wires.get(wire) {
        Some(name) => Name::from_slice(alloc, name.as_slice()),
        None => Ok(Name::new(alloc)),
    }
}

// A name, or a bit of a name with a range.
fn form_at(name: Name, index: Option<u32>) -> Form
    ensures { form_view result ≡ bits.form_at name index }
{
    match index {
        Some(k) => Form::Bit(name, k),
        None => Form::Whole(name),
    }
}

// The form of a wire: a bit of a port, or the wire's name.
fn form(alloc: Global, net: &Net, sites: &[Option<Site>], wire: usize) -> Result<Form, Memory>
    ensures { IfOk result (λ f. form_view f ≡ spec.form_of (plain_of net.now) sites.now wire) }
{
    match site_at(sites, wire) {
        Some(site) => {
            let name = port_name(alloc, net.ports.as_slice(), site.port)?;
            Ok(form_at(name, site.index))
        }
        None => Ok(Form::Whole(wire_name(alloc, net.wires.as_slice(), wire)?)),
    }
}

// The form of a constant.
fn constant(alloc: Global, value: bool) -> Result<Form, Memory>
    ensures { IfOk result (λ f. form_view f ≡ constant_form (value ∷ [])) }
{
    let mut bits = List::new(alloc);
    bits.push(value)?;
    Ok(Form::Constant(bits))
}

// Puts a wire at a pin behind others.
fn connect(
    alloc: Global,
    pins: &mut List<Connection>,
    pin: &[u8],
    net: &Net,
    sites: &[Option<Site>],
    wire: usize,
) -> Result<(), Memory>
    ensures { OnOk result (map pin_view pins.new ≡ map pin_view pins.old ++ spec.pin pin.now (spec.form_of (plain_of net.now) sites.now wire) ∷ []) }
{
    let pin = Name::from_slice(alloc, pin)?;
    let form = Some(form(alloc, net, sites, wire)?);
    pins.push(Connection { pin, form })
}

// An instance, from its number.
fn placed(
    alloc: Global,
    cell: &[u8],
    margin: usize,
    number: usize,
    pins: List<Connection>,
) -> Result<Item, Memory>
    ensures { IfOk result (λ i. item_view i ≡ an_instance [] cell.now (spec.instance_name margin number) (map pin_view pins)) }
{
    let name = instance_name(alloc, margin, number)?;
    let cell = Name::from_slice(alloc, cell)?;
    Ok(Item::Instance {
        attributes: List::new(alloc),
        cell,
        name,
        pins,
    })
}

// The assign of a form to a wire.
fn assigned(
    alloc: Global,
    net: &Net,
    sites: &[Option<Site>],
    wire: usize,
    right: Form,
) -> Result<Item, Memory>
    ensures { IfOk result (λ i. item_view i ≡ assign [] (spec.form_of (plain_of net.now) sites.now wire) (form_view right)) }
{
    let left = form(alloc, net, sites, wire)?;
    Ok(Item::Assign {
        attributes: List::new(alloc),
        left,
        right,
    })
}

// The inverter of a number, with its input and its output.
fn inverter(
    alloc: Global,
    net: &Net,
    sites: &[Option<Site>],
    margin: usize,
    number: usize,
    a: usize,
    y: usize,
) -> Result<Item, Memory>
    ensures { IfOk result (λ i. item_view i ≡ spec.cell_item (spec.form_of (plain_of net.now) sites.now) margin number y (cell.Not a)) }
{
    let mut pins = List::new(alloc);
    connect(alloc, &mut pins, b"A", net, sites, a)?;
    connect(alloc, &mut pins, b"Y", net, sites, y)?;
    placed(alloc, b"AGM_NOT", margin, number, pins)
}

// An instance of two inputs and an output.
fn two_inputs(
    alloc: Global,
    net: &Net,
    sites: &[Option<Site>],
    word: &[u8],
    margin: usize,
    number: usize,
    inputs: (usize, usize),
    y: usize,
) -> Result<Item, Memory>
    ensures { IfOk result (λ i. item_view i ≡ spec.two_inputs word.now (spec.instance_name margin number) (spec.form_of (plain_of net.now) sites.now inputs.0) (spec.form_of (plain_of net.now) sites.now inputs.1) (spec.form_of (plain_of net.now) sites.now y)) }
{
    let mut pins = List::new(alloc);
    connect(alloc, &mut pins, b"A", net, sites, inputs.0)?;
    connect(alloc, &mut pins, b"B", net, sites, inputs.1)?;
    connect(alloc, &mut pins, b"Y", net, sites, y)?;
    placed(alloc, word, margin, number, pins)
}

// The instance that chooses the second input where the select is 1, else the first.
fn choice(
    alloc: Global,
    net: &Net,
    sites: &[Option<Site>],
    margin: usize,
    number: usize,
    select: usize,
    inputs: (usize, usize),
    y: usize,
) -> Result<Item, Memory>
    ensures { IfOk result (λ i. item_view i ≡ spec.cell_item (spec.form_of (plain_of net.now) sites.now) margin number y (cell.Mux select inputs.0 inputs.1)) }
{
    let mut pins = List::new(alloc);
    connect(alloc, &mut pins, b"A", net, sites, inputs.0)?;
    connect(alloc, &mut pins, b"B", net, sites, inputs.1)?;
    connect(alloc, &mut pins, b"S", net, sites, select)?;
    connect(alloc, &mut pins, b"Y", net, sites, y)?;
    placed(alloc, b"AGM_MUX2", margin, number, pins)
}

// What states an equation of a cell.
fn cell_item(
    alloc: Global,
    net: &Net,
    sites: &[Option<Site>],
    margin: usize,
    number: usize,
    y: usize,
    cell: Cell,
) -> Result<Item, Memory>
    ensures { IfOk result (λ i. item_view i ≡ spec.cell_item (spec.form_of (plain_of net.now) sites.now) margin number y cell) }
{
    match cell {
        Cell::Constant(value) => assigned(alloc, net, sites, y, constant(alloc, value)?),
        Cell::Wire(a) => assigned(alloc, net, sites, y, form(alloc, net, sites, a)?),
        Cell::Not(a) => inverter(alloc, net, sites, margin, number, a, y),
        Cell::And(a, b) => { two_inputs(alloc, net, sites, b"AGM_AND2", margin, number, (a, b), y) }
        Cell::Or(a, b) => two_inputs(alloc, net, sites, b"AGM_OR2", margin, number, (a, b), y),
        Cell::Xor(a, b) => { two_inputs(alloc, net, sites, b"AGM_XOR2", margin, number, (a, b), y) }
        Cell::Mux(s, a, b) => choice(alloc, net, sites, margin, number, s, (a, b), y),
        Cell::Other => assigned(alloc, net, sites, y, constant(alloc, false)?),
    }
}

/// What states an equation, from its number.
pub(crate) fn line_item(
    alloc: Global,
    net: &Net,
    sites: &[Option<Site>],
    margin: usize,
    number: usize,
    equation: &Equation,
) -> Result<Item, Memory>
    ensures { IfOk result (λ i. item_view i ≡ spec.line_item (spec.form_of (plain_of net.now) sites.now) margin (number, line_of equation.now)) }
{
    let cell = cell_of(&equation.expr);
    cell_item(alloc, net, sites, margin, number, equation.wire, cell)
}

// The register that stores a wire in each cycle.
fn register(
    alloc: Global,
    net: &Net,
    sites: &[Option<Site>],
    margin: usize,
    number: usize,
    clock: usize,
    d: usize,
    q: usize,
) -> Result<Item, Memory>
    ensures { IfOk result (λ i. item_view i ≡ spec.next_item (spec.form_of (plain_of net.now) sites.now) margin number clock q (next.Wire d)) }
{
    let mut pins = List::new(alloc);
    connect(alloc, &mut pins, b"C", net, sites, clock)?;
    connect(alloc, &mut pins, b"D", net, sites, d)?;
    connect(alloc, &mut pins, b"Q", net, sites, q)?;
    placed(alloc, b"AGM_DFF", margin, number, pins)
}

// The register that stores a wire where another is 1.
fn enabled_register(
    alloc: Global,
    net: &Net,
    sites: &[Option<Site>],
    margin: usize,
    number: usize,
    clock: usize,
    stored: (usize, usize),
    q: usize,
) -> Result<Item, Memory>
    ensures { IfOk result (λ i. item_view i ≡ spec.next_item (spec.form_of (plain_of net.now) sites.now) margin number clock q (next.Enabled stored.0 stored.1)) }
{
    let mut pins = List::new(alloc);
    connect(alloc, &mut pins, b"C", net, sites, clock)?;
    connect(alloc, &mut pins, b"D", net, sites, stored.1)?;
    connect(alloc, &mut pins, b"E", net, sites, stored.0)?;
    connect(alloc, &mut pins, b"Q", net, sites, q)?;
    placed(alloc, b"AGM_DFFE", margin, number, pins)
}

/// What states a register, from its number.
pub(crate) fn register_item(
    alloc: Global,
    net: &Net,
    sites: &[Option<Site>],
    margin: usize,
    number: usize,
    stored: &Register,
) -> Result<Item, Memory>
    ensures { IfOk result (λ i. item_view i ≡ spec.register_item (spec.form_of (plain_of net.now) sites.now) margin (number, stored_of stored.now)) }
{
    match next_of(&stored.next) {
        Next::Wire(d) => register(alloc, net, sites, margin, number, stored.clock, d, stored.q),
        Next::Enabled(e, d) => {
            enabled_register(
                alloc,
                net,
                sites,
                margin,
                number,
                stored.clock,
                (e, d),
                stored.q,
            )
        }
        Next::Other => assigned(alloc, net, sites, stored.q, constant(alloc, false)?),
    }
}
