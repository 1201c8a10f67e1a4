ghost use Rattle.std.specs.Prelude.{◌≡◌, ◌<◌, ◌+◌, ◌-◌, ◌^◌, ◌++◌, map, length, cond, nat_lt, slice_index, IfOk, OnOk};
ghost use Rattle.std.specs.List.{flat_map, range_with_len};
ghost use Rattle.agm_net.specs.Formula.{formula_of};
ghost use Rattle.agm_net.specs.Plain.{line_of, stored_of};
ghost use Rattle.agm_net.specs.Renumbered.{renumbered, renumbered_port};
ghost use Rattle.agm_net.specs.View.{plain_of};
ghost use Rattle.wire_drivers.specs.Wiring as spec;
ghost use Rattle.wire_drivers.specs.View.{line_view, flop_view, wiring};
ghost use Rattle.wire_drivers.specs.Counted.{numbers_at, name_at};

use crate::count::count_drivers;
use crate::{Flop, Line};
use agm_bits::{List, Memory, Name};
use agm_net::{Equation, Expr, Net, Port, Register};
use form_bits::Bit;
use std::alloc::Global;

// The number of the next wire that is kept, behind one with so many drivers.
fn number_behind(number: usize, drivers: usize) -> usize
    requires { number < 2 ^ 64 - 1 }
    ensures { result ≡ number + cond (nat_lt 0 drivers) 1 0 }
{
    if drivers > 0 { number + 1 } else { number }
}

// The numbers of the wires among those that have a driver.
fn numbers_of(alloc: Global, drivers: &[usize]) -> Result<Vec<usize>, Memory>
    ensures { IfOk result (λ v. v.items ≡ numbers_at drivers.now (length drivers.now)) }
{
    let mut numbers = Vec::new(alloc);
    let mut next = 0usize;
    for wire in 0..drivers.len() {
        numbers.push(next)?;
        next = number_behind(next, drivers[wire]);
    }
    Ok(numbers)
}

// Adds the name of a wire that has a driver.
fn push_name(
    alloc: Global,
    drivers: &[usize],
    wires: &[Name],
    wire: usize,
    names: &mut List<Name>,
) -> Result<(), Memory>
    requires within { wire < length wires.now }
    requires long { length drivers.now ≡ length wires.now }
    ensures { OnOk result (names.new ≡ names.old ++ name_at drivers.now wires.now wire) }
{
    if drivers[wire] > 0 {
        let name = Name::from_slice(alloc, wires[wire].as_slice())?;
        names.push(name)?;
    }
    Ok(())
}

// The names of the wires that have a driver.
fn names_of(alloc: Global, drivers: &[usize], wires: &[Name]) -> Result<List<Name>, Memory>
    requires { length drivers.now ≡ length wires.now }
    ensures { IfOk result (λ names. names ≡ flat_map (name_at drivers.now wires.now) (range_with_len 0 (length wires.now))) }
{
    let mut names = List::new(alloc);
    for wire in 0..wires.len() {
        push_name(alloc, drivers, wires, wire, &mut names)?;
    }
    Ok(names)
}

// The new number of a wire.
fn number_of(numbers: &[usize], wire: usize) -> Result<usize, Memory>
    ensures { IfOk result (λ n. n ≡ slice_index numbers.now wire) }
{
    if wire < numbers.len() {
        Ok(numbers[wire])
    } else {
        Err(Memory)
    }
}

// An expression with the new numbers of its wires.
fn expr_of(alloc: Global, numbers: &[usize], expr: &Expr) -> Result<Expr, Memory>
    ensures { IfOk result (λ e. formula_of e ≡ renumbered (λ w. slice_index numbers.now w) (formula_of expr.now)) }
{
    match expr {
        Expr::Zero => Ok(Expr::Zero),
        Expr::One => Ok(Expr::One),
        Expr::Wire(w) => Ok(Expr::Wire(number_of(numbers, *w)?)),
        Expr::Not(x) => {
            let x = Box::new(alloc, expr_of(alloc, numbers, x)?)?;
            Ok(Expr::Not(x))
        }
        Expr::And(x, y) => {
            let x = Box::new(alloc, expr_of(alloc, numbers, x)?)?;
            let y = Box::new(alloc, expr_of(alloc, numbers, y)?)?;
            Ok(Expr::And(x, y))
        }
        Expr::Or(x, y) => {
            let x = Box::new(alloc, expr_of(alloc, numbers, x)?)?;
            let y = Box::new(alloc, expr_of(alloc, numbers, y)?)?;
            Ok(Expr::Or(x, y))
        }
        Expr::Xor(x, y) => {
            let x = Box::new(alloc, expr_of(alloc, numbers, x)?)?;
            let y = Box::new(alloc, expr_of(alloc, numbers, y)?)?;
            Ok(Expr::Xor(x, y))
        }
        Expr::Mux { select, low, high } => {
            let select = Box::new(alloc, expr_of(alloc, numbers, select)?)?;
            let low = Box::new(alloc, expr_of(alloc, numbers, low)?)?;
            let high = Box::new(alloc, expr_of(alloc, numbers, high)?)?;
            Ok(Expr::Mux { select, low, high })
        }
    }
}

// The wires of a list, with their new numbers.
fn bits_of(alloc: Global, numbers: &[usize], bits: &[usize]) -> Result<List<usize>, Memory>
    ensures { IfOk result (λ out. out ≡ map (λ w. slice_index numbers.now w) bits.now) }
{
    let mut out = List::new(alloc);
    for bit in bits {
        out.push(number_of(numbers, *bit)?)?;
    }
    Ok(out)
}

// A port, with the new numbers of its bits.
fn port_of(alloc: Global, numbers: &[usize], port: &Port) -> Result<Port, Memory>
    ensures { IfOk result (λ p. p ≡ renumbered_port (λ w. slice_index numbers.now w) port.now) }
{
    let name = Name::from_slice(alloc, port.name.as_slice())?;
    let bits = bits_of(alloc, numbers, port.bits.as_slice())?;
    Ok(Port {
        name,
        way: port.way,
        range: port.range,
        bits,
    })
}

// Ports, with the new numbers of their bits.
fn ports_of(alloc: Global, numbers: &[usize], ports: &[Port]) -> Result<List<Port>, Memory>
    ensures { IfOk result (λ out. out ≡ map (renumbered_port (λ w. slice_index numbers.now w)) ports.now) }
{
    let mut out = List::new(alloc);
    for port in ports {
        let port = port_of(alloc, numbers, port)?;
        out.push(port)?;
    }
    Ok(out)
}

// Adds the equation of a line whose target is a wire.
fn push_equation(
    alloc: Global,
    numbers: &[usize],
    line: &Line,
    out: &mut List<Equation>,
) -> Result<(), Memory>
    ensures { OnOk result (map line_of out.new ≡ map line_of out.old ++ spec.kept_line (λ w. slice_index numbers.now w) (line_view line.now)) }
{
    match line.target {
        Bit::Constant(_) => Ok(()),
        Bit::Wire(wire) => {
            let wire = number_of(numbers, wire)?;
            let expr = expr_of(alloc, numbers, &line.expr)?;
            out.push(Equation { wire, expr })?;
            Ok(())
        }
    }
}

// The equations of lines.
fn equations_of(alloc: Global, numbers: &[usize], lines: &[Line]) -> Result<List<Equation>, Memory>
    ensures { IfOk result (λ out. map line_of out ≡ flat_map (spec.kept_line (λ w. slice_index numbers.now w)) (map line_view lines.now)) }
{
    let mut out = List::new(alloc);
    for line in lines {
        push_equation(alloc, numbers, line, &mut out)?;
    }
    Ok(out)
}

// Adds the register of a flop whose output and clock are wires.
fn push_register(
    alloc: Global,
    numbers: &[usize],
    flop: &Flop,
    out: &mut List<Register>,
) -> Result<(), Memory>
    ensures { OnOk result (map stored_of out.new ≡ map stored_of out.old ++ spec.kept_flop (λ w. slice_index numbers.now w) (flop_view flop.now)) }
{
    match (flop.q, flop.clock) {
        (Bit::Wire(q), Bit::Wire(clock)) => {
            let q = number_of(numbers, q)?;
            let next = expr_of(alloc, numbers, &flop.next)?;
            let clock = number_of(numbers, clock)?;
            out.push(Register { q, next, clock })?;
            Ok(())
        }
        _ => Ok(()),
    }
}

// The registers of flops.
fn registers_of(alloc: Global, numbers: &[usize], flops: &[Flop]) -> Result<List<Register>, Memory>
    ensures { IfOk result (λ out. map stored_of out ≡ flat_map (spec.kept_flop (λ w. slice_index numbers.now w)) (map flop_view flops.now)) }
{
    let mut out = List::new(alloc);
    for flop in flops {
        push_register(alloc, numbers, flop, &mut out)?;
    }
    Ok(out)
}

/// The net of wires of which none is wrong, without those that nothing drives.
///
/// Takes near linear time.
///
/// # Errors
///
/// `Memory` where memory runs out, or where the parts make no net, which the caller knows not to be so.
pub fn kept_net(
    alloc: Global,
    ports: &[Port],
    wires: &[Name],
    lines: &[Line],
    flops: &[Flop],
    clock: Option<usize>,
) -> Result<Net, Memory>
    ensures { IfOk result (λ net. plain_of net ≡ spec.kept_net (wiring ports.now wires.now lines.now flops.now) clock) }
{
    let drivers = count_drivers(alloc, ports, wires, lines, flops)?;
    let names = names_of(alloc, drivers.as_slice(), wires)?;
    let numbers = numbers_of(alloc, drivers.as_slice())?;
    let ports = ports_of(alloc, numbers.as_slice(), ports)?;
    let equations = equations_of(alloc, numbers.as_slice(), lines)?;
    let registers = registers_of(alloc, numbers.as_slice(), flops)?;
    match Net::new(alloc, ports, names, equations, registers, clock) {
        Ok(net) => Ok(net),
        Err(_) => Err(Memory),
    }
}
