//! Checks of a plain net. Each answers what a function on lists says.

ghost use Rattle.std.specs.Prelude.{◌≡◌, ◌<◌, ◌↔◌, ℕ, List, [], IsTrue, IfOk, length, slice_index, slice_index_or};
ghost use Rattle.std.specs.List.{list_all, list_any};
ghost use Rattle.std.specs.Str.{bytes_eq};
ghost use Rattle.agm_net.specs.Formula.{formula_of};
ghost use Rattle.agm_net.specs.PlainForm.{PortNamesAreBits};
ghost use Rattle.agm_net.specs.Writable.{is_graphic as graphic};
ghost use Rattle.agm_net.specs.Checks as spec;

use crate::checks::count_bits;
use crate::{Equation, Expr, Port, Range, Register};
use agm_bits::{Memory, Name};
use name_table::Names;
use std::alloc::Global;

const MOST_IN_RANGE: u32 = 65_535;

// Whether an expression is a wire.
fn is_wire(expr: &Expr) -> bool
    ensures { result ≡ spec.is_wire (formula_of expr.now) }
{
    matches!(expr, Expr::Wire(_))
}

// Whether an expression is this wire.
fn is_this_wire(q: usize, expr: &Expr) -> bool
    ensures { result ≡ spec.is_this_wire q (formula_of expr.now) }
{
    match expr {
        Expr::Wire(wire) => *wire == q,
        _ => false,
    }
}

// Whether an expression is a constant, a wire, or one operator over wires.
fn is_one_operator(expr: &Expr) -> bool
    ensures { result ≡ spec.is_one_operator (formula_of expr.now) }
{
    match expr {
        Expr::Zero | Expr::One | Expr::Wire(_) => true,
        Expr::Not(x) => is_wire(x),
        Expr::And(x, y) | Expr::Or(x, y) | Expr::Xor(x, y) => is_wire(x) && is_wire(y),
        Expr::Mux { select, low, high } => is_wire(select) && (is_wire(low) && is_wire(high)),
    }
}

// Whether a next expression is a wire, or a choice between wires that keeps the register's output.
fn is_next_of(q: usize, next: &Expr) -> bool
    ensures { result ≡ spec.is_next_of q (formula_of next.now) }
{
    match next {
        Expr::Wire(_) => true,
        Expr::Mux { select, low, high } => {
            is_wire(select) && (is_this_wire(q, low) && is_wire(high))
        }
        _ => false,
    }
}

// Whether a byte is seen: 33 to 126.
fn is_graphic(b: u8) -> bool
    ensures { result ≡ graphic b }
{
    33 <= b && b <= 126
}

// Whether each byte is seen.
fn are_graphic(bytes: &[u8]) -> bool
    ensures { result ≡ list_all graphic bytes.now }
{
    bytes.iter().all(|b| is_graphic(*b))
}

// Whether a name can be written.
fn is_writable(name: &[u8]) -> bool
    ensures { result ≡ spec.is_writable name.now }
{
    !name.is_empty() && are_graphic(name)
}

// Whether the numbers of a range are small enough.
fn does_range_fit(range: Option<Range>) -> bool
    ensures { result ≡ spec.range_fits range }
{
    match range {
        Some(range) => range.msb <= MOST_IN_RANGE && range.lsb <= MOST_IN_RANGE,
        None => true,
    }
}

// Whether a port's name can be written and its range fits.
fn is_plain_port(port: &Port) -> bool
    ensures { result ≡ spec.is_plain_port port.now }
{
    is_writable(port.name.as_slice()) && does_range_fit(port.range)
}

// Whether each equation is a constant, a wire, or one operator over wires.
fn are_one_operator(equations: &[Equation]) -> bool
    ensures { result ≡ list_all (λ e. spec.is_one_operator (formula_of e.expr)) equations.now }
{
    equations.iter().all(|e| is_one_operator(&e.expr))
}

// Whether each next expression is a wire, or a choice between wires that keeps the register's output.
fn are_next(registers: &[Register]) -> bool
    ensures { result ≡ list_all (λ r. spec.is_next_of r.q (formula_of r.next)) registers.now }
{
    registers.iter().all(|r| is_next_of(r.q, &r.next))
}

// Whether the names of ports can be written and their ranges fit.
fn are_plain_ports(ports: &[Port]) -> bool
    ensures { result ≡ list_all spec.is_plain_port ports.now }
{
    ports.iter().all(|p| is_plain_port(p))
}

// Whether names can be written.
fn are_writable(names: &[Name]) -> bool
    ensures { result ≡ list_all spec.is_writable names.now }
{
    names.iter().all(|n| is_writable(n.as_slice()))
}

/// Whether a net's parts are plain, apart from wires that have the names of ports.
pub fn are_parts_plain(
    ports: &[Port],
    wires: &[Name],
    equations: &[Equation],
    registers: &[Register],
) -> bool
    ensures { result ≡ spec.parts_plain ports.now wires.now equations.now registers.now }
{
    are_one_operator(equations)
        && (are_next(registers) && (are_plain_ports(ports) && are_writable(wires)))
}

// The names of ports, each once.
fn port_names(alloc: Global, ports: &[Port]) -> Result<Names, Memory>
    ensures { IfOk result (λ names. (name : List ℕ) → list_any (λ n. bytes_eq n name) names ≡ list_any (λ p. bytes_eq p.name name) ports.now) }
{
    let mut names = Names::new(alloc);
    for port in ports {
        names.add(port.name.as_slice())?;
    }
    Ok(names)
}

// Whether a wire has another name than these, or is counted.
fn is_other_or_counted(names: &Names, name: &[u8], count: u8) -> bool
    ensures { result ≡ spec.is_other_or_counted names.now name.now count }
{
    count > 0 || names.find(name).is_none()
}

// Whether each wire has another name than these, or is counted.
fn are_others_or_counted(names: &Names, wires: &[Name], counts: &[u8]) -> bool
    requires { length counts.now ≡ length wires.now }
    ensures { IsTrue result ↔ ((w : ℕ) → w < length wires.now → IsTrue (spec.is_other_or_counted names.now (slice_index_or wires.now w []) (slice_index counts.now w))) }
{
    for (wire, name) in wires.iter().enumerate() {
        if !is_other_or_counted(names, name.as_slice(), counts[wire]) {
            return false;
        }
    }
    true
}

/// Whether each wire that has the name of a port is a bit of some port.
pub fn are_port_names_bits(alloc: Global, ports: &[Port], wires: &[Name]) -> Result<bool, Memory>
    ensures { IfOk result (λ b. IsTrue b ↔ PortNamesAreBits ports.now wires.now) }
{
    let counts = count_bits(alloc, wires.len(), ports)?;
    let names = port_names(alloc, ports)?;
    Ok(are_others_or_counted(&names, wires, counts.as_slice()))
}
