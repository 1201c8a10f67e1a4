//! Checks of the parts of a net. Each answers what a function on lists says.

ghost use Rattle.std.specs.Prelude.{◌≡◌, ◌≤◌, ◌<◌, ◌+◌, ◌-◌, ◌&&◌, ◌++◌, ◌∷◌, [], ◌↔◌, IsTrue, IfOk, MatchOption, Option, ℕ, length, map, filter, fold, slice_get, nat_lt, nat_le, if◌then◌else◌};
ghost use Rattle.std.specs.Int.{abs_diff};
ghost use Rattle.std.specs.List.{list_all, flat_map};
ghost use Rattle.std.specs.Option.{option_map_or};
ghost use Rattle.agm_net.specs.Formula.{formula_of, reads_below};
ghost use Rattle.agm_net.specs.Plain.{plain, is_input, bit_names, select_name};
ghost use Rattle.agm_net.specs.WellFormed as well_formed;
ghost use Rattle.agm_net.specs.Checks as spec;

use crate::expr::is_within;
use crate::{Equation, Port, Range, Register, Way};
use agm_bits::{List, Memory, Name};
use name_table::Names;
use std::alloc::Global;

// Whether the wires that equations have and read are below a number.
fn do_equations_fit(equations: &[Equation], n: usize) -> bool
    ensures { result ≡ list_all (λ e. nat_lt e.wire n && reads_below n (formula_of e.expr)) equations.now }
{
    equations
        .iter()
        .all(|e| e.wire < n && is_within(&e.expr, n))
}

// Whether the wires that registers have and read are below a number.
fn do_registers_fit(registers: &[Register], n: usize) -> bool
    ensures { result ≡ list_all (λ r. nat_lt r.q n && (reads_below n (formula_of r.next) && nat_lt r.clock n)) registers.now }
{
    registers
        .iter()
        .all(|r| r.q < n && (is_within(&r.next, n) && r.clock < n))
}

// The first place whose name an earlier place has, or the number of names.
fn first_repeated(alloc: Global, names: &[Name]) -> Result<usize, Memory>
    ensures { IfOk result (spec.IsFirstRepeated names.now) }
{
    let mut table = Names::new(alloc);
    for (i, name) in names.iter().enumerate() {
        if !table.add(name.as_slice())?.is_new {
            return Ok(i);
        }
    }
    Ok(names.len())
}

// The first port whose name an earlier port has, or the number of ports.
fn first_repeated_port(alloc: Global, ports: &[Port]) -> Result<usize, Memory>
    ensures { IfOk result (spec.IsFirstRepeated (map (λ p. p.name) ports.now)) }
{
    let mut table = Names::new(alloc);
    for (i, port) in ports.iter().enumerate() {
        if !table.add(port.name.as_slice())?.is_new {
            return Ok(i);
        }
    }
    Ok(ports.len())
}

// Whether a wire is one and has a name.
fn has_name(wires: &[Name], wire: usize, name: &[u8]) -> bool
    ensures { result ≡ spec.has_name wires.now wire name.now }
{
    match wires.get(wire) {
        Some(own) => own.as_slice() == name,
        None => false,
    }
}

// The name of a bit of a port with a range, as `x[3]`.
fn bit_name(alloc: Global, name: &[u8], number: u32) -> Result<Name, Memory>
    ensures { IfOk result (λ n. n ≡ select_name name.now number) }
{
    let select = format!(in alloc; "[{number}]")?;
    let mut name = Name::from_slice(alloc, name)?;
    name.extend(select.as_bytes())?;
    Ok(name)
}

// The number of a bit of a range.
fn number_at(range: Range, i: usize) -> u32
    requires { i ≤ abs_diff range.msb range.lsb }
    ensures { result ≡ spec.number_at range.msb range.lsb i }
{
    if range.lsb <= range.msb {
        range.msb - i as u32
    } else {
        range.msb + i as u32
    }
}

// Whether the bits of a port with a range are as many as its numbers, and have their names.
fn are_range_bits_named(
    alloc: Global,
    wires: &[Name],
    name: &[u8],
    range: Range,
    bits: &[usize],
) -> Result<bool, Memory>
    ensures { IfOk result (λ b. b ≡ spec.are_named wires.now bits.now (bit_names name.now (Some range))) }
{
    if bits.len() as u64 != u64::from(range.msb.abs_diff(range.lsb)) + 1 {
        return Ok(false);
    }
    for (i, bit) in bits.iter().enumerate() {
        let own = bit_name(alloc, name, number_at(range, i))?;
        if !has_name(wires, *bit, own.as_slice()) {
            return Ok(false);
        }
    }
    Ok(true)
}

// Whether a port without a range has one bit, the wire of its name.
fn is_bit_named(wires: &[Name], name: &[u8], bits: &[usize]) -> bool
    ensures { result ≡ spec.are_named wires.now bits.now (name.now ∷ []) }
{
    if bits.len() != 1 {
        return false;
    }
    has_name(wires, bits[0], name)
}

// Whether a port's bits have their names.
fn is_port_named(alloc: Global, wires: &[Name], port: &Port) -> Result<bool, Memory>
    ensures { IfOk result (λ b. b ≡ spec.is_named wires.now port.now) }
{
    let name = port.name.as_slice();
    let bits = port.bits.as_slice();
    match port.range {
        Some(range) => are_range_bits_named(alloc, wires, name, range, bits),
        None => Ok(is_bit_named(wires, name, bits)),
    }
}

// Whether the bits of all ports have their names.
fn are_ports_named(alloc: Global, wires: &[Name], ports: &[Port]) -> Result<bool, Memory>
    ensures { IfOk result (λ b. b ≡ list_all (spec.is_named wires.now) ports.now) }
{
    for port in ports {
        if !is_port_named(alloc, wires, port)? {
            return Ok(false);
        }
    }
    Ok(true)
}

// Counts one more use of a wire.
fn count_use(counts: &mut [u8], wire: usize)
    ensures { counts.new ≡ spec.counted counts.old wire }
{
    if wire < counts.len() {
        counts[wire] = counts[wire].saturating_add(1);
    }
}

// Counts the wires of a list.
fn count_wires(counts: &mut [u8], wires: &[usize])
    ensures { counts.new ≡ fold spec.counted counts.old wires.now }
{
    for wire in wires {
        count_use(counts, *wire);
    }
}

// Counts the bits of all ports.
fn count_ports(counts: &mut [u8], ports: &[Port])
    ensures { counts.new ≡ fold spec.counted counts.old (spec.port_bits ports.now) }
{
    for port in ports {
        count_wires(counts, port.bits.as_slice());
    }
}

// Counts the bits of the input ports.
fn count_inputs(counts: &mut [u8], ports: &[Port])
    ensures { counts.new ≡ fold spec.counted counts.old (flat_map (λ p. p.bits) (filter is_input ports.now)) }
{
    for port in ports {
        if port.way == Way::Input {
            count_wires(counts, port.bits.as_slice());
        }
    }
}

// Counts the wires of equations.
fn count_equations(counts: &mut [u8], equations: &[Equation])
    ensures { counts.new ≡ fold spec.counted counts.old (map (λ e. e.wire) equations.now) }
{
    for equation in equations {
        count_use(counts, equation.wire);
    }
}

// Counts the outputs of registers.
fn count_registers(counts: &mut [u8], registers: &[Register])
    ensures { counts.new ≡ fold spec.counted counts.old (map (λ r. r.q) registers.now) }
{
    for register in registers {
        count_use(counts, register.q);
    }
}

// The first wire at `repeated` or without exactly one use, where there is one.
fn first_not_once(counts: &[u8], repeated: usize) -> Option<usize>
    ensures { MatchOption result (spec.OnceBelow counts.now repeated (length counts.now)) (spec.IsFirstNotOnce counts.now repeated) }
{
    for (wire, count) in counts.iter().enumerate() {
        if wire == repeated || *count != 1 {
            return Some(wire);
        }
    }
    None
}

// Whether no wire is counted twice.
fn are_at_most_once(counts: &[u8]) -> bool
    ensures { result ≡ spec.at_most_once counts.now }
{
    counts.iter().all(|count| *count <= 1)
}

// Whether a port is an input without a range.
fn is_clock_port(port: &Port) -> bool
    ensures { result ≡ well_formed.is_clock_port port.now }
{
    port.way == Way::Input && port.range.is_none()
}

// Whether the clock, where there is one, is an input port without a range.
fn does_clock_fit(ports: &[Port], clock: Option<usize>) -> bool
    ensures { result ≡ spec.clock_fits ports.now clock }
{
    match clock {
        None => true,
        Some(number) => match ports.get(number) {
            Some(port) => is_clock_port(port),
            None => false,
        },
    }
}

// Whether all wire numbers in equations and registers are those of wires.
fn do_numbers_fit(n: usize, equations: &[Equation], registers: &[Register]) -> bool
    ensures { result ≡ (list_all (λ e. nat_lt e.wire n && reads_below n (formula_of e.expr)) equations.now && list_all (λ r. nat_lt r.q n && (reads_below n (formula_of r.next) && nat_lt r.clock n)) registers.now) }
{
    do_equations_fit(equations, n) && do_registers_fit(registers, n)
}

// Whether no two ports have one name.
fn do_ports_differ(alloc: Global, ports: &[Port]) -> Result<bool, Memory>
    ensures { IfOk result (λ b. b ≡ spec.names_differ (map (λ p. p.name) ports.now)) }
{
    Ok(first_repeated_port(alloc, ports)? == ports.len())
}

// How often each of n wires is a bit of a port: 255 stands for as many or more.
pub(crate) fn count_bits(alloc: Global, n: usize, ports: &[Port]) -> Result<Vec<u8>, Memory>
    ensures { IfOk result (λ v. v.items ≡ spec.uses n (spec.port_bits ports.now)) }
{
    let mut counts = vec![in alloc; 0u8; n]?;
    count_ports(counts.as_mut_slice(), ports);
    Ok(counts)
}

// Whether no wire is a bit of two ports.
fn are_bits_apart(alloc: Global, n: usize, ports: &[Port]) -> Result<bool, Memory>
    ensures { IfOk result (λ b. b ≡ spec.at_most_once (spec.uses n (spec.port_bits ports.now))) }
{
    let counts = count_bits(alloc, n, ports)?;
    Ok(are_at_most_once(counts.as_slice()))
}

// Whether ports are right.
fn do_ports_fit(
    alloc: Global,
    ports: &[Port],
    wires: &[Name],
    clock: Option<usize>,
) -> Result<bool, Memory>
    ensures { IfOk result (λ b. b ≡ spec.ports_fit ports.now wires.now clock) }
{
    if !do_ports_differ(alloc, ports)? {
        return Ok(false);
    }
    if !are_ports_named(alloc, wires, ports)? {
        return Ok(false);
    }
    if !are_bits_apart(alloc, wires.len(), ports)? {
        return Ok(false);
    }
    Ok(does_clock_fit(ports, clock))
}

// How often each wire is driven: 255 stands for as many or more.
fn count_drivers(
    alloc: Global,
    n: usize,
    ports: &[Port],
    equations: &[Equation],
    registers: &[Register],
) -> Result<Vec<u8>, Memory>
    ensures { IfOk result (λ v. v.items ≡ spec.uses n (spec.driven ports.now equations.now registers.now)) }
{
    let mut counts = vec![in alloc; 0u8; n]?;
    count_inputs(counts.as_mut_slice(), ports);
    count_equations(counts.as_mut_slice(), equations);
    count_registers(counts.as_mut_slice(), registers);
    Ok(counts)
}

// Whether all numbers are in range and the ports are right.
fn are_parts_right(
    alloc: Global,
    ports: &[Port],
    wires: &[Name],
    equations: &[Equation],
    registers: &[Register],
    clock: Option<usize>,
) -> Result<bool, Memory>
    ensures { IfOk result (λ b. IsTrue b ↔ (IsTrue (well_formed.numbers_fit (plain ports.now wires.now equations.now registers.now clock)) × well_formed.PortsAreRight (plain ports.now wires.now equations.now registers.now clock))) }
{
    if !do_numbers_fit(wires.len(), equations, registers) {
        return Ok(false);
    }
    do_ports_fit(alloc, ports, wires, clock)
}

// The first wire that has an earlier wire's name or is not driven exactly once, where there is one.
fn first_wrong(
    alloc: Global,
    ports: &[Port],
    wires: &[Name],
    equations: &[Equation],
    registers: &[Register],
) -> Result<Option<usize>, Memory>
    ensures { (clock : Option ℕ) → IfOk result (λ wire. MatchOption wire (spec.AllRight (plain ports.now wires.now equations.now registers.now clock)) (spec.IsFirstWrong (plain ports.now wires.now equations.now registers.now clock))) }
{
    let counts = count_drivers(alloc, wires.len(), ports, equations, registers)?;
    let repeated = first_repeated(alloc, wires)?;
    Ok(first_not_once(counts.as_slice(), repeated))
}

/// The number that tells why parts are no net, where they are none.
pub fn first_bad(
    alloc: Global,
    ports: &[Port],
    wires: &[Name],
    equations: &[Equation],
    registers: &[Register],
    clock: Option<usize>,
) -> Result<Option<usize>, Memory>
    ensures { IfOk result (λ bad. MatchOption bad (well_formed.WellFormed (plain ports.now wires.now equations.now registers.now clock)) (well_formed.IsFirstBad (plain ports.now wires.now equations.now registers.now clock))) }
{
    if !are_parts_right(alloc, ports, wires, equations, registers, clock)? {
        return Ok(Some(wires.len()));
    }
    first_wrong(alloc, ports, wires, equations, registers)
}
