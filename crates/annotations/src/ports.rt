ghost use Rattle.std.specs.Prelude.{◌≡◌, ◌&&◌, ◌||◌, ◌∷◌, [], ℕ, not, false, nat_lt, map, length, IfOk, codes};
ghost use Rattle.std.specs.List.{list_any, flat_map, enumerate_from};
ghost use Rattle.std.specs.Option.{option_map_or};
ghost use Rattle.agm_net.specs.Plain.{is_input};
ghost use Rattle.agm_net.specs.WellFormed as well_formed;
ghost use Rattle.annotations.specs.Asked as spec;
ghost use Rattle.agm_net.specs.Plain as net_spec;
ghost use Rattle.verilog_reader.specs.Plain as design_spec;
ghost use Rattle.top_module.specs.Marks.{mark_set};
ghost use Rattle.top_module.specs.Ports.{facts_of};
ghost use Rattle.annotations.specs.Rules as rules;

use crate::AnnotationFault;
use agm_bits::{List, Memory};
use agm_net::{Mark, Port, Way};
use std::alloc::Global;
use top_module::{MarkSet, PortFacts};

// Whether a port is an input without a range.
fn is_clock_port(port: &Port) -> bool
    ensures { result ≡ well_formed.is_clock_port port.now }
{
    port.way == Way::Input && port.range.is_none()
}

// Whether a mark of a port is unknown, or `clock` where it must not be.
fn is_wrong_value(port: &Port, marks: MarkSet) -> bool
    ensures { result ≡ (marks.unknown || (marks.clock && not (well_formed.is_clock_port port.now))) }
{
    marks.unknown || (marks.clock && !is_clock_port(port))
}

// Whether two known marks differ.
fn is_marked_twice(marks: MarkSet) -> bool
    ensures { result ≡ spec.two_of marks }
{
    (marks.secure && marks.public)
        || ((marks.secure && marks.clock) || (marks.public && marks.clock))
}

// Whether an earlier port is the clock.
fn is_behind_clock(number: usize, clock: Option<usize>) -> bool
    ensures { result ≡ option_map_or (λ c. nat_lt c number) clock false }
{
    match clock {
        Some(clock) => clock < number,
        None => false,
    }
}

// Whether a mark is `clock`, and an earlier port is the clock.
fn is_second_clock(number: usize, marks: MarkSet, clock: Option<usize>) -> bool
    ensures { result ≡ (marks.clock && option_map_or (λ c. nat_lt c number) clock false) }
{
    marks.clock && is_behind_clock(number, clock)
}

// The rules of clocks for a port.
fn check_marks(
    number: usize,
    port: &Port,
    marks: MarkSet,
    clock: Option<usize>,
) -> Result<(), AnnotationFault>
    ensures { (top : design_spec.PlainModule) (net : net_spec.PlainNet) → net.clock ≡ clock → marks ≡ mark_set (rules.marks_of top port.now) → rules.Passes top net (rules.clock_rules_of (number, port.now)) result }
{
    if is_wrong_value(port, marks) {
        return Err(AnnotationFault::Value { port: number });
    }
    if is_marked_twice(marks) {
        return Err(AnnotationFault::Twice { port: number });
    }
    if is_second_clock(number, marks, clock) {
        return Err(AnnotationFault::SecondClock { port: number });
    }
    Ok(())
}

// Whether the name of a port is not reserved.
fn check_name(number: usize, port: &Port) -> Result<(), AnnotationFault>
    ensures { (top : design_spec.PlainModule) (net : net_spec.PlainNet) → rules.Passes top net (rules.reserved number port.now ∷ []) result }
{
    if port.name.as_slice().starts_with(b"agm_".as_slice()) {
        return Err(AnnotationFault::Reserved { port: number });
    }
    Ok(())
}

// All rules for a port.
fn check_all(
    number: usize,
    port: &Port,
    marks: MarkSet,
    clock: Option<usize>,
) -> Result<(), AnnotationFault>
    ensures { (top : design_spec.PlainModule) (net : net_spec.PlainNet) → net.clock ≡ clock → marks ≡ mark_set (rules.marks_of top port.now) → rules.Passes top net (rules.rules_of (number, port.now)) result }
{
    check_name(number, port)?;
    check_marks(number, port, marks, clock)
}

// All rules for a port, or those of clocks alone.
fn check_port(
    whole: bool,
    number: usize,
    port: &Port,
    marks: MarkSet,
    clock: Option<usize>,
) -> Result<(), AnnotationFault>
    ensures { (top : design_spec.PlainModule) (net : net_spec.PlainNet) → net.clock ≡ clock → marks ≡ mark_set (rules.marks_of top port.now) → rules.Passes top net (spec.asked whole (number, port.now)) result }
{
    if whole {
        check_all(number, port, marks, clock)
    } else {
        check_marks(number, port, marks, clock)
    }
}

/// All rules for each port, or those of clocks alone.
pub fn check_ports(
    whole: bool,
    ports: &[Port],
    facts: &[PortFacts],
    clock: Option<usize>,
) -> Result<(), AnnotationFault>
    requires { length facts.now ≡ length ports.now }
    ensures { (top : design_spec.PlainModule) (net : net_spec.PlainNet) → net.clock ≡ clock → facts.now ≡ map (λ p. facts_of top p.name) ports.now → rules.Passes top net (flat_map (spec.asked whole) (enumerate_from 0 ports.now)) result }
{
    for (number, port) in ports.iter().enumerate() {
        check_port(whole, number, port, facts[number].marks, clock)?;
    }
    Ok(())
}

// Whether a port is an input that is marked secure.
fn is_secure(port: &Port, marks: MarkSet) -> bool
    ensures { result ≡ (is_input port.now && marks.secure) }
{
    port.way == Way::Input && marks.secure
}

/// Whether some input is marked secure.
pub fn has_secure(ports: &[Port], facts: &[PortFacts]) -> bool
    requires { length facts.now ≡ length ports.now }
    ensures { (top : design_spec.PlainModule) → facts.now ≡ map (λ p. facts_of top p.name) ports.now → result ≡ list_any (λ p. is_input p && rules.is_marked (codes "secure") top p) ports.now }
{
    for (number, port) in ports.iter().enumerate() {
        if is_secure(port, facts[number].marks) {
            return true;
        }
    }
    false
}

// The mark that is in a set.
fn mark_in(marks: MarkSet) -> Mark
    ensures { result ≡ spec.mark_in marks }
{
    if marks.secure {
        Mark::Secure
    } else if marks.public {
        Mark::Public
    } else if marks.clock {
        Mark::Clock
    } else {
        Mark::Unmarked
    }
}

/// The mark of each port.
pub fn marks_in(alloc: Global, facts: &[PortFacts]) -> Result<List<Mark>, Memory>
    ensures { IfOk result (λ kinds. kinds ≡ map (λ f. spec.mark_in f.marks) facts.now) }
{
    let mut kinds = List::new(alloc);
    for port in facts {
        kinds.push(mark_in(port.marks))?;
    }
    Ok(kinds)
}
