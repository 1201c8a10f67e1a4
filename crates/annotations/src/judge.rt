ghost use Rattle.std.specs.Prelude.{◌≡◌, ◌<◌, ◌∷◌, [], map, length, slice_get, IfOk};
ghost use Rattle.agm_net.specs.Plain as net_spec;
ghost use Rattle.agm_net.specs.WellFormed.{Differ};
ghost use Rattle.agm_net.specs.View.{plain_of};
ghost use Rattle.verilog_reader.specs.Plain as design_spec;
ghost use Rattle.verilog_reader.specs.View.{design_view};
ghost use Rattle.top_module.specs.Top.{HasTop, IsTop};
ghost use Rattle.top_module.specs.Ports.{facts_of};
ghost use Rattle.annotations.specs.Rules as rules;

use crate::AnnotationFault;
use crate::ports::{check_ports, has_secure, marks_in};
use crate::uses::check_use;
use agm_bits::Memory;
use agm_net::{Marks, Net, Port};
use name_table::Names;
use std::alloc::Global;
use top_module::{PortFacts, TopFault, find_top, name_facts};
use verilog_reader::Design;

// The names of ports.
fn names_of(alloc: Global, ports: &[Port]) -> Result<Names, Memory>
    requires { Differ (map (λ p. p.name) ports.now) }
    ensures { IfOk result (λ names. names ≡ map (λ p. p.name) ports.now) }
{
    let mut names = Names::new(alloc);
    for port in ports {
        names.add(port.name.as_slice())?;
    }
    Ok(names)
}

// The number of the top module.
fn top_of(alloc: Global, design: &Design) -> Result<usize, Memory>
    requires { HasTop (design_view design.now) }
    ensures { IfOk result (λ number. (number < length design.now.modules) × ((top : design_spec.PlainModule) → IsTop (design_view design.now) top → slice_get (design_view design.now) number ≡ Some top)) }
{
    match find_top(alloc, design) {
        Ok(number) => Ok(number),
        Err(TopFault::Memory) => Err(Memory),
        Err(TopFault::Candidates(_)) => unreachable!(),
    }
}

// What the top module says of each port of a net.
fn facts_of_ports(alloc: Global, design: &Design, ports: &[Port]) -> Result<Vec<PortFacts>, Memory>
    requires top { HasTop (design_view design.now) }
    requires differ { Differ (map (λ p. p.name) ports.now) }
    ensures long { IfOk result (λ facts. length facts.items ≡ length ports.now) }
    ensures facts { IfOk result (λ facts. (top : design_spec.PlainModule) → IsTop (design_view design.now) top → facts.items ≡ map (λ p. facts_of top p.name) ports.now) }
{
    let number = top_of(alloc, design)?;
    let names = names_of(alloc, ports)?;
    name_facts(alloc, &design.modules.as_slice()[number], &names)
}

// Whether some input is marked secure.
fn check_secure(net: &Net, facts: &[PortFacts]) -> Result<(), AnnotationFault>
    requires { length facts.now ≡ length net.now.ports }
    ensures { (top : design_spec.PlainModule) → facts.now ≡ map (λ p. facts_of top p.name) net.now.ports → rules.Passes top (plain_of net.now) (rules.no_secure ∷ []) result }
{
    if has_secure(net.ports.as_slice(), facts) {
        Ok(())
    } else {
        Err(AnnotationFault::NoSecure)
    }
}

/// The marks of a net's ports, by the attributes named `AGEMA` before the declarations of the design's top module that name them.
/// An input without one is `Unmarked`, and public. Takes near linear time.
///
/// # Errors
///
/// The first rule that is broken. For each port in order: `Reserved`, `Value`, `Twice`, `SecondClock`; then `NoSecure`, `NoClock`,
/// `ClockUse`: the first register whose clock is no clock wire, by its clock, else the first clock wire that is used otherwise.
pub fn annotate(alloc: Global, design: &Design, net: &Net) -> Result<Marks, AnnotationFault>
    requires { HasTop (design_view design.now) }
    ensures { (top : design_spec.PlainModule) → IsTop (design_view design.now) top → rules.Answers (rules.Broken top (plain_of net.now)) (rules.annotation_rules (plain_of net.now)) (λ marks. marks.kinds ≡ map (rules.mark_of top) net.now.ports) result }
{
    let facts = facts_of_ports(alloc, design, net.ports.as_slice())?;
    check_ports(true, net.ports.as_slice(), facts.as_slice(), net.clock)?;
    check_secure(net, facts.as_slice())?;
    check_use(alloc, net)?;
    Ok(Marks {
        kinds: marks_in(alloc, facts.as_slice())?,
    })
}

/// The clock's port, by the rules on clocks alone. Takes near linear time.
///
/// # Errors
///
/// The first rule that is broken, of those of `annotate` without `Reserved` and `NoSecure`.
pub fn clocks(alloc: Global, design: &Design, net: &Net) -> Result<Option<usize>, AnnotationFault>
    requires { HasTop (design_view design.now) }
    ensures { (top : design_spec.PlainModule) → IsTop (design_view design.now) top → rules.Answers (rules.Broken top (plain_of net.now)) (rules.clock_rules (plain_of net.now)) (λ clock. clock ≡ net.now.clock) result }
{
    let facts = facts_of_ports(alloc, design, net.ports.as_slice())?;
    check_ports(false, net.ports.as_slice(), facts.as_slice(), net.clock)?;
    check_use(alloc, net)?;
    Ok(net.clock)
}
