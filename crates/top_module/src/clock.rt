ghost use Rattle.std.specs.Prelude.{◌≡◌, false, position, IfOk};
ghost use Rattle.std.specs.Option.{option_map_or};
ghost use Rattle.verilog_reader.specs.View.{module_view};
ghost use Rattle.top_module.specs.Ports as spec;

use crate::ports::port_facts;
use crate::{Kind, PortFacts};
use agm_bits::Memory;
use agm_net::Way;
use std::alloc::Global;
use verilog_reader::Module;

// Whether a port is an input without a range.
fn is_single_input(kind: Option<Kind>) -> bool
    ensures { result ≡ option_map_or spec.is_single_input kind false }
{
    match kind {
        Some(kind) => kind.way == Way::Input && kind.range.is_none(),
        None => false,
    }
}

// Whether a port is an input without a range that has the mark `clock`.
fn is_clock(facts: &PortFacts) -> bool
    ensures { result ≡ spec.is_clock facts.now }
{
    is_single_input(facts.kind) && facts.marks.clock
}

// The place of the first clock.
fn first_clock(ports: &[PortFacts]) -> Option<usize>
    ensures { result ≡ position spec.is_clock ports.now }
{
    ports.iter().position(|port| is_clock(port))
}

/// The clock of a module: the place of its first listed port that is an input without a range and has the mark `clock`.
pub fn find_clock(alloc: Global, unit: &Module) -> Result<Option<usize>, Memory>
    ensures { IfOk result (λ clock. clock ≡ spec.clock_of (module_view unit.now)) }
{
    let facts = port_facts(alloc, unit)?;
    Ok(first_clock(facts.as_slice()))
}
