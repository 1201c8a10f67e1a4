//! What gives each wire its bit.

ghost use Rattle.std.specs.Prelude.{◌≡◌, ◌<◌, ℕ, IfOk, All, Some, length, map};
ghost use Rattle.std.specs.List.{AllByRecursion};
ghost use Rattle.agm_net.specs.Plain.{line_of, bits_of_port, clock_bits};
ghost use Rattle.agm_net.specs.View.{plain_of};
ghost use Rattle.probe_cones.specs.Origins as spec;

use agm_bits::{List, Memory};
use agm_net::{Equation, Net, Port};
use std::alloc::Global;

// What gives a wire its bit in a cycle.
#[derive(Clone, Copy, Debug, PartialEq, Eq)]
pub(crate) enum Origin {
    // An input bit or a register.
    Source,
    // The equation of this number.
    Equation(usize),
    Clock,
}

// Marks the wires of the clock's port.
fn mark_clock(origins: &mut [Origin], bits: &[usize])
    requires { All (λ b. b < length origins.old) bits.now }
    ensures { spec.HasMarkedClock bits.now origins.old origins.new }
{
    for bit in bits {
        origins[*bit] = Origin::Clock;
    }
}

// Marks the wires of equations.
fn mark_equations(origins: &mut [Origin], equations: &[Equation])
    requires { All (λ e. e.wire < length origins.old) equations.now }
    ensures { spec.HasMarkedEquations (map line_of equations.now) origins.old origins.new }
{
    for (i, equation) in equations.iter().enumerate() {
        origins[equation.wire] = Origin::Equation(i);
    }
}

// Marks the wires of a port, as the clock's.
fn mark_port(origins: &mut [Origin], ports: &[Port], number: usize)
    requires in_range { number < length ports.now }
    requires bits { AllByRecursion (λ b. b < length origins.old) (bits_of_port ports.now (Some number)) }
    ensures { spec.HasMarkedClock (bits_of_port ports.now (Some number)) origins.old origins.new }
{
    mark_clock(origins, ports[number].bits.as_slice());
}

// Marks the wire of a net's clock.
fn mark_clock_of(origins: &mut [Origin], net: &Net)
    requires { length origins.old ≡ length net.now.wires }
    ensures { spec.HasMarkedClock (clock_bits (plain_of net.now)) origins.old origins.new }
{
    if let Some(number) = net.clock {
        mark_port(origins, net.ports.as_slice(), number);
    }
}

// Marks the wires of a net, which are all taken for sources before.
fn mark(origins: &mut [Origin], net: &Net)
    requires as_many { length origins.old ≡ length net.now.wires }
    requires sources { (w : ℕ) → w < length net.now.wires → spec.origin_at origins.old w ≡ Origin.Source }
    ensures { spec.AreOrigins (plain_of net.now) origins.new }
{
    mark_clock_of(origins, net);
    mark_equations(origins, net.equations.as_slice());
}

/// What gives each wire of a net its bit.
pub(crate) fn origins_of(alloc: Global, net: &Net) -> Result<List<Origin>, Memory>
    ensures { IfOk result (spec.AreOrigins (plain_of net.now)) }
{
    let mut origins = vec![in alloc; Origin::Source; net.wires.len()]?;
    mark(origins.as_mut_slice(), net);
    Ok(List::from_vec(origins))
}
