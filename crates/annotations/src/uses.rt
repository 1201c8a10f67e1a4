ghost use Rattle.std.specs.Prelude.{◌≡◌, ◌&&◌, ◌<◌, ◌∷◌, [], ℕ, map, length};
ghost use Rattle.std.specs.List.{range_with_len};
ghost use Rattle.agm_net.specs.Plain as net_spec;
ghost use Rattle.agm_net.specs.View.{plain_of};
ghost use Rattle.verilog_reader.specs.Plain as design_spec;
ghost use Rattle.annotations.specs.Clocked.{is_read};
ghost use Rattle.annotations.specs.Rules as rules;
ghost use Rattle.annotations.specs.Spread as spec;

use crate::AnnotationFault;
use crate::reads::read_wires;
use crate::spread::clock_wires;
use agm_net::{Net, Register};
use std::alloc::Global;

// Whether a wire is marked.
fn is_set(marks: &[bool], wire: usize) -> bool
    ensures { result ≡ spec.is_set marks.now wire }
{
    wire < marks.len() && marks[wire]
}

// Whether there is a clock for registers.
fn check_clock(net: &Net) -> Result<(), AnnotationFault>
    ensures { (top : design_spec.PlainModule) → rules.Passes top (plain_of net.now) (rules.no_clock ∷ []) result }
{
    if net.clock.is_none() && !net.registers.is_empty() {
        return Err(AnnotationFault::NoClock);
    }
    Ok(())
}

// Whether the clock of each register is a clock wire.
fn check_registers(registers: &[Register], marks: &[bool]) -> Result<(), AnnotationFault>
    ensures { (top : design_spec.PlainModule) (net : net_spec.PlainNet) → spec.AreClockWires net marks.now → rules.Passes top net (map (λ r. rules.own_clock r.clock) registers.now) result }
{
    for register in registers {
        if !is_set(marks, register.clock) {
            return Err(AnnotationFault::ClockUse {
                wire: register.clock,
            });
        }
    }
    Ok(())
}

// Whether a wire is a clock wire that is read otherwise.
fn is_clock_read(marks: &[bool], read: &[bool], wire: usize) -> bool
    ensures { result ≡ (spec.is_set marks.now wire && spec.is_set read.now wire) }
{
    is_set(marks, wire) && is_set(read, wire)
}

// Whether no clock wire is read otherwise.
fn check_wires(marks: &[bool], read: &[bool]) -> Result<(), AnnotationFault>
    ensures { (top : design_spec.PlainModule) (net : net_spec.PlainNet) → spec.AreClockWires net marks.now → ((w : ℕ) → w < length marks.now → spec.is_set read.now w ≡ is_read net w) → rules.Passes top net (map rules.clock_read (range_with_len 0 (length marks.now))) result }
{
    for wire in 0..marks.len() {
        if is_clock_read(marks, read, wire) {
            return Err(AnnotationFault::ClockUse { wire });
        }
    }
    Ok(())
}

/// Checks the rules on the clock. Takes linear time.
pub fn check_use(alloc: Global, net: &Net) -> Result<(), AnnotationFault>
    ensures { (top : design_spec.PlainModule) → rules.Passes top (plain_of net.now) (rules.use_rules (plain_of net.now)) result }
{
    check_clock(net)?;
    let marks = clock_wires(alloc, net)?;
    check_registers(net.registers.as_slice(), marks.as_slice())?;
    let read = read_wires(alloc, net)?;
    check_wires(marks.as_slice(), read.as_slice())
}
