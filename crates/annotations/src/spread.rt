ghost use Rattle.std.specs.Prelude.{◌≡◌, ◌<◌, ◌∷◌, ◌++◌, [], ℕ, true, length, slice_set, slice_index, IfOk, OnOk, IsTrue};
ghost use Rattle.agm_net.specs.Plain.{clock_bits};
ghost use Rattle.agm_net.specs.View.{plain_of};
ghost use Rattle.annotations.specs.Clocked.{IsClockWire, is_clock_bit};
ghost use Rattle.annotations.specs.Spread as spec;

use crate::copies::{Copies, copies_of};
use agm_bits::Memory;
use agm_net::Net;
use std::alloc::Global;

// Marks a wire, and adds it to the queue if it was not marked.
fn mark(marks: &mut [bool], queue: &mut Vec<usize>, wire: usize) -> Result<(), Memory>
    requires { wire < length marks.old }
    ensures { OnOk result ((marks.new ≡ slice_set marks.old wire true) × (queue.new.items ≡ spec.queue_after marks.old queue.old.items wire)) }
{
    if !marks[wire] {
        queue.push(wire)?;
        marks[wire] = true;
    }
    Ok(())
}

// Marks a clock wire.
fn mark_clock(
    net: &Net,
    marks: &mut [bool],
    queue: &mut Vec<usize>,
    wire: usize,
) -> Result<(), Memory>
    requires within { wire < length net.now.wires }
    requires clock { IsClockWire (plain_of net.now) wire }
    requires reached { spec.AreReached (plain_of net.now) marks.old queue.old.items }
    ensures reached { OnOk result (spec.AreReached (plain_of net.now) marks.new queue.new.items) }
    ensures grown { OnOk result (spec.HasGrown marks.old queue.old.items marks.new queue.new.items) }
    ensures marked { OnOk result (spec.is_set marks.new wire ≡ true) }
{
    mark(marks, queue, wire)?;
    Ok(())
}

// Marks the bits of the clock's port.
fn mark_bits(
    net: &Net,
    bits: &[usize],
    marks: &mut [bool],
    queue: &mut Vec<usize>,
) -> Result<(), Memory>
    requires bits { bits.now ≡ clock_bits (plain_of net.now) }
    requires reached { spec.AreReached (plain_of net.now) marks.old queue.old.items }
    ensures reached { OnOk result (spec.AreReached (plain_of net.now) marks.new queue.new.items) }
    ensures marked { OnOk result ((w : ℕ) → IsTrue (is_clock_bit (plain_of net.now) w) → spec.is_set marks.new w ≡ true) }
{
    for bit in bits {
        mark_clock(net, marks, queue, *bit)?;
    }
    Ok(())
}

// Marks the wires that copies of a clock wire set.
fn follow(
    net: &Net,
    copies: &Copies,
    wire: usize,
    marks: &mut [bool],
    queue: &mut Vec<usize>,
) -> Result<(), Memory>
    requires index { spec.IsIndex net.now.equations (length net.now.wires) copies.now.heads.items copies.now.links.items }
    requires within { wire < length net.now.wires }
    requires clock { IsClockWire (plain_of net.now) wire }
    requires reached { spec.AreReached (plain_of net.now) marks.old queue.old.items }
    ensures reached { OnOk result (spec.AreReached (plain_of net.now) marks.new queue.new.items) }
    ensures grown { OnOk result (spec.HasGrown marks.old queue.old.items marks.new queue.new.items) }
    ensures marked { OnOk result (spec.MarkedFrom net.now.equations wire 0 marks.new) }
{
    let mut number = copies.heads[wire];
    while number > 0 {
        let place = number - 1;
        mark_clock(net, marks, queue, net.equations.as_slice()[place].wire)?;
        number = copies.links[place];
    }
    Ok(())
}

// Marks all wires that copies lead to from those in the queue.
fn follow_all(
    net: &Net,
    copies: &Copies,
    marks: &mut [bool],
    queue: &mut Vec<usize>,
) -> Result<(), Memory>
    requires index { spec.IsIndex net.now.equations (length net.now.wires) copies.now.heads.items copies.now.links.items }
    requires reached { spec.AreReached (plain_of net.now) marks.old queue.old.items }
    ensures reached { OnOk result (spec.AreReached (plain_of net.now) marks.new queue.new.items) }
    ensures grown { OnOk result (spec.HasGrown marks.old queue.old.items marks.new queue.new.items) }
    ensures done { OnOk result (spec.AreDone net.now.equations (length queue.new.items) marks.new queue.new.items) }
{
    for turn in 0..net.wires.len() {
        if turn >= queue.len() {
            return Ok(());
        }
        follow(net, copies, queue[turn], marks, queue)?;
    }
    Ok(())
}

// The bits of the clock's port.
fn bits_of_clock(net: &Net) -> &[usize]
    ensures { result.now ≡ clock_bits (plain_of net.now) }
{
    match net.clock {
        Some(number) => match net.ports.as_slice().get(number) {
            Some(port) => port.bits.as_slice(),
            None => &[],
        },
        None => &[],
    }
}

// Marks all clock wires.
fn mark_all(
    net: &Net,
    copies: &Copies,
    marks: &mut [bool],
    queue: &mut Vec<usize>,
) -> Result<(), Memory>
    requires index { spec.IsIndex net.now.equations (length net.now.wires) copies.now.heads.items copies.now.links.items }
    requires reached { spec.AreReached (plain_of net.now) marks.old queue.old.items }
    ensures { OnOk result (spec.AreClockWires (plain_of net.now) marks.new) }
{
    mark_bits(net, bits_of_clock(net), marks, queue)?;
    follow_all(net, copies, marks, queue)?;
    Ok(())
}

/// For each wire whether it is a clock wire: the bit of the clock's port, or set to a clock wire alone. Takes linear time.
pub fn clock_wires(alloc: Global, net: &Net) -> Result<Vec<bool>, Memory>
    ensures { IfOk result (λ marks. spec.AreClockWires (plain_of net.now) marks.items) }
{
    let mut marks = vec![in alloc; false; net.wires.len()]?;
    let mut queue = Vec::new(alloc);
    let copies = copies_of(alloc, net.wires.len(), net.equations.as_slice())?;
    mark_all(net, &copies, marks.as_mut_slice(), &mut queue)?;
    Ok(marks)
}
