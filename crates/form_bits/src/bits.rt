ghost use Rattle.std.specs.Prelude.{◌≡◌, ◌++◌, ◌+◌, map, IfOk, OnOk};
ghost use Rattle.verilog_reader.specs.View.{form_view};
ghost use Rattle.form_bits.specs.declared.types.Bit.TheVariants.{Constant};
ghost use Rattle.form_bits.specs.Forms as spec;

use crate::select::{distance, look, range_width};
use crate::{Bit, Scope};
use agm_bits::{List, Memory, Name};
use std::alloc::Global;
use verilog_reader::Form;

// Adds wires in a row.
fn push_run(bits: &mut List<Bit>, start: usize, width: usize) -> Result<(), Memory>
    ensures { OnOk result (bits.new ≡ bits.old ++ spec.run start width) }
{
    let Some(end) = start.checked_add(width) else {
        return Err(Memory);
    };
    for k in start..end {
        bits.push(Bit::Wire(k))?;
    }
    Ok(())
}

// A number that is the sum of three.
fn sum(a: usize, b: usize, c: usize) -> Result<usize, Memory>
    ensures { IfOk result (λ n. n ≡ a + b + c) }
{
    match a.checked_add(b) {
        Some(ab) => ab.checked_add(c).ok_or(Memory),
        None => Err(Memory),
    }
}

// Adds the bits of a name.
fn push_whole(scope: &Scope, base: usize, name: &Name, bits: &mut List<Bit>) -> Result<(), Memory>
    ensures { OnOk result (bits.new ≡ bits.old ++ spec.whole_bits base (spec.look_in scope.now.names scope.now.spots name.now)) }
{
    match look(scope, name) {
        Some(spot) => {
            let start = sum(base, spot.first, 0)?;
            push_run(bits, start, range_width(spot.range))
        }
        None => Ok(()),
    }
}

// Adds bits of a name from one on.
fn push_part(
    scope: &Scope,
    base: usize,
    name: &Name,
    h: u32,
    width: usize,
    bits: &mut List<Bit>,
) -> Result<(), Memory>
    ensures { OnOk result (bits.new ≡ bits.old ++ spec.part_bits base h width (spec.look_in scope.now.names scope.now.spots name.now)) }
{
    match look(scope, name) {
        Some(spot) => {
            let start = sum(base, spot.first, distance(spot.range, h))?;
            push_run(bits, start, width)
        }
        None => Ok(()),
    }
}

// Adds constants.
fn push_constants(constants: &[bool], bits: &mut List<Bit>) -> Result<(), Memory>
    ensures { OnOk result (bits.new ≡ bits.old ++ map (λ b. Constant b) constants.now) }
{
    for constant in constants {
        bits.push(Bit::Constant(*constant))?;
    }
    Ok(())
}

// Adds bits as often as is said.
fn push_repeated(times: u32, once: &[Bit], bits: &mut List<Bit>) -> Result<(), Memory>
    ensures { OnOk result (bits.new ≡ bits.old ++ spec.repeated times once.now) }
{
    for _ in 0..times {
        bits.extend(once)?;
    }
    Ok(())
}

/// Adds the bits of a form from the left to the right, where the wires of the module's names stand from `base` on.
///
/// # Errors
///
/// `Memory` where memory runs out.
pub fn push_bits(
    alloc: Global,
    scope: &Scope,
    base: usize,
    form: &Form,
    bits: &mut List<Bit>,
) -> Result<(), Memory>
    ensures { OnOk result (bits.new ≡ bits.old ++ spec.form_bits (spec.look_in scope.now.names scope.now.spots) base (form_view form.now)) }
{
    match form {
        Form::Whole(name) => push_whole(scope, base, name, bits),
        Form::Bit(name, k) => push_part(scope, base, name, *k, 1, bits),
        Form::Part(name, h, l) => {
            push_part(scope, base, name, *h, h.abs_diff(*l) as usize + 1, bits)
        }
        Form::Constant(constants) => push_constants(constants.as_slice(), bits),
        Form::Repeat(times, inner) => {
            let mut once = List::new(alloc);
            push_bits(alloc, scope, base, inner, &mut once)?;
            push_repeated(*times, once.as_slice(), bits)
        }
        Form::Join(forms) => {
            for inner in forms.as_slice() {
                push_bits(alloc, scope, base, inner, bits)?;
            }
            Ok(())
        }
    }
}
