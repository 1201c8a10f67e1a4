ghost use Rattle.std.specs.Prelude.{◌≡◌, IfOk};
ghost use Rattle.verilog_reader.specs.View.{form_view};
ghost use Rattle.form_bits.specs.Forms as spec;

use crate::Scope;
use crate::select::{bit_name, has_bit, has_part, look, part_name};
use agm_bits::{Memory, Name};
use std::alloc::Global;
use verilog_reader::Form;

// The name where it is not declared.
fn whole_fault(alloc: Global, scope: &Scope, name: &Name) -> Result<Option<Name>, Memory>
    ensures { IfOk result (λ o. o ≡ spec.whole_fault name.now (spec.look_in scope.now.names scope.now.spots name.now)) }
{
    match look(scope, name) {
        Some(_) => Ok(None),
        None => Ok(Some(Name::from_slice(alloc, name.as_slice())?)),
    }
}

// The name where it is not declared, or the select where it is out of range.
fn bit_fault(alloc: Global, scope: &Scope, name: &Name, k: u32) -> Result<Option<Name>, Memory>
    ensures { IfOk result (λ o. o ≡ spec.bit_fault name.now k (spec.look_in scope.now.names scope.now.spots name.now)) }
{
    match look(scope, name) {
        Some(spot) => {
            if has_bit(spot.range, k) {
                Ok(None)
            } else {
                Ok(Some(bit_name(alloc, name, k)?))
            }
        }
        None => Ok(Some(Name::from_slice(alloc, name.as_slice())?)),
    }
}

// The name where it is not declared, or the select where it is out of range or runs against the declared direction.
fn part_fault(
    alloc: Global,
    scope: &Scope,
    name: &Name,
    h: u32,
    l: u32,
) -> Result<Option<Name>, Memory>
    ensures { IfOk result (λ o. o ≡ spec.part_fault name.now h l (spec.look_in scope.now.names scope.now.spots name.now)) }
{
    match look(scope, name) {
        Some(spot) => {
            if has_part(spot.range, h, l) {
                Ok(None)
            } else {
                Ok(Some(part_name(alloc, name, h, l)?))
            }
        }
        None => Ok(Some(Name::from_slice(alloc, name.as_slice())?)),
    }
}

/// The first name in a form that is not declared, or its first select that is out of range or runs against the declared
/// direction, as it is written.
///
/// # Errors
///
/// `Memory` where memory runs out.
pub fn first_unknown(alloc: Global, scope: &Scope, form: &Form) -> Result<Option<Name>, Memory>
    ensures { IfOk result (λ o. o ≡ spec.form_fault (spec.look_in scope.now.names scope.now.spots) (form_view form.now)) }
{
    match form {
        Form::Whole(name) => whole_fault(alloc, scope, name),
        Form::Bit(name, k) => bit_fault(alloc, scope, name, *k),
        Form::Part(name, h, l) => part_fault(alloc, scope, name, *h, *l),
        Form::Constant(_) => Ok(None),
        Form::Repeat(_, inner) => first_unknown(alloc, scope, inner),
        Form::Join(forms) => {
            for inner in forms.as_slice() {
                if let Some(name) = first_unknown(alloc, scope, inner)? {
                    return Ok(Some(name));
                }
            }
            Ok(None)
        }
    }
}
