ghost use Rattle.std.specs.Prelude.{◌≡◌, ◌-◌, ◌^◌, min};
ghost use Rattle.verilog_reader.specs.View.{form_view};
ghost use Rattle.form_bits.specs.Forms as spec;

use crate::Scope;
use crate::select::{look, range_width};
use agm_bits::Name;
use verilog_reader::Form;

// How many bits a name has; none where it is not declared.
fn whole_width(scope: &Scope, name: &Name) -> usize
    ensures { result ≡ spec.spot_width (spec.look_in scope.now.names scope.now.spots name.now) }
{
    match look(scope, name) {
        Some(spot) => range_width(spot.range),
        None => 0,
    }
}

/// How many bits a form has. 2^64 - 1 stands for as many or more.
#[tactic(auto, using(crate::proofs::Widths::sat_mul))]
pub fn form_width(scope: &Scope, form: &Form) -> usize
    ensures { result ≡ min (spec.form_width (spec.look_in scope.now.names scope.now.spots) (form_view form.now)) (2 ^ 64 - 1) }
{
    match form {
        Form::Whole(name) => whole_width(scope, name),
        Form::Bit(_, _) => 1,
        Form::Part(_, h, l) => h.abs_diff(*l) as usize + 1,
        Form::Constant(bits) => bits.len(),
        Form::Repeat(times, inner) => (*times as usize).saturating_mul(form_width(scope, inner)),
        Form::Join(forms) => {
            let mut width = 0usize;
            for inner in forms.as_slice() {
                width = width.saturating_add(form_width(scope, inner));
            }
            width
        }
    }
}
