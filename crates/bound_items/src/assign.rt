ghost use Rattle.std.specs.Prelude.{◌≡◌, ◌++◌, ◌-◌, ◌^◌, min, ℕ, IfOk};
ghost use Rattle.verilog_reader.specs.View.{form_view};
ghost use Rattle.form_bits.specs.Forms as forms;
ghost use Rattle.bound_items.specs.Items as spec;
ghost use Rattle.bound_items.specs.State.{state_of, after, Checks, Gives};

use crate::add::add_plain;
use crate::{BindFault, Netlist};
use agm_bits::{List, Memory};
use form_bits::{Bit, Scope, first_unknown, form_width, push_bits};
use std::alloc::Global;
use verilog_reader::Form;

// Whether two widths are the same, by their numbers up to the greatest. Where both are that, it is not known, which is want of memory.
fn check_width(left: usize, right: usize) -> Result<(), BindFault>
    ensures { (l r : ℕ) → left ≡ min l spec.most → right ≡ min r spec.most → Checks (spec.width_fault l r) result }
{
    if left == usize::MAX && right == usize::MAX {
        return Err(BindFault::Memory);
    }
    if left != right {
        return Err(BindFault::Width { left, right });
    }
    Ok(())
}

// Whether the names of a form are known.
fn check_names(alloc: Global, scope: &Scope, form: &Form) -> Result<(), BindFault>
    ensures { Checks (spec.unknown_fault (forms.form_fault (forms.look_in scope.now.names scope.now.spots) (form_view form.now))) result }
{
    match first_unknown(alloc, scope, form)? {
        Some(name) => Err(BindFault::UnknownWire { name }),
        None => Ok(()),
    }
}

/// Whether a form fits something of a width.
pub(crate) fn check_form(
    alloc: Global,
    scope: &Scope,
    left: usize,
    form: &Form,
) -> Result<(), BindFault>
    ensures { (l : ℕ) → left ≡ min l spec.most → Checks (spec.form_broken (forms.look_in scope.now.names scope.now.spots) l (form_view form.now)) result }
{
    check_names(alloc, scope, form)?;
    check_width(left, form_width(scope, form))
}

// Whether the sides of an assign fit.
fn check_assign(alloc: Global, scope: &Scope, left: &Form, right: &Form) -> Result<(), BindFault>
    ensures { Checks (spec.assign_broken (forms.look_in scope.now.names scope.now.spots) (form_view left.now) (form_view right.now)) result }
{
    check_names(alloc, scope, left)?;
    check_form(alloc, scope, form_width(scope, left), right)
}

/// The bits of a form.
pub(crate) fn bits_of(
    alloc: Global,
    scope: &Scope,
    base: usize,
    form: &Form,
) -> Result<List<Bit>, Memory>
    ensures { IfOk result (λ bits. bits ≡ forms.form_bits (forms.look_in scope.now.names scope.now.spots) base (form_view form.now)) }
{
    let mut bits = List::new(alloc);
    push_bits(alloc, scope, base, form, &mut bits)?;
    Ok(bits)
}

// Adds the equations of an assign whose sides fit.
fn add_sides(
    netlist: Netlist,
    scope: &Scope,
    base: usize,
    left: &Form,
    right: &Form,
) -> Result<Netlist, Memory>
    ensures { IfOk result (λ n. state_of n ≡ after (state_of netlist) (spec.plain_lines (forms.form_bits (forms.look_in scope.now.names scope.now.spots) base (form_view left.now)) (forms.form_bits (forms.look_in scope.now.names scope.now.spots) base (form_view right.now)))) }
{
    let alloc = netlist.alloc;
    let targets = bits_of(alloc, scope, base, left)?;
    let values = bits_of(alloc, scope, base, right)?;
    add_plain(netlist, targets.as_slice(), values.as_slice())
}

/// Adds what an assign gives in a module with these names, whose wires stand from `base` on.
///
/// # Errors
///
/// The first rule that it breaks, and `Memory` where memory runs out.
pub fn add_assign(
    netlist: Netlist,
    scope: &Scope,
    base: usize,
    left: &Form,
    right: &Form,
) -> Result<Netlist, BindFault>
    ensures { Gives (state_of netlist) (spec.assign_events (forms.look_in scope.now.names scope.now.spots) base (form_view left.now) (form_view right.now)) result }
{
    check_assign(netlist.alloc, scope, left, right)?;
    Ok(add_sides(netlist, scope, base, left, right)?)
}
