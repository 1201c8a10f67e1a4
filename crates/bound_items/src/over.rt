ghost use Rattle.std.specs.Prelude.{◌≡◌, IfOk, slice_index_or, None};
ghost use Rattle.agm_net.specs.Formula.{formula_of};
ghost use Rattle.bound_items.specs.Items as spec;

use crate::add::bit_expr;
use agm_bits::Memory;
use agm_net::Expr;
use form_bits::Bit;
use std::alloc::Global;

/// What stands at a place, where something does.
pub(crate) fn bit_at(bits: &[Option<Bit>], k: usize) -> Option<Bit>
    ensures { result ≡ slice_index_or bits.now k None }
{
    if k < bits.len() { bits[k] } else { None }
}

// What is connected as an expression; the 0 of what is not is not used.
fn operand(bit: Option<Bit>) -> Expr
    ensures { formula_of result ≡ spec.operand bit }
{
    match bit {
        Some(bit) => bit_expr(bit),
        None => Expr::Zero,
    }
}

/// A function over what is connected.
pub(crate) fn over(alloc: Global, bits: &[Option<Bit>], expr: &Expr) -> Result<Expr, Memory>
    ensures { IfOk result (λ e. formula_of e ≡ spec.over bits.now (formula_of expr.now)) }
{
    match expr {
        Expr::Zero => Ok(Expr::Zero),
        Expr::One => Ok(Expr::One),
        Expr::Wire(k) => Ok(operand(bit_at(bits, *k))),
        Expr::Not(x) => {
            let x = Box::new(alloc, over(alloc, bits, x)?)?;
            Ok(Expr::Not(x))
        }
        Expr::And(x, y) => {
            let x = Box::new(alloc, over(alloc, bits, x)?)?;
            let y = Box::new(alloc, over(alloc, bits, y)?)?;
            Ok(Expr::And(x, y))
        }
        Expr::Or(x, y) => {
            let x = Box::new(alloc, over(alloc, bits, x)?)?;
            let y = Box::new(alloc, over(alloc, bits, y)?)?;
            Ok(Expr::Or(x, y))
        }
        Expr::Xor(x, y) => {
            let x = Box::new(alloc, over(alloc, bits, x)?)?;
            let y = Box::new(alloc, over(alloc, bits, y)?)?;
            Ok(Expr::Xor(x, y))
        }
        Expr::Mux { select, low, high } => {
            let select = Box::new(alloc, over(alloc, bits, select)?)?;
            let low = Box::new(alloc, over(alloc, bits, low)?)?;
            let high = Box::new(alloc, over(alloc, bits, high)?)?;
            Ok(Expr::Mux { select, low, high })
        }
    }
}
