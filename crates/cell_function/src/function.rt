ghost use Rattle.std.specs.Prelude.{◌≡◌, IfOk};
ghost use Rattle.cell_function.specs.Tree.{tree_of, t_not, t_and, t_or, t_xor};

use agm_bits::{Memory, Name};
use std::alloc::Global;

/// A function over the values of pins.
#[derive(Debug, Drop)]
pub enum Function {
    Constant(bool),
    Pin(Name),
    Not(Box<Function>),
    And(Box<Function>, Box<Function>),
    Or(Box<Function>, Box<Function>),
    Xor(Box<Function>, Box<Function>),
}

// The inversion of a function.
pub(crate) fn not_of(alloc: Global, x: Function) -> Result<Function, Memory>
    ensures { IfOk result (λ f. tree_of f ≡ t_not (tree_of x)) }
{
    Ok(Function::Not(Box::new(alloc, x)?))
}

// Both functions.
pub(crate) fn and_of(alloc: Global, x: Function, y: Function) -> Result<Function, Memory>
    ensures { IfOk result (λ f. tree_of f ≡ t_and (tree_of x) (tree_of y)) }
{
    Ok(Function::And(Box::new(alloc, x)?, Box::new(alloc, y)?))
}

// One function or both.
pub(crate) fn or_of(alloc: Global, x: Function, y: Function) -> Result<Function, Memory>
    ensures { IfOk result (λ f. tree_of f ≡ t_or (tree_of x) (tree_of y)) }
{
    Ok(Function::Or(Box::new(alloc, x)?, Box::new(alloc, y)?))
}

// One function, not both.
pub(crate) fn xor_of(alloc: Global, x: Function, y: Function) -> Result<Function, Memory>
    ensures { IfOk result (λ f. tree_of f ≡ t_xor (tree_of x) (tree_of y)) }
{
    Ok(Function::Xor(Box::new(alloc, x)?, Box::new(alloc, y)?))
}
