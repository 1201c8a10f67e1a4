ghost use Rattle.std.specs.Prelude.{◌≡◌, ℕ, List, Some, IfOk, MatchOption};
ghost use Rattle.std.specs.Option.{option_map};
ghost use Rattle.cell_function.specs.Grammar.{Spelled};
ghost use Rattle.cell_function.specs.Parts.{parts_of};
ghost use Rattle.cell_function.specs.Reading as spec;
ghost use Rattle.cell_function.specs.Tree.{Tree, tree_of};

use crate::Function;
use crate::cut::is_at_end;
use crate::stop::Stop;
use crate::sums::sum;
use agm_bits::Memory;
use std::alloc::Global;

// The function of a whole text.
fn function(alloc: Global, limit: usize, text: &[u8]) -> Result<Function, Stop>
    ensures { spec.Gives tree_of result (spec.function_at limit (parts_of text.now)) }
{
    let (function, rest) = sum(alloc, limit, text)?;
    if is_at_end(rest) {
        Ok(function)
    } else {
        Err(Stop::Wrong)
    }
}

/// The function that a text spells, None exactly where it spells none.
pub fn read_function(alloc: Global, text: &[u8]) -> Result<Option<Function>, Memory>
    ensures spelled { IfOk result (λ o. MatchOption o ((f : Tree) → Spelled text.now f → ⊥) (λ f. Spelled text.now (tree_of f))) }
    ensures value { IfOk result (λ o. option_map tree_of o ≡ spec.function_of text.now) }
{
    match function(alloc, text.len(), text) {
        Ok(function) => Ok(Some(function)),
        Err(Stop::Wrong) => Ok(None),
        Err(Stop::Memory) => Err(Memory),
    }
}

/// What a text spells is `function_of` it.
pub fn spelled_is_function()
    ensures { (text : List ℕ) (f : Tree) → Spelled text f → spec.function_of text ≡ Some f }
{}

/// What `function_of` gives is spelled.
pub fn function_is_spelled()
    ensures { (text : List ℕ) (f : Tree) → spec.function_of text ≡ Some f → Spelled text f }
{}

/// No text spells two functions.
pub fn one_function()
    ensures { (text : List ℕ) (f g : Tree) → Spelled text f → Spelled text g → f ≡ g }
{}
