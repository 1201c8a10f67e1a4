ghost use Rattle.std.specs.Prelude.{IfOk};
ghost use Rattle.small_text.specs.Grammar.{Spelled, IsSmall, HasWritableNames};

use crate::Small;
use crate::print::print;
use agm_bits::{Memory, Name};
use std::alloc::Global;

/// A text that spells a module, for people to read: a declaration, an assign or an instance a line.
pub fn write_small(alloc: Global, small: &Small) -> Result<Name, Memory>
    requires small { IsSmall small.now }
    requires names { HasWritableNames small.now }
    ensures { IfOk result (λ text. Spelled text small.now) }
{
    print(alloc, small)
}
