ghost use Rattle.std.specs.Prelude.{◌≡◌, All, length};

use crate::{BitRow, List};

/// Rows of bits, one for each cycle, each of which is `width` bits long.
#[derive(Debug, Drop)]
pub struct Tape {
    pub width: usize,
    pub rows: List<BitRow>,
    ghost rectangular: { All (λ r. length r ≡ width) rows },
}
