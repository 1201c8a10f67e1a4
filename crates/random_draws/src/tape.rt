ghost use Rattle.std.specs.Prelude.{◌≡◌, IfOk};
ghost use Rattle.random_draws.specs.Draws.{random_rows};

use crate::RandomBits;
use agm_bits::{List, Memory, Tape};
use std::alloc::Global;

/// The random tape of a seed: place `m` of row `t` is bit `t * width + m` of the seed's stream 0.
///
/// Takes time and memory for each bit.
pub fn draw(alloc: Global, seed: &[u8; 32], rows: usize, width: usize) -> Result<Tape, Memory>
    ensures width { IfOk result (λ tape. tape.width ≡ width) }
    ensures rows { IfOk result (λ tape. tape.rows ≡ random_rows seed.now rows width) }
{
    let mut bits = RandomBits::new(seed, 0, 0);
    let mut drawn = List::new(alloc);
    for _ in 0..rows {
        drawn.push(bits.row(alloc, width)?)?;
    }
    Ok(Tape { width, rows: drawn })
}
