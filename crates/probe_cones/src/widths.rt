//! How wide the rows of tapes are.

ghost use Rattle.std.specs.Prelude.{◌≡◌, ◌≤◌, IfOk, filter, length};
ghost use Rattle.agm_net.specs.View.{plain_of};
ghost use Rattle.probe_cones.specs.Inputs.{random_width, roles};

use crate::joining::random_flags;
use agm_bits::Memory;
use agm_net::Net;
use std::alloc::Global;

/// How many bits a row of a tape has for the input ports of a net but the clock's.
#[derive(Clone, Copy, Debug, PartialEq, Eq)]
pub struct Widths {
    /// Those of `agm_r`.
    pub random: usize,
    pub others: usize,
}

// How many flags are set.
fn count_set(flags: &[bool]) -> usize
    ensures { result ≡ length (filter (λ f. f) flags.now) }
{
    let mut count = 0;
    for flag in flags {
        if *flag {
            count += 1;
        }
    }
    count
}

/// How many bits the rows of a net's tapes have.
///
/// Takes time and memory in the number of input bits.
///
/// # Errors
///
/// `Memory` where memory runs out.
pub fn widths_of(alloc: Global, net: &Net) -> Result<Widths, Memory>
    ensures random { IfOk result (λ w. w.random ≡ random_width (plain_of net.now)) }
    ensures others { IfOk result (λ w. w.others ≡ length (roles (plain_of net.now))) }
{
    let flags = random_flags(alloc, net)?;
    let random = count_set(flags.as_slice());
    let others = flags.len().saturating_sub(random);
    Ok(Widths { random, others })
}
