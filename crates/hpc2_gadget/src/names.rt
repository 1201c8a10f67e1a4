//! The names of a gadget's parts.

ghost use Rattle.std.specs.Prelude.{◌≡◌, ◌<◌, ◌≤◌, ◌+◌, ◌-◌, ◌*◌, ◌^◌, codes, IfOk};
ghost use Rattle.agm_net.specs.Plain.{select_name};
ghost use Rattle.agm_net.specs.Label.{gadget_name, numbered, paired, part_name as part_name_of, pair_number as pair_number_of, pairs_before};
ghost use Rattle.hpc2_gadget.specs.Order.{IsIndex};

use agm_bits::{Memory, Name};
use agm_net::PartKind;
use std::alloc::Global;

/// Which gadget is made, on how many shares, and its clock.
#[derive(Clone, Copy)]
pub struct Place {
    pub alloc: Global,
    pub gadget: usize,
    pub shares: usize,
    pub clock: usize,
    ghost few: { gadget < 2 ^ 32 },
    ghost size: { (2 ≤ shares) × (shares ≤ 16) },
}

// The number of a pair of indices: those with lower ones come first.
fn pair_number(shares: usize, i: usize, j: usize) -> usize
    requires size { shares ≤ 16 }
    requires pair { (i < j) × (j < shares) }
    ensures { result ≡ pair_number_of shares i j }
{
    let mut before = 0;
    for lower in 0..i {
        before += shares - 1 - lower;
    }
    before + (j - i - 1)
}

fn bare(place: Place, word: &str) -> Result<Name, Memory>
    ensures { IfOk result (λ n. n ≡ gadget_name place.gadget word.now) }
{
    let gadget = place.gadget;
    let text = format!(in place.alloc; "agm_g{gadget}.{word}")?;
    Ok(Name::from_slice(place.alloc, text.as_bytes())?)
}

fn with_index(place: Place, word: &str, i: usize) -> Result<Name, Memory>
    ensures { IfOk result (λ n. n ≡ gadget_name place.gadget (select_name word.now i)) }
{
    let gadget = place.gadget;
    let text = format!(in place.alloc; "agm_g{gadget}.{word}[{i}]")?;
    Ok(Name::from_slice(place.alloc, text.as_bytes())?)
}

fn with_number(place: Place, word: &str, i: usize) -> Result<Name, Memory>
    ensures { IfOk result (λ n. n ≡ gadget_name place.gadget (numbered word.now i)) }
{
    let gadget = place.gadget;
    let text = format!(in place.alloc; "agm_g{gadget}.{word}_{i}")?;
    Ok(Name::from_slice(place.alloc, text.as_bytes())?)
}

fn with_pair(place: Place, word: &str, i: usize, j: usize) -> Result<Name, Memory>
    ensures { IfOk result (λ n. n ≡ gadget_name place.gadget (paired word.now i j)) }
{
    let gadget = place.gadget;
    let text = format!(in place.alloc; "agm_g{gadget}.{word}_{i}_{j}")?;
    Ok(Name::from_slice(place.alloc, text.as_bytes())?)
}

/// The name of a part.
pub fn part_name(place: Place, kind: PartKind, i: usize, j: usize) -> Result<Name, Memory>
    requires { IsIndex place.shares kind i j }
    ensures { IfOk result (λ n. n ≡ part_name_of place.shares place.gadget kind i j) }
{
    match kind {
        PartKind::Clk => bare(place, "clk"),
        PartKind::A => with_index(place, "a", i),
        PartKind::B => with_index(place, "b", i),
        PartKind::R => with_index(place, "r", pair_number(place.shares, i, j)),
        PartKind::Rr => with_pair(place, "rr", i, j),
        PartKind::Bb => with_number(place, "bb", i),
        PartKind::Vx => with_pair(place, "vx", i, j),
        PartKind::V => with_pair(place, "v", i, j),
        PartKind::Na => with_number(place, "na", i),
        PartKind::Ux => with_pair(place, "ux", i, j),
        PartKind::U => with_pair(place, "u", i, j),
        PartKind::Wx => with_pair(place, "wx", i, j),
        PartKind::W => with_pair(place, "w", i, j),
        PartKind::Mx => with_number(place, "mx", i),
        PartKind::M => with_number(place, "m", i),
        PartKind::S => with_pair(place, "s", i, j),
        PartKind::C => with_index(place, "c", i),
    }
}
