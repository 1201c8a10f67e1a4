//! The kinds of a gadget's parts, and the shapes of their names.

ghost use Rattle.std.specs.Prelude.{◌≡◌, ◌≢◌, ◌<◌, ◌≤◌, ◌+◌, ◌*◌, ◌^◌, ◌↔◌, ℕ, IsTrue, MatchOption, Some, slice_get};
ghost use Rattle.agm_net.specs.Label.{is_clock_kind as clock_kind, is_share_kind as share_kind};
ghost use Rattle.hpc2_audit.specs.Parts.{HasIndices};
ghost use Rattle.agm_net.specs.declared.label.PartKind.{PartKind};
ghost use Rattle.agm_net.proofs.OnePart.{word};
ghost use Rattle.hpc2_audit.specs.Kinds as spec;

use agm_net::PartKind;

/// All kinds.
pub(crate) const KINDS: [PartKind; 17] = [
    PartKind::Clk,
    PartKind::A,
    PartKind::B,
    PartKind::R,
    PartKind::Rr,
    PartKind::Bb,
    PartKind::Vx,
    PartKind::V,
    PartKind::Na,
    PartKind::Ux,
    PartKind::U,
    PartKind::Wx,
    PartKind::W,
    PartKind::Mx,
    PartKind::M,
    PartKind::S,
    PartKind::C,
];

/// What stands behind the letters of a part's name.
#[derive(Clone, Copy, Debug, PartialEq, Eq)]
pub(crate) enum Shape {
    /// Nothing.
    Bare,
    /// `[i]`.
    Bracket,
    /// `_i`.
    Single,
    /// `_i_j`.
    Double,
}

/// The letters of a kind.
pub(crate) fn word_of(kind: PartKind) -> &'static [u8]
    ensures { result.now ≡ word kind }
{
    match kind {
        PartKind::Clk => b"clk".as_slice(),
        PartKind::A => b"a".as_slice(),
        PartKind::B => b"b".as_slice(),
        PartKind::R => b"r".as_slice(),
        PartKind::Rr => b"rr".as_slice(),
        PartKind::Bb => b"bb".as_slice(),
        PartKind::Vx => b"vx".as_slice(),
        PartKind::V => b"v".as_slice(),
        PartKind::Na => b"na".as_slice(),
        PartKind::Ux => b"ux".as_slice(),
        PartKind::U => b"u".as_slice(),
        PartKind::Wx => b"wx".as_slice(),
        PartKind::W => b"w".as_slice(),
        PartKind::Mx => b"mx".as_slice(),
        PartKind::M => b"m".as_slice(),
        PartKind::S => b"s".as_slice(),
        PartKind::C => b"c".as_slice(),
    }
}

/// The shape of a kind.
pub(crate) fn shape_of(kind: PartKind) -> Shape
    ensures { result ≡ spec.shape kind }
{
    match kind {
        PartKind::Clk => Shape::Bare,
        PartKind::A | PartKind::B | PartKind::R | PartKind::C => Shape::Bracket,
        PartKind::Bb | PartKind::Na | PartKind::Mx | PartKind::M => Shape::Single,
        PartKind::Rr
        | PartKind::Vx
        | PartKind::V
        | PartKind::Ux
        | PartKind::U
        | PartKind::Wx
        | PartKind::W
        | PartKind::S => Shape::Double,
    }
}

// The kind among these with these letters.
fn kind_among(kinds: &[PartKind], letters: &[u8]) -> Option<PartKind>
    requires { (k : PartKind) → (n : ℕ) × (slice_get kinds.now n ≡ Some k) }
    ensures { MatchOption result ((k : PartKind) → letters.now ≢ word k) (λ k. letters.now ≡ word k) }
{
    for kind in kinds {
        if letters == word_of(*kind) {
            return Some(*kind);
        }
    }
    None
}

/// The kind with these letters.
pub(crate) fn kind_of(letters: &[u8]) -> Option<PartKind>
    ensures { MatchOption result ((k : PartKind) → letters.now ≢ word k) (λ k. letters.now ≡ word k) }
{
    kind_among(KINDS.as_slice(), letters)
}

/// Whether parts of a kind depend on the clock alone.
pub(crate) fn is_clock_kind(kind: PartKind) -> bool
    ensures { result ≡ clock_kind kind }
{
    matches!(kind, PartKind::Clk)
}

/// Whether parts of a kind depend on one share alone.
pub(crate) fn is_share_kind(kind: PartKind) -> bool
    ensures { result ≡ share_kind kind }
{
    match kind {
        PartKind::Clk
        | PartKind::R
        | PartKind::Rr
        | PartKind::Vx
        | PartKind::V
        | PartKind::Ux
        | PartKind::Wx => false,
        PartKind::A
        | PartKind::B
        | PartKind::Bb
        | PartKind::Na
        | PartKind::U
        | PartKind::W
        | PartKind::Mx
        | PartKind::M
        | PartKind::S
        | PartKind::C => true,
    }
}

/// Whether a part of a kind has these indices in a gadget of an order.
pub(crate) fn has_indices(order: u32, kind: PartKind, i: usize, j: usize) -> bool
    ensures { IsTrue result ↔ HasIndices order kind i j }
{
    let order = order as usize;
    match kind {
        PartKind::Clk => i == 0 && j == 0,
        PartKind::R | PartKind::Rr => i < j && j <= order,
        PartKind::Vx | PartKind::V | PartKind::Ux | PartKind::U | PartKind::Wx | PartKind::W => i
            <= order
            && (j <= order && i != j),
        PartKind::S => i <= order && (1 <= j && j < 2 * order),
        PartKind::A
        | PartKind::B
        | PartKind::Bb
        | PartKind::Na
        | PartKind::Mx
        | PartKind::M
        | PartKind::C => i <= order && j == 0,
    }
}
