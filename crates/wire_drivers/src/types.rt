use agm_net::Expr;
use form_bits::Bit;

/// A bit and the expression whose value it has. A constant that is the target is not driven, but the expression is read.
#[derive(Debug, Drop)]
pub struct Line {
    pub target: Bit,
    pub expr: Expr,
}

/// A register.
#[derive(Debug, Drop)]
pub struct Flop {
    pub q: Bit,
    pub next: Expr,
    pub clock: Bit,
}

/// A wire that has no driver and a reader, or two drivers or more.
#[derive(Clone, Copy, Debug, PartialEq, Eq)]
pub struct Wrong {
    pub wire: usize,
    pub drivers: usize,
}
