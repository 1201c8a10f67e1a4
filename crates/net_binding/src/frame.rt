ghost use Rattle.std.specs.Prelude.{◌≡◌, ◌∷◌, [], reverse, IfOk, MatchOption};
ghost use Rattle.net_binding.specs.Rest.{next_frame};

use agm_bits::{Memory, Name};
use bound_items::Netlist;

/// Where a walk stands in a module. The item is the next, or the instance whose module the walk is inside.
#[derive(Drop)]
pub(crate) struct Frame {
    pub(crate) number: usize,
    pub(crate) item: usize,
    // How many wires stand before the module's.
    pub(crate) base: usize,
    pub(crate) prefix: Name,
}

/// A walk in a module inside others, of which the last is the innermost.
#[derive(Drop)]
pub(crate) struct Walker {
    pub(crate) netlist: Netlist,
    pub(crate) frame: Frame,
    pub(crate) outer: Vec<Frame>,
}

/// What comes of a step of a walk.
#[derive(Drop)]
pub(crate) enum Step {
    On(Walker),
    Done(Netlist),
}

/// The innermost of frames, and the others.
#[derive(Drop)]
pub(crate) struct Innermost {
    pub(crate) frame: Frame,
    pub(crate) outer: Vec<Frame>,
}

/// A frame behind its item.
pub(crate) fn behind_item(frame: Frame) -> Result<Frame, Memory>
    ensures { IfOk result (λ f. f ≡ next_frame frame) }
{
    match frame.item.checked_add(1) {
        Some(item) => Ok(Frame {
            number: frame.number,
            item,
            base: frame.base,
            prefix: frame.prefix,
        }),
        None => Err(Memory),
    }
}

/// Frames with one inside them.
#[tactic(auto, using(crate::proofs::Stacks::on_top))]
pub(crate) fn pushed(outer: Vec<Frame>, frame: Frame) -> Result<Vec<Frame>, Memory>
    ensures { IfOk result (λ v. reverse v.items ≡ frame ∷ reverse outer.items) }
{
    let mut outer = outer;
    outer.push(frame)?;
    Ok(outer)
}

/// The innermost of frames, where there is one.
pub(crate) fn popped(outer: Vec<Frame>) -> Option<Innermost>
    ensures { MatchOption result (reverse outer.items ≡ []) (λ p. reverse outer.items ≡ p.frame ∷ reverse p.outer.items) }
{
    let mut outer = outer;
    match outer.pop() {
        Some(frame) => Some(Innermost { frame, outer }),
        None => None,
    }
}
