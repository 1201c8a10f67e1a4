//! The layout of a plan.

ghost use Rattle.std.specs.Prelude.{◌≡◌, ℕ, Some, IfOk, IsTrue, length, slice_get};
ghost use Rattle.logic_graph.specs.declared.nodes.XanNode.{XanNode as Node};
ghost use Rattle.level_plan.specs.Passes.{has_source};
ghost use Rattle.level_plan.specs.PlanOf.{PlanOf};
ghost use Rattle.pipeline_balance.specs.Ready.{IsLaidOut};

use crate::chains::Layout;
use crate::lasts::last_levels;
use agm_bits::{List, Memory};
use level_plan::Plan;
use logic_graph::Xan;
use secrecy_spread::Secrets;
use std::alloc::Global;

/// The layout of a plan: each node stands at its level, and is carried to the last one at which it is read, sinks to the depth.
pub fn layout_of(alloc: Global, xan: &Xan, secrets: &Secrets, plan: &Plan) -> Result<Layout, Memory>
    requires sources { (k : ℕ) (n : Node) → slice_get xan.now.nodes k ≡ Some n → IsTrue (has_source (length secrets.now.inputs) (length secrets.now.registers) n) }
    requires plan { PlanOf xan.now secrets.now plan.now }
    ensures { IfOk result (IsLaidOut xan.now secrets.now plan.now) }
{
    let secret = plan.secret.as_slice();
    let levels = plan.levels.as_slice();
    let late_first = plan.late_first.as_slice();
    let lasts = last_levels(
        alloc,
        xan.nodes.as_slice(),
        xan.sinks.as_slice(),
        secret,
        levels,
        late_first,
        plan.depth,
    )?;
    Ok(Layout {
        secret: List::from_slice(alloc, secret)?,
        levels: List::from_slice(alloc, levels)?,
        lasts,
        late_first: List::from_slice(alloc, late_first)?,
    })
}
