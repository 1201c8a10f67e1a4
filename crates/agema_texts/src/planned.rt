//! What the naive mode makes of a net.

ghost use Rattle.std.specs.Prelude.{IfOk};
ghost use Rattle.level_plan.specs.PlanOf.{PlanOf};
ghost use Rattle.secrecy_spread.specs.Mode.{IsMadeBy};
ghost use Rattle.secrecy_spread.specs.Naive.{NaiveGadgets, NaiveDepth};
ghost use Rattle.secrecy_spread.specs.NodeSecrets.{Fits};
ghost use Rattle.agema_texts.specs.Planned.{HasEntries};

use agm_bits::Memory;
use level_plan::{Plan, plan};
use logic_graph::{Graph, Xan};
use naive_mode::naive;
use secrecy_spread::Secrets;
use std::alloc::Global;

/// A graph of inversions, exclusive ors and products, and its plan.
#[derive(Debug, Drop)]
pub(crate) struct Planned {
    pub xan: Xan,
    pub plan: Plan,
}

/// The graph of the naive mode, and its plan.
///
/// # Errors
///
/// `Memory` where memory runs out.
pub(crate) fn plan_naive(alloc: Global, graph: &Graph, secrets: &Secrets) -> Result<Planned, Memory>
    requires fits { Fits graph.now secrets.now }
    requires entries { HasEntries graph.now secrets.now }
    ensures made { IfOk result (λ p. IsMadeBy NaiveGadgets NaiveDepth graph.now secrets.now p.xan) }
    ensures planned { IfOk result (λ p. PlanOf p.xan secrets.now p.plan) }
{
    let xan = naive(alloc, graph, secrets)?;
    let plan = plan(alloc, &xan, secrets)?;
    Ok(Planned { xan, plan })
}
