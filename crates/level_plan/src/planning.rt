ghost use Rattle.std.specs.Prelude.{◌≡◌, ℕ, Some, IfOk, IsTrue, length, slice_get};
ghost use Rattle.logic_graph.specs.declared.nodes.XanNode.{XanNode};
ghost use Rattle.level_plan.specs.PlanOf.{PlanOf};
ghost use Rattle.level_plan.specs.Passes.{has_source};

use crate::Plan;
use crate::flags::secret_nodes;
use crate::levels::{depth, gadgets, late_operands, node_levels};
use agm_bits::Memory;
use logic_graph::Xan;
use secrecy_spread::Secrets;
use std::alloc::Global;

/// The plan of a graph of inversions, products and exclusive ors: when each node is there, and how each gadget takes its
/// operands. On a tie the first operand of a gadget is the late one.
///
/// Takes linear time and memory in the number of nodes.
///
/// # Errors
///
/// `Memory` where memory runs out.
pub fn plan(alloc: Global, xan: &Xan, secrets: &Secrets) -> Result<Plan, Memory>
    requires sources { (k : ℕ) (n : XanNode) → slice_get xan.now.nodes k ≡ Some n → IsTrue (has_source (length secrets.now.inputs) (length secrets.now.registers) n) }
    ensures { IfOk result (PlanOf xan.now secrets.now) }
{
    let nodes = xan.nodes.as_slice();
    let secret = secret_nodes(
        alloc,
        nodes,
        secrets.inputs.as_slice(),
        secrets.registers.as_slice(),
    )?;
    let levels = node_levels(alloc, nodes, secret.as_slice())?;
    let late_first = late_operands(alloc, nodes, secret.as_slice(), levels.as_slice())?;
    let gadgets = gadgets(nodes, secret.as_slice());
    let depth = depth(xan.sinks.as_slice(), secret.as_slice(), levels.as_slice());
    Ok(Plan {
        secret,
        levels,
        late_first,
        gadgets,
        depth,
    })
}
