//! The pipeline of a graph with registers.

ghost use Rattle.std.specs.Prelude.{◌≡◌, ◌<◌, ◌≤◌, ◌+◌, ◌-◌, ◌*◌, ◌/◌, ◌^◌, ℕ, List, false, length, map, IfOk};
ghost use Rattle.share_wiring.specs.Wiring.{IsPublicWire};
ghost use Rattle.share_wiring.specs.Adds.{random_bits};
ghost use Rattle.pipeline_balance.specs.Growing.{AreInOrder};
ghost use Rattle.pipeline_balance.specs.Valued.{is_secret as is_secret_value};
ghost use Rattle.pipeline_balance.specs.Chained.{value_at, at_level, AreSources, IsRead, secret_at, IsLayout, gadgets_before};
ghost use Rattle.pipeline_balance.specs.Piped.{node_at, machine_of, ReachDepth, MakesPipeline};

use crate::chains::{Chain, Layout, read};
use crate::nodes::make_nodes;
use crate::registers::{close_registers, hold_registers};
use crate::values::Value;
use agm_bits::{List, Memory};
use logic_graph::XanNode;
use share_wiring::Builder;
use std::alloc::Global;

// The values of nodes at a level.
fn read_all<const S: usize>(
    alloc: Global,
    table: &[Chain<S>],
    nodes: &[usize],
    level: usize,
) -> Result<List<Value<S>>, Memory>
    requires { (j : ℕ) → j < length nodes.now → IsRead S table.now (node_at nodes.now j) level }
    ensures one_each { IfOk result (λ values. length values ≡ length nodes.now) }
    ensures read { IfOk result (λ values. (j : ℕ) → j < length nodes.now → value_at values j ≡ at_level table.now (node_at nodes.now j) level) }
{
    let mut values = List::new(alloc);
    for j in 0..nodes.len() {
        let value = read(table, nodes[j], level);
        values.push(value)?;
    }
    Ok(values)
}

/// Makes the pipeline of a graph: its registers, its nodes, and the selection of the initial values before each register's last stage.
/// Answers the outputs' values, which stand `depth` cycles behind the inputs.
pub fn make_pipeline<const S: usize>(
    builder: &mut Builder,
    load: usize,
    inputs: &[Value<S>],
    firsts: &[Value<S>],
    graph: &[XanNode],
    outputs: &[usize],
    nexts: &[usize],
    layout: &Layout,
    depth: usize,
) -> Result<List<Value<S>>, Memory>
    requires size { (2 ≤ S) × (S ≤ 16) }
    requires load { IsPublicWire builder.old.wires load }
    requires inputs { AreSources S builder.old inputs.now }
    requires firsts { AreSources S builder.old firsts.now }
    requires one_each { length nexts.now ≡ length firsts.now }
    requires order { AreInOrder graph.now }
    requires layout { IsLayout graph.now (map is_secret_value inputs.now) (map is_secret_value firsts.now) layout.now }
    requires outputs { ReachDepth graph.now layout.now depth outputs.now }
    requires nexts { ReachDepth graph.now layout.now depth nexts.now }
    requires public { (r : ℕ) → r < length nexts.now → is_secret_value (value_at firsts.now r) ≡ false → secret_at layout.now (node_at nexts.now r) ≡ false }
    requires random { builder.old.given + gadgets_before (secret_at layout.now) graph.now (length graph.now) * (S * (S - 1) / 2) ≤ length (random_bits builder.old.ports) }
    requires gadgets { builder.old.gadgets + gadgets_before (secret_at layout.now) graph.now (length graph.now) ≤ 2 ^ 32 }
    ensures pipeline { IfOk result (MakesPipeline S builder.old builder.new (machine_of graph.now (length inputs.now) outputs.now nexts.now) depth (gadgets_before (secret_at layout.now) graph.now (length graph.now)) inputs.now firsts.now load) }
    ensures kinds { IfOk result (λ values. (o : ℕ) → o < length outputs.now → is_secret_value (value_at values o) ≡ secret_at layout.now (node_at outputs.now o)) }
{
    let held = hold_registers(builder, firsts)?;
    let table = make_nodes(builder, inputs, held.as_slice(), graph, layout)?;
    let ends = read_all(builder.alloc(), table.as_slice(), outputs, depth)?;
    let stored = read_all(builder.alloc(), table.as_slice(), nexts, depth)?;
    close_registers(builder, load, firsts, held.as_slice(), stored.as_slice())?;
    Ok(ends)
}
