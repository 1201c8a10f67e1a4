//! The nodes of a graph, one after another.

ghost use Rattle.std.specs.Prelude.{◌≡◌, ◌<◌, ◌≤◌, ◌+◌, ◌-◌, ◌*◌, ◌/◌, ◌^◌, ◌&&◌, ◌||◌, ℕ, List, true, false, length, map, IsTrue, IfOk};
ghost use Rattle.agm_net.specs.Formula.{xor};
ghost use Rattle.share_wiring.specs.Adds.{random_bits};
ghost use Rattle.logic_graph.specs.Nodes.{xan_reads_before};
ghost use Rattle.logic_graph.specs.declared.nodes.XanNode.TheVariants.{Not, Xor, And};
ghost use Rattle.pipeline_balance.specs.Signals.{Joins, Products};
ghost use Rattle.pipeline_balance.specs.Growing.{AreInOrder};
ghost use Rattle.pipeline_balance.specs.Shared.{Adds};
ghost use Rattle.pipeline_balance.specs.Valued.{is_secret as is_secret_value, IsValue, signal, MakesValue};
ghost use Rattle.pipeline_balance.specs.Chained.{value_at, chain_at, stage, at_level, kind_at, AreValues, AreSources, IsChain, IsCarried, IsRead, CanBeMade, node_kind, gadgets_in, MakesNode, MakesOperator, secret_at, IsLayout, gadgets_before, IsFilled};

use crate::chains::{Chain, Layout, make_chain, read};
use crate::values::{Value, constant, gadget, inverse, is_secret, product, sum};
use agm_bits::{List, Memory};
use logic_graph::XanNode;
use share_wiring::Builder;

// Whether a node is secret.
fn is_secret_node<const S: usize>(table: &[Chain<S>], node: usize) -> bool
    requires known { node < length table.now }
    requires some { 0 < length (chain_at table.now node).stages }
    ensures { result ≡ kind_at table.now node }
{
    let chain = &table[node];
    is_secret(&chain.stages.as_slice()[0])
}

// Whether two nodes are both secret.
fn are_secret<const S: usize>(table: &[Chain<S>], a: usize, b: usize) -> bool
    requires first { (a < length table.now) × (0 < length (chain_at table.now a).stages) }
    requires second { (b < length table.now) × (0 < length (chain_at table.now b).stages) }
    ensures { result ≡ (kind_at table.now a && kind_at table.now b) }
{
    is_secret_node(table, a) && is_secret_node(table, b)
}

// The product of two secret nodes by a gadget, at a level: the late factor is read one level below it, and the early one two.
fn gadget_node<const S: usize>(
    builder: &mut Builder,
    table: &[Chain<S>],
    late: usize,
    early: usize,
    level: usize,
) -> Result<Value<S>, Memory>
    requires size { (2 ≤ S) × (S ≤ 16) }
    requires values { AreValues S builder.old table.now }
    requires level { 2 ≤ level }
    requires late { IsRead S table.now late (level - 1) }
    requires early { IsRead S table.now early (level - 2) }
    requires random { builder.old.given + S * (S - 1) / 2 ≤ length (random_bits builder.old.ports) }
    requires gadgets { builder.old.gadgets < 2 ^ 32 }
    ensures kind { IfOk result (λ z. IsTrue (is_secret_value z)) }
    ensures made { IfOk result (λ z. MakesValue builder.old builder.new S 1 (S * (S - 1) / 2) z (λ cycles bits. Products cycles (signal S bits (at_level table.now late (level - 1))) (signal S bits (at_level table.now early (level - 2))) (signal S bits z))) }
{
    let x = read(table, late, level - 1);
    let y = read(table, early, level - 2);
    let answer = gadget(builder, &x, &y)?;
    Ok(answer)
}

// The product of two nodes of which one is public, at a level.
fn public_node<const S: usize>(
    builder: &mut Builder,
    table: &[Chain<S>],
    a: usize,
    b: usize,
    level: usize,
) -> Result<Value<S>, Memory>
    requires size { (2 ≤ S) × (S ≤ 16) }
    requires values { AreValues S builder.old table.now }
    requires first { IsRead S table.now a level }
    requires second { IsRead S table.now b level }
    requires public { (kind_at table.now a && kind_at table.now b) ≡ false }
    ensures kind { IfOk result (λ z. is_secret_value z ≡ (kind_at table.now a || kind_at table.now b)) }
    ensures made { IfOk result (λ z. MakesValue builder.old builder.new S 0 0 z (λ cycles bits. Joins cycles (λ x y. x && y) (signal S bits (at_level table.now a level)) (signal S bits (at_level table.now b level)) (signal S bits z))) }
{
    let x = read(table, a, level);
    let y = read(table, b, level);
    let made = product(builder, &x, &y)?;
    Ok(made)
}

// The exclusive or of two nodes at a level.
fn sum_node<const S: usize>(
    builder: &mut Builder,
    table: &[Chain<S>],
    a: usize,
    b: usize,
    level: usize,
) -> Result<Value<S>, Memory>
    requires size { (2 ≤ S) × (S ≤ 16) }
    requires values { AreValues S builder.old table.now }
    requires first { IsRead S table.now a level }
    requires second { IsRead S table.now b level }
    ensures kind { IfOk result (λ z. is_secret_value z ≡ (kind_at table.now a || kind_at table.now b)) }
    ensures made { IfOk result (λ z. MakesValue builder.old builder.new S 0 0 z (λ cycles bits. Joins cycles xor (signal S bits (at_level table.now a level)) (signal S bits (at_level table.now b level)) (signal S bits z))) }
{
    let x = read(table, a, level);
    let y = read(table, b, level);
    let made = sum(builder, &x, &y)?;
    Ok(made)
}

// The product of two nodes at a level: by a gadget where both are secret.
fn product_node<const S: usize>(
    builder: &mut Builder,
    table: &[Chain<S>],
    a: usize,
    b: usize,
    level: usize,
    late_first: bool,
) -> Result<Value<S>, Memory>
    requires size { (2 ≤ S) × (S ≤ 16) }
    requires known { (a < length table.now) × (b < length table.now) }
    requires values { AreValues S builder.old table.now }
    requires can { CanBeMade S 0 0 table.now level late_first (And a b) }
    requires random { builder.old.given + gadgets_in (kind_at table.now) (And a b) * (S * (S - 1) / 2) ≤ length (random_bits builder.old.ports) }
    requires gadgets { builder.old.gadgets + gadgets_in (kind_at table.now) (And a b) ≤ 2 ^ 32 }
    ensures kind { IfOk result (λ z. is_secret_value z ≡ (kind_at table.now a || kind_at table.now b)) }
    ensures made { IfOk result (λ z. MakesValue builder.old builder.new S (gadgets_in (kind_at table.now) (And a b)) (gadgets_in (kind_at table.now) (And a b) * (S * (S - 1) / 2)) z (MakesOperator S table.now (And a b) level z)) }
{
    let both = are_secret(table, a, b);
    if both {
        if late_first {
            let answer = gadget_node(builder, table, a, b, level)?;
            Ok(answer)
        } else {
            let answer = gadget_node(builder, table, b, a, level)?;
            Ok(answer)
        }
    } else {
        let made = public_node(builder, table, a, b, level)?;
        Ok(made)
    }
}

/// The value of a source.
pub fn source_value<const S: usize>(values: &[Value<S>], i: usize) -> Value<S>
    requires { i < length values.now }
    ensures { result ≡ value_at values.now i }
{
    values[i]
}

/// The value of a node behind those of a table, at its level.
pub fn make_node<const S: usize>(
    builder: &mut Builder,
    inputs: &[Value<S>],
    registers: &[Value<S>],
    table: &[Chain<S>],
    node: XanNode,
    level: usize,
    late_first: bool,
) -> Result<Value<S>, Memory>
    requires size { (2 ≤ S) × (S ≤ 16) }
    requires sources { AreSources S builder.old inputs.now × AreSources S builder.old registers.now }
    requires order { IsTrue (xan_reads_before (length table.now) node) }
    requires values { AreValues S builder.old table.now }
    requires can { CanBeMade S (length inputs.now) (length registers.now) table.now level late_first node }
    requires random { builder.old.given + gadgets_in (kind_at table.now) node * (S * (S - 1) / 2) ≤ length (random_bits builder.old.ports) }
    requires gadgets { builder.old.gadgets + gadgets_in (kind_at table.now) node ≤ 2 ^ 32 }
    ensures kind { IfOk result (λ z. is_secret_value z ≡ node_kind (λ i. is_secret_value (value_at inputs.now i)) (λ r. is_secret_value (value_at registers.now r)) (kind_at table.now) node) }
    ensures made { IfOk result (λ z. MakesValue builder.old builder.new S (gadgets_in (kind_at table.now) node) (gadgets_in (kind_at table.now) node * (S * (S - 1) / 2)) z (MakesNode S inputs.now registers.now table.now node level z)) }
{
    match node {
        XanNode::Zero => {
            let made = constant(builder, false)?;
            Ok(made)
        }
        XanNode::One => {
            let made = constant(builder, true)?;
            Ok(made)
        }
        XanNode::Input(i) => {
            let given = source_value(inputs, i);
            Ok(given)
        }
        XanNode::Q(r) => {
            let held = source_value(registers, r);
            Ok(held)
        }
        XanNode::Not(a) => {
            let x = read(table, a, level);
            let made = inverse(builder, &x)?;
            Ok(made)
        }
        XanNode::Xor(a, b) => {
            let made = sum_node(builder, table, a, b, level)?;
            Ok(made)
        }
        XanNode::And(a, b) => {
            let made = product_node(builder, table, a, b, level, late_first)?;
            Ok(made)
        }
    }
}

// The chain of a node behind those of a table.
fn next_chain<const S: usize>(
    builder: &mut Builder,
    inputs: &[Value<S>],
    registers: &[Value<S>],
    table: &[Chain<S>],
    kind: XanNode,
    level: usize,
    last: usize,
    late_first: bool,
) -> Result<Chain<S>, Memory>
    requires size { (2 ≤ S) × (S ≤ 16) }
    requires sources { AreSources S builder.old inputs.now × AreSources S builder.old registers.now }
    requires order { IsTrue (xan_reads_before (length table.now) kind) }
    requires values { AreValues S builder.old table.now }
    requires can { CanBeMade S (length inputs.now) (length registers.now) table.now level late_first kind }
    requires last { level ≤ last }
    requires random { builder.old.given + gadgets_in (kind_at table.now) kind * (S * (S - 1) / 2) ≤ length (random_bits builder.old.ports) }
    requires gadgets { builder.old.gadgets + gadgets_in (kind_at table.now) kind ≤ 2 ^ 32 }
    ensures chain { IfOk result (IsChain S builder.new (node_kind (λ i. is_secret_value (value_at inputs.now i)) (λ r. is_secret_value (value_at registers.now r)) (kind_at table.now) kind) level last) }
    ensures adds { IfOk result (λ c. Adds S builder.old builder.new (gadgets_in (kind_at table.now) kind) (gadgets_in (kind_at table.now) kind * (S * (S - 1) / 2)) (λ cycles bits. MakesNode S inputs.now registers.now table.now kind level (stage c 0) cycles bits × IsCarried S c cycles bits)) }
{
    let value = make_node(builder, inputs, registers, table, kind, level, late_first)?;
    let made = make_chain(builder, &value, level, last)?;
    Ok(made)
}

/// The chains of all nodes of a graph, each made as soon as its operands are.
pub fn make_nodes<const S: usize>(
    builder: &mut Builder,
    inputs: &[Value<S>],
    registers: &[Value<S>],
    graph: &[XanNode],
    layout: &Layout,
) -> Result<List<Chain<S>>, Memory>
    requires size { (2 ≤ S) × (S ≤ 16) }
    requires sources { AreSources S builder.old inputs.now × AreSources S builder.old registers.now }
    requires order { AreInOrder graph.now }
    requires layout { IsLayout graph.now (map is_secret_value inputs.now) (map is_secret_value registers.now) layout.now }
    requires random { builder.old.given + gadgets_before (secret_at layout.now) graph.now (length graph.now) * (S * (S - 1) / 2) ≤ length (random_bits builder.old.ports) }
    requires gadgets { builder.old.gadgets + gadgets_before (secret_at layout.now) graph.now (length graph.now) ≤ 2 ^ 32 }
    ensures { IfOk result (IsFilled S graph.now inputs.now registers.now layout.now builder.old builder.new (length graph.now)) }
{
    let levels = layout.levels.as_slice();
    let lasts = layout.lasts.as_slice();
    let late_first = layout.late_first.as_slice();
    let mut table = List::new(builder.alloc());
    for k in 0..graph.len() {
        let made = next_chain(
            builder,
            inputs,
            registers,
            table.as_slice(),
            graph[k],
            levels[k],
            lasts[k],
            late_first[k],
        )?;
        table.push(made)?;
    }
    Ok(table)
}
