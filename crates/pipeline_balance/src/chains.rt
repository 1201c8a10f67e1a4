//! Chains of values: a node's value at its level and at later ones.

ghost use Rattle.std.specs.Prelude.{◌≡◌, ◌<◌, ◌≤◌, ◌+◌, ◌-◌, ◌^◌, ℕ, length, IfOk};
ghost use Rattle.pipeline_balance.specs.Shared.{Adds};
ghost use Rattle.pipeline_balance.specs.Valued.{is_secret as is_secret_value, IsValue};
ghost use Rattle.pipeline_balance.specs.Chained.{at_level, stage, IsChain, IsCarried, IsRead};

use crate::values::{Value, delayed};
use agm_bits::{List, Memory};
use share_wiring::Builder;

/// A node's value from its level on: stage i has at level `level + i` what the node has at its level.
#[derive(Drop)]
pub struct Chain<const S: usize> {
    pub level: usize,
    pub stages: List<Value<S>>,
}

/// Where the nodes of a graph stand.
#[derive(Drop)]
pub struct Layout {
    /// Which nodes are secret.
    pub secret: List<bool>,
    /// The level of each node, in cycles, and the last one at which it is read.
    pub levels: List<usize>,
    pub lasts: List<usize>,
    /// For a product of two secrets, whether its first factor is the one that is read one level below it.
    pub late_first: List<bool>,
}

/// The value of a node at a level at which it is read.
pub fn read<const S: usize>(table: &[Chain<S>], node: usize, level: usize) -> Value<S>
    requires { IsRead S table.now node level }
    ensures { result ≡ at_level table.now node level }
{
    let chain = &table[node];
    chain.stages.as_slice()[level - chain.level]
}

/// A chain from a value's level to the last one at which it is read, with registers for each level between.
pub fn make_chain<const S: usize>(
    builder: &mut Builder,
    value: &Value<S>,
    level: usize,
    last: usize,
) -> Result<Chain<S>, Memory>
    requires size { (0 < S) × (S ≤ 16) }
    requires value { IsValue S builder.old value.now }
    requires levels { level ≤ last }
    ensures chain { IfOk result (λ c. IsChain S builder.new (is_secret_value value.now) level last c) }
    ensures first { IfOk result (λ c. stage c 0 ≡ value.now) }
    ensures adds { IfOk result (λ c. Adds S builder.old builder.new 0 0 (IsCarried S c)) }
{
    let mut stages = List::new(builder.alloc());
    stages.push(*value)?;
    let mut reached = *value;
    for at in level..last {
        reached = delayed(builder, &reached)?;
        stages.push(reached)?;
    }
    Ok(Chain { level, stages })
}
