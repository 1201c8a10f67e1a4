//! Input ports, and the values of their bits.

ghost use Rattle.std.specs.Prelude.{◌≡◌, ◌<◌, ◌≤◌, ◌-◌, ℕ, Bool, map, length, IfOk};
ghost use Rattle.share_wiring.specs.Own.{upto};
ghost use Rattle.share_wiring.specs.Recombine.{recombined_rows};
ghost use Rattle.share_wiring.specs.Shape.{header_of};
ghost use Rattle.share_wiring.specs.Wiring.{share};
ghost use Rattle.pipeline_balance.specs.Ports.{row_of, public_value, secret_value, value_row, FitOneByOne, AreEntered};

use crate::values::Value;
use agm_bits::{List, Memory, Name};
use agm_net::Range;
use share_wiring::{Builder, Sharing};
use std::alloc::Global;

/// Makes input ports of these names, which stand last, each with this range. Answers the wires of each, from the most significant.
pub fn ports_in(
    builder: &mut Builder,
    names: &[Name],
    range: Option<Range>,
) -> Result<List<List<usize>>, Memory>
    requires fit { FitOneByOne (map header_of builder.old.ports) range names.now }
    ensures { IfOk result (AreEntered range names.now builder.old builder.new (length names.now)) }
{
    let mut rows = List::new(builder.alloc());
    for k in 0..names.len() {
        let _clock = builder.clock();
        let bits = builder.port_in(names[k].as_slice(), range)?;
        rows.push(bits)?;
    }
    Ok(rows)
}

// The sharing of the wires in place j of each row.
fn sharing_at<const S: usize>(rows: &[List<usize>], j: usize) -> Sharing<S>
    requires each { length rows.now ≡ S }
    requires wide { (i : ℕ) → i < S → j < length (row_of rows.now i) }
    requires size { S ≤ 16 }
    ensures { result.shares ≡ upto S (λ i. share (row_of rows.now i) j) }
{
    let mut shares = [0usize; S];
    for i in 0..S {
        shares[i] = rows[i].as_slice()[j];
    }
    Sharing { shares }
}

/// The secret values whose shares stand in rows, one row for each share. They have what the rows' bits recombine to.
pub fn shared_values<const S: usize>(
    alloc: Global,
    rows: &[List<usize>],
) -> Result<List<Value<S>>, Memory>
    requires each { length rows.now ≡ S }
    requires wide { (i : ℕ) → i < S → length (row_of rows.now i) ≡ length (row_of rows.now 0) }
    requires size { (0 < S) × (S ≤ 16) }
    ensures values { IfOk result (λ values. values ≡ upto (length (row_of rows.now 0)) (secret_value S rows.now)) }
    ensures told { IfOk result (λ values. (bits : ℕ → ℕ → Bool) (t : ℕ) → recombined_rows (S - 1) (λ i. map (bits t) (row_of rows.now i)) ≡ value_row S bits t values) }
{
    let mut values = List::new(alloc);
    let first = &rows[0];
    for j in 0..first.len() {
        let sharing = sharing_at(rows, j);
        values.push(Value::Secret(sharing))?;
    }
    Ok(values)
}

/// The public values of wires.
pub fn public_values<const S: usize>(
    alloc: Global,
    wires: &[usize],
) -> Result<List<Value<S>>, Memory>
    requires size { S ≤ 16 }
    ensures values { IfOk result (λ values. values ≡ map public_value wires.now) }
    ensures told { IfOk result (λ values. (bits : ℕ → ℕ → Bool) (t : ℕ) → map (bits t) wires.now ≡ value_row S bits t values) }
{
    let mut values = List::new(alloc);
    for j in 0..wires.len() {
        values.push(Value::Public(Sharing { shares: [wires[j]] }))?;
    }
    Ok(values)
}
