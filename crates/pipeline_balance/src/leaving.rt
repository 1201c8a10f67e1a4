//! The ports that stand for an output port.

ghost use Rattle.std.specs.Prelude.{◌≡◌, ◌<◌, ◌≤◌, ◌+◌, ◌^◌, ℕ, true, false, map, length, nat_eq, codes, IfOk, OnOk};
ghost use Rattle.std.specs.List.{AllByRecursion, starts_with};
ghost use Rattle.std.specs.Str.{bytes_eq};
ghost use Rattle.agm_net.specs.Plain.{bit_names, is_input};
ghost use Rattle.agm_net.specs.Role.{share_name as share_name_of};
ghost use Rattle.agm_net.specs.Writable.{IsWritable};
ghost use Rattle.share_wiring.specs.Built.{MayBeGiven};
ghost use Rattle.share_wiring.specs.Shape.{header_of};
ghost use Rattle.share_wiring.specs.Wiring.{IsSharing, share};
ghost use Rattle.pipeline_balance.specs.Chained.{value_at, AreSources};
ghost use Rattle.pipeline_balance.specs.Leaving.{made_count, made_header, sharing_of, FitTogether, AreRowsLed, IsPortLed, AreSpread};
ghost use Rattle.pipeline_balance.specs.Ports.{FitsBeside};
ghost use Rattle.pipeline_balance.specs.Valued.{is_secret as is_secret_value, wires_of};

use crate::nodes::source_value;
use crate::registers::public_of;
use crate::values::{Value, secret_of};
use agm_bits::{List, Memory, Name};
use agm_net::{Port, Range, Way};
use share_wiring::{Builder, Sharing};
use std::alloc::Global;

// The name of the port with a share of a port.
fn share_name(alloc: Global, index: usize, name: &[u8]) -> Result<Name, Memory>
    ensures { IfOk result (λ share. share ≡ share_name_of index name.now) }
{
    let head = format!(in alloc; "agm_s{index}_")?;
    let mut share = Name::from_slice(alloc, head.as_bytes())?;
    share.extend(name)?;
    Ok(share)
}

// Makes an output port at a place, which has the bits of the wires in a row.
fn row_out(
    builder: &mut Builder,
    place: usize,
    name: &[u8],
    range: Option<Range>,
    row: &[usize],
) -> Result<(), Memory>
    requires fit { FitsBeside (map header_of builder.old.ports) (record { name = name.now; way = Way.Output; range = range }) }
    requires other { bytes_eq name.now (codes "agm_r") ≡ false }
    requires place { (1 ≤ place) × (place ≤ length builder.old.ports) }
    requires bits { length row.now ≡ length (bit_names name.now range) }
    requires given { AllByRecursion (MayBeGiven builder.old.wires name.now) row.now }
    ensures { OnOk result (AreRowsLed place 1 (λ i. record { name = name.now; way = Way.Output; range = range }) (λ i. row.now) builder.old builder.new) }
{
    let _clock = builder.clock();
    builder.port_out(place, name, range, row)?;
    Ok(())
}

// The sharings of values.
fn sharings_of<const S: usize>(
    builder: &mut Builder,
    values: &[Value<S>],
) -> Result<List<Sharing<S>>, Memory>
    requires size { (0 < S) × (S ≤ 16) }
    requires values { AreSources S builder.old values.now }
    ensures { IfOk result (AreSpread S builder.old builder.new values.now) }
{
    let mut sharings = List::new(builder.alloc());
    for j in 0..values.len() {
        let value = source_value(values, j);
        let sharing = secret_of(builder, &value)?;
        sharings.push(sharing)?;
    }
    Ok(sharings)
}

// The wires of one share of sharings.
fn share_row<const S: usize>(
    alloc: Global,
    sharings: &[Sharing<S>],
    index: usize,
) -> Result<List<usize>, Memory>
    requires size { S ≤ 16 }
    requires index { index < S }
    ensures { IfOk result (λ row. row ≡ map (λ z. share z.shares index) sharings.now) }
{
    let mut row = List::new(alloc);
    for j in 0..sharings.len() {
        row.push(sharings[j].shares[index])?;
    }
    Ok(row)
}

// The wires of public values.
fn public_row<const S: usize>(alloc: Global, values: &[Value<S>]) -> Result<List<usize>, Memory>
    requires size { S ≤ 16 }
    requires public { (j : ℕ) → j < length values.now → is_secret_value (value_at values.now j) ≡ false }
    ensures { IfOk result (λ row. row ≡ map (λ v. share (wires_of v) 0) values.now) }
{
    let mut row = List::new(alloc);
    for j in 0..values.len() {
        let value = source_value(values, j);
        let wire = public_of(&value);
        row.push(wire.shares[0])?;
    }
    Ok(row)
}

// Makes the output port of one share of sharings.
fn share_out<const S: usize>(
    builder: &mut Builder,
    place: usize,
    index: usize,
    port: &Port,
    sharings: &[Sharing<S>],
) -> Result<(), Memory>
    requires fit { FitsBeside (map header_of builder.old.ports) (made_header true port.now index) }
    requires written { IsWritable port.now.name }
    requires output { is_input port.now ≡ false }
    requires place { (1 ≤ place) × (place ≤ length builder.old.ports) }
    requires bits { length sharings.now ≡ length (bit_names port.now.name port.now.range) }
    requires sharings { (j : ℕ) → j < length sharings.now → IsSharing builder.old.wires S (sharing_of sharings.now j) }
    requires size { (2 ≤ S) × (S ≤ 16) }
    requires index { index < S }
    ensures { OnOk result (AreRowsLed place 1 (λ i. made_header true port.now index) (λ i. map (λ z. share z.shares index) sharings.now) builder.old builder.new) }
{
    let name = share_name(builder.alloc(), index, port.name.as_slice())?;
    let row = share_row(builder.alloc(), sharings, index)?;
    row_out(builder, place, name.as_slice(), port.range, row.as_slice())?;
    Ok(())
}

// Makes the output ports of all shares of sharings.
fn shares_out<const S: usize>(
    builder: &mut Builder,
    place: usize,
    port: &Port,
    sharings: &[Sharing<S>],
) -> Result<(), Memory>
    requires fit { FitTogether (map header_of builder.old.ports) S (made_header true port.now) }
    requires written { IsWritable port.now.name }
    requires output { is_input port.now ≡ false }
    requires place { (1 ≤ place) × (place ≤ length builder.old.ports) }
    requires room { place + S < 2 ^ 64 }
    requires bits { length sharings.now ≡ length (bit_names port.now.name port.now.range) }
    requires sharings { (j : ℕ) → j < length sharings.now → IsSharing builder.old.wires S (sharing_of sharings.now j) }
    requires size { (2 ≤ S) × (S ≤ 16) }
    ensures { OnOk result (AreRowsLed place S (made_header true port.now) (λ i. map (λ z. share z.shares i) sharings.now) builder.old builder.new) }
{
    for i in 0..S {
        share_out(builder, place + i, i, port, sharings)?;
    }
    Ok(())
}

// Makes the output ports of the shares of a port.
fn shared_out<const S: usize>(
    builder: &mut Builder,
    place: usize,
    port: &Port,
    values: &[Value<S>],
) -> Result<(), Memory>
    requires fit { FitTogether (map header_of builder.old.ports) S (made_header true port.now) }
    requires written { IsWritable port.now.name }
    requires output { is_input port.now ≡ false }
    requires place { (1 ≤ place) × (place ≤ length builder.old.ports) }
    requires room { place + S < 2 ^ 64 }
    requires bits { length values.now ≡ length (bit_names port.now.name port.now.range) }
    requires values { AreSources S builder.old values.now }
    requires size { (2 ≤ S) × (S ≤ 16) }
    ensures { OnOk result (IsPortLed S true port.now values.now place builder.old builder.new) }
{
    let sharings = sharings_of(builder, values)?;
    shares_out(builder, place, port, sharings.as_slice())?;
    Ok(())
}

// Makes a public output port.
fn public_out<const S: usize>(
    builder: &mut Builder,
    place: usize,
    port: &Port,
    values: &[Value<S>],
) -> Result<(), Memory>
    requires fit { FitTogether (map header_of builder.old.ports) 1 (made_header false port.now) }
    requires free { starts_with nat_eq port.now.name (codes "agm_") ≡ false }
    requires output { is_input port.now ≡ false }
    requires place { (1 ≤ place) × (place ≤ length builder.old.ports) }
    requires bits { length values.now ≡ length (bit_names port.now.name port.now.range) }
    requires values { AreSources S builder.old values.now }
    requires public { (j : ℕ) → j < length values.now → is_secret_value (value_at values.now j) ≡ false }
    requires size { S ≤ 16 }
    ensures { OnOk result (IsPortLed S false port.now values.now place builder.old builder.new) }
{
    let row = public_row(builder.alloc(), values)?;
    row_out(
        builder,
        place,
        port.name.as_slice(),
        port.range,
        row.as_slice(),
    )?;
    Ok(())
}

/// Makes the ports that stand for an output port, the first of them at a place: one for each share, or a public one.
pub fn port_led<const S: usize>(
    builder: &mut Builder,
    place: usize,
    port: &Port,
    shared: bool,
    values: &[Value<S>],
) -> Result<(), Memory>
    requires fit { FitTogether (map header_of builder.old.ports) (made_count S shared) (made_header shared port.now) }
    requires free { starts_with nat_eq port.now.name (codes "agm_") ≡ false }
    requires written { IsWritable port.now.name }
    requires output { is_input port.now ≡ false }
    requires place { (1 ≤ place) × (place ≤ length builder.old.ports) }
    requires room { place + made_count S shared < 2 ^ 64 }
    requires bits { length values.now ≡ length (bit_names port.now.name port.now.range) }
    requires values { AreSources S builder.old values.now }
    requires public { shared ≡ false → (j : ℕ) → j < length values.now → is_secret_value (value_at values.now j) ≡ false }
    requires size { (2 ≤ S) × (S ≤ 16) }
    ensures { OnOk result (IsPortLed S shared port.now values.now place builder.old builder.new) }
{
    if shared {
        shared_out(builder, place, port, values)
    } else {
        public_out(builder, place, port, values)
    }
}
