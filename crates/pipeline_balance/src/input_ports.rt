//! The input ports of a masked net for those of the original, and the values of their bits.

ghost use Rattle.std.specs.Prelude.{◌≡◌, ◌<◌, ◌≤◌, ◌+◌, ◌∷◌, [], ℕ, true, false, length, map, replicate, filter, codes, nat_eq, IfOk, IsTrue};
ghost use Rattle.std.specs.List.{starts_with};
ghost use Rattle.agm_net.specs.Plain.{bit_names, is_input, data_ports};
ghost use Rattle.agm_net.specs.Role.{share_name as share_name_of, IsOfShare};
ghost use Rattle.agm_net.specs.View.{plain_of};
ghost use Rattle.share_wiring.specs.Own.{upto};
ghost use Rattle.share_wiring.specs.Recombine.{port_value, is_shared};
ghost use Rattle.share_wiring.specs.Shape.{header_of};
ghost use Rattle.pipeline_balance.specs.Apart.{HasNames};
ghost use Rattle.pipeline_balance.specs.Ports.{input_header, row_of, FitsBeside};
ghost use Rattle.pipeline_balance.specs.Entering.{FitInOrder, Enters, HasPublicBits, named_headers, shared_row, is_clock_number, is_data_port, if_data, headers_for, kinds_for, values_for};

use crate::ports::{ports_in, public_values, shared_values};
use crate::values::Value;
use agm_bits::{List, Memory, Name};
use agm_net::{Net, Port, Range, Way};
use share_wiring::{Builder, Report};
use std::alloc::Global;

// The name of the port with a share of a port.
fn share_name(alloc: Global, index: usize, name: &[u8]) -> Result<Name, Memory>
    ensures { IfOk result (λ share. share ≡ share_name_of index name.now) }
{
    let head = format!(in alloc; "agm_s{index}_")?;
    let mut share = Name::from_slice(alloc, head.as_bytes())?;
    share.extend(name)?;
    Ok(share)
}

// The names of the ports of a port's shares.
fn share_names(alloc: Global, name: &[u8], count: usize) -> Result<List<Name>, Memory>
    ensures { IfOk result (λ names. names ≡ upto count (λ i. share_name_of i name.now)) }
{
    let mut names = List::new(alloc);
    for i in 0..count {
        let share = share_name(alloc, i, name)?;
        names.push(share)?;
    }
    Ok(names)
}

/// Makes an input port whose bits are public, and which stands last. Answers their values.
pub fn public_in<const S: usize>(
    builder: &mut Builder,
    name: &[u8],
    range: Option<Range>,
) -> Result<List<Value<S>>, Memory>
    requires fit { FitsBeside (map header_of builder.old.ports) (input_header range name.now) }
    requires public { HasPublicBits name.now }
    requires size { S ≤ 16 }
    ensures { IfOk result (Enters S builder.old builder.new (input_header range name.now ∷ []) (replicate (length (bit_names name.now range)) false) (λ net bit. port_value net name.now bit)) }
{
    let _clock = builder.clock();
    let bits = builder.port_in(name, range)?;
    let values = public_values(builder.alloc(), bits.as_slice())?;
    Ok(values)
}

/// Makes input ports of names, one for each share, which stand last. Answers the secret values of their bits.
pub fn shared_in<const S: usize>(
    builder: &mut Builder,
    names: &[Name],
    range: Option<Range>,
) -> Result<List<Value<S>>, Memory>
    requires size { (2 ≤ S) × (S ≤ 16) }
    requires each { length names.now ≡ S }
    requires shares { (i : ℕ) → i < S → IsOfShare i (row_of names.now i) }
    requires fit { FitInOrder (map header_of builder.old.ports) (named_headers range names.now) }
    ensures { IfOk result (Enters S builder.old builder.new (named_headers range names.now) (replicate (length (bit_names [] range)) true) (shared_row S names.now)) }
{
    let rows = ports_in(builder, names, range)?;
    let values = shared_values(builder.alloc(), rows.as_slice())?;
    Ok(values)
}

// Makes the input ports of an input of the original: its own, or those of its shares. Answers the values of its bits.
fn input_in<const S: usize>(
    builder: &mut Builder,
    port: &Port,
    shared: bool,
    report: &Report,
) -> Result<List<Value<S>>, Memory>
    requires size { (2 ≤ S) × (S ≤ 16) }
    requires order { report.now.order + 1 ≡ S }
    requires shared { shared ≡ is_shared report.now port.now.name }
    requires input { IsTrue (is_input port.now) }
    requires bits { length port.now.bits ≡ length (bit_names port.now.name port.now.range) }
    requires free { starts_with nat_eq port.now.name (codes "agm_") ≡ false }
    requires some { 0 < length port.now.name }
    requires fit { FitInOrder (map header_of builder.old.ports) (headers_for report.now (port.now ∷ [])) }
    ensures { IfOk result (Enters S builder.old builder.new (headers_for report.now (port.now ∷ [])) (kinds_for report.now (port.now ∷ [])) (values_for report.now (port.now ∷ []))) }
{
    if shared {
        let names = share_names(builder.alloc(), port.name.as_slice(), S)?;
        let values = shared_in(builder, names.as_slice(), port.range)?;
        return Ok(values);
    }
    let values = public_in(builder, port.name.as_slice(), port.range)?;
    Ok(values)
}

// Whether the port of a number is an input other than the clock.
fn is_data_in(clock: Option<usize>, number: usize, port: &Port) -> bool
    ensures { result ≡ is_data_port clock number port.now }
{
    port.way == Way::Input && !is_clock(clock, number)
}

// Whether the port of a number is the clock's.
fn is_clock(clock: Option<usize>, number: usize) -> bool
    ensures { result ≡ is_clock_number clock number }
{
    match clock {
        Some(place) => place == number,
        None => false,
    }
}

// Makes the input ports for a port of the original with its number, none where it is an output or the clock.
fn inputs_for<const S: usize>(
    builder: &mut Builder,
    clock: Option<usize>,
    number: usize,
    port: &Port,
    shared: bool,
    report: &Report,
) -> Result<List<Value<S>>, Memory>
    requires size { (2 ≤ S) × (S ≤ 16) }
    requires order { report.now.order + 1 ≡ S }
    requires shared { shared ≡ is_shared report.now port.now.name }
    requires bits { length port.now.bits ≡ length (bit_names port.now.name port.now.range) }
    requires free { starts_with nat_eq port.now.name (codes "agm_") ≡ false }
    requires some { 0 < length port.now.name }
    requires fit { FitInOrder (map header_of builder.old.ports) (headers_for report.now (if_data clock number port.now)) }
    ensures { IfOk result (Enters S builder.old builder.new (headers_for report.now (if_data clock number port.now)) (kinds_for report.now (if_data clock number port.now)) (values_for report.now (if_data clock number port.now))) }
{
    if is_data_in(clock, number, port) {
        let values = input_in(builder, port, shared, report)?;
        return Ok(values);
    }
    let _clock = builder.clock();
    Ok(List::new(builder.alloc()))
}

/// Makes the input ports for those of the original but its clock, each with its own bits or with a port for each share.
/// `shared` tells of each port of the original whether it is shared. Answers the values of the original's input bits.
pub fn inputs_in<const S: usize>(
    builder: &mut Builder,
    net: &Net,
    shared: &[bool],
    report: &Report,
) -> Result<List<Value<S>>, Memory>
    requires size { (2 ≤ S) × (S ≤ 16) }
    requires names { HasNames (plain_of net.now) }
    requires order { report.now.order + 1 ≡ S }
    requires shared { shared.now ≡ map (λ p. is_shared report.now p.name) net.now.ports }
    requires fit { FitInOrder (map header_of builder.old.ports) (headers_for report.now (filter is_input (data_ports (plain_of net.now)))) }
    ensures { IfOk result (Enters S builder.old builder.new (headers_for report.now (filter is_input (data_ports (plain_of net.now)))) (kinds_for report.now (filter is_input (data_ports (plain_of net.now)))) (values_for report.now (filter is_input (data_ports (plain_of net.now))))) }
{
    let ports = net.ports.as_slice();
    let mut inputs = List::new(builder.alloc());
    for k in 0..ports.len() {
        let values = inputs_for(builder, net.clock, k, &ports[k], shared[k], report)?;
        inputs.extend(values.as_slice())?;
    }
    Ok(inputs)
}
