//! The wires of ports.

ghost use Rattle.std.specs.Prelude.{◌≡◌, ◌≤◌, ◌<◌, ◌+◌, ◌^◌, ◌++◌, ◌∷◌, ℕ, List, [], cond, codes, length, take, slice_index_or, OnOk, OnErr, IfOk};
ghost use Rattle.std.specs.List.{range_with_len, insert};
ghost use Rattle.std.specs.Int.{abs_diff};
ghost use Rattle.std.specs.Str.{bytes_eq};
ghost use Rattle.agm_net.specs.Checks.{number_at as number_of};
ghost use Rattle.agm_net.specs.Plain.{bit_names, select_name as select_name_of};
ghost use Rattle.share_wiring.specs.Own.{input_wires, copy_wires};

use crate::gate::{Gate, Source, Wire};
use agm_bits::{List, Memory, Name};
use agm_net::{Port, Range, Way};
use std::alloc::Global;

// The number of bit i of a range, from the most significant.
fn number_at(range: Range, i: usize) -> u32
    requires { i ≤ abs_diff range.msb range.lsb }
    ensures { result ≡ number_of range.msb range.lsb i }
{
    if range.lsb <= range.msb {
        range.msb - i as u32
    } else {
        range.msb + i as u32
    }
}

// The name of bit i of a port with a range.
fn select_name(alloc: Global, name: &[u8], range: Range, i: usize) -> Result<Name, Memory>
    requires { i ≤ abs_diff range.msb range.lsb }
    ensures { IfOk result (λ n. n ≡ select_name_of name.now (number_of range.msb range.lsb i)) }
{
    let number = number_at(range, i);
    let select = format!(in alloc; "[{number}]")?;
    let mut own = Name::from_slice(alloc, name)?;
    own.extend(select.as_bytes())?;
    Ok(own)
}

// The name of bit i of a port.
fn bit_name(alloc: Global, name: &[u8], range: Option<Range>, i: usize) -> Result<Name, Memory>
    requires { i < length (bit_names name.now range) }
    ensures { IfOk result (λ n. n ≡ slice_index_or (bit_names name.now range) i []) }
{
    match range {
        Some(range) => {
            let own = select_name(alloc, name, range, i)?;
            Ok(own)
        }
        None => Name::from_slice(alloc, name),
    }
}

/// How many bits a port with this range has, or without one.
pub fn bit_count(range: Option<Range>) -> usize
    ensures { (name : List ℕ) → result ≡ length (bit_names name range) }
{
    match range {
        Some(range) => range.msb.abs_diff(range.lsb) as usize + 1,
        None => 1,
    }
}

// A port whose bits are the wires from one number on.
fn port_of(
    alloc: Global,
    name: &[u8],
    way: Way,
    range: Option<Range>,
    first: usize,
) -> Result<Port, Memory>
    requires { first + length (bit_names name.now range) < 2 ^ 64 }
    ensures { IfOk result (λ p. p ≡ record { name = name.now; way = way; range = range; bits = range_with_len first (length (bit_names name.now range)) }) }
{
    let mut bits = List::new(alloc);
    for i in 0..bit_count(range) {
        bits.push(first + i)?;
    }
    let name = Name::from_slice(alloc, name)?;
    Ok(Port {
        name,
        way,
        range,
        bits,
    })
}

/// Adds the wires of an input port. After `Memory` some may have been added.
pub fn push_inputs(
    alloc: Global,
    name: &[u8],
    range: Option<Range>,
    wires: &mut Vec<Wire>,
) -> Result<(), Memory>
    ensures ok { OnOk result (wires.new.items ≡ wires.old.items ++ input_wires (bit_names name.now range)) }
    ensures err { OnErr result (take (length wires.old.items) wires.new.items ≡ wires.old.items) }
{
    for i in 0..bit_count(range) {
        let name = bit_name(alloc, name, range, i)?;
        wires.push(Wire {
            name,
            source: Source::Input,
        })?;
    }
    Ok(())
}

/// Adds the wires of an output port, which have the bits of others. After `Memory` some may have been added.
pub fn push_copies(
    alloc: Global,
    name: &[u8],
    range: Option<Range>,
    bits: &[usize],
    wires: &mut Vec<Wire>,
) -> Result<(), Memory>
    requires { length bits.now ≡ length (bit_names name.now range) }
    ensures ok { OnOk result (wires.new.items ≡ wires.old.items ++ copy_wires (bit_names name.now range) bits.now) }
    ensures err { OnErr result (take (length wires.old.items) wires.new.items ≡ wires.old.items) }
{
    for i in 0..bits.len() {
        let name = bit_name(alloc, name, range, i)?;
        let source = Source::Equation(Gate::Same(bits[i]));
        wires.push(Wire { name, source })?;
    }
    Ok(())
}

// All bits, or none.
fn bits_if(test: bool, bits: &[usize]) -> &[usize]
    ensures { result.now ≡ cond test bits.now [] }
{
    if test { bits } else { &[] }
}

// The port whose bits are the last wires.
fn last_port(
    alloc: Global,
    name: &[u8],
    way: Way,
    range: Option<Range>,
    first: usize,
    wires: &Vec<Wire>,
) -> Result<Port, Memory>
    requires { length wires.now.items ≡ first + length (bit_names name.now range) }
    ensures { IfOk result (λ p. p ≡ record { name = name.now; way = way; range = range; bits = range_with_len first (length (bit_names name.now range)) }) }
{
    let _all = wires.len();
    port_of(alloc, name, way, range, first)
}

/// Adds an input port with its wires, and its bits to the random bits where it is their port. Answers its bits. After `Memory` some
/// wires and ports may have been added, but no random bits.
pub fn push_input_port(
    alloc: Global,
    name: &[u8],
    range: Option<Range>,
    wires: &mut Vec<Wire>,
    ports: &mut Vec<Port>,
    random: &mut List<usize>,
) -> Result<List<usize>, Memory>
    ensures bits { IfOk result (λ bits. bits ≡ range_with_len (length wires.old.items) (length (bit_names name.now range))) }
    ensures wires { OnOk result (wires.new.items ≡ wires.old.items ++ input_wires (bit_names name.now range)) }
    ensures ports { IfOk result (λ bits. ports.new.items ≡ ports.old.items ++ (record { name = name.now; way = Way.Input; range = range; bits = bits }) ∷ []) }
    ensures random { IfOk result (λ bits. random.new ≡ random.old ++ cond (bytes_eq name.now (codes "agm_r")) bits []) }
    ensures err { OnErr result ((take (length wires.old.items) wires.new.items ≡ wires.old.items) × (take (length ports.old.items) ports.new.items ≡ ports.old.items) × (random.new ≡ random.old)) }
{
    let first = wires.len();
    push_inputs(alloc, name, range, wires)?;
    let port = last_port(alloc, name, Way::Input, range, first, wires)?;
    let bits = List::from_slice(alloc, port.bits.as_slice())?;
    ports.push(port)?;
    let is_random = name == b"agm_r".as_slice();
    random.extend(bits_if(is_random, bits.as_slice()))?;
    Ok(bits)
}

/// Adds an output port at a place, with its wires, which have the bits of others. After `Memory` some wires may have been added.
pub fn push_output_port(
    alloc: Global,
    place: usize,
    name: &[u8],
    range: Option<Range>,
    bits: &[usize],
    wires: &mut Vec<Wire>,
    ports: &mut Vec<Port>,
) -> Result<(), Memory>
    requires place { place ≤ length ports.old.items }
    requires bits { length bits.now ≡ length (bit_names name.now range) }
    ensures wires { OnOk result (wires.new.items ≡ wires.old.items ++ copy_wires (bit_names name.now range) bits.now) }
    ensures ports { OnOk result (ports.new.items ≡ insert ports.old.items place (record { name = name.now; way = Way.Output; range = range; bits = range_with_len (length wires.old.items) (length (bit_names name.now range)) })) }
    ensures err { OnErr result ((take (length wires.old.items) wires.new.items ≡ wires.old.items) × (ports.new.items ≡ ports.old.items)) }
{
    let first = wires.len();
    push_copies(alloc, name, range, bits, wires)?;
    let port = last_port(alloc, name, Way::Output, range, first, wires)?;
    ports.insert(place, port)?;
    Ok(())
}
