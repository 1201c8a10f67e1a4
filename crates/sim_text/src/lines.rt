//! The line of a step.

ghost use Rattle.std.specs.Prelude.{◌≡◌, ◌++◌, ◌<◌, All, OnOk, length, filter, map, not};
ghost use Rattle.std.specs.List.{flat_map};
ghost use Rattle.agm_net.specs.Plain.{is_input};
ghost use Rattle.agm_net.specs.View.{plain_of};
ghost use Rattle.sim_text.specs.Text.{digit, bit_in, port_text, outputs, step_head, step_line};

use agm_bits::{Memory, Name};
use agm_net::{Net, Port, Way};
use std::alloc::Global;

// `stream s step k`.
fn push_head(alloc: Global, text: &mut Name, stream: usize, step: usize) -> Result<(), Memory>
    ensures { OnOk result (text.new ≡ text.old ++ step_head stream step) }
{
    let head = format!(in alloc; "stream {stream} step {step}")?;
    text.extend(head.as_bytes())
}

/// The digit of a bit, in ASCII.
pub fn digit_of(bit: bool) -> u8
    ensures { result ≡ digit bit }
{
    if bit { b'1' } else { b'0' }
}

// The bits of these wires in a row.
fn push_bits(text: &mut Name, row: &[bool], wires: &[usize]) -> Result<(), Memory>
    requires { All (λ w. w < length row.now) wires.now }
    ensures { OnOk result (text.new ≡ text.old ++ map (λ w. digit (bit_in row.now w)) wires.now) }
{
    for wire in wires {
        text.push(digit_of(row[*wire]))?;
    }
    Ok(())
}

// ` name=bits`.
fn push_port(text: &mut Name, row: &[bool], port: &Port) -> Result<(), Memory>
    requires { All (λ w. w < length row.now) port.now.bits }
    ensures { OnOk result (text.new ≡ text.old ++ port_text row.now port.now) }
{
    text.extend(b" ")?;
    text.extend(port.name.as_slice())?;
    text.extend(b"=")?;
    push_bits(text, row, port.bits.as_slice())
}

// The output ports with their bits.
fn push_outputs(text: &mut Name, row: &[bool], ports: &[Port]) -> Result<(), Memory>
    requires { All (λ p. All (λ w. w < length row.now) p.bits) ports.now }
    ensures { OnOk result (text.new ≡ text.old ++ flat_map (port_text row.now) (filter (λ p. not (is_input p)) ports.now)) }
{
    for port in ports {
        if port.way == Way::Output {
            push_port(text, row, port)?;
        }
    }
    Ok(())
}

// The line of a step, by the bits of all wires in it.
pub(crate) fn push_line(
    alloc: Global,
    text: &mut Name,
    net: &Net,
    row: &[bool],
    stream: usize,
    step: usize,
) -> Result<(), Memory>
    requires { length row.now ≡ length net.now.wires }
    ensures { OnOk result (text.new ≡ text.old ++ step_line (plain_of net.now) stream (step, row.now)) }
{
    push_head(alloc, text, stream, step)?;
    push_outputs(text, row, net.ports.as_slice())?;
    text.extend(b"\n")
}
