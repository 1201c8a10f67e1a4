ghost use Rattle.std.specs.Prelude.{◌≡◌, ℕ, All, None, IfOk, OnOk, length};
ghost use Rattle.agm_net.specs.Loop.{HasNoLoop};
ghost use Rattle.agm_net.specs.Plain.{input_bits};
ghost use Rattle.agm_net.specs.View.{plain_of};
ghost use Rattle.stimulus.specs.Fits.{Fits};
ghost use Rattle.sim_text.specs.Steps.{AddsStream};
ghost use Rattle.sim_text.specs.Text.{IsSimText};

use crate::lines::push_line;
use crate::rows::{begun, bits_of, values_of};
use agm_bits::{Memory, Name};
use agm_net::Net;
use std::alloc::Global;
use stimulus::{Stimulus, Stream};

// The lines of a stream.
fn push_stream(
    alloc: Global,
    text: &mut Name,
    net: &Net,
    number: usize,
    stream: &Stream,
) -> Result<(), Memory>
    requires no_loop { HasNoLoop (plain_of net.now) }
    requires initial { length stream.now.initial ≡ length net.now.registers }
    requires rows { All (λ row. length row ≡ length (input_bits (plain_of net.now))) stream.now.steps }
    ensures { OnOk result (AddsStream (plain_of net.now) number stream.now text.old text.new) }
{
    let mut sim = begun(alloc, net, &stream.initial)?;
    for (step, inputs) in stream.steps.as_slice().iter().enumerate() {
        let bits = bits_of(alloc, inputs)?;
        sim.step(bits.as_slice());
        let row = values_of(alloc, &sim)?;
        push_line(alloc, text, net, row.as_slice(), number, step)?;
    }
    Ok(())
}

/// The text of a simulation of a net without a loop: a line for each stream and step in order, `stream s step k` and ` name=bits` for
/// each output port, most significant bit first.
///
/// Takes time linear in the number of steps times the size of the net.
///
/// # Errors
///
/// `Memory` where memory runs out.
pub fn sim_text(alloc: Global, net: &Net, stimulus: &Stimulus) -> Result<Name, Memory>
    requires no_loop { HasNoLoop (plain_of net.now) }
    requires fits { Fits (plain_of net.now) None stimulus.now.streams }
    ensures { IfOk result (IsSimText (plain_of net.now) stimulus.now.streams) }
{
    let mut text = Name::new(alloc);
    for (number, stream) in stimulus.streams.as_slice().iter().enumerate() {
        push_stream(alloc, &mut text, net, number, stream)?;
    }
    Ok(text)
}
