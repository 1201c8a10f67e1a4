//! Whether a stimulus fits a net.

ghost use Rattle.std.specs.Prelude.{◌≡◌, All, None, IsTrue, length};
ghost use Rattle.agm_net.specs.Plain.{input_bits};
ghost use Rattle.agm_net.specs.View.{plain_of};
ghost use Rattle.stimulus.specs.Fits.{Fits, StreamFits};

use agm_bits::BitRow;
use agm_net::Net;
use stimulus::Stream;

// Whether each row has so many bits.
fn are_wide(rows: &[BitRow], width: usize) -> bool
    ensures { IsTrue result → All (λ row. length row ≡ width) rows.now }
{
    for row in rows {
        if row.len() != width {
            return false;
        }
    }
    true
}

// Whether a stream has so many steps and fits a net of so many input bits.
fn stream_fits(net: &Net, inputs: usize, steps: usize, stream: &Stream) -> bool
    requires { inputs ≡ length (input_bits (plain_of net.now)) }
    ensures { IsTrue result → StreamFits (plain_of net.now) steps stream.now }
{
    if stream.initial.len() != net.registers.len() {
        return false;
    }
    if stream.steps.len() != steps {
        return false;
    }
    are_wide(stream.steps.as_slice(), inputs)
}

// Whether all streams do.
fn streams_fit(net: &Net, inputs: usize, steps: usize, streams: &[Stream]) -> bool
    requires { inputs ≡ length (input_bits (plain_of net.now)) }
    ensures { IsTrue result → All (StreamFits (plain_of net.now) steps) streams.now }
{
    for stream in streams {
        if !stream_fits(net, inputs, steps, stream) {
            return false;
        }
    }
    true
}

/// Whether streams of so many steps drive a net of so many input bits.
pub(crate) fn fits(net: &Net, inputs: usize, steps: usize, streams: &[Stream]) -> bool
    requires { inputs ≡ length (input_bits (plain_of net.now)) }
    ensures { IsTrue result → Fits (plain_of net.now) None streams.now }
{
    if streams.is_empty() {
        return false;
    }
    if steps == 0 {
        return false;
    }
    streams_fit(net, inputs, steps, streams)
}
