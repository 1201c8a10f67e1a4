ghost use Rattle.std.specs.Prelude.{◌≡◌, ◌≤◌, None, OnOk, IfOk, IfErr, length, map};
ghost use Rattle.agm_net.specs.Loop.{HasNoLoop};
ghost use Rattle.agm_net.specs.View.{plain_of};
ghost use Rattle.sim_text.specs.Text.{IsSimText};
ghost use Rattle.stimulus.specs.Fits.{Fits};
ghost use Rattle.cell_library.specs.Spelled.{cell_of};
ghost use Rattle.verilog_reader.specs.View.{design_view};
ghost use Rattle.annotations.specs.Rules.{clock_rules};
ghost use Rattle.agema_texts.specs.Original.{EndsBy, Keeps, length_limit};
ghost use Rattle.agema_texts.specs.Marked.{HasTopModule, IsUnmarked};
ghost use Rattle.agema_texts.specs.Sims.{IsClocked, IsUnclocked, HasStreams, IsSimulated, IsBadStimulus};

use crate::marks::annotation_ended;
use crate::read::{Read, read_net};
use agema_answers::{Ended, Refusal};
use agm_bits::Name;
use agm_net::Net;
use annotations::clocks;
use cell_library::Library;
use sim_text::sim_text;
use std::alloc::Global;
use stimulus::{Stimulus, StimulusFault, read_stimulus};

// Whether the rules of clocks are kept.
fn check_clocks(alloc: Global, read: &Read) -> Result<(), Ended>
    requires { HasTopModule (design_view read.now.design) }
    ensures ok { OnOk result (Keeps clock_rules (design_view read.now.design) (plain_of read.now.net)) }
    ensures err { IfErr result (EndsBy (IsUnmarked clock_rules (design_view read.now.design) (plain_of read.now.net))) }
{
    match clocks(alloc, &read.design, &read.net) {
        Ok(_) => Ok(()),
        Err(fault) => Err(annotation_ended(fault)),
    }
}

/// The net that a netlist's bytes give over the cells of a library, for a simulation.
///
/// # Errors
///
/// `Refused` where the bytes give no net without a loop or the rules of clocks are broken, and `Memory` where memory runs out.
pub fn clocked_net(alloc: Global, library: &Library, bytes: &[u8]) -> Result<Net, Ended>
    requires { length bytes.now ≤ length_limit }
    ensures ok { IfOk result (λ net. IsClocked (map cell_of library.now.cells) bytes.now (plain_of net)) }
    ensures err { IfErr result (EndsBy (IsUnclocked (map cell_of library.now.cells) bytes.now)) }
{
    let read = read_net(alloc, library, bytes)?;
    check_clocks(alloc, &read)?;
    Ok(read.net)
}

/// The stimulus of a text, of so many streams at the most.
pub(crate) fn stimulus_of(
    alloc: Global,
    net: &Net,
    limit: Option<usize>,
    text: &[u8],
) -> Result<Stimulus, Ended>
    requires { length text.now ≤ length_limit }
    ensures ok { IfOk result (λ s. HasStreams (plain_of net.now) limit text.now s.streams) }
    ensures fits { IfOk result (λ s. Fits (plain_of net.now) limit s.streams) }
    ensures err { IfErr result (EndsBy (IsBadStimulus (plain_of net.now) limit text.now)) }
{
    match read_stimulus(alloc, text, net, net.clock, limit) {
        Ok(stimulus) => Ok(stimulus),
        Err(
            StimulusFault::Bad {
                cause,
                stream,
                step,
            },
        ) => Err(Ended::Refused(Refusal::BadStimulus {
            cause,
            stream,
            step,
        })),
        Err(StimulusFault::Memory) => Err(Ended::Memory),
    }
}

// The text of a simulation, where memory may be wanted.
fn text_or_memory(alloc: Global, net: &Net, stimulus: &Stimulus) -> Result<Name, Ended>
    requires no_loop { HasNoLoop (plain_of net.now) }
    requires fits { Fits (plain_of net.now) None stimulus.now.streams }
    ensures ok { IfOk result (IsSimText (plain_of net.now) stimulus.now.streams) }
    ensures err { IfErr result (λ ended. ended ≡ Ended.Memory) }
{
    match sim_text(alloc, net, stimulus) {
        Ok(text) => Ok(text),
        Err(_) => Err(Ended::Memory),
    }
}

/// What the simulation of a net without a loop with a text's stimulus prints.
///
/// # Errors
///
/// `Refused` where the text is no stimulus of the net, and `Memory` where memory runs out.
pub fn simulated(alloc: Global, net: &Net, text: &[u8]) -> Result<Name, Ended>
    requires no_loop { HasNoLoop (plain_of net.now) }
    requires short { length text.now ≤ length_limit }
    ensures ok { IfOk result (IsSimulated (plain_of net.now) text.now) }
    ensures err { IfErr result (EndsBy (IsBadStimulus (plain_of net.now) None text.now)) }
{
    let stimulus = stimulus_of(alloc, net, None, text)?;
    text_or_memory(alloc, net, &stimulus)
}
