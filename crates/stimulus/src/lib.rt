//! Stimuli and tapes: what a net is driven with, read from JSON.
#![tactic(auto)]

mod checks;
mod fault;
mod inputs;
mod laws;
mod reading;
mod steps;
mod stimuli;
mod tapes;
mod texts;

pub use fault::{StimulusCause, StimulusFault};
pub use laws::{cycles_are_one, texts_are_one};
pub use reading::read_stimulus;
pub use stimuli::{Stimulus, Stream};
pub use tapes::read_tape;
