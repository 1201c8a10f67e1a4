use crate::Refusal;
use agm_bits::Name;

/// How a run ended.
#[derive(Debug, Drop)]
pub enum Ended {
    /// The command did all that it says.
    Done,
    /// The words are no command.
    Usage,
    /// A file couldn't be read.
    ReadFault { file: Name },
    /// A file couldn't be written.
    WriteFault { file: Name },
    /// The text couldn't be printed.
    PrintFault,
    /// Memory was wanted.
    Memory,
    /// The input is refused.
    Refused(Refusal),
}
