use agm_bits::{List, Name};
use annotations::AnnotationFault;
use cell_library::{Bar, CellCause};
use masked_writer::ReportCause;
use probe_lists::ProbeCause;
use stimulus::StimulusCause;

/// Why an input is refused.
#[derive(Debug, Drop)]
pub enum Refusal {
    /// A file is longer than 2^28 bytes.
    TooLong {
        file: Name,
    },
    /// The cell library is spelled wrongly. `at` is at most its length in bytes.
    LibrarySyntax {
        at: usize,
    },
    /// The cell library's first cell whose name is wrong.
    Cell {
        name: Name,
        cause: CellCause,
    },
    /// The netlist is spelled wrongly. `at` is at most its length in bytes.
    NetSyntax {
        at: usize,
    },
    /// The cell is no module, no cell of the library and none that is known without one.
    UnknownCell {
        instance: Name,
        cell: Name,
    },
    /// What is instantiated has no such pin.
    UnknownPin {
        instance: Name,
        pin: Name,
    },
    /// A name is not declared, or a select is out of range, as it is written.
    UnknownWire {
        name: Name,
    },
    /// A wire has no driver and a reader, or two drivers or more.
    Driven {
        wire: Name,
        drivers: usize,
    },
    /// Two sides differ in width. 2^64 - 1 stands for as many bits or more.
    Width {
        left: usize,
        right: usize,
    },
    /// There is not one candidate for the top module.
    Top {
        candidates: usize,
    },
    /// A chain of instances returns to a module.
    Recursive {
        module: Name,
    },
    /// The cell of the library cannot be used.
    BarredCell {
        instance: Name,
        cell: Name,
        cause: Bar,
    },
    /// A name is taken.
    Clash {
        name: Name,
    },
    /// Each of these wires reads the next, and the last reads the first.
    Loop {
        wires: List<Name>,
    },
    /// The marks of the ports or the use of the clock are wrong. The fault is never `Memory`.
    BadAnnotation {
        fault: AnnotationFault,
    },
    /// An output port that is marked public has a secret bit: the first such port.
    Leak {
        port: Name,
    },
    /// The operators of the net times shares squared exceed 2^16.
    TooLarge {
        operators: usize,
    },
    /// The greatest of the numbers of random bits, of public and of secret registers exceeds 2^16.
    TooWide {
        bits: usize,
    },
    /// The text is no report.
    BadReport {
        cause: ReportCause,
    },
    /// The stimulus is wrong, at this stream and step.
    BadStimulus {
        cause: StimulusCause,
        stream: usize,
        step: usize,
    },
    /// The text is no list of probes of the netlist. `index` is a place in the list of probes or in that of indices.
    BadProbe {
        cause: ProbeCause,
        index: usize,
    },
    /// The netlist is no HPC2 network of the order: its first wire that breaks a rule.
    NotHpc2 {
        wire: Name,
    },
    /// It asks for what isn't built yet.
    NotBuilt,
}
