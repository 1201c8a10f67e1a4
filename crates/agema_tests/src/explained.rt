//! The line and the status of each answer.

use agema_answers::{Ended, Refusal};
use agm_bits::{List, Name};
use annotations::AnnotationFault;
use cell_library::{Bar, CellCause};
use masked_writer::ReportCause;
use probe_lists::ProbeCause;
use std::alloc::Global;
use std::test::Fail;
use stimulus::StimulusCause;

/// The status of each answer, and its line where its file or name has a blank, a line feed and a byte that is no text.
const LINES: [(u8, &[u8]); 28] = [
    (0, b"status 0 Done\n"),
    (2, b"status 2 Usage\n"),
    (3, b"status 3 ReadFault file=a b\n\xff\n"),
    (4, b"status 4 WriteFault file=a b\n\xff\n"),
    (5, b"status 5 Memory\n"),
    (6, b"status 6 PrintFault\n"),
    (10, b"status 10 TooLong file=a b\n\xff\n"),
    (11, b"status 11 LibrarySyntax at=13\n"),
    (12, b"status 12 NetSyntax at=21\n"),
    (13, b"status 13 Cell name=a b\n\xff cause=Reserved\n"),
    (14, b"status 14 UnknownCell instance=a b\n\xff cell=b\n"),
    (15, b"status 15 UnknownPin instance=a b\n\xff pin=b\n"),
    (16, b"status 16 UnknownWire name=a b\n\xff\n"),
    (17, b"status 17 Driven wire=a b\n\xff drivers=0\n"),
    (18, b"status 18 Width left=1 right=2\n"),
    (19, b"status 19 Top candidates=2\n"),
    (20, b"status 20 Loop wires=a b\n\xff,b\n"),
    (21, b"status 21 BadAnnotation fault=Value port=1\n"),
    (22, b"status 22 Leak port=a b\n\xff\n"),
    (23, b"status 23 TooLarge operators=1025\n"),
    (24, b"status 24 BadReport cause=Version\n"),
    (25, b"status 25 BadStimulus cause=Inputs stream=1 step=2\n"),
    (26, b"status 26 BadProbe cause=Cycle index=3\n"),
    (27, b"status 27 NotHpc2 wire=a b\n\xff\n"),
    (
        29,
        b"status 29 BarredCell instance=a b\n\xff cell=b cause=Latch\n",
    ),
    (30, b"status 30 Clash name=a b\n\xff\n"),
    (31, b"status 31 NotBuilt\n"),
    (35, b"status 35 TooWide bits=65537\n"),
];

// The loop of these wires.
fn loop_of(alloc: Global, name: Name, other: Name) -> Result<Refusal, Fail> {
    let mut wires = List::new(alloc);
    wires.push(name)?;
    wires.push(other)?;
    Ok(Refusal::Loop { wires })
}

// The refusal of a status that comes with names.
fn named_refusal(alloc: Global, status: u8, name: Name, other: Name) -> Result<Refusal, Fail> {
    Ok(match status {
        10 => Refusal::TooLong { file: name },
        13 => Refusal::Cell {
            name,
            cause: CellCause::Reserved,
        },
        14 => Refusal::UnknownCell {
            instance: name,
            cell: other,
        },
        15 => Refusal::UnknownPin {
            instance: name,
            pin: other,
        },
        16 => Refusal::UnknownWire { name },
        17 => Refusal::Driven {
            wire: name,
            drivers: 0,
        },
        20 => loop_of(alloc, name, other)?,
        22 => Refusal::Leak { port: name },
        27 => Refusal::NotHpc2 { wire: name },
        29 => Refusal::BarredCell {
            instance: name,
            cell: other,
            cause: Bar::Latch,
        },
        _ => Refusal::Clash { name },
    })
}

// The refusal of a status.
fn refusal_of(alloc: Global, status: u8, name: Name, other: Name) -> Result<Refusal, Fail> {
    Ok(match status {
        11 => Refusal::LibrarySyntax { at: 13 },
        12 => Refusal::NetSyntax { at: 21 },
        18 => Refusal::Width { left: 1, right: 2 },
        19 => Refusal::Top { candidates: 2 },
        21 => Refusal::BadAnnotation {
            fault: AnnotationFault::Value { port: 1 },
        },
        23 => Refusal::TooLarge { operators: 1025 },
        24 => Refusal::BadReport {
            cause: ReportCause::Version,
        },
        25 => Refusal::BadStimulus {
            cause: StimulusCause::Inputs,
            stream: 1,
            step: 2,
        },
        26 => Refusal::BadProbe {
            cause: ProbeCause::Cycle,
            index: 3,
        },
        31 => Refusal::NotBuilt,
        35 => Refusal::TooWide { bits: 65537 },
        _ => named_refusal(alloc, status, name, other)?,
    })
}

// The answer of a status.
fn answer_of(alloc: Global, status: u8, name: Name, other: Name) -> Result<Ended, Fail> {
    Ok(match status {
        0 => Ended::Done,
        2 => Ended::Usage,
        3 => Ended::ReadFault { file: name },
        4 => Ended::WriteFault { file: name },
        5 => Ended::Memory,
        6 => Ended::PrintFault,
        _ => Ended::Refused(refusal_of(alloc, status, name, other)?),
    })
}

// Whether an answer has this status and this line.
fn tells(alloc: Global, ended: &Ended, status: u8, line: &[u8]) -> Result<bool, Fail> {
    let told = ended.explain(alloc)?;
    Ok(ended.status() == status && told.as_slice() == line)
}

// Fails at the first answer that is not told so.
fn explain_all(
    alloc: Global,
    cases: &[(u8, &[u8])],
    name: &[u8],
    other: &[u8],
) -> Result<(), Fail> {
    for (status, line) in cases {
        let first = Name::from_slice(alloc, name)?;
        let second = Name::from_slice(alloc, other)?;
        let ended = answer_of(alloc, *status, first, second)?;
        if !tells(alloc, &ended, *status, line)? {
            return Err(Fail::from("an answer is not told so"));
        }
    }
    Ok(())
}

#[test]
fn explains_each_answer(rt: HostRuntime) -> Result<(), Fail> {
    explain_all(rt.alloc(), &LINES, b"a b\n\xff", b"b")
}
