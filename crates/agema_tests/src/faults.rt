//! Faults of files and of the output: each call in turn, and what the files hold afterwards.

use crate::command::{Faults, NO_FAULTS, Outcome, run_over};
use std::alloc::Global;
use std::test::Fail;
use test_netlists::simple::PRODUCT;

const COMMAND: &str = "mask - n.v 1 naive pipe o.v";

/// What a file holds: its old text, the empty text, or the whole new one.
#[derive(Clone, Copy)]
enum Left {
    Old,
    Empty,
    Whole,
}

/// Which calls fail, how the command ends, and what the netlist's file and the report's hold then. Call 0 of the shelf reads the
/// netlist, 1 to 3 write the masked one, 4 to 6 the report.
const FAULTS: [(Option<usize>, bool, &str, Left, Left); 10] = [
    (
        Some(0),
        true,
        "status 3 ReadFault file=n.v\n",
        Left::Old,
        Left::Old,
    ),
    (
        Some(1),
        true,
        "status 4 WriteFault file=o.v\n",
        Left::Old,
        Left::Old,
    ),
    (
        Some(2),
        true,
        "status 4 WriteFault file=o.v\n",
        Left::Empty,
        Left::Old,
    ),
    (
        Some(3),
        true,
        "status 4 WriteFault file=o.v\n",
        Left::Whole,
        Left::Old,
    ),
    (
        Some(4),
        true,
        "status 4 WriteFault file=o.v.json\n",
        Left::Whole,
        Left::Old,
    ),
    (
        Some(5),
        true,
        "status 4 WriteFault file=o.v.json\n",
        Left::Whole,
        Left::Empty,
    ),
    (
        Some(6),
        true,
        "status 4 WriteFault file=o.v.json\n",
        Left::Whole,
        Left::Whole,
    ),
    (
        Some(7),
        true,
        "status 6 PrintFault\n",
        Left::Whole,
        Left::Whole,
    ),
    (
        None,
        true,
        "status 6 PrintFault\n",
        Left::Whole,
        Left::Whole,
    ),
    (Some(7), false, "status 0 Done\n", Left::Whole, Left::Whole),
];

// Whether a file holds what it should.
fn holds(text: &str, left: Left, old: &str, whole: &str) -> bool {
    match left {
        Left::Old => text == old,
        Left::Empty => text.is_empty(),
        Left::Whole => text == whole,
    }
}

// Whether a command ended so and left its files so, where it has left the outcome `whole` without a fault.
fn is_left(found: &Outcome, whole: &Outcome, end: &str, net: Left, report: Left) -> bool {
    found.end.as_str() == end
        && holds(found.net.as_str(), net, "old net", whole.net.as_str())
        && holds(
            found.report.as_str(),
            report,
            "old report",
            whole.report.as_str(),
        )
        && found.line.is_empty() == (end != "status 0 Done\n")
}

// Fails at the first fault that is not told so.
fn tell_all(alloc: Global, cases: &[(Option<usize>, bool, &str, Left, Left)]) -> Result<(), Fail> {
    let whole = run_over(alloc, PRODUCT, COMMAND, NO_FAULTS)?;
    for (shelf, sink, end, net, report) in cases {
        let faults = Faults {
            shelf: *shelf,
            sink: *sink,
        };
        let found = run_over(alloc, PRODUCT, COMMAND, faults)?;
        if !is_left(&found, &whole, end, *net, *report) {
            return Err(Fail::from(*end));
        }
    }
    Ok(())
}

#[test]
fn tells_faults(rt: HostRuntime) -> Result<(), Fail> {
    tell_all(rt.alloc(), &FAULTS)
}
