//! What is refused, and that nothing is written then.

use crate::command::{Faults, NO_FAULTS, left_nothing, run_over};
use std::alloc::Global;
use std::test::Fail;
use test_netlists::simple::TWO_CELLS;

/// Lines whose words are no command, ask for what isn't built, or name a file that isn't there.
const LINES: [(&str, &str); 38] = [
    ("", "status 2 Usage\n"),
    ("sim - n.v", "status 2 Usage\n"),
    ("sim - n.v s.json more", "status 2 Usage\n"),
    ("sims - n.v s.json", "status 2 Usage\n"),
    ("sim no.lib n.v s.json", "status 3 ReadFault file=no.lib\n"),
    ("sim - n.v s.json", "status 3 ReadFault file=n.v\n"),
    ("report", "status 2 Usage\n"),
    ("report o.v more", "status 2 Usage\n"),
    ("reports o.v", "status 2 Usage\n"),
    ("report o.v", "status 3 ReadFault file=o.v.json\n"),
    ("audit", "status 2 Usage\n"),
    ("audit o.v", "status 2 Usage\n"),
    ("audit o.v 0", "status 2 Usage\n"),
    ("audit o.v 8", "status 2 Usage\n"),
    ("audit o.v 01", "status 2 Usage\n"),
    ("audit o.v 1 more", "status 2 Usage\n"),
    ("audits o.v 1", "status 2 Usage\n"),
    ("audit 1 o.v", "status 2 Usage\n"),
    ("audit o.v 1", "status 3 ReadFault file=o.v\n"),
    ("cones", "status 2 Usage\n"),
    ("cones o.v 1", "status 2 Usage\n"),
    ("cones o.v 0 p.json", "status 2 Usage\n"),
    ("cones o.v 8 p.json", "status 2 Usage\n"),
    ("cones o.v 1 p.json more", "status 2 Usage\n"),
    ("cone o.v 1 p.json", "status 2 Usage\n"),
    ("cones o.v 1 p.json", "status 3 ReadFault file=o.v\n"),
    ("mask", "status 2 Usage\n"),
    ("unmask - n.v 2 naive pipe o.v", "status 2 Usage\n"),
    ("mask - n.v 2 naive pipe o.v more", "status 2 Usage\n"),
    ("mask - n.v 0 naive pipe o.v", "status 2 Usage\n"),
    ("mask - n.v 8 naive pipe o.v", "status 2 Usage\n"),
    ("mask - n.v 01 naive pipe o.v", "status 2 Usage\n"),
    ("mask - n.v 2 naive both o.v", "status 2 Usage\n"),
    ("mask l.lib n.v 2 naive gate o.v", "status 31 NotBuilt\n"),
    ("mask l.lib n.v 2 bdd pipe o.v", "status 31 NotBuilt\n"),
    (
        "mask no.lib n.v 2 naive pipe o.v",
        "status 3 ReadFault file=no.lib\n",
    ),
    ("mask - n.v 2 aig pipe o.v", "status 31 NotBuilt\n"),
    ("mask - n.v 2 naive gate o.v", "status 31 NotBuilt\n"),
];

/// Each call fails, so that what reads, writes or prints doesn't end as a refusal of words.
const EACH_FAILS: Faults = Faults {
    shelf: Some(0),
    sink: true,
};

// Fails at the first line that isn't refused so.
fn refuse_lines(alloc: Global, lines: &[(&str, &str)]) -> Result<(), Fail> {
    for (line, end) in lines {
        let found = run_over(alloc, TWO_CELLS, line, EACH_FAILS)?;
        if !left_nothing(&found, end) {
            return Err(Fail::from(*line));
        }
    }
    Ok(())
}

// Whether a file that isn't there is told.
fn tells_a_missing_file(alloc: Global) -> Result<bool, Fail> {
    let found = run_over(alloc, TWO_CELLS, "mask - no.v 2 naive pipe o.v", NO_FAULTS)?;
    Ok(left_nothing(&found, "status 3 ReadFault file=no.v\n"))
}

#[test]
fn refuses_words(rt: HostRuntime) -> Result<(), Fail> {
    refuse_lines(rt.alloc(), &LINES)?;
    assert!(rt; tells_a_missing_file(rt.alloc())?);
    Ok(())
}
