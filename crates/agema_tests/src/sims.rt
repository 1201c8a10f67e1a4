//! Designs run: what `sim` prints, and which stimuli it refuses.

use crate::command::{NO_FAULTS, run_sim, run_with};
use std::alloc::Global;
use std::test::Fail;
use test_netlists::refused::CELLS;
use test_netlists::runs::{MASKED, REFUSED, RUNS};

const COMMAND: &str = "sim l.lib n.v s.json";

// Fails at the first run that doesn't print so.
fn run_all(alloc: Global, cases: &[(&str, &str, &str)]) -> Result<(), Fail> {
    for (netlist, stimulus, printed) in cases {
        let found = run_sim(alloc, CELLS, netlist, stimulus, COMMAND)?;
        if found.end.as_str() != "status 0 Done\n" || found.line.as_str() != *printed {
            return Err(Fail::from(*netlist));
        }
    }
    Ok(())
}

// Fails at the first that isn't refused so.
fn refuse_all(alloc: Global, cases: &[(&str, &str, &str)]) -> Result<(), Fail> {
    for (netlist, stimulus, end) in cases {
        let found = run_sim(alloc, CELLS, netlist, stimulus, COMMAND)?;
        if found.end.as_str() != *end || !found.line.is_empty() {
            return Err(Fail::from(*end));
        }
    }
    Ok(())
}

// Fails at the first netlist whose masking doesn't end so.
fn mask_all(alloc: Global, cases: &[(&str, &str)]) -> Result<(), Fail> {
    for (netlist, end) in cases {
        let found = run_with(
            alloc,
            CELLS,
            netlist,
            "mask l.lib n.v 2 naive pipe o.v",
            NO_FAULTS,
        )?;
        if found.end.as_str() != *end {
            return Err(Fail::from(*netlist));
        }
    }
    Ok(())
}

#[test]
fn runs_designs(rt: HostRuntime) -> Result<(), Fail> {
    run_all(rt.alloc(), &RUNS)?;
    refuse_all(rt.alloc(), &REFUSED)?;
    mask_all(rt.alloc(), &MASKED)
}
