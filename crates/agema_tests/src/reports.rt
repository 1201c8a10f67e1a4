//! Reports: the line of one that was written, and texts that are none, each with its cause.

use crate::command::{NO_FAULTS, Outcome, hold, left_by, run_over};
use agm_shelf::{MemoryShelf, MemorySink};
use std::alloc::Global;
use std::test::Fail;
use test_netlists::simple::PRODUCT;

const COMMAND: &str = "report o.v";

const LINE: &str =
    "order 1 mode naive balance pipe gadgets 1 random 1 latency 2 period 3 streams 3\n";

/// Texts of reports, how the command ends, and what it prints. Where two causes hold the first is told.
const REPORTS: [(&str, &str, &str); 12] = [
    (
        "{\"balance\":\"pipe\",\"gadgets\":1,\"latency\":2,\"mode\":\"naive\",\"order\":1,\"period\":3,\"ports\":[\"a\",\"b\",\"y\"],\"public_registers\":0,\"random\":1,\"secret_registers\":0,\"streams\":3,\"version\":1}",
        "status 0 Done\n",
        LINE,
    ),
    (
        " { \"version\" : 1 , \"balance\":\"gate\",\"gadgets\":4294967295,\"latency\":2,\"mode\":\"bdd\",\"order\":1,\"period\":3,\"ports\":[],\"public_registers\":0,\"random\":4294967295,\"secret_registers\":0,\"streams\":1 } ",
        "status 0 Done\n",
        "order 1 mode bdd balance gate gadgets 4294967295 random 4294967295 latency 2 period 3 streams 1\n",
    ),
    ("", "status 24 BadReport cause=Json\n", ""),
    ("{\"version\":9", "status 24 BadReport cause=Json\n", ""),
    ("{\"version\":9}", "status 24 BadReport cause=Shape\n", ""),
    ("[]", "status 24 BadReport cause=Shape\n", ""),
    (
        "{\"balance\":\"pipe\",\"gadgets\":1.0,\"latency\":2,\"mode\":\"naive\",\"order\":1,\"period\":3,\"ports\":[],\"public_registers\":0,\"random\":1,\"secret_registers\":0,\"streams\":3,\"version\":9}",
        "status 24 BadReport cause=Shape\n",
        "",
    ),
    (
        "{\"balance\":\"pipe\",\"gadgets\":4294967296,\"latency\":2,\"mode\":\"naive\",\"order\":1,\"period\":3,\"ports\":[],\"public_registers\":0,\"random\":4294967296,\"secret_registers\":0,\"streams\":3,\"version\":1}",
        "status 24 BadReport cause=Shape\n",
        "",
    ),
    (
        "{\"balance\":\"pipe\",\"gadgets\":1,\"latency\":2,\"mode\":\"naive\",\"order\":1,\"period\":3,\"ports\":[\"a\",\"b\",\"y\"],\"public_registers\":0,\"random\":1,\"secret_registers\":0,\"streams\":3,\"version\":9}",
        "status 24 BadReport cause=Version\n",
        "",
    ),
    (
        "{\"balance\":\"pipe\",\"gadgets\":1,\"latency\":2,\"mode\":\"naive\",\"order\":1,\"period\":2,\"ports\":[],\"public_registers\":0,\"random\":1,\"secret_registers\":0,\"streams\":2,\"version\":9}",
        "status 24 BadReport cause=Version\n",
        "",
    ),
    (
        "{\"balance\":\"pipe\",\"gadgets\":1,\"latency\":2,\"mode\":\"naive\",\"order\":1,\"period\":2,\"ports\":[],\"public_registers\":0,\"random\":1,\"secret_registers\":0,\"streams\":2,\"version\":1}",
        "status 24 BadReport cause=Range\n",
        "",
    ),
    (
        "{\"balance\":\"gate\",\"gadgets\":1,\"latency\":2,\"mode\":\"naive\",\"order\":1,\"period\":3,\"ports\":[],\"public_registers\":0,\"random\":1,\"secret_registers\":0,\"streams\":3,\"version\":1}",
        "status 24 BadReport cause=Range\n",
        "",
    ),
];

// The outcome of the command over a shelf that holds a text as the report's file.
fn report_over(alloc: Global, text: &str) -> Result<Outcome, Fail> {
    let mut shelf = MemoryShelf::new(alloc);
    let mut sink = MemorySink::new(alloc);
    hold(&mut shelf, "o.v.json", text)?;
    left_by(alloc, COMMAND, ("o.v", "o.v.json"), &mut shelf, &mut sink)
}

// Fails at the first text whose command doesn't end and print so.
fn report_all(alloc: Global, cases: &[(&str, &str, &str)]) -> Result<(), Fail> {
    for (text, end, printed) in cases {
        let found = report_over(alloc, text)?;
        if found.end.as_str() != *end || found.line.as_str() != *printed {
            return Err(Fail::from(*text));
        }
    }
    Ok(())
}

// Whether the report of what `mask` writes prints the line of `mask`.
fn prints_again(alloc: Global, line: &str) -> Result<bool, Fail> {
    let masked = run_over(alloc, PRODUCT, line, NO_FAULTS)?;
    let found = report_over(alloc, masked.report.as_str())?;
    Ok(found.end.as_str() == "status 0 Done\n" && found.line.as_str() == masked.line.as_str())
}

#[test]
fn reads_reports(rt: HostRuntime) -> Result<(), Fail> {
    report_all(rt.alloc(), &REPORTS)?;
    assert!(rt; prints_again(rt.alloc(), "mask - n.v 7 naive pipe o.v")?);
    Ok(())
}
