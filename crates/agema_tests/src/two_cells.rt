//! A netlist of an exclusive or and an inverter, masked at order 2.

use crate::command::{NO_FAULTS, run_over};
use std::alloc::Global;
use std::test::Fail;
use test_netlists::simple::TWO_CELLS;

/// How its masked net begins. There is no random bit, so no port `agm_r`.
const PORTS: &str =
    "module agm_top(agm_clk, agm_load, agm_s0_a, agm_s1_a, agm_s2_a, agm_s0_b, agm_s1_b, agm_s2_b, agm_s0_y, agm_s1_y, agm_s2_y);
  (* AGEMA = \"clock\" *) input agm_clk;
  input agm_load;
  input agm_s0_a;
  input agm_s1_a;
  input agm_s2_a;
  input agm_s0_b;
  input agm_s1_b;
  input agm_s2_b;
  output agm_s0_y;
  output agm_s1_y;
  output agm_s2_y;
  wire ";

/// Its report at order 2.
const REPORT: &str =
    "{\"balance\":\"pipe\",\"gadgets\":0,\"latency\":0,\"mode\":\"naive\",\"order\":2,\"period\":1,\"ports\":[\"a\",\"b\",\"y\"],\"public_registers\":0,\"random\":0,\"secret_registers\":0,\"streams\":1,\"version\":1}";

/// The line that is printed for it at order 2.
const LINE: &str =
    "order 2 mode naive balance pipe gadgets 0 random 0 latency 0 period 1 streams 1\n";

fn masks(alloc: Global, ports: &str, report: &str, line: &str) -> Result<bool, Fail> {
    let found = run_over(alloc, TWO_CELLS, "mask - n.v 2 naive pipe o.v", NO_FAULTS)?;
    Ok(
        found.end.as_str() == "status 0 Done\n"
            && (found.net.as_str().starts_with(ports)
                && found.net.as_str().ends_with(";\nendmodule\n"))
            && (found.report.as_str() == report && found.line.as_str() == line),
    )
}

#[test]
fn masks_two_cells(rt: HostRuntime) -> Result<(), Fail> {
    assert!(rt; masks(rt.alloc(), PORTS, REPORT, LINE)?);
    Ok(())
}
