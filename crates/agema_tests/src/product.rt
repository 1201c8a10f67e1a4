//! Netlists of one product.

use crate::command::{NO_FAULTS, Outcome, run_over};
use std::alloc::Global;
use std::test::Fail;
use test_netlists::simple::{CLOCKED_PRODUCT, PRODUCT, SQUARE};

/// What is left at order 1: the report, the line, and the first bytes of the netlist. A clock in the original changes none of them.
const PRODUCT_REPORT: &str =
    "{\"balance\":\"pipe\",\"gadgets\":1,\"latency\":2,\"mode\":\"naive\",\"order\":1,\"period\":3,\"ports\":[\"a\",\"b\",\"y\"],\"public_registers\":0,\"random\":1,\"secret_registers\":0,\"streams\":3,\"version\":1}";

const SQUARE_REPORT: &str =
    "{\"balance\":\"pipe\",\"gadgets\":1,\"latency\":2,\"mode\":\"naive\",\"order\":1,\"period\":3,\"ports\":[\"x\",\"y\"],\"public_registers\":0,\"random\":1,\"secret_registers\":0,\"streams\":3,\"version\":1}";

const LINE: &str =
    "order 1 mode naive balance pipe gadgets 1 random 1 latency 2 period 3 streams 3\n";

const PRODUCT_PORTS: &str =
    "module agm_top(agm_clk, agm_load, agm_r, agm_s0_a, agm_s1_a, agm_s0_b, agm_s1_b, agm_s0_y, agm_s1_y);\n";

const SQUARE_PORTS: &str =
    "module agm_top(agm_clk, agm_load, agm_r, agm_s0_x, agm_s1_x, agm_s0_y, agm_s1_y);\n";

/// The line at order 7, which has 28 random bits.
const LAST_LINE: &str =
    "order 7 mode naive balance pipe gadgets 1 random 28 latency 2 period 3 streams 3\n";

// Whether a netlist was masked, with this report and this line, and a module with these ports.
fn is_masked(found: &Outcome, ports: &str, report: &str, line: &str) -> bool {
    found.end.as_str() == "status 0 Done\n"
        && (found.net.as_str().starts_with(ports)
            && (found.report.as_str() == report && found.line.as_str() == line))
}

fn masks(alloc: Global, netlist: &str, ports: &str, report: &str) -> Result<bool, Fail> {
    let found = run_over(alloc, netlist, "mask - n.v 1 naive pipe o.v", NO_FAULTS)?;
    Ok(is_masked(&found, ports, report, LINE))
}

fn prints(alloc: Global, line: &str, printed: &str) -> Result<bool, Fail> {
    let found = run_over(alloc, PRODUCT, line, NO_FAULTS)?;
    Ok(found.line.as_str() == printed)
}

#[test]
fn masks_a_product(rt: HostRuntime) -> Result<(), Fail> {
    assert!(rt; masks(rt.alloc(), PRODUCT, PRODUCT_PORTS, PRODUCT_REPORT)?);
    assert!(rt; masks(rt.alloc(), SQUARE, SQUARE_PORTS, SQUARE_REPORT)?);
    assert!(rt; masks(rt.alloc(), CLOCKED_PRODUCT, PRODUCT_PORTS, PRODUCT_REPORT)?);
    assert!(rt; prints(rt.alloc(), "mask - n.v 7 naive pipe o.v", LAST_LINE)?);
    Ok(())
}
