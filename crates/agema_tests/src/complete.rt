//! Simple netlists are masked, at every order, over a shelf and a sink that never fail.

use crate::command::{NO_FAULTS, left_nothing, run_over};
use std::alloc::Global;
use std::test::Fail;
use test_netlists::simple::{PRODUCT, SIMPLE};

// Fails at the first netlist that is not masked at one of the orders.
fn mask_all(alloc: Global, netlists: &[(&str, &str)]) -> Result<(), Fail> {
    for (shows, text) in netlists {
        for order in 1..8u32 {
            let line = format!(in alloc; "mask - n.v {order} naive pipe o.v")?;
            let found = run_over(alloc, text, line.as_str(), NO_FAULTS)?;
            if found.end.as_str() != "status 0 Done\n" {
                return Err(Fail::from(*shows));
            }
        }
    }
    Ok(())
}

#[test]
fn masks_simple_netlists(rt: HostRuntime) -> Result<(), Fail> {
    mask_all(rt.alloc(), &SIMPLE)
}

// Whether masking ends as it should, with one request for memory refused or none: masked whole, or for want of memory with all as it
// was. Fails where the request that is refused is one of the test itself.
fn ends_whole_or_wants_memory(alloc: Global, text: &str) -> Result<bool, Fail> {
    let found = run_over(alloc, text, "mask - n.v 2 naive pipe o.v", NO_FAULTS)?;
    Ok(
        found.end.as_str() == "status 0 Done\n" && !found.line.is_empty()
            || left_nothing(&found, "status 5 Memory\n"),
    )
}

// `rt try --test --fail-alloc N -- wants_memory_alone` refuses the Nth request. A run that ends with `error: Memory` refused one of the
// test's own.
#[test]
fn wants_memory_alone(rt: HostRuntime) -> Result<(), Fail> {
    assert!(rt; ends_whole_or_wants_memory(rt.alloc(), PRODUCT)?);
    Ok(())
}
