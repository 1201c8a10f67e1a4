//! Netlists that are refused, each with its place or name, and in the order of refusals.

use crate::command::{NO_FAULTS, left_nothing, run_with};
use std::alloc::Global;
use std::test::Fail;
use test_netlists::refused::{CELLS, REFUSED};

const COMMAND: &str = "mask l.lib n.v 1 naive pipe o.v";

/// Netlists with outputs that are marked public. A wire is secret where gates or registers lead to it from a secure input.
const LEAKS: [(&str, &str); 5] = [
    (
        "module m(c, a, q); (* AGEMA = \"clock\" *) input c; (* AGEMA = \"secure\" *) input a; (* AGEMA = \"public\" *) output q; AGM_DFF r (.C(c), .D(a), .Q(q)); endmodule",
        "status 22 Leak port=q\n",
    ),
    (
        "module m(p, a, z, y, x); input p; (* AGEMA = \"secure\" *) input a; (* AGEMA = \"public\" *) output x, y, z; AGM_NOT u (.A(p), .Y(z)); AGM_NOT v (.A(a), .Y(y)); assign x = a; endmodule",
        "status 22 Leak port=y\n",
    ),
    (
        "module m(a, p, y); (* AGEMA = \"secure\" *) input a; input p; (* AGEMA = \"public\" *) output [1:0] y; assign y = {p, a}; endmodule",
        "status 22 Leak port=y\n",
    ),
    (
        "module m(a, y); (* AGEMA = \"secure\" *) input a; (* AGEMA = \"public\" *) output y; wire p; AGM_XOR2 u (.A(p), .B(a), .Y(p)); assign y = a; endmodule",
        "status 20 Loop wires=p\n",
    ),
    (
        "module m(c, a, q); input c; (* AGEMA = \"secure\" *) input a; (* AGEMA = \"public\" *) output q; AGM_DFF r (.C(c), .D(a), .Q(q)); endmodule",
        "status 21 BadAnnotation fault=NoClock\n",
    ),
];

// Fails at the first netlist that isn't refused so.
fn refuse_all(alloc: Global, cases: &[(&str, &str)]) -> Result<(), Fail> {
    for (netlist, end) in cases {
        let found = run_with(alloc, CELLS, netlist, COMMAND, NO_FAULTS)?;
        if !left_nothing(&found, end) {
            return Err(Fail::from(*netlist));
        }
    }
    Ok(())
}

#[test]
fn refuses_netlists(rt: HostRuntime) -> Result<(), Fail> {
    refuse_all(rt.alloc(), &REFUSED)?;
    refuse_all(rt.alloc(), &LEAKS)
}
