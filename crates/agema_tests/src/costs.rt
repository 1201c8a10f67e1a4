//! What the naive mode costs: gadgets, random bits and latency of small netlists.

use crate::command::{NO_FAULTS, run_with};
use std::alloc::Global;
use std::test::Fail;
use test_netlists::refused::CELLS;

/// Netlists over the cells, the order, and the line that is printed: two products in a row and side by side, a full adder, a
/// majority, an exclusive or of two inputs and of one, a product of one input, choices by a public and by a secret bit, a product that
/// reads a factor twice, and an enabled register of a library whose choice is a sum of two products.
const COSTS: [(&str, &str, &str); 11] = [
    (
        "module t(x, y, z, o); (* AGEMA = \"secure\" *) input x, y, z; output o; wire p; AGM_AND2 u (.A(x), .B(y), .Y(p)); AGM_AND2 v (.A(p), .B(z), .Y(o)); endmodule",
        "1",
        "order 1 mode naive balance pipe gadgets 2 random 2 latency 3 period 4 streams 4\n",
    ),
    (
        "module t(w, x, y, z, o); (* AGEMA = \"secure\" *) input w, x, y, z; output o; wire p, q; AGM_AND2 u (.A(w), .B(x), .Y(p)); AGM_AND2 v (.A(y), .B(z), .Y(q)); AGM_AND2 i (.A(p), .B(q), .Y(o)); endmodule",
        "1",
        "order 1 mode naive balance pipe gadgets 3 random 3 latency 4 period 5 streams 5\n",
    ),
    (
        "module t(a, b, ci, s, co); (* AGEMA = \"secure\" *) input a, b, ci; output s, co; wire p, g, t; AGM_XOR2 u0 (.A(a), .B(b), .Y(p)); AGM_XOR2 u1 (.A(p), .B(ci), .Y(s)); AGM_AND2 u2 (.A(a), .B(b), .Y(g)); AGM_AND2 u3 (.A(p), .B(ci), .Y(t)); AGM_OR2 u4 (.A(g), .B(t), .Y(co)); endmodule",
        "1",
        "order 1 mode naive balance pipe gadgets 3 random 3 latency 4 period 5 streams 5\n",
    ),
    (
        "module t(a, b, c, y); (* AGEMA = \"secure\" *) input a, b, c; output y; wire p, g, t; AGM_XOR2 u0 (.A(a), .B(b), .Y(p)); AGM_AND2 u1 (.A(a), .B(b), .Y(g)); AGM_AND2 u2 (.A(p), .B(c), .Y(t)); AGM_OR2 u3 (.A(g), .B(t), .Y(y)); endmodule",
        "1",
        "order 1 mode naive balance pipe gadgets 3 random 3 latency 4 period 5 streams 5\n",
    ),
    (
        "module t(a, b, y); (* AGEMA = \"secure\" *) input a, b; output y; AGM_XOR2 u (.A(a), .B(b), .Y(y)); endmodule",
        "1",
        "order 1 mode naive balance pipe gadgets 0 random 0 latency 0 period 1 streams 1\n",
    ),
    (
        "module t(a, y); (* AGEMA = \"secure\" *) input a; output y; AGM_XOR2 u (.A(a), .B(a), .Y(y)); endmodule",
        "1",
        "order 1 mode naive balance pipe gadgets 0 random 0 latency 0 period 1 streams 1\n",
    ),
    (
        "module t(x, y); (* AGEMA = \"secure\" *) input x; output y; AGM_AND2 u (.A(x), .B(x), .Y(y)); endmodule",
        "1",
        "order 1 mode naive balance pipe gadgets 1 random 1 latency 2 period 3 streams 3\n",
    ),
    (
        "module t(a, b, s, y); (* AGEMA = \"secure\" *) input a, b; input s; output y; AGM_MUX2 u (.A(a), .B(b), .S(s), .Y(y)); endmodule",
        "1",
        "order 1 mode naive balance pipe gadgets 0 random 0 latency 0 period 1 streams 1\n",
    ),
    (
        "module t(a, b, s, y); (* AGEMA = \"secure\" *) input a, b, s; output y; AGM_MUX2 u (.A(a), .B(b), .S(s), .Y(y)); endmodule",
        "1",
        "order 1 mode naive balance pipe gadgets 1 random 1 latency 2 period 3 streams 3\n",
    ),
    (
        "module t(x, y, z); (* AGEMA = \"secure\" *) input x, y; output z; wire p; AGM_AND2 u (.A(x), .B(y), .Y(p)); AGM_AND2 v (.A(x), .B(p), .Y(z)); endmodule",
        "2",
        "order 2 mode naive balance pipe gadgets 2 random 6 latency 3 period 4 streams 4\n",
    ),
    (
        "module bank(clk, en, d, q); (* AGEMA = \"clock\" *) input clk; input en; (* AGEMA = \"secure\" *) input d; output q; wire _0_; MUX2_X1 _1_ (.A(q), .B(d), .S(en), .Z(_0_)); DFF_X1 _2_ (.CK(clk), .D(_0_), .Q(q), .QN()); endmodule",
        "1",
        "order 1 mode naive balance pipe gadgets 1 random 1 latency 2 period 3 streams 3\n",
    ),
];

// Fails at the first netlist with another line.
fn cost_all(alloc: Global, cases: &[(&str, &str, &str)]) -> Result<(), Fail> {
    for (netlist, order, printed) in cases {
        let line = format!(in alloc; "mask l.lib n.v {order} naive pipe o.v")?;
        let found = run_with(alloc, CELLS, netlist, line.as_str(), NO_FAULTS)?;
        if found.line.as_str() != *printed {
            return Err(Fail::from(format!(in alloc; "{netlist}: {}{}", found.end, found.line)?));
        }
    }
    Ok(())
}

#[test]
fn costs_of_netlists(rt: HostRuntime) -> Result<(), Fail> {
    cost_all(rt.alloc(), &COSTS)
}
