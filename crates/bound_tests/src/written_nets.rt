//! Nets that are written and read back: every kind of equation, register, port and name.

use crate::designs::design_of;
use cell_library::Library;
use design_binds::write_net;
use net_binding::bind;
use std::alloc::Global;
use std::test::Fail;

/// What a text shows, and the text that is to be written for the net that it states.
const EQUATIONS: [(&str, &str); 12] = [
    (
        "the constant 0",
        "module agm_top(y);\n  output y;\n  assign y = 1'b0;\nendmodule\n",
    ),
    (
        "the constant 1",
        "module agm_top(y);\n  output y;\n  assign y = 1'b1;\nendmodule\n",
    ),
    (
        "a copy",
        "module agm_top(a, y);\n  input a;\n  output y;\n  assign y = a;\nendmodule\n",
    ),
    (
        "an inverse",
        "module agm_top(a, y);\n  input a;\n  output y;\n  AGM_NOT agm_u0 (.A(a), .Y(y));\nendmodule\n",
    ),
    (
        "an and",
        "module agm_top(a, b, y);\n  input a;\n  input b;\n  output y;\n  AGM_AND2 agm_u0 (.A(a), .B(b), .Y(y));\nendmodule\n",
    ),
    (
        "an or",
        "module agm_top(a, b, y);\n  input a;\n  input b;\n  output y;\n  AGM_OR2 agm_u0 (.A(a), .B(b), .Y(y));\nendmodule\n",
    ),
    (
        "an exclusive or",
        "module agm_top(a, b, y);\n  input a;\n  input b;\n  output y;\n  AGM_XOR2 agm_u0 (.A(b), .B(a), .Y(y));\nendmodule\n",
    ),
    (
        "a choice",
        "module agm_top(a, b, s, y);\n  input a;\n  input b;\n  input s;\n  output y;\n  AGM_MUX2 agm_u0 (.A(a), .B(b), .S(s), .Y(y));\nendmodule\n",
    ),
    (
        "a choice that selects by one of its sides",
        "module agm_top(a, b, y);\n  input a;\n  input b;\n  output y;\n  AGM_MUX2 agm_u0 (.A(b), .B(a), .S(a), .Y(y));\nendmodule\n",
    ),
    (
        "an assign has a number too",
        "module agm_top(a, y, z);\n  input a;\n  output y;\n  output z;\n  assign y = a;\n  AGM_NOT agm_u1 (.A(a), .Y(z));\nendmodule\n",
    ),
    (
        "equations from the last to the first",
        "module agm_top(a, y);\n  input a;\n  output y;\n  wire v;\n  wire w;\n  AGM_XOR2 agm_u0 (.A(v), .B(w), .Y(y));\n  AGM_NOT agm_u1 (.A(v), .Y(w));\n  AGM_OR2 agm_u2 (.A(a), .B(a), .Y(v));\nendmodule\n",
    ),
    (
        "an equation that reads its own wire",
        "module agm_top(y);\n  output y;\n  AGM_NOT agm_u0 (.A(y), .Y(y));\nendmodule\n",
    ),
];

/// The same, with registers.
const REGISTERS: [(&str, &str); 12] = [
    (
        "a register",
        "module agm_top(c, d, q);\n  input c;\n  input d;\n  output q;\n  AGM_DFF agm_u0 (.C(c), .D(d), .Q(q));\nendmodule\n",
    ),
    (
        "a register with an enable",
        "module agm_top(c, d, e, q);\n  input c;\n  input d;\n  input e;\n  output q;\n  AGM_DFFE agm_u0 (.C(c), .D(d), .E(e), .Q(q));\nendmodule\n",
    ),
    (
        "a register that keeps itself",
        "module agm_top(c, q);\n  input c;\n  output q;\n  AGM_DFF agm_u0 (.C(c), .D(q), .Q(q));\nendmodule\n",
    ),
    (
        "a register with an enable that keeps itself",
        "module agm_top(c, e, q);\n  input c;\n  input e;\n  output q;\n  AGM_DFFE agm_u0 (.C(c), .D(q), .E(e), .Q(q));\nendmodule\n",
    ),
    (
        "a register that is its own enable",
        "module agm_top(c, d, q);\n  input c;\n  input d;\n  output q;\n  AGM_DFFE agm_u0 (.C(c), .D(d), .E(q), .Q(q));\nendmodule\n",
    ),
    (
        "a marked clock",
        "module agm_top(c, d, q);\n  (* AGEMA = \"clock\" *) input c;\n  input d;\n  output q;\n  AGM_DFF agm_u0 (.C(c), .D(d), .Q(q));\nendmodule\n",
    ),
    (
        "a marked clock behind other ports",
        "module agm_top(d, q, c);\n  input d;\n  output q;\n  (* AGEMA = \"clock\" *) input c;\n  AGM_DFF agm_u0 (.C(c), .D(d), .Q(q));\nendmodule\n",
    ),
    (
        "a marked clock without registers",
        "module agm_top(c, a, y);\n  (* AGEMA = \"clock\" *) input c;\n  input a;\n  output y;\n  assign y = a;\nendmodule\n",
    ),
    (
        "registers behind equations",
        "module agm_top(c, d, q);\n  (* AGEMA = \"clock\" *) input c;\n  input d;\n  output q;\n  wire p;\n  wire n;\n  AGM_NOT agm_u0 (.A(p), .Y(n));\n  AGM_DFF agm_u1 (.C(c), .D(n), .Q(q));\n  AGM_DFFE agm_u2 (.C(c), .D(d), .E(q), .Q(p));\nendmodule\n",
    ),
    (
        "clocks that differ",
        "module agm_top(c, k, d, q);\n  input c;\n  input k;\n  input d;\n  output q;\n  wire p;\n  AGM_DFF agm_u0 (.C(c), .D(p), .Q(q));\n  AGM_DFF agm_u1 (.C(k), .D(d), .Q(p));\nendmodule\n",
    ),
    (
        "a clock that a register makes",
        "module agm_top(c, q);\n  input c;\n  output q;\n  wire p;\n  AGM_NOT agm_u0 (.A(p), .Y(q));\n  AGM_DFF agm_u1 (.C(q), .D(c), .Q(p));\nendmodule\n",
    ),
    (
        "registers side by side",
        "module agm_top(c, d, q);\n  input c;\n  input [1:0] d;\n  output [1:0] q;\n  AGM_DFF agm_u0 (.C(c), .D(d[1]), .Q(q[0]));\n  AGM_DFF agm_u1 (.C(c), .D(d[0]), .Q(q[1]));\nendmodule\n",
    ),
];

/// The same, with ports.
const PORTS: [(&str, &str); 9] = [
    ("nothing", "module agm_top();\nendmodule\n"),
    (
        "no port",
        "module agm_top();\n  wire v;\n  wire w;\n  assign v = 1'b1;\n  AGM_NOT agm_u1 (.A(v), .Y(w));\nendmodule\n",
    ),
    (
        "no port, and a register",
        "module agm_top();\n  wire v;\n  wire w;\n  assign v = 1'b0;\n  AGM_DFF agm_u1 (.C(v), .D(w), .Q(w));\nendmodule\n",
    ),
    (
        "inputs alone",
        "module agm_top(a, b);\n  input a;\n  input [2:0] b;\nendmodule\n",
    ),
    (
        "a falling range",
        "module agm_top(x, y);\n  input [1:0] x;\n  output y;\n  AGM_AND2 agm_u0 (.A(x[1]), .B(x[0]), .Y(y));\nendmodule\n",
    ),
    (
        "a rising range",
        "module agm_top(x, y);\n  input [0:1] x;\n  output y;\n  AGM_AND2 agm_u0 (.A(x[0]), .B(x[1]), .Y(y));\nendmodule\n",
    ),
    (
        "a range of one bit",
        "module agm_top(x, y);\n  input [3:3] x;\n  output [0:0] y;\n  assign y[0] = x[3];\nendmodule\n",
    ),
    (
        "the greatest numbers",
        "module agm_top(x, y);\n  input [65534:65535] x;\n  output y;\n  AGM_OR2 agm_u0 (.A(x[65535]), .B(x[65534]), .Y(y));\nendmodule\n",
    ),
    (
        "outputs before inputs",
        "module agm_top(y, a, z, b);\n  output y;\n  input a;\n  output z;\n  input b;\n  AGM_XOR2 agm_u0 (.A(a), .B(b), .Y(y));\n  assign z = y;\nendmodule\n",
    ),
];

/// The same, with names.
const NAMES: [(&str, &str); 11] = [
    (
        "escaped names",
        "module agm_top(\\a.b , \\y[0] );\n  input \\a.b ;\n  output \\y[0] ;\n  assign \\y[0]  = \\a.b ;\nendmodule\n",
    ),
    (
        "an escaped name with a range",
        "module agm_top(\\x.y , z);\n  input [1:0] \\x.y ;\n  output z;\n  AGM_AND2 agm_u0 (.A(\\x.y [1]), .B(\\x.y [0]), .Y(z));\nendmodule\n",
    ),
    (
        "a name beside the bits of a port",
        "module agm_top(x, y);\n  input [1:0] x;\n  output y;\n  wire \\x[2] ;\n  AGM_OR2 agm_u0 (.A(x[1]), .B(x[0]), .Y(\\x[2] ));\n  AGM_NOT agm_u1 (.A(\\x[2] ), .Y(y));\nendmodule\n",
    ),
    (
        "key words",
        "module agm_top(\\wire , \\endmodule );\n  input \\wire ;\n  output \\endmodule ;\n  AGM_NOT agm_u0 (.A(\\wire ), .Y(\\endmodule ));\nendmodule\n",
    ),
    (
        "a name that begins with a digit, and the least and greatest bytes",
        "module agm_top(\\3 , \\!~ );\n  input \\3 ;\n  output \\!~ ;\n  AGM_NOT agm_u0 (.A(\\3 ), .Y(\\!~ ));\nendmodule\n",
    ),
    (
        "names that differ in case, dollars and lines",
        "module agm_top(a, A, _, y$1);\n  input a;\n  input A;\n  input _;\n  output y$1;\n  wire _a;\n  AGM_AND2 agm_u0 (.A(a), .B(A), .Y(_a));\n  AGM_OR2 agm_u1 (.A(_a), .B(_), .Y(y$1));\nendmodule\n",
    ),
    (
        "a wire with the name of an instance",
        "module agm_top(a, y);\n  input a;\n  output y;\n  wire agm_u0;\n  AGM_NOT agm_u______0 (.A(a), .Y(agm_u0));\n  AGM_NOT agm_u______1 (.A(agm_u0), .Y(y));\nendmodule\n",
    ),
    (
        "a port with the beginning of an instance's name",
        "module agm_top(agm_u, y);\n  input agm_u;\n  output y;\n  AGM_NOT agm_u_____0 (.A(agm_u), .Y(y));\nendmodule\n",
    ),
    (
        "a bit with the beginning of an instance's name",
        "module agm_top(agm_u_0, y);\n  input [1:0] agm_u_0;\n  output y;\n  AGM_XOR2 agm_u__________0 (.A(agm_u_0[1]), .B(agm_u_0[0]), .Y(y));\nendmodule\n",
    ),
    (
        "a wire with the name of the next instance",
        "module agm_top(a, y);\n  input a;\n  output y;\n  wire agm_u______0;\n  AGM_NOT agm_u____________0 (.A(a), .Y(agm_u______0));\n  AGM_NOT agm_u____________1 (.A(agm_u______0), .Y(y));\nendmodule\n",
    ),
    (
        "names of the module and of cells",
        "module agm_top(agm_top, AGM_NOT);\n  input agm_top;\n  output AGM_NOT;\n  AGM_NOT agm_u0 (.A(agm_top), .Y(AGM_NOT));\nendmodule\n",
    ),
];

/// Designs in other forms, and what is written for the net of each.
const OTHERS: [(&str, &str, &str); 6] = [
    (
        "instances with other names",
        "module m(a, y); input a; output y; AGM_NOT u (.Y(y), .A(a)); endmodule",
        "module agm_top(a, y);\n  input a;\n  output y;\n  AGM_NOT agm_u0 (.A(a), .Y(y));\nendmodule\n",
    ),
    (
        "a register before an equation, and a wire before ports",
        "module m(c, d, q); wire n; input c, d; output q; AGM_DFF r (.C(c), .D(n), .Q(q)); AGM_NOT u (.A(d), .Y(n)); endmodule",
        "module agm_top(c, d, q);\n  input c;\n  input d;\n  output q;\n  wire n;\n  AGM_NOT agm_u0 (.A(d), .Y(n));\n  AGM_DFF agm_u1 (.C(c), .D(n), .Q(q));\nendmodule\n",
    ),
    (
        "vectors that are assigned",
        "module m(a, y); input [1:0] a; output [0:1] y; assign y = {a[0], 1'b1}; endmodule",
        "module agm_top(a, y);\n  input [1:0] a;\n  output [0:1] y;\n  assign y[0] = a[0];\n  assign y[1] = 1'b1;\nendmodule\n",
    ),
    (
        "a module within a module",
        "module inner(i, o); input i; output o; AGM_NOT n (.A(i), .Y(o)); endmodule\nmodule m(a, y); input a; output y; inner u (.i(a), .o(y)); endmodule",
        "module agm_top(a, y);\n  input a;\n  output y;\n  wire \\u.i ;\n  wire \\u.o ;\n  assign \\u.i  = a;\n  AGM_NOT agm_u1 (.A(\\u.i ), .Y(\\u.o ));\n  assign y = \\u.o ;\nendmodule\n",
    ),
    (
        "a wire with a range",
        "module m(a, y); input a; output y; wire [1:0] w; assign w = {a, w[1]}; AGM_AND2 u (.A(w[1]), .B(w[0]), .Y(y)); endmodule",
        "module agm_top(a, y);\n  input a;\n  output y;\n  wire \\w[1] ;\n  wire \\w[0] ;\n  assign \\w[1]  = a;\n  assign \\w[0]  = \\w[1] ;\n  AGM_AND2 agm_u2 (.A(\\w[1] ), .B(\\w[0] ), .Y(y));\nendmodule\n",
    ),
    (
        "marks of ports",
        "module m(c, a, q); (* AGEMA = \"clock\" *) input c; (* AGEMA = \"secure\" *) input a; output q; AGM_DFF r (.C(c), .D(a), .Q(q)); endmodule",
        "module agm_top(c, a, q);\n  (* AGEMA = \"clock\" *) input c;\n  input a;\n  output q;\n  AGM_DFF agm_u0 (.C(c), .D(a), .Q(q));\nendmodule\n",
    ),
];

// Fails unless this is what is written for the net of a netlist.
fn write_back(alloc: Global, rule: &'static str, netlist: &str, wanted: &str) -> Result<(), Fail> {
    let design = design_of(alloc, netlist)?;
    let library = Library::empty(alloc);
    let net = bind(alloc, &library, &design)?;
    if !net.is_plain() {
        return Err(Fail::from(rule));
    }
    let text = write_net(alloc, &net)?;
    if text.as_slice() == wanted.as_bytes() {
        Ok(())
    } else {
        Err(Fail::from(rule))
    }
}

// Fails at the first text that isn't written again for its net.
fn write_all(alloc: Global, cases: &[(&'static str, &str)]) -> Result<(), Fail> {
    for (rule, text) in cases {
        write_back(alloc, *rule, text, text)?;
    }
    Ok(())
}

// Fails at the first design that is written otherwise, or whose text is.
fn write_others(alloc: Global, cases: &[(&'static str, &str, &str)]) -> Result<(), Fail> {
    for (rule, netlist, text) in cases {
        write_back(alloc, *rule, netlist, text)?;
        write_back(alloc, *rule, text, text)?;
    }
    Ok(())
}

#[test]
fn equations_are_written(rt: HostRuntime) -> Result<(), Fail> {
    write_all(rt.alloc(), &EQUATIONS)
}

#[test]
fn registers_are_written(rt: HostRuntime) -> Result<(), Fail> {
    write_all(rt.alloc(), &REGISTERS)
}

#[test]
fn ports_are_written(rt: HostRuntime) -> Result<(), Fail> {
    write_all(rt.alloc(), &PORTS)
}

#[test]
fn names_are_written(rt: HostRuntime) -> Result<(), Fail> {
    write_all(rt.alloc(), &NAMES)
}

#[test]
fn other_designs_are_written(rt: HostRuntime) -> Result<(), Fail> {
    write_others(rt.alloc(), &OTHERS)
}
