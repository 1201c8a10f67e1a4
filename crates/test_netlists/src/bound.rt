//! Whole designs, with the nets that they bind to or the rule that they break.

/// Cells that the designs instantiate: an inverse, a flip-flop with both outputs, one whose clock is its last input, and a latch, which is barred.
pub const LIBRARY: &str =
    "library (l) { cell (INV) { pin (A) { direction : input; } pin (Y) { direction : output; function : \"!A\"; } } cell (DFF_X1) { ff (IQ, IQN) { clocked_on : \"CK\"; next_state : \"D\"; } pin (CK, D) { direction : input; } pin (Q) { direction : output; function : \"IQ\"; } pin (QN) { direction : output; function : \"IQN\"; } } cell (DFF_LAST) { ff (IQ, IQN) { clocked_on : \"CK\"; next_state : \"D\"; } pin (D, CK) { direction : input; } pin (Q) { direction : output; function : \"IQ\"; } } cell (LAT) { latch (IQ, IQN) { } pin (D) { direction : input; } } }";

/// What a netlist shows, the netlist, and the net or the rule that a person finds.
pub const NETS: [(&str, &str, &str); 16] = [
    (
        "one product",
        "module one(a, b, y); input a, b; output y; AGM_AND2 u (.A(a), .B(b), .Y(y)); endmodule",
        "a<0 b<1 y>2 | a b y | 2=(0&1) |",
    ),
    (
        "a register at its pin",
        "module toggle(clk, x, y, q); (* AGEMA = \"clock\" *) input clk; input x, y; output q; wire t, n; AGM_AND2 u (.A(x), .B(y), .Y(t)); AGM_XOR2 v (.A(q), .B(t), .Y(n)); AGM_DFF r (.C(clk), .D(n), .Q(q)); endmodule",
        "clk<0 x<1 y<2 q>3 | clk x y q t n | 4=(1&2) 5=(3^4) | 3=5@0 clock 0",
    ),
    (
        "a register that keeps its value",
        "module m(c, d, e, q); input c, d, e; output q; AGM_DFFE r (.C(c), .D(d), .E(e), .Q(q)); endmodule",
        "c<0 d<1 e<2 q>3 | c d e q | | 3=(2?1:3)@0",
    ),
    (
        "a choice",
        "module m(a, b, s, y); input a, b, s; output y; AGM_MUX2 u (.A(a), .B(b), .S(s), .Y(y)); endmodule",
        "a<0 b<1 s<2 y>3 | a b s y | 3=(2?1:0) |",
    ),
    (
        "a cell of the library with a state",
        "module m(c, d, q); input c, d; output q; DFF_X1 r (.CK(c), .D(d), .Q(q), .QN()); endmodule",
        "c<0 d<1 q>2 | c d q r.IQ | 2=3 | 3=1@0",
    ),
    (
        "a state without a connected output",
        "module m(c, d); input c, d; DFF_X1 r (.CK(c), .D(d)); endmodule",
        "c<0 d<1 | c d r.IQ | | 2=1@0",
    ),
    (
        "a register without a connected output",
        "module m(c, d); input c, d; AGM_DFF r (.C(c), .D()); endmodule",
        "c<0 d<1 | c d | |",
    ),
    (
        "both outputs in the order of the text",
        "module m(c, d, q, p); input c, d; output q, p; DFF_X1 r (.QN(p), .CK(c), .Q(q), .D(d)); endmodule",
        "c<0 d<1 q>2 p>3 | c d q p r.IQ | 3=!4 2=4 | 4=1@0",
    ),
    (
        "vectors, from the most significant bit",
        "module m(a, y); input [1:0] a; output [0:2] y; assign y = {a[0], a}; endmodule",
        "a<0,1 y>2,3,4 | a[1] a[0] y[0] y[1] y[2] | 2=1 3=0 4=1 |",
    ),
    (
        "replication and a constant",
        "module m(a, y); input a; output [3:0] y; assign y = {{2{a}}, 2'b10}; endmodule",
        "a<0 y>1,2,3,4 | a y[3] y[2] y[1] y[0] | 1=0 2=0 3=T 4=F |",
    ),
    (
        "targets that are joined",
        "module m(a, y, z); input [1:0] a; output y, z; assign {y, z} = a; endmodule",
        "a<0,1 y>2 z>3 | a[1] a[0] y z | 2=0 3=1 |",
    ),
    (
        "a module in a module",
        "module inner(p, q); input p; output q; AGM_NOT n (.A(p), .Y(q)); endmodule module top(a, y); input a; output y; inner u (.q(y), .p(a)); endmodule",
        "a<0 y>1 | a y u.p u.q | 2=0 3=!2 1=3 |",
    ),
    (
        "a module two deep, with wires of its own",
        "module low(p, q); input p; output q; wire w; assign w = p; assign q = w; endmodule module mid(p, q); input p; output q; low v (.p(p), .q(q)); endmodule module top(a, y); input a; output y; mid u (.p(a), .q(y)); endmodule",
        "a<0 y>1 | a y u.p u.q u.v.p u.v.q u.v.w | 2=0 4=2 6=4 5=6 3=5 1=3 |",
    ),
    (
        "a vector port of a module",
        "module low(p, q); input [1:0] p; output [0:1] q; assign q = p; endmodule module top(a, y); input a; output [1:0] y; low u (.p({a, 1'b1}), .q(y)); endmodule",
        "a<0 y>1,2 | a y[1] y[0] u.p[1] u.p[0] u.q[0] u.q[1] | 3=0 4=T 5=3 6=4 1=5 2=6 |",
    ),
    (
        "a wire that nothing drives or reads is left out",
        "module m(a, y); input a; output y; wire [1:0] w; wire v; assign y = a; endmodule",
        "a<0 y>1 | a y | 1=0 |",
    ),
    (
        "an unread input that is not connected",
        "module low(p, q); input p; output q; assign q = 1'b0; endmodule module top(y); output y; low u (.q(y)); endmodule",
        "y>0 | y u.q | 1=F 0=1 |",
    ),
];

/// More of them.
pub const WIRES: [(&str, &str, &str); 16] = [
    (
        "the module that is marked as the top",
        "module a(x); input x; endmodule (* top *) module b(y); input y; endmodule",
        "y<0 | y | |",
    ),
    (
        "no top",
        "module a; b u (); endmodule module b; a u (); endmodule",
        "Top 0",
    ),
    (
        "two tops",
        "module a; endmodule module b; endmodule",
        "Top 2",
    ),
    (
        "two marked tops, and three that are not instantiated",
        "(* top *) module a; endmodule (* top *) module b; endmodule module c; endmodule",
        "Top 3",
    ),
    (
        "a clash before the top",
        "module a; endmodule module b; wire x; wire x; endmodule",
        "Clash x",
    ),
    (
        "no such cell",
        "module m(a); input a; FOO u (.A(a)); endmodule",
        "UnknownCell u FOO",
    ),
    (
        "no such cell inside",
        "module low; FOO w (); endmodule module m; low u (); endmodule",
        "UnknownCell u.w FOO",
    ),
    (
        "no such cell, after a wrong width",
        "module m(a); input a; wire [1:0] w; assign w = a; FOO u (); endmodule",
        "Width 2 1",
    ),
    (
        "no such cell, before a wrong width",
        "module m(a); input a; wire [1:0] w; FOO u (); assign w = a; endmodule",
        "UnknownCell u FOO",
    ),
    (
        "a module in itself",
        "(* top *) module m; m u (); endmodule",
        "Recursive m",
    ),
    (
        "a chain that returns",
        "module a; b u (); endmodule module b; c u (); endmodule module c; a u (); endmodule (* top *) module t; a u (); endmodule",
        "Recursive a",
    ),
    (
        "a chain that returns before an unknown pin",
        "(* top *) module m; m u (.x()); endmodule",
        "Recursive m",
    ),
    (
        "a barred cell",
        "module m(a); input a; LAT u (.D(a)); endmodule",
        "BarredCell u LAT",
    ),
    (
        "a barred cell before its unknown pin",
        "module m(a); input a; LAT u (.X(a)); endmodule",
        "BarredCell u LAT",
    ),
    (
        "a barred cell inside",
        "module low; LAT w (); endmodule module m; low u (); endmodule",
        "BarredCell u.w LAT",
    ),
    (
        "no such pin",
        "module m(a); input a; INV u (.B(a)); endmodule",
        "UnknownPin u B",
    ),
];

/// More of them.
pub const NAMES: [(&str, &str, &str); 16] = [
    (
        "no such port",
        "module low(p); input p; endmodule module m(a); input a; low u (.q(a)); endmodule",
        "UnknownPin u q",
    ),
    (
        "a wire of the module is no pin",
        "module low(p); input p; wire w; endmodule module m(a); input a; low u (.w(a)); endmodule",
        "UnknownPin u w",
    ),
    (
        "no such pin, before an unknown wire",
        "module m(a); input a; INV u (.B(a), .A(x)); endmodule",
        "UnknownPin u B",
    ),
    (
        "no such pin, after an unknown wire",
        "module m(a); input a; INV u (.A(x), .B(a)); endmodule",
        "UnknownWire x",
    ),
    (
        "a pin twice",
        "module m(a); input a; INV u (.A(a), .A(a)); endmodule",
        "Clash u.A",
    ),
    (
        "an empty connection first",
        "module m(a); input a; INV u (.A(), .A(a)); endmodule",
        "Clash u.A",
    ),
    (
        "a pin twice, before its unknown wire",
        "module m(a); input a; INV u (.A(a), .A(x)); endmodule",
        "Clash u.A",
    ),
    (
        "an unknown target",
        "module m(a); input a; assign x = y; endmodule",
        "UnknownWire x",
    ),
    (
        "an unknown value",
        "module m(a); input a; wire x; assign x = {a, y, z}; endmodule",
        "UnknownWire y",
    ),
    (
        "a select out of range",
        "module m(a); input [1:0] a; wire x; assign x = a[9]; endmodule",
        "UnknownWire a[9]",
    ),
    (
        "a select of a name without a range",
        "module m(a); input a; wire x; assign x = a[0]; endmodule",
        "UnknownWire a[0]",
    ),
    (
        "a select against the direction",
        "module m(a); input [3:0] a; wire [3:0] x; assign x = a[0:3]; endmodule",
        "UnknownWire a[0:3]",
    ),
    (
        "an unknown wire before the width",
        "module m(a); input a; wire [1:0] x; assign x = y; endmodule",
        "UnknownWire y",
    ),
    (
        "a wrong width",
        "module m(a); input [2:0] a; wire [1:0] x; assign x = a; endmodule",
        "Width 2 3",
    ),
    (
        "a wide pin",
        "module m(a); input [1:0] a; INV u (.A(a)); endmodule",
        "Width 1 2",
    ),
    (
        "a wrong port",
        "module low(p); input [3:0] p; endmodule module m(a); input a; low u (.p({3{a}})); endmodule",
        "Width 4 3",
    ),
];

/// More of them.
pub const PINS: [(&str, &str, &str); 16] = [
    (
        "widths beyond every number",
        "module m(a); input a; wire x; assign x = {65535{{65535{{65535{{65535{{65535{a}}}}}}}}}}; endmodule",
        "Width 1 18446744073709551615",
    ),
    (
        "a bit with the name of a wire",
        "module m; wire [1:0] x; wire \\x[1] ; endmodule",
        "Clash x[1]",
    ),
    (
        "a wire with the name of an inner one",
        "module low(p); input p; endmodule module m(a); input a; wire \\u.p ; low u (.p(a)); endmodule",
        "Clash u.p",
    ),
    (
        "a state with the name of a wire",
        "module m(c, d); input c, d; wire \\r.IQ ; DFF_X1 r (.CK(c), .D(d)); endmodule",
        "Clash r.IQ",
    ),
    (
        "a state's name after a wrong connection",
        "module m(c, d); input c, d; wire \\r.IQ ; DFF_X1 r (.CK(c), .D(x)); endmodule",
        "UnknownWire x",
    ),
    (
        "an undriven wire that is read",
        "module m(a, y); input a; output y; wire w; AGM_AND2 u (.A(a), .B(w), .Y(y)); endmodule",
        "Driven w 0",
    ),
    (
        "an undriven output",
        "module m(y); output y; endmodule",
        "Driven y 0",
    ),
    (
        "two drivers",
        "module m(a, y); input a; output y; assign y = a; assign y = a; endmodule",
        "Driven y 2",
    ),
    (
        "an input that is driven",
        "module m(a, b); input a, b; assign a = b; endmodule",
        "Driven a 2",
    ),
    (
        "the first of two wrong wires",
        "module m(a, y); input a; output y; wire v, w; assign v = w; assign w = a; assign w = a; assign y = v; endmodule",
        "Driven w 2",
    ),
    (
        "an open pin that is read",
        "module m(y); output y; INV u (.Y(y)); endmodule",
        "Driven u.A 0",
    ),
    (
        "an open pin of a function that is not connected",
        "module m(a); input a; INV u (.Y()); endmodule",
        "a<0 | a | |",
    ),
    (
        "an output at a constant",
        "module m(a); input a; INV u (.A(a), .Y(1'b0)); endmodule",
        "Driven u.Y 2",
    ),
    (
        "an output port at a constant",
        "module low(q); output [1:0] q; assign q = 2'b01; endmodule module m(y); output y; low u (.q({y, 1'b0})); endmodule",
        "Driven u.q 2",
    ),
    (
        "a clock at a constant",
        "module m(d, q); input d; output q; DFF_X1 r (.CK(1'b0), .D(d), .Q(q)); endmodule",
        "Driven r.CK 0",
    ),
    (
        "wires before pins",
        "module m(y); output y; wire w; INV u (.Y(y)); INV v (.A(w), .Y(w)); INV x (.A(w), .Y(w)); endmodule",
        "Driven w 2",
    ),
];

/// More of them.
pub const CELLS: [(&str, &str, &str); 4] = [
    (
        "an or",
        "module m(a, b, y); input a, b; output y; AGM_OR2 u (.A(a), .B(b), .Y(y)); endmodule",
        "a<0 b<1 y>2 | a b y | 2=(0|1) |",
    ),
    (
        "an empty connection last",
        "module m(a); input a; INV u (.A(a), .A()); endmodule",
        "Clash u.A",
    ),
    (
        "a clock at its cell's last input",
        "module m(c, d, q); input c, d; output q; DFF_LAST r (.D(d), .CK(c), .Q(q)); endmodule",
        "c<0 d<1 q>2 | c d q r.IQ | 2=3 | 3=1@0",
    ),
    (
        "an open clock at its cell's last input",
        "module m(d, q); input d; output q; DFF_LAST r (.D(d), .Q(q)); endmodule",
        "Driven r.CK 0",
    ),
];
