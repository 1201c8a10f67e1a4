//! Netlists that are refused, each with its place or name.

/// Cells in the style of a library: a choice spelled with an or, a flip-flop with both outputs, and two that are barred.
pub const CELLS: &str =
    "library (bank) { cell (MUX2_X1) { pin (A) { direction : input; } pin (B) { direction : input; } pin (S) { direction : input; } pin (Z) { direction : output; function : \"((S & B) | (A & !S))\"; } } cell (DFF_X1) { ff (IQ, IQN) { clocked_on : \"CK\"; next_state : \"D\"; } pin (CK) { direction : input; } pin (D) { direction : input; } pin (Q) { direction : output; function : \"IQ\"; } pin (QN) { direction : output; function : \"IQN\"; } } cell (DFFR_X1) { ff (IQ, IQN) { clocked_on : \"CK\"; next_state : \"D\"; clear : \"!RN\"; } pin (CK) { direction : input; } pin (D) { direction : input; } pin (RN) { direction : input; } pin (Q) { direction : output; function : \"IQ\"; } } cell (DLH_X1) { latch (IQ, IQN) { enable : \"G\"; data_in : \"D\"; } pin (G) { direction : input; } pin (D) { direction : input; } pin (Q) { direction : output; function : \"IQ\"; } } }";

/// How each netlist ends.
pub const REFUSED: [(&str, &str); 35] = [
    ("", "status 12 NetSyntax at=0\n"),
    ("module t(a); input a;", "status 12 NetSyntax at=21\n"),
    (
        "module m(a, y); (* AGEMA = \"secure\" *) input a; output y; assign y = a & a; endmodule",
        "status 12 NetSyntax at=71\n",
    ),
    (
        "module m(clk, a, q); input clk; input a; output q; DFF_X9 r (.CK(clk), .D(a), .Q(q)); endmodule",
        "status 14 UnknownCell instance=r cell=DFF_X9\n",
    ),
    (
        "(* top *) module m(a, y); input a; output y; s u (.a(a), .y(y)); endmodule module s(a, y); input a; output y; NOT v (.A(a), .Y(y)); endmodule",
        "status 14 UnknownCell instance=u.v cell=NOT\n",
    ),
    (
        "module m(a, y); input a; output y; AGM_NOT u (.A(a), .Z(y)); endmodule",
        "status 15 UnknownPin instance=u pin=Z\n",
    ),
    (
        "(* top *) module m(a, y); input a; output y; s u (.b(a), .y(y)); endmodule module s(a, y); input a; output y; AGM_NOT v (.A(a), .Y(y)); endmodule",
        "status 15 UnknownPin instance=u pin=b\n",
    ),
    (
        "module m(a, y); input a; output y; AGM_NOT u (.A(b), .Y(y)); endmodule",
        "status 16 UnknownWire name=b\n",
    ),
    (
        "module m(a, y); input [3:0] a; output y; assign y = a[4]; endmodule",
        "status 16 UnknownWire name=a[4]\n",
    ),
    (
        "module m(a, y); input [3:0] a; output [1:0] y; assign y = a[0:1]; endmodule",
        "status 16 UnknownWire name=a[0:1]\n",
    ),
    (
        "module m(a, y); input a; endmodule",
        "status 16 UnknownWire name=y\n",
    ),
    (
        "module m(a, y); (* AGEMA = \"secure\" *) input a; output y; endmodule",
        "status 17 Driven wire=y drivers=0\n",
    ),
    (
        "module m(a, y); (* AGEMA = \"secure\" *) input a; output y; assign y = a; assign y = 1'b0; endmodule",
        "status 17 Driven wire=y drivers=2\n",
    ),
    (
        "module m(a, y); (* AGEMA = \"secure\" *) input a; output y; AGM_XOR2 u (.A(a), .B(), .Y(y)); endmodule",
        "status 17 Driven wire=u.B drivers=0\n",
    ),
    (
        "module m(a, y); (* AGEMA = \"secure\" *) input a; output y; wire w; AGM_NOT u (.A(w), .Y(y)); endmodule",
        "status 17 Driven wire=w drivers=0\n",
    ),
    (
        "module m(a, b, y); input a; input b; output y; assign y = {a, b}; endmodule",
        "status 18 Width left=1 right=2\n",
    ),
    (
        "module m(a, y); input [3:0] a; output y; AGM_NOT u (.A(a), .Y(y)); endmodule",
        "status 18 Width left=1 right=4\n",
    ),
    (
        "module m(y); output [3:0] y; assign y = {3{2'b01}}; endmodule",
        "status 18 Width left=4 right=6\n",
    ),
    (
        "module m(a); input a; endmodule module n(a); input a; endmodule",
        "status 19 Top candidates=2\n",
    ),
    (
        "module m(a, y); input a; output y; m u (.a(a), .y(y)); endmodule",
        "status 19 Top candidates=0\n",
    ),
    (
        "(* top *) module m(a, y); input a; output y; n u (.a(a), .y(y)); endmodule module n(a, y); input a; output y; m u (.a(a), .y(y)); endmodule",
        "status 19 Recursive module=m\n",
    ),
    (
        "module m(clk, r, a, q); input clk; input r; input a; output q; DFFR_X1 f (.CK(clk), .D(a), .RN(r), .Q(q)); endmodule",
        "status 29 BarredCell instance=f cell=DFFR_X1 cause=AsyncControl\n",
    ),
    (
        "module m(g, a, q); input g; input a; output q; DLH_X1 f (.G(g), .D(a), .Q(q)); endmodule",
        "status 29 BarredCell instance=f cell=DLH_X1 cause=Latch\n",
    ),
    (
        "module m(a, y); input a; output y; wire x; wire x; assign y = a; endmodule",
        "status 30 Clash name=x\n",
    ),
    (
        "module MUX2_X1(a, y); input a; output y; assign y = a; endmodule",
        "status 30 Clash name=MUX2_X1\n",
    ),
    (
        "(* top *) module m(a, y); input a; output y; wire \\u.x ; assign \\u.x = a; n u (.a(a), .y(y)); endmodule module n(a, y); input a; output y; wire x; AGM_NOT v (.A(a), .Y(x)); AGM_NOT w (.A(x), .Y(y)); endmodule",
        "status 30 Clash name=u.x\n",
    ),
    (
        "module m(a, y); (* AGEMA = \"secure\" *) input a; output y; wire p, q; AGM_NOT u (.A(p), .Y(q)); AGM_NOT v (.A(q), .Y(p)); AGM_NOT w (.A(a), .Y(y)); endmodule",
        "status 20 Loop wires=q,p\n",
    ),
    (
        "module m(a, y); (* AGEMA = \"hidden\" *) input a; output y; wire p; AGM_XOR2 u (.A(p), .B(a), .Y(p)); AGM_NOT w (.A(a), .Y(y)); endmodule",
        "status 20 Loop wires=p\n",
    ),
    (
        "module m(agm_a, y); (* AGEMA = \"hidden\" *) input agm_a; output y; AGM_NOT w (.A(agm_a), .Y(y)); endmodule",
        "status 21 BadAnnotation fault=Reserved port=0\n",
    ),
    (
        "module m(y, a); (* AGEMA = \"hidden\" *) input a; output y; AGM_NOT w (.A(a), .Y(y)); endmodule",
        "status 21 BadAnnotation fault=Value port=1\n",
    ),
    (
        "module m(a, y); (* AGEMA = \"secure\" *) input a; (* AGEMA = \"public\" *) wire a; output y; AGM_NOT w (.A(a), .Y(y)); endmodule",
        "status 21 BadAnnotation fault=Twice port=0\n",
    ),
    (
        "module m(c, d, a, y); (* AGEMA = \"clock\" *) input c, d; (* AGEMA = \"secure\" *) input a; output y; AGM_NOT w (.A(a), .Y(y)); endmodule",
        "status 21 BadAnnotation fault=SecondClock port=1\n",
    ),
    (
        "module m(a, y); input a; output y; AGM_NOT w (.A(a), .Y(y)); endmodule",
        "status 21 BadAnnotation fault=NoSecure\n",
    ),
    (
        "module m(c, a, q); input c; (* AGEMA = \"secure\" *) input a; output q; AGM_DFF r (.C(c), .D(a), .Q(q)); endmodule",
        "status 21 BadAnnotation fault=NoClock\n",
    ),
    (
        "module m(c, a, q, y); (* AGEMA = \"clock\" *) input c; (* AGEMA = \"secure\" *) input a; output q; output y; AGM_DFF r (.C(c), .D(a), .Q(q)); AGM_NOT u (.A(c), .Y(y)); endmodule",
        "status 21 BadAnnotation fault=ClockUse wire=0\n",
    ),
];
