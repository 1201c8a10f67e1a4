//! Simple netlists: of inverters and exclusive ors, or of one product.

/// y = a & b.
pub const PRODUCT: &str =
    "module one(a, b, y); (* AGEMA = \"secure\" *) input a; (* AGEMA = \"secure\" *) input b; output y; AGM_AND2 u (.A(a), .B(b), .Y(y)); endmodule";

/// y = a & b, with a clock between the inputs.
pub const CLOCKED_PRODUCT: &str =
    "module one(a, clk, b, y); (* AGEMA = \"secure\" *) input a; (* AGEMA = \"clock\" *) input clk; (* AGEMA = \"secure\" *) input b; output y; AGM_AND2 u (.A(a), .B(b), .Y(y)); endmodule";

/// y = x & x.
pub const SQUARE: &str =
    "module square(x, y); (* AGEMA = \"secure\" *) input x; output y; AGM_AND2 u (.A(x), .B(x), .Y(y)); endmodule";

/// y = !(a ^ b).
pub const TWO_CELLS: &str =
    "module one(a, b, y); (* AGEMA = \"secure\" *) input a; (* AGEMA = \"secure\" *) input b; output y; wire x; AGM_XOR2 u (.A(a), .B(b), .Y(x)); AGM_NOT v (.A(x), .Y(y)); endmodule";

/// What each netlist shows, and its text.
pub const SIMPLE: [(&str, &str); 24] = [
    (
        "one product",
        "module one(a, b, y); (* AGEMA = \"secure\" *) input a; (* AGEMA = \"secure\" *) input b; output y; AGM_AND2 u (.A(a), .B(b), .Y(y)); endmodule",
    ),
    (
        "a product of one wire, and an input that nothing reads",
        "module one(y, b, a); output y; (* AGEMA = \"secure\" *) input a; (* AGEMA = \"secure\" *) input b; AGM_AND2 u (.A(a), .B(a), .Y(y)); endmodule",
    ),
    (
        "one inverter",
        "module m(a, y); (* AGEMA = \"secure\" *) input a; output y; AGM_NOT u (.A(a), .Y(y)); endmodule",
    ),
    (
        "a clock and no register",
        "module m(clk, a, b, y); (* AGEMA = \"clock\" *) input clk; (* AGEMA = \"secure\" *) input a; (* AGEMA = \"secure\" *) input b; output y; AGM_XOR2 u (.A(a), .B(b), .Y(y)); endmodule",
    ),
    (
        "a product, and a clock that stands last",
        "module one(a, b, y, clk); (* AGEMA = \"secure\" *) input a; (* AGEMA = \"secure\" *) input b; output y; (* AGEMA = \"clock\" *) input clk; AGM_AND2 u (.A(a), .B(b), .Y(y)); endmodule",
    ),
    (
        "one exclusive or",
        "module m(a, b, y); (* AGEMA = \"secure\" *) input a; (* AGEMA = \"secure\" *) input b; output y; AGM_XOR2 u (.A(a), .B(b), .Y(y)); endmodule",
    ),
    (
        "both pins at one wire",
        "module m(a, y); (* AGEMA = \"secure\" *) input a; output y; AGM_XOR2 u (.A(a), .B(a), .Y(y)); endmodule",
    ),
    (
        "a chain",
        "module m(a, y); (* AGEMA = \"secure\" *) input a; output y; wire p, q, r, s, t; AGM_NOT u0 (.A(a), .Y(p)); AGM_NOT u1 (.A(p), .Y(q)); AGM_NOT u2 (.A(q), .Y(r)); AGM_NOT u3 (.A(r), .Y(s)); AGM_NOT u4 (.A(s), .Y(t)); AGM_NOT u5 (.A(t), .Y(y)); endmodule",
    ),
    (
        "wide fan-out",
        "module m(a, b, v, w, x, y, z); (* AGEMA = \"secure\" *) input a; (* AGEMA = \"secure\" *) input b; output v; output w; output x; output y; output z; wire p; AGM_XOR2 u (.A(a), .B(b), .Y(p)); AGM_NOT u0 (.A(p), .Y(v)); AGM_NOT u1 (.A(p), .Y(w)); AGM_XOR2 u2 (.A(p), .B(a), .Y(x)); AGM_XOR2 u3 (.A(b), .B(p), .Y(y)); AGM_XOR2 u4 (.A(p), .B(p), .Y(z)); endmodule",
    ),
    (
        "an output that other cells read",
        "module m(a, b, x, y); (* AGEMA = \"secure\" *) input a; (* AGEMA = \"secure\" *) input b; output x; output y; AGM_XOR2 u (.A(a), .B(b), .Y(x)); AGM_NOT v (.A(x), .Y(y)); endmodule",
    ),
    (
        "outputs listed first, and declared in another order",
        "module m(y, b, a); (* AGEMA = \"secure\" *) input a; output y; (* AGEMA = \"secure\" *) input b; AGM_XOR2 u (.A(a), .B(b), .Y(y)); endmodule",
    ),
    (
        "wires declared between ports",
        "module m(a, y, z); wire p; (* AGEMA = \"secure\" *) input a; wire q, r; output y; output z; wire s; AGM_NOT u0 (.A(a), .Y(p)); AGM_NOT u1 (.A(p), .Y(q)); AGM_NOT u2 (.A(q), .Y(r)); AGM_NOT u3 (.A(r), .Y(s)); AGM_NOT u4 (.A(s), .Y(y)); AGM_NOT u5 (.A(p), .Y(z)); endmodule",
    ),
    (
        "an input and a wire that nothing reads",
        "module m(a, b, y); (* AGEMA = \"secure\" *) input a; (* AGEMA = \"secure\" *) input b; output y; wire dead; AGM_NOT u (.A(a), .Y(y)); AGM_NOT v (.A(a), .Y(dead)); endmodule",
    ),
    (
        "names of one byte",
        "module _(A, Y); (* AGEMA = \"secure\" *) input A; output Y; wire _0; AGM_NOT B (.A(A), .Y(_0)); AGM_NOT Q (.A(_0), .Y(Y)); endmodule",
    ),
    (
        "dollars and digits in names",
        "module m$0(a$, _9$_); (* AGEMA = \"secure\" *) input a$; output _9$_; AGM_NOT u$$1 (.A(a$), .Y(_9$_)); endmodule",
    ),
    (
        "escaped names with brackets, dots and quotes",
        "module \\m[0] (\\a[0] , \\y.b\" ); (* AGEMA = \"secure\" *) input \\a[0] ; output \\y.b\" ; AGM_NOT \\u/v (.A(\\a[0] ), .Y(\\y.b\" )); endmodule",
    ),
    (
        "escaped keywords and comment signs",
        "module \\module (\\input , \\// ); (* AGEMA = \"secure\" *) input \\input ; output \\// ; wire \\(* ; AGM_NOT \\wire (.A(\\input ), .Y(\\(* )); AGM_NOT \\/* (.A(\\(* ), .Y(\\// )); endmodule",
    ),
    (
        "the ends of the escaped bytes",
        "module m(\\!~ , \\~! ); (* AGEMA = \"secure\" *) input \\!~ ; output \\~! ; AGM_NOT \\\\ (.A(\\!~ ), .Y(\\~! )); endmodule",
    ),
    (
        "a simple name written in both ways",
        "module m(\\a , y); (* AGEMA = \"secure\" *) input a; output \\y ; AGM_NOT u (.A(\\a ), .Y(y)); endmodule",
    ),
    (
        "names of cells and pins as names of wires",
        "module AGM(A, B, AGM_NOT); (* AGEMA = \"secure\" *) input A; (* AGEMA = \"secure\" *) input B; output AGM_NOT; wire AGM_XOR2; AGM_XOR2 AGM_AND2 (.A(A), .B(B), .Y(AGM_XOR2)); AGM_NOT AGM_DFF (.A(AGM_XOR2), .Y(AGM_NOT)); endmodule",
    ),
    (
        "wires named as those of a masked net",
        "module agm_top(agm, y); (* AGEMA = \"secure\" *) input agm; output y; wire agm_clk, \\agm_d0.x , agm_s0_agm; AGM_NOT agm_u0 (.A(agm), .Y(agm_clk)); AGM_NOT agm_u1 (.A(agm_clk), .Y(\\agm_d0.x )); AGM_NOT agm_u2 (.A(\\agm_d0.x ), .Y(agm_s0_agm)); AGM_NOT agm_u3 (.A(agm_s0_agm), .Y(y)); endmodule",
    ),
    (
        "no white space that is not needed",
        "module m(a,b,y);(*AGEMA=\"secure\"*)input a;(*AGEMA=\"secure\"*)input b;output y;wire p;AGM_XOR2 u(.A(a),.B(b),.Y(p));AGM_NOT v(.A(p),.Y(y));endmodule",
    ),
    (
        "every kind of white space",
        "\r\n\tmodule\x0cm ( a , y ) ;\r\n(* AGEMA\t=\x0c\"secure\"\r\n*) input\ta ;\r\n\r\noutput\x0cy ;\n\rAGM_NOT\tu\r( . A ( a ) ,\n. Y\t( y ) ) ;\x0cendmodule\r\n\n",
    ),
    (
        "check bits of a Hamming code",
        "module hamming(d1, d2, d3, d4, p1, p2, p3); (* AGEMA = \"secure\" *) input d1; (* AGEMA = \"secure\" *) input d2; (* AGEMA = \"secure\" *) input d3; (* AGEMA = \"secure\" *) input d4; output p1; output p2; output p3; wire d12, d13, d23; AGM_XOR2 u1 (.A(d1), .B(d2), .Y(d12)); AGM_XOR2 u2 (.A(d12), .B(d4), .Y(p1)); AGM_XOR2 u3 (.A(d1), .B(d3), .Y(d13)); AGM_XOR2 u4 (.A(d13), .B(d4), .Y(p2)); AGM_XOR2 u5 (.A(d2), .B(d3), .Y(d23)); AGM_XOR2 u6 (.A(d23), .B(d4), .Y(p3)); endmodule",
    ),
];
