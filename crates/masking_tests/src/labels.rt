//! What names say of wires.

use agm_net::{Part, PartKind};
use hpc2_audit::{Spelled, read_label};
use std::test::Fail;

/// Names that say no part, each with the order of its net.
const NAMES: [(&str, u32, Spelled); 27] = [
    ("agm_clk", 1, Spelled::OfClock),
    ("agm_load", 1, Spelled::OfPublic),
    ("agm_load[0]", 1, Spelled::OfPublic),
    ("agm_q_p", 1, Spelled::OfPublic),
    ("agm_q_p[12]", 1, Spelled::OfPublic),
    ("agm_q_p[4294967295]", 1, Spelled::OfPublic),
    ("agm_p.x", 1, Spelled::OfPublic),
    ("agm_p..", 1, Spelled::OfPublic),
    ("agm_r", 1, Spelled::OfRandom),
    ("agm_r[0]", 1, Spelled::OfRandom),
    ("agm_r[65535]", 1, Spelled::OfRandom),
    ("agm_s0_a", 1, Spelled::OfShare(0)),
    ("agm_s1_a[3]", 1, Spelled::OfShare(1)),
    ("agm_s1__", 1, Spelled::OfShare(1)),
    ("agm_s2_a", 2, Spelled::OfShare(2)),
    ("agm_s7_x_1", 7, Spelled::OfShare(7)),
    ("agm_s10_x", 15, Spelled::OfShare(10)),
    ("agm_q_s0", 1, Spelled::OfShare(0)),
    ("agm_q_s1[7]", 1, Spelled::OfShare(1)),
    ("agm_d0.x", 1, Spelled::OfShare(0)),
    ("agm_d3.40", 3, Spelled::OfShare(3)),
    ("agm_d1.agm_g0.a[0]", 1, Spelled::OfShare(1)),
    ("a", 1, Spelled::OfUser),
    ("agm", 1, Spelled::OfUser),
    ("agmx_clk", 1, Spelled::OfUser),
    ("", 1, Spelled::OfUser),
    ("u.agm_clk", 1, Spelled::OfUser),
];

/// Names of parts: the order of the net, the gadget, the part and its numbers.
const PARTS: [(&str, u32, usize, PartKind, usize, usize); 40] = [
    ("agm_g0.clk", 1, 0, PartKind::Clk, 0, 0),
    ("agm_g7.a[0]", 1, 7, PartKind::A, 0, 0),
    ("agm_g0.a[1]", 1, 0, PartKind::A, 1, 0),
    ("agm_g0.b[1]", 1, 0, PartKind::B, 1, 0),
    ("agm_g0.b[3]", 3, 0, PartKind::B, 3, 0),
    ("agm_g0.r[0]", 1, 0, PartKind::R, 0, 1),
    ("agm_g0.r[0]", 2, 0, PartKind::R, 0, 1),
    ("agm_g0.r[1]", 2, 0, PartKind::R, 0, 2),
    ("agm_g0.r[2]", 2, 0, PartKind::R, 1, 2),
    ("agm_g0.r[2]", 3, 0, PartKind::R, 0, 3),
    ("agm_g0.r[3]", 3, 0, PartKind::R, 1, 2),
    ("agm_g0.r[5]", 3, 0, PartKind::R, 2, 3),
    ("agm_g0.r[27]", 7, 0, PartKind::R, 6, 7),
    ("agm_g0.rr_0_1", 1, 0, PartKind::Rr, 0, 1),
    ("agm_g0.rr_1_2", 2, 0, PartKind::Rr, 1, 2),
    ("agm_g0.bb_1", 1, 0, PartKind::Bb, 1, 0),
    ("agm_g0.vx_0_1", 1, 0, PartKind::Vx, 0, 1),
    ("agm_g0.vx_1_0", 1, 0, PartKind::Vx, 1, 0),
    ("agm_g0.v_0_1", 1, 0, PartKind::V, 0, 1),
    ("agm_g0.v_2_0", 2, 0, PartKind::V, 2, 0),
    ("agm_g0.na_0", 1, 0, PartKind::Na, 0, 0),
    ("agm_g0.ux_1_0", 1, 0, PartKind::Ux, 1, 0),
    ("agm_g0.u_0_1", 1, 0, PartKind::U, 0, 1),
    ("agm_g0.wx_0_1", 1, 0, PartKind::Wx, 0, 1),
    ("agm_g0.w_1_0", 1, 0, PartKind::W, 1, 0),
    ("agm_g0.mx_1", 1, 0, PartKind::Mx, 1, 0),
    ("agm_g0.m_0", 1, 0, PartKind::M, 0, 0),
    ("agm_g0.s_0_1", 1, 0, PartKind::S, 0, 1),
    ("agm_g0.s_2_3", 2, 0, PartKind::S, 2, 3),
    ("agm_g0.s_7_13", 7, 0, PartKind::S, 7, 13),
    ("agm_g0.c[1]", 1, 0, PartKind::C, 1, 0),
    ("agm_g0.c[7]", 7, 0, PartKind::C, 7, 0),
    ("agm_g10.m_1", 1, 10, PartKind::M, 1, 0),
    ("agm_g4294967295.clk", 1, 4294967295, PartKind::Clk, 0, 0),
    ("agm_g123.v_1_0", 1, 123, PartKind::V, 1, 0),
    ("agm_g1.bb_10", 15, 1, PartKind::Bb, 10, 0),
    ("agm_g1.u_10_9", 15, 1, PartKind::U, 10, 9),
    ("agm_g1.rr_9_10", 15, 1, PartKind::Rr, 9, 10),
    ("agm_g1.s_15_29", 15, 1, PartKind::S, 15, 29),
    ("agm_g1.r[119]", 15, 1, PartKind::R, 14, 15),
];

/// Names that begin with `agm_` and say nothing at this order.
const NOTHING: [(&str, u32); 62] = [
    ("agm_", 1),
    ("agm_clk[0]", 1),
    ("agm_clkx", 1),
    ("agm_loads", 1),
    ("agm_load[]", 1),
    ("agm_load[00]", 1),
    ("agm_load[0", 1),
    ("agm_load[0]x", 1),
    ("agm_load[4294967296]", 1),
    ("agm_p.", 1),
    ("agm_p", 1),
    ("agm_q_p0", 1),
    ("agm_q_p[-1]", 1),
    ("agm_rr", 1),
    ("agm_r[01]", 1),
    ("agm_r[0]]", 1),
    ("agm_r.x", 1),
    ("agm_s2_a", 1),
    ("agm_s00_a", 1),
    ("agm_s01_a", 1),
    ("agm_s0_", 1),
    ("agm_s0", 1),
    ("agm_s_a", 1),
    ("agm_s0.a", 1),
    ("agm_s4294967296_a", 7),
    ("agm_s8_a", 7),
    ("agm_q_s2", 1),
    ("agm_q_s", 1),
    ("agm_q_s01", 1),
    ("agm_q_s0x", 1),
    ("agm_q_s0[1", 1),
    ("agm_d0.", 1),
    ("agm_d0_x", 1),
    ("agm_d2.x", 1),
    ("agm_d00.x", 1),
    ("agm_d.x", 1),
    ("agm_g0", 1),
    ("agm_g0.", 1),
    ("agm_g.clk", 1),
    ("agm_g00.clk", 1),
    ("agm_g4294967296.clk", 1),
    ("agm_g0.clk0", 1),
    ("agm_g0.clk[0]", 1),
    ("agm_g0.a[2]", 1),
    ("agm_g0.a[00]", 1),
    ("agm_g0.a_0", 1),
    ("agm_g0.a[0]x", 1),
    ("agm_g0.r[1]", 1),
    ("agm_g0.r[3]", 2),
    ("agm_g0.r_0", 1),
    ("agm_g0.rr_1_0", 1),
    ("agm_g0.rr_0_0", 1),
    ("agm_g0.rr_0_2", 1),
    ("agm_g0.vx_1_1", 1),
    ("agm_g0.vx_0", 1),
    ("agm_g0.v_0_01", 1),
    ("agm_g0.u_0_1_0", 2),
    ("agm_g0.s_0_0", 1),
    ("agm_g0.s_0_2", 1),
    ("agm_g0.s_2_4", 2),
    ("agm_g0.c[2]", 1),
    ("agm_g0.x_0", 1),
];

// Fails at the first name that doesn't say so.
fn read_names(cases: &[(&str, u32, Spelled)]) -> Result<(), Fail> {
    for (name, order, said) in cases {
        if read_label(name.as_bytes(), *order) != *said {
            return Err(Fail::from(*name));
        }
    }
    Ok(())
}

// Fails at the first name that isn't this part's.
fn read_parts(cases: &[(&str, u32, usize, PartKind, usize, usize)]) -> Result<(), Fail> {
    for (name, order, gadget, kind, i, j) in cases {
        let part = Part {
            gadget: *gadget,
            kind: *kind,
            i: *i,
            j: *j,
        };
        if read_label(name.as_bytes(), *order) != Spelled::OfPart(part) {
            return Err(Fail::from(*name));
        }
    }
    Ok(())
}

// Fails at the first name that says something.
fn read_others(cases: &[(&str, u32)]) -> Result<(), Fail> {
    for (name, order) in cases {
        if read_label(name.as_bytes(), *order) != Spelled::OfNothing {
            return Err(Fail::from(*name));
        }
    }
    Ok(())
}

#[test]
fn reads_names(rt: HostRuntime) -> Result<(), Fail> {
    read_names(&NAMES)?;
    read_parts(&PARTS)?;
    read_others(&NOTHING)
}
