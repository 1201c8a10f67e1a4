//! What probes of networks see, and which lists of probes are refused.

use crate::audits::{NONE, netlist};
use crate::command::run_sim;
use crate::networks::{PAIR, PAIR_PORTS};
use std::alloc::Global;
use std::test::Fail;

/// Lists of probes of the pair, and what is printed.
const SEEN: [(&str, &str); 8] = [
    ("{\"probes\":[],\"indices\":[]}", "allowed:\n"),
    ("{\"probes\":[],\"indices\":[1]}", "allowed: 1\n"),
    (
        "{\"probes\":[{\"wire\":\"agm_g0.vx_0_1\",\"cycle\":1}],\"indices\":[]}",
        "probe 0 agm_g0.vx_0_1 cycle 1: agm_r[0] agm_s1_b\nallowed: 1\n",
    ),
    (
        "{\"indices\":[],\"probes\":[{\"cycle\":2,\"wire\":\"agm_g0.m_0\"}]}",
        "probe 0 agm_g0.m_0 cycle 2: agm_g0.m_0\nallowed: 0\n",
    ),
    (
        "{\"probes\":[{\"wire\":\"agm_g0.c[1]\",\"cycle\":1048575}],\"indices\":[]}",
        "probe 0 agm_g0.c[1] cycle 1048575: agm_g0.m_1 agm_g0.u_1_0 agm_g0.w_1_0\nallowed: 1\n",
    ),
    (
        "{\"probes\":[{\"wire\":\"agm_g0.wx_0_1\",\"cycle\":3}],\"indices\":[]}",
        "probe 0 agm_g0.wx_0_1 cycle 3: agm_load agm_p.1 agm_d0.1 agm_g0.v_0_1\nallowed: 0\n",
    ),
    (
        "{\"probes\":[{\"wire\":\"z\",\"cycle\":0}],\"indices\":[]}",
        "probe 0 z cycle 0: agm_load agm_p.1\nallowed:\n",
    ),
    (
        "{\"probes\":[{\"wire\":\"agm_s1_a\",\"cycle\":0}],\"indices\":[]}",
        "probe 0 agm_s1_a cycle 0: agm_s1_a\nallowed: 1\n",
    ),
];

/// Texts that are no lists of probes of the pair, and how the command ends.
const BAD: [(&str, &str); 8] = [
    ("", "status 26 BadProbe cause=Json index=0\n"),
    ("{}", "status 26 BadProbe cause=Shape index=0\n"),
    (
        "{\"probes\":[],\"indices\":[],\"more\":0}",
        "status 26 BadProbe cause=Shape index=0\n",
    ),
    (
        "{\"probes\":[{\"wire\":\"agm_g0.m\",\"cycle\":0}],\"indices\":[]}",
        "status 26 BadProbe cause=Wire index=0\n",
    ),
    (
        "{\"probes\":[{\"wire\":\"z\",\"cycle\":0},{\"wire\":\"x\",\"cycle\":0}],\"indices\":[]}",
        "status 26 BadProbe cause=Wire index=1\n",
    ),
    (
        "{\"probes\":[{\"wire\":\"z\",\"cycle\":1048576}],\"indices\":[]}",
        "status 26 BadProbe cause=Cycle index=0\n",
    ),
    (
        "{\"probes\":[],\"indices\":[2]}",
        "status 26 BadProbe cause=Index index=0\n",
    ),
    (
        "{\"probes\":[{\"wire\":\"z\",\"cycle\":0}],\"indices\":[0]}",
        "status 26 BadProbe cause=Count index=0\n",
    ),
];

// Fails at the first list that doesn't end so, with this printed.
fn probe_all(alloc: Global, cases: &[(&str, &str)], printed: bool) -> Result<(), Fail> {
    let text = netlist(alloc, PAIR_PORTS, &PAIR, NONE)?;
    for (probes, told) in cases {
        let found = run_sim(alloc, "", text.as_str(), probes, "cones n.v 1 s.json")?;
        let (end, line) = if printed {
            ("status 0 Done\n", *told)
        } else {
            (*told, "")
        };
        if found.end.as_str() != end || found.line.as_str() != line {
            return Err(Fail::from(format!(in alloc; "{probes}: {}{}", found.end, found.line)?));
        }
    }
    Ok(())
}

#[test]
fn tells_cones(rt: HostRuntime) -> Result<(), Fail> {
    let alloc = rt.alloc();
    probe_all(alloc, &SEEN, true)?;
    probe_all(alloc, &BAD, false)?;
    let text = netlist(alloc, PAIR_PORTS, &PAIR, NONE)?;
    let other = run_sim(alloc, "", text.as_str(), "{}", "cones n.v 2 s.json")?;
    assert!(rt; other.end.as_str() == "status 27 NotHpc2 wire=agm_g0.clk\n");
    Ok(())
}
