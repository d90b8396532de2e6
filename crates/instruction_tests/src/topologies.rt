//! Texts of topologies, by the table of their keys.

use std::alloc::Global;
use std::test::Fail;
use topology::{TopoRefusal, Topology, read};

/// Texts that are refused, with the refusal as it is shown.
const REFUSED: [(&str, &str); 37] = [
    ("clusters = ", "Syntax"),
    ("clusters = 1\nclusters = 1\n", "Syntax"),
    ("[[[[", "Syntax"),
    ("clusters = 1\u{0}\n", "Syntax"),
    ("", "Missing { key: Clusters }"),
    ("harts = 1\nbudget = 1\n", "Missing { key: Clusters }"),
    ("clusters = 99\nzoo = 1\n", "Missing { key: Harts }"),
    (
        "clusters = 1\nharts = 1\nl1 = 0\n",
        "Missing { key: Budget }",
    ),
    (
        "zoo = 1\nbar = 2\nBar = 3\nclusters = 0\nharts = 1\nbudget = 1\n",
        "Unknown { key: KeyName { text: \"Bar\" } }",
    ),
    (
        "clusters = 1\nharts = 1\nbudget = 1\n\"clusters \" = 1\n",
        "Unknown { key: KeyName { text: \"clusters \" } }",
    ),
    (
        "clusters = 1\nharts = 1\nbudget = 1\n[table]\n",
        "Unknown { key: KeyName { text: \"table\" } }",
    ),
    (
        "clusters = 17\nharts = 1\nbudget = 10\n",
        "Range { key: Clusters }",
    ),
    (
        "clusters = 0\nharts = 5\nbudget = 10\n",
        "Range { key: Clusters }",
    ),
    (
        "clusters = -1\nharts = 1\nbudget = 10\n",
        "Range { key: Clusters }",
    ),
    (
        "clusters = 4294967297\nharts = 1\nbudget = 10\n",
        "Range { key: Clusters }",
    ),
    (
        "clusters = \"1\"\nharts = 1\nbudget = 10\n",
        "Range { key: Clusters }",
    ),
    (
        "clusters = 1.0\nharts = 1\nbudget = 10\n",
        "Range { key: Clusters }",
    ),
    (
        "clusters = 1\nharts = true\nbudget = 10\n",
        "Range { key: Harts }",
    ),
    (
        "clusters = 1\nharts = 5\nbudget = 0\n",
        "Range { key: Harts }",
    ),
    (
        "clusters = 1\nharts = 1\nbudget = 0\n",
        "Range { key: Budget }",
    ),
    (
        "clusters = 1\nharts = 1\nbudget = 2147483648\n",
        "Range { key: Budget }",
    ),
    (
        "clusters = 1\nharts = 1\nbudget = 1\nmemory = 65535\n",
        "Range { key: Memory }",
    ),
    (
        "clusters = 1\nharts = 1\nbudget = 1\nmemory = 16777217\n",
        "Range { key: Memory }",
    ),
    (
        "clusters = 1\nharts = 1\nbudget = 1\nlocks = 1025\n",
        "Range { key: Locks }",
    ),
    (
        "clusters = 1\nharts = 1\nbudget = 1\nbase = 32768\n",
        "Range { key: Base }",
    ),
    (
        "clusters = 1\nharts = 1\nbudget = 1\nbase = 4293918720\n",
        "Range { key: Base }",
    ),
    (
        "clusters = 1\nharts = 1\nbudget = 1\nl2 = 15\nl1 = 99\n",
        "Range { key: L2 }",
    ),
    (
        "clusters = 1\nharts = 1\nbudget = 1\nl2 = 16\nl1 = 17\n",
        "Range { key: L1 }",
    ),
    (
        "clusters = 1\nharts = 1\nbudget = 1\nbuffer = 17\n",
        "Range { key: Buffer }",
    ),
    (
        "clusters = 1\nharts = 1\nbudget = 1\nacks = 0\n",
        "Range { key: Acks }",
    ),
    (
        "clusters = 1\nharts = 1\nbudget = 1\nprefetch = 9\n",
        "Range { key: Prefetch }",
    ),
    (
        "clusters = 1\nharts = 1\nbudget = 1\nstack = 24\n",
        "Range { key: Stack }",
    ),
    (
        "clusters = 2\nharts = 2\nbudget = 1\nstack = 262160\n",
        "Range { key: Stack }",
    ),
    (
        "clusters = 4\nharts = 2\nbudget = 30000\nl2 = 24\n",
        "NotPower { key: L2 }",
    ),
    (
        "clusters = 3\nharts = 1\nbudget = 666667\nl1 = 3\nl2 = 17\n",
        "NotPower { key: L2 }",
    ),
    (
        "clusters = 3\nharts = 1\nbudget = 666667\nmemory = 65537\n",
        "NotPower { key: Memory }",
    ),
    ("clusters = 3\nharts = 1\nbudget = 666667\n", "TooMuch"),
];

fn shown(alloc: Global, read: &Result<Topology, TopoRefusal>) -> Result<String, Fail> {
    match read {
        Ok(_) => Ok(String::from_str(alloc, "accepted")?),
        Err(refusal) => Ok(format!(in alloc; "{refusal:?}")?),
    }
}

#[test]
fn a_text_is_refused_for_its_first_cause(rt: HostRuntime) -> Result<(), Fail> {
    let alloc = rt.alloc();
    for (text, refusal) in &REFUSED {
        let found = shown(alloc, &read(alloc, text.as_bytes()))?;
        assert_eq!(rt; found.as_str(), *refusal, "{text}");
    }
    let found = shown(alloc, &read(alloc, b"clusters = '\xff'\n"))?;
    assert_eq!(rt; found.as_str(), "Syntax");
    Ok(())
}

#[test]
fn the_required_keys_alone_leave_every_other_one_at_its_default(
    rt: HostRuntime,
) -> Result<(), Fail> {
    let text = "clusters = 4\nharts = 2\nbudget = 30000\n";
    let topology = read(rt.alloc(), text.as_bytes())?;
    assert_eq!(rt; topology, Topology::simple(4, 2, 30_000)?);
    assert_eq!(rt;
        (topology.clusters, topology.harts, topology.budget),
        (4, 2, 30_000)
    );
    assert_eq!(rt;
        (topology.memory, topology.locks, topology.base),
        (1_048_576, 64, 0)
    );
    assert_eq!(rt; (topology.l2, topology.l1, topology.buffer), (256, 16, 4));
    assert_eq!(rt;
        (topology.acks, topology.prefetch, topology.stack),
        (4, 2, 32_768)
    );
    Ok(())
}

#[test]
fn every_key_is_read_in_any_order_and_form(rt: HostRuntime) -> Result<(), Fail> {
    let text =
        "# all keys\nstack = 0x40\nprefetch = 8\nacks = 16\nbuffer = 1\nl1 = 16_384\nl2 = 16_384\nbase = 65536\nlocks = 1024\nmemory = 16777216\nbudget = 31250\nharts = +4\n\"clusters\" = 16\n";
    let topology = read(rt.alloc(), text.as_bytes())?;
    assert_eq!(rt;
        (topology.clusters, topology.harts, topology.budget),
        (16, 4, 31_250)
    );
    assert_eq!(rt;
        (topology.memory, topology.locks, topology.base),
        (16_777_216, 1_024, 65_536)
    );
    assert_eq!(rt;
        (topology.l2, topology.l1, topology.buffer),
        (16_384, 16_384, 1)
    );
    assert_eq!(rt;
        (topology.acks, topology.prefetch, topology.stack),
        (16, 8, 64)
    );
    let small = "clusters = 1\nharts = 3\nbudget = 1\nmemory = 65536\n";
    assert_eq!(rt; read(rt.alloc(), small.as_bytes())?.stack, 5_456);
    Ok(())
}
