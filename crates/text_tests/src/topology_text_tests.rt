//! What no clause says: texts as they are written, and that each call succeeds with ample memory.

use overlay_setup::Topology;
use std::alloc::Global;
use std::process::Abort;
use text_lines::{Quantity, Reason, TextError};
use topology_text::read;

// A text, and the names and parents of its nodes.
#[derive(Drop)]
struct Accepted {
    text: &'static str,
    nodes: &'static [(&'static str, Option<u32>)],
}

const ACCEPTED: [Accepted; 6] = [
    Accepted {
        text: "c0:0 => n0:0\n  n1:0 ;\nfe:0 => c0:0 n2:0;\n",
        nodes: &[
            ("c0:0", Some(3)),
            ("n0:0", Some(0)),
            ("n1:0", Some(0)),
            ("fe:0", None),
            ("n2:0", Some(3)),
        ],
    },
    Accepted {
        text: "fe:0=>a:0b:1;",
        nodes: &[("fe:0", None), ("a:0", Some(0)), ("b:1", Some(0))],
    },
    Accepted {
        text: "# fe:0 => x:0 ;\r\n\r\n\tfe:0\t=>#;=>\u{e9}\r\r\n\n a:0 # b:0\n;# end",
        nodes: &[("fe:0", None), ("a:0", Some(0))],
    },
    Accepted {
        text: "A-z_9.:99999 => 0:10 -:0 ;",
        nodes: &[("A-z_9.:99999", None), ("0:10", Some(0)), ("-:0", Some(0))],
    },
    Accepted {
        text: "aaaaaaaaaaaaaaaaaaaaaaaaaaaaaaaaaaaaaaaaaaaaaaaaaaaaaaaaaaaaaaa:0 => b:0 ;",
        nodes: &[
            (
                "aaaaaaaaaaaaaaaaaaaaaaaaaaaaaaaaaaaaaaaaaaaaaaaaaaaaaaaaaaaaaaa:0",
                None,
            ),
            ("b:0", Some(0)),
        ],
    },
    Accepted {
        text: "n0:0 => n1:0;n1:0 => n2:0;n2:0 => n3:0;n3:0 => n4:0;n4:0 => n5:0;n5:0 => n6:0;n6:0 => n7:0;n7:0 => n8:0;",
        nodes: &[
            ("n0:0", None),
            ("n1:0", Some(0)),
            ("n2:0", Some(1)),
            ("n3:0", Some(2)),
            ("n4:0", Some(3)),
            ("n5:0", Some(4)),
            ("n6:0", Some(5)),
            ("n7:0", Some(6)),
            ("n8:0", Some(7)),
        ],
    },
];

fn topology_of(rt: &impl Abort, alloc: Global, text: &[u8]) -> Topology {
    read(alloc, text).expect(rt, "a topology")
}

fn assert_nodes(rt: &impl Abort, topology: &Topology, nodes: &[(&str, Option<u32>)]) {
    assert!(rt; topology.nodes() as usize == nodes.len());
    for n in 0..topology.nodes() {
        let name = topology.name(n);
        assert!(rt; nodes.get(n as usize) == Some(&(name, topology.parent(n))));
        assert!(rt; topology.number_of(name.as_bytes()) == Some(n));
    }
}

#[test]
fn accepts_topologies(rt: HostRuntime) {
    for case in &ACCEPTED {
        let topology = topology_of(&rt, rt.alloc(), case.text.as_bytes());
        assert_nodes(&rt, &topology, case.nodes);
    }
}

#[test]
fn tells_the_front_end_and_the_daemons(rt: HostRuntime) {
    let topology = topology_of(&rt, rt.alloc(), ACCEPTED[0].text.as_bytes());
    assert!(rt; topology.front() == 3);
    for n in 0..topology.nodes() {
        assert!(rt; topology.is_daemon(n) == (n == 1 || n == 2 || n == 4));
    }
    assert!(rt; topology.number_of(b"c0:1").is_none());
    assert!(rt; topology.number_of(b"c0:0\xff").is_none());
}

// A text, and the line and reason of its first fault.
const FAULTS: [(&str, u64, Reason); 43] = [
    ("fe:0 => a:0 b:0 ;\nx:0 => a:0 ;\n", 2, Reason::SecondParent),
    ("fe:0 => a:0 ;\nfe:0 => b:0 ;\n", 2, Reason::SecondLine),
    (
        "fe:0 => a:0 ;\nx:0 => y:0 ;\ny:0 => x:0 ;\n",
        2,
        Reason::Unreached,
    ),
    ("fe:0 => a:0 ;\ngz:0 => b:0 ;\n", 2, Reason::TwoRoots),
    ("", 0, Reason::NoRoot),
    ("fe:0 a:0 ;\n", 1, Reason::NoArrow),
    ("fe:0 => ;\n", 1, Reason::NoChild),
    ("fe:0 => a:0", 1, Reason::NoSemicolon),
    ("fe:0 => a:0\n", 2, Reason::NoSemicolon),
    ("fe:0 => a:0 =>\n", 1, Reason::NoSemicolon),
    ("=> a:0 ;", 1, Reason::BadToken),
    ("fe:0 => a:0 ;\n;", 2, Reason::BadToken),
    ("fe:0 = > a:0 ;", 1, Reason::BadToken),
    ("fe:0 =", 1, Reason::BadToken),
    ("fe:0 => a:01 ;", 1, Reason::BadToken),
    ("fe:0 => a:123456 ;", 1, Reason::BadToken),
    ("fe:0 => a:0b ;", 1, Reason::BadToken),
    ("fe:0 => a: ;", 1, Reason::BadToken),
    ("fe:0 => a ;", 1, Reason::BadToken),
    ("fe:0 => :0 ;", 1, Reason::BadToken),
    ("fe:0 => \u{e9}:0 ;", 1, Reason::BadToken),
    ("\u{feff}fe:0 => a:0 ;", 1, Reason::BadToken),
    ("fe:0\u{b}=> a:0 ;", 1, Reason::BadToken),
    (
        "aaaaaaaaaaaaaaaaaaaaaaaaaaaaaaaaaaaaaaaaaaaaaaaaaaaaaaaaaaaaaaaa:0 => b:0 ;",
        1,
        Reason::BadToken,
    ),
    ("fe:0\n$ => a:0 ;", 2, Reason::BadToken),
    ("fe:0 =>\n$", 2, Reason::BadToken),
    ("fe:0 => a:0\n$", 2, Reason::BadToken),
    ("fe:0 => a:0 ;\n\nfe:0\n=> b:0 ;", 3, Reason::SecondLine),
    ("fe:0", 1, Reason::NoArrow),
    ("fe:0\n", 2, Reason::NoArrow),
    ("fe:0\n;", 2, Reason::NoArrow),
    ("fe:0 =>\n=>", 2, Reason::NoChild),
    ("fe:0 =>\n\n", 3, Reason::NoChild),
    ("fe:0 => a:0\na:0 ;", 2, Reason::SecondParent),
    ("fe:0 => fe:0 ;", 0, Reason::NoRoot),
    ("# fe:0 => a:0 ;\n", 0, Reason::NoRoot),
    ("\r\n \t\r\n", 0, Reason::NoRoot),
    ("fe:0 => ; $", 1, Reason::NoChild),
    ("fe:0 => a:0 ;\nx:0 => a:0 ;\n$", 2, Reason::SecondParent),
    ("fe:0 => a:0 ; => $", 1, Reason::BadToken),
    (
        "fe:0 => a:0 ;\nx:0 => y:0 ;\ny:0 => x:0 ;\nz:0 => w:0 ;",
        4,
        Reason::TwoRoots,
    ),
    ("a:0 => b:0 ;\nb:0 => a:0 ;", 0, Reason::NoRoot),
    ("#\r# x\r\n$", 2, Reason::BadToken),
];

fn is_refused(alloc: Global, text: &[u8], want: TextError) -> bool {
    read(alloc, text).err() == Some(want)
}

#[test]
fn refuses_texts_at_the_first_fault(rt: HostRuntime) {
    for (text, line, reason) in &FAULTS {
        let want = TextError::Bad {
            line: *line,
            reason: *reason,
        };
        assert!(rt; is_refused(rt.alloc(), text.as_bytes(), want), "{text:?}");
    }
}

#[test]
fn reads_comments_that_are_not_utf8(rt: HostRuntime) {
    let topology = topology_of(&rt, rt.alloc(), b"# \xff\nfe:0 => a:0 ;#\xc3");
    assert_nodes(&rt, &topology, &[("fe:0", None), ("a:0", Some(0))]);
}

const CHAIN_OF_TEN: &[u8] =
    b"n0:0 => n1:0;n1:0 => n2:0;n2:0 => n3:0;n3:0 => n4:0;n4:0 => n5:0;n5:0 => n6:0;n6:0 => n7:0;n7:0 => n8:0;n8:0 => n9:0;";

#[test]
fn refuses_other_names_and_nodes_too_far_from_the_root(rt: HostRuntime) {
    let bad = TextError::Bad {
        line: 2,
        reason: Reason::BadToken,
    };
    assert!(rt; is_refused(rt.alloc(), b"#\xff\nfe:0 => a:0\xff ;", bad));
    let over = TextError::Over {
        line: 0,
        what: Quantity::Depth,
        limit: 8,
    };
    assert!(rt; is_refused(rt.alloc(), CHAIN_OF_TEN, over));
}

// A front end and so many daemons, at most 676, each on a line of its own, and what stands behind them.
fn many_daemons(rt: &impl Abort, alloc: Global, count: u32, behind: &[u8]) -> Vec<u8> {
    let mut text = b"FE:0 =>".to_vec(alloc).expect(rt, "memory");
    for n in 0..count.min(676) {
        let name = [
            b'\n',
            b'a' + (n / 26) as u8,
            b'a' + (n % 26) as u8,
            b':',
            b'0',
        ];
        text.extend_from_slice(&name).expect(rt, "memory");
    }
    text.extend_from_slice(behind).expect(rt, "memory");
    text
}

#[test]
fn reads_as_many_nodes_as_may_be(rt: HostRuntime) {
    let text = many_daemons(&rt, rt.alloc(), 511, b" ;\n");
    let topology = topology_of(&rt, rt.alloc(), &text);
    assert!(rt; topology.nodes() == 512);
    assert!(rt; topology.front() == 0);
}

// A name past the limit is refused as that, and not for what should come behind it.
#[test]
fn refuses_a_node_more(rt: HostRuntime) {
    let want = TextError::Over {
        line: 513,
        what: Quantity::Nodes,
        limit: 512,
    };
    let text = many_daemons(&rt, rt.alloc(), 512, b" ;\n");
    assert!(rt; is_refused(rt.alloc(), &text, want));
    let text = many_daemons(&rt, rt.alloc(), 511, b" ;\nzz:0 zy:0");
    assert!(rt; is_refused(rt.alloc(), &text, want));
}
