//! The order of releases, and a tree with its classes, as a report shows them in its text and in JSON.
ghost use Rattle.std.specs.Prelude.{◌≡◌, IsTrue};
ghost use Rattle.call_path.specs.Good.{is_good_frame};

use crate::plans::plan_of;
use call_path::{CallPath, PathBuilder};
use front_end::{direct_json, direct_text};
use overlay_core::{Kind, Release};
use prefix_tree::{OwnedTree, PrefixTree};
use rank_set::RankSet;
use stat_plan::Plan;
use std::alloc::Global;
use std::process::Abort;

// One daemon of rank 0, and no streams but 7.
const NODES: &[u8] = b"fe:0 => a:0 ;\n";

const SAMPLES: &[u8] = b"daemon a:0 0\n";

const SCRIPT: &[u8] = b"stream 7 wait-for-all waves 1 samples 1 on all\n";

fn small_plan(rt: &impl Abort, alloc: Global) -> Plan {
    plan_of(rt, alloc, NODES, SAMPLES, SCRIPT)
}

// A release of no samples.
fn release<T: PrefixTree>(
    alloc: Global,
    stream: u8,
    wave: u8,
    number: u32,
    kind: Kind,
) -> Release<T>
    ensures stream { result.stream ≡ stream }
    ensures wave { result.wave ≡ wave }
    ensures number { result.number ≡ number }
{
    Release {
        stream,
        wave,
        number,
        kind,
        tree: T::empty(alloc),
        lost: Vec::new(alloc),
    }
}

const ORDERED: &[u8] = b"stream 0 wave 0 release 1 partial
covered 0:[]
tree
0:[] - /
classes
stream 0 wave 0 release 2 final
covered 0:[]
tree
0:[] - /
classes
stream 0 wave 1 release 1 final
covered 0:[]
tree
0:[] - /
classes
stream 1 wave 0 release 1 final
covered 0:[]
tree
0:[] - /
classes
end
";

#[test]
fn puts_releases_in_order(rt: HostRuntime) {
    let alloc = rt.alloc();
    let plan = small_plan(&rt, alloc);
    let given: [Release<OwnedTree>; 4] = [
        release(alloc, 1, 0, 1, Kind::Final),
        release(alloc, 0, 1, 1, Kind::Final),
        release(alloc, 0, 0, 2, Kind::Final),
        release(alloc, 0, 0, 1, Kind::Partial),
    ];
    let text = direct_text(alloc, &plan, &given).expect(&rt, "memory");
    assert!(rt; text.as_slice() == ORDERED);
}

fn set_of(rt: &impl Abort, alloc: Global, ranks: &[u32]) -> RankSet {
    let mut set = RankSet::new(alloc);
    for r in ranks {
        assert!(rt; set.insert(*r).is_ok());
    }
    set
}

fn tree_over<T: PrefixTree>(rt: &impl Abort, alloc: Global, ranks: &[u32]) -> T {
    let mut tree = T::empty(alloc);
    let ranks = set_of(rt, alloc, ranks);
    tree.cover(&ranks).expect(rt, "memory");
    tree
}

// The path of main and this frame.
fn path_of(rt: &impl Abort, alloc: Global, frame: &str) -> CallPath
    requires { IsTrue (is_good_frame frame.now) }
{
    let mut frames = PathBuilder::new(alloc);
    frames.push("main").expect(rt, "memory");
    frames.push(frame).expect(rt, "memory");
    frames.path().expect(rt, "memory")
}

// The ranks were seen in the path.
fn add<T: PrefixTree>(
    rt: &impl Abort,
    alloc: Global,
    tree: &mut T,
    ranks: &[u32],
    path: &CallPath,
) {
    let ranks = set_of(rt, alloc, ranks);
    assert!(rt; ranks.count() > 0);
    assert!(rt; ranks.is_subset(tree.row(0).label));
    assert!(rt; tree.add(&ranks, path).is_ok());
}

// The one release of a report.
fn release_of<T: PrefixTree>(tree: T, alloc: Global) -> Release<T> {
    Release {
        stream: 2,
        wave: 3,
        number: 4,
        kind: Kind::Final,
        tree,
        lost: Vec::new(alloc),
    }
}

const TREE: &[u8] = b"stream 2 wave 3 release 4 final
covered 4:[0-3]
tree
4:[0-3] - /
  4:[0-3] - main
    3:[0,2-3] 3:[0,2-3] MPI_Barrier
    1:[1] 1:[1] compute
classes
class 3:[0,2-3] paths 1
  main;MPI_Barrier
class 1:[1] paths 1
  main;compute
end
";

// A tree of three ranks in one frame and one in another.
fn tree_of_four<T: PrefixTree>(rt: &impl Abort, alloc: Global) -> T {
    let mut tree = tree_over(rt, alloc, &[0, 1, 2, 3]);
    let path = path_of(rt, alloc, "MPI_Barrier");
    add(rt, alloc, &mut tree, &[0, 2, 3], &path);
    let path = path_of(rt, alloc, "compute");
    add(rt, alloc, &mut tree, &[1], &path);
    tree
}

#[test]
fn writes_a_tree_and_its_classes(rt: HostRuntime) {
    let alloc = rt.alloc();
    let tree: OwnedTree = tree_of_four(&rt, alloc);
    let plan = small_plan(&rt, alloc);
    let text = direct_text(alloc, &plan, &[release_of(tree, alloc)]).expect(&rt, "memory");
    assert!(rt; text.as_slice() == TREE);
}

// A tree of rank 0 in one frame with a quotation mark, which JSON escapes.
fn tree_of_one<T: PrefixTree>(rt: &impl Abort, alloc: Global) -> T {
    let mut tree = tree_over(rt, alloc, &[0]);
    add(rt, alloc, &mut tree, &[0], &path_of(rt, alloc, "a\"b"));
    tree
}

const JSON: &[u8] =
    b"{\"faults\":[],\"releases\":[{\"classes\":[{\"paths\":[\"main;a\\\"b\"],\"ranks\":\"1:[0]\"}],\"covered\":\"1:[0]\",\"kind\":\"final\",\"missing\":[],\"number\":4,\"stream\":2,\"tree\":[{\"depth\":0,\"ends\":\"0:[]\",\"frame\":\"/\",\"label\":\"1:[0]\"},{\"depth\":1,\"ends\":\"0:[]\",\"frame\":\"main\",\"label\":\"1:[0]\"},{\"depth\":2,\"ends\":\"1:[0]\",\"frame\":\"a\\\"b\",\"label\":\"1:[0]\"}],\"wave\":3}]}\n";

#[test]
fn writes_a_tree_and_its_classes_as_json(rt: HostRuntime) {
    let alloc = rt.alloc();
    let tree: OwnedTree = tree_of_one(&rt, alloc);
    let plan = small_plan(&rt, alloc);
    let text = direct_json(alloc, &plan, &[release_of(tree, alloc)]).expect(&rt, "memory");
    assert!(rt; text.as_slice() == JSON);
}
