//! The classes of trees that were made of samples, as a report shows them.

use crate::trees::{add, cover};
use call_path::CallPath;
use equiv_class::{
    TreeClasses, classes, classes_part_ranks, equivalent_by_paths, paths_of_classes,
};
use prefix_tree::{OwnedTree, PrefixTree};
use rank_set::RankSet;
use std::alloc::Global;
use std::process::Abort;

fn tree_over(rt: &impl Abort, alloc: Global, ranks: &[u32]) -> OwnedTree {
    let mut tree = OwnedTree::empty(alloc);
    cover(alloc, &mut tree, ranks).expect(rt, "memory");
    tree
}

// A tree over some ranks, and the paths that some of them were seen in.
fn tree_of(rt: &impl Abort, alloc: Global, ranks: &[u32], paths: &[(&[u32], &str)]) -> OwnedTree {
    let mut tree = tree_over(rt, alloc, ranks);
    for (seen, path) in paths {
        add(rt, alloc, &mut tree, seen, path).expect(rt, "a path");
    }
    tree
}

// The lines of the classes in a report.
fn text_of(rt: &impl Abort, alloc: Global, found: &TreeClasses<'_>) -> String {
    let mut text = String::new(alloc);
    for class in &found.all {
        push_head(rt, alloc, &mut text, &class.ranks, class.paths.len());
        for index in &class.paths {
            if let Some(seen) = found.seen.get(*index as usize) {
                push_path(rt, &mut text, &seen.path);
            }
        }
    }
    text
}

fn push_head(rt: &impl Abort, alloc: Global, text: &mut String, ranks: &RankSet, paths: usize) {
    let mut numbers = Vec::new(alloc);
    ranks.write_text(&mut numbers).expect(rt, "memory");
    text.push_str("class ").expect(rt, "memory");
    for byte in &numbers {
        text.push(char::from(*byte)).expect(rt, "memory");
    }
    let end = format!(in alloc; " paths {}\n", paths).expect(rt, "memory");
    text.push_str(&end).expect(rt, "memory");
}

fn push_path(rt: &impl Abort, text: &mut String, path: &CallPath) {
    let mut before = "  ";
    for i in 0..path.len() {
        text.push_str(before).expect(rt, "memory");
        text.push_str(path.frame(i)).expect(rt, "memory");
        before = ";";
    }
    text.push_str("\n").expect(rt, "memory");
}

fn check(rt: &impl Abort, alloc: Global, tree: &OwnedTree, want: &str) {
    let found = classes(alloc, tree).expect(rt, "memory");
    let text = text_of(rt, alloc, &found);
    assert!(rt; text.as_str() == want);
}

// Classes may be handed to another thread.
fn is_sent<T: Send>(_value: &T) -> bool {
    true
}

#[test]
fn has_laws() {
    equivalent_by_paths();
    classes_part_ranks();
    paths_of_classes();
}

#[test]
fn is_for_threads(rt: HostRuntime) {
    let tree = tree_over(&rt, rt.alloc(), &[3]);
    let found = classes(rt.alloc(), &tree).expect(&rt, "memory");
    assert!(rt; is_sent(&found));
}

// The ranks of a tree, the paths that some of them were seen in, and the lines of its classes.
struct Report {
    ranks: &'static [u32],
    paths: &'static [(&'static [u32], &'static str)],
    want: &'static str,
}

const ONE_SAMPLE_A_RANK: Report = Report {
    ranks: &[0, 1, 2, 3],
    paths: &[(&[0, 2, 3], "main;MPI_Barrier"), (&[1], "main;compute")],
    want: "class 3:[0,2-3] paths 1\n  main;MPI_Barrier\nclass 1:[1] paths 1\n  main;compute\n",
};

const ONE_STACK_IS_DEEPER: Report = Report {
    ranks: &[0, 1],
    paths: &[(&[0], "main;a"), (&[1], "main;a;b")],
    want: "class 1:[0] paths 1\n  main;a\nclass 1:[1] paths 1\n  main;a;b\n",
};

const SEVERAL_SAMPLES_A_RANK: Report = Report {
    ranks: &[0, 1],
    paths: &[
        (&[0], "main;a"),
        (&[1], "main;b"),
        (&[0], "main;b"),
        (&[1], "main;a"),
        (&[0], "main;a"),
        (&[1], "main;b"),
        (&[0], "main;b"),
        (&[1], "main;a"),
    ],
    want: "class 2:[0-1] paths 2\n  main;a\n  main;b\n",
};

const NO_PATHS: Report = Report {
    ranks: &[0, 1, 2, 3, 4, 5, 7],
    paths: &[],
    want: "class 7:[0-5,7] paths 0\n",
};

const SOME_RANKS_WITHOUT_A_PATH: Report = Report {
    ranks: &[0, 1, 2, 3, 4, 5, 7],
    paths: &[(&[1, 3, 4], "main;a"), (&[3, 4, 5], "main;b")],
    want: "class 3:[0,2,7] paths 0\nclass 1:[1] paths 1\n  main;a\n\
        class 2:[3-4] paths 2\n  main;a\n  main;b\nclass 1:[5] paths 1\n  main;b\n",
};

const NEIGHBOURS_IN_OTHER_PATHS: Report = Report {
    ranks: &[0, 1, 2, 3, 64, 65],
    paths: &[(&[0, 2, 64], "main;a"), (&[0, 1, 64, 65], "main;b")],
    want: "class 2:[0,64] paths 2\n  main;a\n  main;b\nclass 2:[1,65] paths 1\n  main;b\n\
        class 1:[2] paths 1\n  main;a\nclass 1:[3] paths 0\n",
};

const REPORTS: [Report; 6] = [
    ONE_SAMPLE_A_RANK,
    ONE_STACK_IS_DEEPER,
    SEVERAL_SAMPLES_A_RANK,
    NO_PATHS,
    SOME_RANKS_WITHOUT_A_PATH,
    NEIGHBOURS_IN_OTHER_PATHS,
];

#[test]
fn shows_classes(rt: HostRuntime) {
    for report in &REPORTS {
        let tree = tree_of(&rt, rt.alloc(), report.ranks, report.paths);
        check(&rt, rt.alloc(), &tree, report.want);
    }
}

#[test]
fn shows_no_class_of_no_ranks(rt: HostRuntime) {
    check(&rt, rt.alloc(), &OwnedTree::empty(rt.alloc()), "");
}
