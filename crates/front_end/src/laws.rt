//! Laws of reports. The bodies are empty: what a law says is its contract. A crate above calls its function, or imports
//! the lemma that is its answer.
ghost use Rattle.std.specs.Prelude.{◌≡◌, List, []};
ghost use Rattle.std.specs.List.Sorted.{IsStrictlySortedBy};
ghost use Rattle.rank_set.specs.Ranks.{Ranks};
ghost use Rattle.call_path.specs.Pairs.{HasNoEmptyPath, Pairs};
ghost use Rattle.prefix_tree.specs.Tree.{Tree, tree_of};
ghost use Rattle.equiv_class.specs.Classes.{classes_of};
ghost use Rattle.stat_plan.specs.Invariants.{IsPlan};
ghost use Rattle.stat_plan.specs.Plans.{Plan};
ghost use Rattle.overlay_core.specs.TreeReleases.{AreNumberedInOrder, TreeRelease};
ghost use Rattle.front_end.specs.JsonReport.{IsJsonReport};
ghost use Rattle.front_end.specs.Laws.{HasOneText, WaitingIsDirect};
ghost use Rattle.front_end.specs.ReleaseText.{classes_in};
ghost use Rattle.front_end.specs.Report.{AreDistinct, IsSortedCopy, IsReport};
ghost use Rattle.front_end.specs.Report.{release_cmp};
ghost use Rattle.wide_merge.specs.Waves.{direct_releases};

/// A law: there is one report, byte for byte, of the same releases and faults of a plan where the same nodes were lost;
/// and one as JSON.
pub fn reports_are_one()
    ensures text { HasOneText IsReport }
    ensures json { HasOneText IsJsonReport }
{}

/// A law: no two releases that are numbered in order have the same stream, wave and number.
pub fn numbered_releases_are_distinct()
    ensures { (releases : List TreeRelease) → AreNumberedInOrder [] releases → AreDistinct releases }
{}

/// A law: no two direct releases of a plan have the same stream, wave and number.
pub fn direct_releases_are_distinct()
    ensures { (p : Plan) → IsPlan p → AreDistinct (direct_releases p) }
{}

/// A law: releases whose stream, wave and number increase are printed as they stand.
pub fn ordered_releases_are_in_order()
    ensures { (releases : List TreeRelease) → IsStrictlySortedBy release_cmp releases → IsSortedCopy releases releases }
{}

/// A law: the classes depend on the tree alone, not on the samples without an empty path that it was built from.
pub fn classes_of_a_tree()
    ensures { (P : Pairs) (C : Ranks) (t : Tree) → HasNoEmptyPath P → t ≡ tree_of P C → classes_in t ≡ classes_of P C }
{}

/// A law: where every stream waits for all its daemons and loses none of them, the report of a run shows the releases
/// of the direct merge, whatever its journal is; and so does its report as JSON. Nodes between the daemons and the
/// front end may be lost.
pub fn waiting_reports_are_direct()
    ensures text { WaitingIsDirect IsReport }
    ensures json { WaitingIsDirect IsJsonReport }
{}
