//! Sums over ranks: the sum, the least, the greatest or the count of the numbers of the ranks that a release covers.
//!
//! A daemon's *part* is the fold over the numbers of its own ranks. [`part_plan`] makes of a plan the *plan of
//! parts*: in each wave, the least rank of each daemon was seen in a path whose only frame is the text of the
//! daemon's part. The overlay runs it as any other plan. It merges sets of pairs of a rank and a path, so a part that
//! is sent again counts once. What was sampled changes no run, and [`value_of`] reads off the tree of a release the
//! fold over exactly the ranks that it covers: that is the law [`sums_are_exact`].
#![tactic(auto)]

ghost use Rattle.std.specs.Prelude.{◌≡◌, List, ℕ};
ghost use Rattle.rank_set.specs.Ranks.{Ranks};
ghost use Rattle.call_path.specs.Pairs.{Pairs};
ghost use Rattle.prefix_tree.specs.Tree.{merged, tree_of};
ghost use Rattle.overlay_setup.specs.NodeSets.{In};
ghost use Rattle.stat_plan.specs.Plans.{Plan, samples, waves_of};
ghost use Rattle.stat_plan.specs.Invariants.{IsPlan};
ghost use Rattle.overlay_event.specs.declared.event.Event.{Event};
ghost use Rattle.overlay_core.specs.LinkInvariant.{IsUnion};
ghost use Rattle.overlay_core.specs.TreeReleases.{TreeRelease};
ghost use Rattle.value_text.specs.Numbers.{Numbers};
ghost use Rattle.rank_sums.specs.declared.fold.Fold.{Fold};
ghost use Rattle.rank_sums.specs.Folds.{part_of, total};
ghost use Rattle.rank_sums.specs.Parts.{IsFoldable, covered_daemons, part_at};
ghost use Rattle.rank_sums.specs.PartTrees.{CarriesParts, tree_total};
ghost use Rattle.rank_sums.specs.PartPlans.{part_plan};
ghost use Rattle.rank_sums.specs.Sums.{AreMergedReleases, AreSums, IsPartPlan};

mod fold;
mod lines;
mod parts;
mod value;

pub use fold::Fold;
pub use lines::part_plan;
pub use value::value_of;

/// A law: the fold over all ranks of some daemons is that of the daemons' parts, and a tree that carries the parts
/// counts for the fold over the ranks that it covers.
pub fn parts_make_the_whole()
    ensures whole { (p : Plan) (v : Numbers) (f : Fold) (s n : ℕ) (C : Ranks) → IsPlan p → IsUnion p s n C
        → part_of f v C ≡ total f (part_at p v f) (covered_daemons p s C) }
    ensures carried { (p : Plan) (v : Numbers) (f : Fold) (s n : ℕ) (P : Pairs) (C : Ranks) → IsFoldable p v f
        → CarriesParts p v f s P → IsUnion p s n C → tree_total f (tree_of P C) ≡ part_of f v C }
{}

/// A law: the plan of parts is a plan, and its samples of each wave are exactly the parts of the stream's daemons.
pub fn part_plans_carry_parts()
    ensures plan { (p : Plan) (v : Numbers) (f : Fold) → IsFoldable p v f → IsPlan (part_plan p v f) }
    ensures carry { (p : Plan) (v : Numbers) (f : Fold) (s w : ℕ) → IsFoldable p v f
        → In (s, w) (waves_of p.streams) → CarriesParts p v f s (samples (part_plan p v f) s w) }
{}

/// A law: sums are exact. Where the parts of a plan's daemons are sampled in place of the plan's own samples, a
/// journal leads to the same state, whatever is lost and sent again, and each release has the fold over exactly the
/// ranks that it covers: any releases that are direct merges of their waves, and so those of every net, replay and
/// run on workers. A tree that is merged with itself stays the same, so a part counts once however often it comes.
pub fn sums_are_exact()
    ensures exact { (p parts : Plan) (v : Numbers) (f : Fold) (journal : List Event) (rs : List TreeRelease)
        → IsPartPlan p v f parts → AreMergedReleases parts journal rs → AreSums p v f journal rs }
    ensures twice { (P : Pairs) (C : Ranks) → merged (tree_of P C) (tree_of P C) ≡ tree_of P C }
{}
