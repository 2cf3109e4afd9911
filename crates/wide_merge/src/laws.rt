//! Laws of lists of classes.

ghost use Rattle.std.specs.Prelude.{◌≡◌, List};
ghost use Rattle.rank_set.specs.Ranks.{Ranks};
ghost use Rattle.call_path.specs.Pairs.{Pairs};
ghost use Rattle.equiv_class.specs.Classes.{classes_of};
ghost use Rattle.wide_merge.specs.ClassLists.{AreClasses, Block};

/// A law of classes: a list of blocks is the classes of pairs over some ranks exactly where each block has just those
/// of the ranks that were seen in its paths, the blocks stand by their least ranks, and together they have all the
/// ranks. It does nothing.
pub fn lists_of_classes()
    ensures are { (P : Pairs) (C : Ranks) → AreClasses P C (classes_of P C) }
    ensures only { (P : Pairs) (C : Ranks) (ks : List Block) → AreClasses P C ks → ks ≡ classes_of P C }
{}
