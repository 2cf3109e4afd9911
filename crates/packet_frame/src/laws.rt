//! Laws of the format: facts for the prover, which do nothing.

ghost use Rattle.std.specs.Prelude.{◌≡◌, ℕ, List};
ghost use Rattle.prefix_tree.specs.Tree.{Tree, IsTree};
ghost use Rattle.packet_frame.specs.Captures.{AreReadFirst, AreReadSecond};
ghost use Rattle.packet_frame.specs.Fields.{Spells};
ghost use Rattle.packet_frame.specs.FormLaws.{HasLaws};
ghost use Rattle.packet_frame.specs.Frame.{Sent, Message, frame_form};
ghost use Rattle.packet_frame.specs.Sending.{MayBeSent, MayBeTree, IsSpelledOut, AreTreesSent, AreBytes, IsOneSpelling, IsOnlySpelling};
ghost use Rattle.packet_frame.specs.Sent.{sent_from, tree_from};
ghost use Rattle.packet_frame.specs.Streams.{StreamLaws};

/// A frame that is settled stays with more bytes behind, and a spelling is read again; no spelling begins another.
/// Frames one after another are the same however they are cut into pieces.
pub fn frame_laws()
    ensures form { HasLaws frame_form }
    ensures streams { StreamLaws }
{}

/// Captures of versions 1 and 2, and what is read of them.
pub fn captures_are_read()
    ensures first { AreReadFirst }
    ensures second { AreReadSecond }
{}

/// What may be sent is read again from its spelling in either version. What bytes spell may be sent, and they are its
/// one spelling in their version.
pub fn spellings()
    ensures first { IsSpelledOut 1 }
    ensures second { IsSpelledOut 2 }
    ensures messages { (bytes : List ℕ) (m : Message)
        → AreBytes bytes → Spells frame_form bytes m → IsOneSpelling bytes m }
{}

/// A tree that may be sent is given again by its rows, and by what is read of its spelling. Rows that may be sent are
/// those of their tree, which may be sent, too. So a packet with a tree has at most one spelling in each version.
pub fn trees_are_sent()
    ensures back { (t : Tree) → IsTree t → tree_from (sent_from t) ≡ t }
    ensures first { AreTreesSent 1 }
    ensures second { AreTreesSent 2 }
    ensures rows { (version : ℕ) (s : Sent) → MayBeSent version s → sent_from (tree_from s) ≡ s }
    ensures trees { (version : ℕ) (s : Sent) → MayBeSent version s → MayBeTree version (tree_from s) }
    ensures packets { IsOnlySpelling }
{}
