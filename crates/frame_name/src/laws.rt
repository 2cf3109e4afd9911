//! Laws of frames.

ghost use Rattle.std.specs.Prelude.{◌≡◌, ◌⊎◌, ◌<◌, ◌≤◌, ◌++◌, ◌||◌, ℕ, List, Bool, true, false, length};
ghost use Rattle.std.specs.Prelude.{IsTrue, codes};
ghost use Rattle.std.specs.List.{list_all};
ghost use Rattle.std.specs.Str.{IsUtf8};
ghost use Rattle.sha2.specs.Sha256.{sha256};
ghost use Rattle.call_path.specs.Good.{is_plain, is_good_frame};
ghost use Rattle.frame_name.specs.Calls.{CallView};
ghost use Rattle.frame_name.specs.Frames.{frame_text};
ghost use Rattle.frame_name.specs.Texts.{contains};
ghost use Rattle.frame_name.specs.Words.{any_fits};
ghost use Rattle.frame_name.specs.Binaries.{is_version, without_version};
ghost use Rattle.frame_name.specs.SourceLines.{ends_in_line, unlined};
ghost use Rattle.frame_name.specs.Plain.{plain, is_remark};
ghost use Rattle.frame_name.specs.Fitted.{fitted, LooksShortened};
ghost use Rattle.frame_name.specs.FrameRules.{RulesView, frame_of};

/// A law of texts: each becomes one that a frame may have, but for its length, and none becomes a remark.
pub fn texts_become_plain()
    ensures bytes { (text : List ℕ) → list_all is_plain (plain text) ≡ true }
    ensures utf8 { (text : List ℕ) → IsUtf8 (plain text) }
    ensures not_empty { (text : List ℕ) → 0 < length (plain text) }
    ensures no_remark { (text : List ℕ) → is_remark (plain text) ≡ false }
{}

/// A law of lengths: a plain name of any length becomes one of 1 to 740 bytes.
pub fn names_are_fitted()
    ensures bytes { (text : List ℕ) → list_all is_plain (fitted (plain text)) ≡ true }
    ensures utf8 { (text : List ℕ) → IsUtf8 (fitted (plain text)) }
    ensures not_empty { (text : List ℕ) → 0 < length (fitted (plain text)) }
    ensures within_limit { (text : List ℕ) → length (fitted (plain text)) ≤ 740 }
{}

/// A law of long names: two names that are shown alike are the same, or their SHA-256 are, unless one of them looks as
/// if it had been shortened.
pub fn long_names_are_told_apart()
    ensures { (a b : List ℕ) → IsUtf8 a → IsUtf8 b →
        ((front digits back : List ℕ) → LooksShortened 320 a front digits back → ⊥) →
        ((front digits back : List ℕ) → LooksShortened 320 b front digits back → ⊥) →
        fitted a ≡ fitted b → (a ≡ b) ⊎ (sha256 a ≡ sha256 b) }
{}

/// A law of frames: each is good, and none is a remark.
pub fn frames_are_good()
    ensures good { (rules : RulesView) (is_innermost : Bool) (call : CallView) →
        IsTrue (is_good_frame (frame_text (frame_of rules is_innermost call))) }
    ensures utf8 { (rules : RulesView) (is_innermost : Bool) (call : CallView) →
        IsUtf8 (frame_text (frame_of rules is_innermost call)) }
    ensures no_remark { (rules : RulesView) (is_innermost : Bool) (call : CallView) →
        is_remark (frame_text (frame_of rules is_innermost call)) ≡ false }
{}

/// A law of words: what fits two lists of them together fits one of the two; and a text contains a part exactly where
/// it is something, the part, and something.
pub fn words_fit_texts()
    ensures one { (a b : List (List ℕ)) (text : List ℕ) →
        any_fits (a ++ b) text ≡ (any_fits a text || any_fits b text) }
    ensures found { (part text : List ℕ) → contains part text ≡ true →
        (front : List ℕ) × (rest : List ℕ) × (text ≡ front ++ (part ++ rest)) }
    ensures there { (part text front rest : List ℕ) → text ≡ front ++ (part ++ rest) → contains part text ≡ true }
{}

/// A law of libraries: one is called by the same name in each version.
pub fn versions_are_taken_off()
    ensures { (front version : List ℕ) → list_all is_version version ≡ true →
        without_version (front ++ codes ".so." ++ version) ≡ front ++ codes ".so" }
{}

/// A law of lines: frames have the same names with lines and without them, and the text of a frame with its line tells
/// that of the frame without it, for each name that doesn't itself end like one with a line.
pub fn lines_are_finer()
    ensures name { (rules others : RulesView) (is_innermost : Bool) (call : CallView) →
        (frame_of rules is_innermost call).name ≡ (frame_of others is_innermost call).name }
    ensures text { (rules others : RulesView) (is_innermost : Bool) (call : CallView) →
        others.keeps_lines ≡ false → ends_in_line (frame_of others is_innermost call).name ≡ false →
        unlined (frame_text (frame_of rules is_innermost call)) ≡ frame_text (frame_of others is_innermost call) }
{}
