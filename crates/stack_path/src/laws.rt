//! Laws of paths.

ghost use Rattle.std.specs.Prelude.{◌≡◌, ◌<◌, ◌≤◌, ◌||◌, ◌++◌, ℕ, Bool, true, List, [], ◌∷◌, length, take, map};
ghost use Rattle.call_path.specs.Path.{Path};
ghost use Rattle.frame_name.specs.Frames.{FrameView};
ghost use Rattle.stack_path.specs.Beginnings.{Stack, begun_first, begun_other};
ghost use Rattle.stack_path.specs.Recursion.{RecursionView, Cycles, Loops, cycle_len, len_before, once};
ghost use Rattle.stack_path.specs.Cuts.{until, is_cut_by};
ghost use Rattle.stack_path.specs.Ends.{both_ends, ends_with_remark, cut_to};
ghost use Rattle.stack_path.specs.Choices.{ChoiceView};
ghost use Rattle.stack_path.specs.Paths.{kept};

/// A law of recursion: what is shown of a stack has nothing more to leave out. Of cycles none comes twice in a row, up to
/// any frame, and of loops no function comes twice.
pub fn recursion_once()
    ensures again { (how : RecursionView) (s : Stack) → once how (once how s) ≡ once how s }
    ensures cycles { (s : Stack) (k : ℕ) → cycle_len (take k (once Cycles s)) ≡ 0 }
    ensures loops { (s outer inner : Stack) (f : FrameView) → once Loops s ≡ outer ++ f ∷ inner →
        len_before f.name outer ≡ length outer }
{}

/// A law of cuts: what ends at more frames is a function of what ends at fewer, and so with more words.
pub fn more_words_are_coarser()
    ensures more { (cuts more : FrameView → Bool) (s : Stack) →
        until more (until cuts s) ≡ until (λ f. cuts f || more f) s }
    ensures again { (cuts : FrameView → Bool) (s : Stack) → until cuts (until cuts s) ≡ until cuts s }
    ensures words { (words more : List (List ℕ)) (s : Stack) →
        until (is_cut_by (words ++ more)) s ≡ until (is_cut_by more) (until (is_cut_by words) s) }
{}

/// A law of lines: where a stack begins, and which of its frames are shown, doesn't rest on them.
pub fn lines_change_no_frames()
    ensures kept { (choice : ChoiceView) (s : Stack) →
        let bare : FrameView → FrameView = λ f. record f { line = [] } in
        map bare (kept choice s) ≡ kept choice (map bare s) }
    ensures first { (s : Stack) →
        let bare : FrameView → FrameView = λ f. record f { line = [] } in
        map bare (begun_first s) ≡ begun_first (map bare s) }
    ensures other { (s : Stack) →
        let bare : FrameView → FrameView = λ f. record f { line = [] } in
        map bare (begun_other s) ≡ begun_other (map bare s) }
{}

/// A law of frames: of a stack that has one some are shown.
pub fn paths_are_shown()
    ensures kept { (choice : ChoiceView) (s : Stack) → 0 < length s → 0 < length (kept choice s) }
    ensures first { (choice : ChoiceView) (s : Stack) → 0 < length s → 0 < length (kept choice (begun_first s)) }
{}

/// A law of depths: a path with fewer frames is a function of one with more, unless that one ends at a remark which is
/// not at the whole path's end. A limit is kept, and so is that of all paths.
pub fn depth_is_coarser()
    ensures twice { (d e : ℕ) (p : Path) → 0 < d → d ≤ e →
        (ends_with_remark (take e p) ≡ true → ends_with_remark p ≡ true) → cut_to d (cut_to e p) ≡ cut_to d p }
    ensures within { (d : ℕ) (p : Path) → 0 < d → length (cut_to d p) ≤ d }
    ensures both { (p : Path) → length (both_ends p) ≤ 128 }
{}
