//! What a capture is: facts for the prover, which do nothing.

ghost use Rattle.capture_text.specs.Captures.{CaptureLaws};

/// A law of captures: the frames of a capture are the whole frames that fill its bytes. It is refused where whole
/// frames fill the bytes up to an offset, and what follows them is not empty and is no frame: at the offset of the
/// refusal there, counted from the first byte of the capture, and for the same reason.
pub fn captures_are_frames()
    ensures { CaptureLaws }
{}
