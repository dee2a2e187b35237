//! What holds of a listing. A law is the contract of a function that does nothing.
ghost use Rattle.capture_list.specs.Laws.{FramesAreListed};

/// A capture of some frames, whichever program wrote it, is listed as the lines of these frames, where the file has at
/// most 67,108,864 bytes.
pub fn frames_are_listed()
    ensures { FramesAreListed }
{}
