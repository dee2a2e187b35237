//! What holds of the program's words. A law is the contract of a function that does nothing.
ghost use Rattle.spb_run.specs.Words.{FormsAreSpelled};

/// Words are a form exactly where they spell it: `capture`, or `list`, or `run`, or `make` or `try` and a number from 4
/// to 96 without a leading zero, and behind `run` and `try N` nothing, or `--kind` and `plain`, `swift` or `mixed`.
pub fn forms_are_spelled()
    ensures { FormsAreSpelled }
{}
