//! The laws of answers. Each is the contract of a function that does nothing.
ghost use Rattle.extra_answers.specs.Laws.{YesIsBest, ProofsPass};

/// Where a `check` isn't refused and no bridge fails, its entries are those of the best paths, and what is answered is the
/// best path.
pub fn yes_is_best()
    ensures { YesIsBest }
{}

/// What `proof` answers passes a `check` in the same world: it isn't refused, no bridge fails, and what is answered is the
/// best path.
pub fn proofs_pass()
    ensures { ProofsPass }
{}
