//! The laws of neighbours. Each is the contract of a function that does nothing.
ghost use Rattle.adjacency.specs.Laws.{HelloKeeps, SecondKeeps, CarrierKeeps, HelloNames};
ghost use Rattle.adjacency.specs.Time.{KeptWhileCounting, LostAfterCount, NobodyComes};

/// A neighbour that is kept was kept before, or is the sender of the hello that was just heard.
pub fn a_kept_neighbour_was_kept_or_heard()
    ensures hello { HelloKeeps }
    ensures second { SecondKeeps }
    ensures carrier { CarrierKeeps }
{}

/// The own hello names its port, and nobody but the neighbour that is kept.
pub fn a_hello_names_nobody_but_the_kept_neighbour()
    ensures { HelloNames }
{}

/// A neighbour from which nothing more is heard is kept for as many seconds as its holding count says, in the state
/// that it is in, and is lost then: the state is Down. Where no neighbour is kept, none comes by time alone.
pub fn a_silent_neighbour_is_kept_for_its_count()
    ensures kept { KeptWhileCounting }
    ensures lost { LostAfterCount }
    ensures idle { NobodyComes }
{}
