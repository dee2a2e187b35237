//! The three states of an adjacency, and the table of nine cells by which they change.
ghost use Rattle.std.specs.Prelude.{◌≡◌, ◌≤◌};
ghost use Rattle.adjacency.specs.States.{state_number, state_numbered, next_state};

/// The state of an adjacency (RFC 5303, 3.1).
#[derive(Clone, Copy, Debug, PartialEq, Eq)]
pub enum AdjState {
    /// No neighbour is kept.
    Down,
    /// A neighbour is heard, which isn't known to hear this system.
    Initializing,
    /// Both hear each other.
    Up,
}

/// What a call did to an adjacency.
#[derive(Clone, Copy, Debug, PartialEq, Eq)]
pub enum AdjacencyChange {
    /// Nothing that the three below name.
    Kept,
    /// The state is Up, and before it wasn't, or it was Up with another neighbour or circuit.
    CameUp,
    /// The state was Up, and isn't any more.
    LeftUp,
    /// The hello was discarded, and nothing changed.
    Discarded,
}

impl AdjState {
    /// The number of the state in a three-way adjacency TLV (RFC 5303, 3).
    pub(crate) fn number(self) -> u8
        ensures { result ≡ state_number self }
    {
        match self {
            AdjState::Up => 0,
            AdjState::Initializing => 1,
            AdjState::Down => 2,
        }
    }

    /// The state of this number, 0 to 2.
    pub(crate) fn numbered(number: u8) -> Self
        requires { number ≤ 2 }
        ensures { result ≡ state_numbered number }
    {
        match number {
            0 => AdjState::Up,
            1 => AdjState::Initializing,
            _ => AdjState::Down,
        }
    }

    /// The state after a hello whose sender is in state `received` (the table of RFC 5303, 3.2).
    pub(crate) fn after(self, received: Self) -> Self
        ensures { result ≡ next_state self received }
    {
        match (self, received) {
            (AdjState::Down, AdjState::Down) => AdjState::Initializing,
            (AdjState::Down, AdjState::Initializing) => AdjState::Up,
            (AdjState::Down, AdjState::Up) => AdjState::Down,
            (AdjState::Initializing, AdjState::Down) => AdjState::Initializing,
            (AdjState::Initializing, _) => AdjState::Up,
            (AdjState::Up, AdjState::Down) => AdjState::Initializing,
            (AdjState::Up, _) => AdjState::Up,
        }
    }
}
