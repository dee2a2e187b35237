//! The trait of what takes bytes, and why a write takes none.
ghost use Rattle.std.specs.Prelude.{◌≡◌, ◌≢◌, ◌<◌, ◌≤◌, ℕ, List, Option, Bool, false, length, IfOk, IsErrOf, IsTrue};
ghost use Rattle.std.specs.Io.KnownBytes.{WriteAppends};
ghost use Rattle.spb_outside.specs.Faults.{Rose};
ghost use Rattle.spb_outside.specs.declared.sink.WriteError.TheVariants.{NoMemory};

use std::alloc::AllocError;

/// Why a write took nothing.
#[derive(Clone, Copy, Debug, PartialEq, Eq)]
pub enum WriteError {
    /// The sink failed.
    Failed,
    /// The sink keeps its bytes in memory, and found none.
    NoMemory,
}

impl From<AllocError> for WriteError {
    ghost from_gives = { λ _ e. e ≡ NoMemory };

    fn from(_refused: AllocError) -> Self {
        WriteError::NoMemory
    }
}

impl From<spb_types::NoMemory> for WriteError {
    ghost from_gives = { λ _ e. e ≡ NoMemory };

    fn from(_refused: spb_types::NoMemory) -> Self {
        WriteError::NoMemory
    }
}

/// Where bytes go.
pub trait Sink {
    /// The bytes taken so far, where the sink tells them.
    ghost holds: { Self → Option (List ℕ) };

    /// How many writes failed, up to the greatest `u64`.
    ghost faults: { Self → ℕ };

    /// Whether no write fails from now on.
    ghost is_reliable: { Self → Bool } = { λ _. false };

    /// Takes the first bytes of `piece`, at least one unless it is empty, and says how many.
    ///
    /// `Failed` comes only where the count of faults rose in this call. After an error nothing was taken.
    fn write(&mut self, piece: &[u8]) -> Result<usize, WriteError>
        ensures within { IfOk result (λ n. n ≤ length piece.now) }
        ensures progress { IfOk result (λ n. 0 < length piece.now → 0 < n) }
        ensures bytes { WriteAppends (holds self.old) (holds self.new) result piece.now }
        ensures count { faults self.old ≤ faults self.new }
        ensures failed { IsErrOf result WriteError.Failed → Rose (faults self.old) (faults self.new) }
        ensures reliable { IsTrue (is_reliable self.old) →
            (result ≢ Err WriteError.Failed) × IsTrue (is_reliable self.new) × (faults self.new ≡ faults self.old) };

    /// How many writes failed, up to the greatest `u64`.
    fn faults(&self) -> u64
        ensures { result ≡ faults self.now };
}
