//! The trait of what gives bytes.
ghost use Rattle.std.specs.Prelude.{◌≡◌, ◌≤◌, ℕ, List, Option, Bool, false, length, IfOk, IsOk, IsErr, IsTrue};
ghost use Rattle.std.specs.Io.KnownBytes.{ReadConsumes};
ghost use Rattle.spb_outside.specs.Faults.{Rose};

/// The answer of a read that failed.
#[derive(Clone, Copy, Debug, PartialEq, Eq)]
pub struct Failed;

/// Where bytes come from.
pub trait Source {
    /// The bytes still to come, where the source tells them.
    ghost left: { Self → Option (List ℕ) };

    /// How many reads failed, up to the greatest `u64`.
    ghost faults: { Self → ℕ };

    /// Whether no read fails from now on.
    ghost is_reliable: { Self → Bool } = { λ _. false };

    /// Reads the next bytes into the front of `into`, and says how many. None with room for one is the end of input.
    ///
    /// `Failed` comes only where the count of faults rose in this call, and nothing was read then.
    fn read(&mut self, into: &mut [u8]) -> Result<usize, Failed>
        ensures within { IfOk result (λ n. n ≤ length into.new) }
        ensures bytes { ReadConsumes (left self.old) (left self.new) result into.new }
        ensures count { faults self.old ≤ faults self.new }
        ensures failed { IsErr result → Rose (faults self.old) (faults self.new) }
        ensures reliable { IsTrue (is_reliable self.old) →
            IsOk result × IsTrue (is_reliable self.new) × (faults self.new ≡ faults self.old) };

    /// How many reads failed, up to the greatest `u64`.
    fn faults(&self) -> u64
        ensures { result ≡ faults self.now };
}
