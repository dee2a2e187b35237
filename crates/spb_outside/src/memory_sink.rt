//! A sink in memory: it keeps its bytes, and fails where it is told to.
ghost use Rattle.std.specs.Prelude.{◌≡◌, ◌≢◌, ◌+◌, ◌-◌, ◌^◌, ◌<◌, ◌≤◌, [], Some, Ok, Err, length, take, min, IfOk, IsErrOf, IsTrue, MatchResult, ◌↔◌};
ghost use Rattle.std.specs.Io.KnownBytes.{WriteAppends};
ghost use Rattle.spb_outside.specs.Faults.{Rose};
ghost use Rattle.spb_outside.specs.Memory.{fails, is_faultless, called, after_write};

use crate::plan::Plan;
use crate::{Sink, WriteError};
use std::alloc::Global;
use std::marker::Model;

/// A sink that keeps its bytes in memory, and fails at the calls that it is told to fail at.
#[derive(Drop)]
pub struct MemorySink {
    bytes: Vec<u8>,
    step: usize,
    plan: Plan,
}

impl Model for MemorySink {
    ghost use Rattle.std.specs.Prelude.{◌≤◌};
    ghost use Rattle.spb_outside.specs.Memory.{Memory};

    ghost Value = { Memory };

    ghost view = { λ m. record {
      bytes = m.bytes.items;
      failing = m.plan.failing.items;
      step = m.step;
      calls = m.plan.calls;
      faults = m.plan.faults;
    } };

    ghost invariant = { λ m. 1 ≤ m.step };
}

impl MemorySink {
    /// A sink that holds nothing yet. The calls of `write` whose numbers, counted from 1, are listed in `failing`
    /// fail, and each other call takes at most `step` bytes. It takes no memory.
    pub fn new(alloc: Global, failing: Vec<u32>, step: usize) -> MemorySink
        requires { 1 ≤ step }
        ensures { result ≡ record { bytes = []; failing = failing.items; step = step; calls = 0; faults = 0 } }
    {
        MemorySink {
            bytes: Vec::new(alloc),
            step,
            plan: Plan::new(failing),
        }
    }

    /// The bytes that it took, in order.
    pub fn bytes(&self) -> &[u8]
        ensures { result.now ≡ self.now.bytes }
    {
        &self.bytes
    }

    /// Whether the bytes that it took are these.
    pub fn has_taken(&self, bytes: &[u8]) -> bool
        ensures { IsTrue result ↔ (self.now.bytes ≡ bytes.now) }
    {
        self.bytes.as_slice() == bytes
    }
}

impl Sink for MemorySink {
    ghost holds = { λ m. Some m.bytes };

    ghost faults = { λ m. m.faults };

    ghost is_reliable = { is_faultless };

    fn write(&mut self, piece: &[u8]) -> Result<usize, WriteError>
        ensures within { IfOk result (λ n. n ≤ length piece.now) }
        ensures progress { IfOk result (λ n. 0 < length piece.now → 0 < n) }
        ensures bytes { WriteAppends (Some self.old.bytes) (Some self.new.bytes) result piece.now }
        ensures count { self.old.faults ≤ self.new.faults }
        ensures failed { IsErrOf result WriteError.Failed → Rose self.old.faults self.new.faults }
        ensures reliable { IsTrue (is_faultless self.old) →
            (result ≢ Err WriteError.Failed) × IsTrue (is_faultless self.new) × (self.new.faults ≡ self.old.faults) }

        ensures fails { IsErrOf result WriteError.Failed ↔ IsTrue (fails self.old) }
        ensures amount { IfOk result (λ n. n ≡ min (length piece.now) self.old.step) }
        ensures after { MatchResult result (λ n. self.new ≡ after_write self.old (take n piece.now)) (λ _. self.new ≡ called self.old) }
    {
        if self.plan.call() {
            return Err(WriteError::Failed);
        }
        let n = piece.len().min(self.step);
        self.bytes.extend_from_slice(&piece[..n])?;
        Ok(n)
    }

    fn faults(&self) -> u64 {
        self.plan.faults
    }
}
