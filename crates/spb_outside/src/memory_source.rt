//! A source in memory: it gives its bytes, and fails where it is told to.
ghost use Rattle.std.specs.Prelude.{◌≡◌, ◌+◌, ◌-◌, ◌^◌, ◌≤◌, Some, length, take, min, IfOk, IsOk, IsErr, IsTrue, MatchResult, ◌↔◌};
ghost use Rattle.std.specs.Io.KnownBytes.{ReadConsumes};
ghost use Rattle.spb_outside.specs.Faults.{Rose};
ghost use Rattle.spb_outside.specs.Memory.{fails, is_faultless, called, after_read};

use crate::plan::Plan;
use crate::{Failed, Source};
use std::marker::Model;

/// A source of bytes in memory, which fails at the calls that it is told to fail at.
#[derive(Drop)]
pub struct MemorySource {
    bytes: Vec<u8>,
    at: usize,
    step: usize,
    plan: Plan,
}

impl Model for MemorySource {
    ghost use Rattle.std.specs.Prelude.{◌≤◌, drop, length};
    ghost use Rattle.spb_outside.specs.Memory.{Memory};

    ghost Value = { Memory };

    ghost view = { λ m. record {
      bytes = drop m.at m.bytes.items;
      failing = m.plan.failing.items;
      step = m.step;
      calls = m.plan.calls;
      faults = m.plan.faults;
    } };

    ghost invariant = { λ m. (m.at ≤ length m.bytes.items) × (1 ≤ m.step) };
}

impl MemorySource {
    /// A source of these bytes. The calls of `read` whose numbers, counted from 1, are listed in `failing` fail, and
    /// each other call gives at most `step` bytes.
    pub fn new(bytes: Vec<u8>, failing: Vec<u32>, step: usize) -> MemorySource
        requires { 1 ≤ step }
        ensures { result ≡ record { bytes = bytes.items; failing = failing.items; step = step; calls = 0; faults = 0 } }
    {
        MemorySource {
            bytes,
            at: 0,
            step,
            plan: Plan::new(failing),
        }
    }
}

/// Copies as many of the first bytes of `from` as `into` has room for, at most `most`, and says how many.
fn copy_front(from: &[u8], most: usize, into: &mut [u8]) -> usize
    ensures amount { result ≡ min (min (length from.now) (length into.old)) most }
    ensures front { take result into.new ≡ take result from.now }
{
    let n = from.len().min(into.len()).min(most);
    into[..n].copy_from_slice(&from[..n]);
    n
}

impl Source for MemorySource {
    ghost left = { λ m. Some m.bytes };

    ghost faults = { λ m. m.faults };

    ghost is_reliable = { is_faultless };

    fn read(&mut self, into: &mut [u8]) -> Result<usize, Failed>
        ensures within { IfOk result (λ n. n ≤ length into.new) }
        ensures bytes { ReadConsumes (Some self.old.bytes) (Some self.new.bytes) result into.new }
        ensures count { self.old.faults ≤ self.new.faults }
        ensures failed { IsErr result → Rose self.old.faults self.new.faults }
        ensures reliable { IsTrue (is_faultless self.old) →
            IsOk result × IsTrue (is_faultless self.new) × (self.new.faults ≡ self.old.faults) }

        ensures fails { IsErr result ↔ IsTrue (fails self.old) }
        ensures amount { IfOk result (λ n. n ≡ min (min (length self.old.bytes) (length into.old)) self.old.step) }
        ensures after { MatchResult result (λ n. self.new ≡ after_read self.old n) (λ _. self.new ≡ called self.old) }
    {
        if self.plan.call() {
            return Err(Failed);
        }
        let n = copy_front(&self.bytes[self.at..], self.step, into);
        self.at += n;
        Ok(n)
    }

    fn faults(&self) -> u64 {
        self.plan.faults
    }
}
