//! How many frames were dropped, and why.
ghost use Rattle.std.specs.Prelude.{◌≡◌};
ghost use Rattle.bridge_api.specs.Drops as spec;

use spb_types::DropReason;

/// How many frames a bridge has dropped for each reason, in the order of [`DropReason`]. Each count stops at the
/// greatest `u64`.
#[derive(Clone, Copy, Debug, PartialEq, Eq)]
pub struct Drops {
    pub frame: u64,
    pub pdu: u64,
    pub tlv: u64,
    pub not_adjacent: u64,
    pub hello: u64,
    pub ingress: u64,
    pub no_way: u64,
    pub mismatch: u64,
    pub full: u64,
}

impl Drops {
    /// No frame was dropped.
    pub fn none() -> Self
        ensures { result ≡ spec.no_drops }
    {
        Drops {
            frame: 0,
            pdu: 0,
            tlv: 0,
            not_adjacent: 0,
            hello: 0,
            ingress: 0,
            no_way: 0,
            mismatch: 0,
            full: 0,
        }
    }

    /// How many frames were dropped for a reason.
    pub fn of(&self, reason: DropReason) -> u64
        ensures { result ≡ spec.count_of reason self.now }
    {
        match reason {
            DropReason::Frame => self.frame,
            DropReason::Pdu => self.pdu,
            DropReason::Tlv => self.tlv,
            DropReason::NotAdjacent => self.not_adjacent,
            DropReason::Hello => self.hello,
            DropReason::Ingress => self.ingress,
            DropReason::NoWay => self.no_way,
            DropReason::Mismatch => self.mismatch,
            DropReason::Full => self.full,
        }
    }

    /// Counts one more frame that was dropped for a reason.
    pub fn raise(&mut self, reason: DropReason)
        ensures { self.new ≡ spec.raised_at reason 1 self.old }
    {
        self.raise_times(reason, 1);
    }

    /// Counts a frame that was dropped for a reason, if it was.
    pub fn raise_for(&mut self, dropped: Option<DropReason>)
        ensures { self.new ≡ spec.raised_for dropped self.old }
    {
        if let Some(reason) = dropped {
            self.raise(reason);
        }
    }

    /// Counts this many more frames that were dropped for a reason.
    pub fn raise_times(&mut self, reason: DropReason, times: u64)
        ensures { self.new ≡ spec.raised_at reason times self.old }
    {
        match reason {
            DropReason::Frame => self.frame = raised(self.frame, times),
            DropReason::Pdu => self.pdu = raised(self.pdu, times),
            DropReason::Tlv => self.tlv = raised(self.tlv, times),
            DropReason::NotAdjacent => self.not_adjacent = raised(self.not_adjacent, times),
            DropReason::Hello => self.hello = raised(self.hello, times),
            DropReason::Ingress => self.ingress = raised(self.ingress, times),
            DropReason::NoWay => self.no_way = raised(self.no_way, times),
            DropReason::Mismatch => self.mismatch = raised(self.mismatch, times),
            DropReason::Full => self.full = raised(self.full, times),
        }
    }
}

/// A count after this many more were counted, which stops at the greatest number.
fn raised(count: u64, times: u64) -> u64
    ensures { result ≡ spec.raised times count }
{
    count.saturating_add(times)
}
