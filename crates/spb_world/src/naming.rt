//! Why a command that names bridges or links is refused, by what is declared alone.
ghost use Rattle.std.specs.Prelude.{◌≡◌};
ghost use Rattle.spb_world.specs.Naming as naming;

use crate::reason::reason_unless;
use crate::{Reason, World, check};
use spb_types::Name;
use spb_types::limits::GREATEST_METRIC;

impl World {
    /// Why what names a bridge is refused, if it is.
    #[tactic(auto, unfolding(crate::specs::Naming::unnamed_refusal))]
    pub fn unnamed_refusal(&self, name: Name) -> Option<Reason>
        ensures { result ≡ naming.unnamed_refusal self.now name }
    {
        reason_unless(self.bridge_place(name).is_some(), Reason::NoSuchName)
    }

    /// Whether both bridges and the base VID of a number are declared.
    fn are_declared(&self, from: Name, to: Name, vid: u64) -> bool
        ensures { result ≡ naming.are_declared self.now from to vid }
    {
        self.bridge_place(from).is_some()
            && self.bridge_place(to).is_some()
            && check::has_vid(self.vids(), vid)
    }

    /// Why the path between two bridges in a base VID can't be asked for, if it can't.
    #[tactic(auto, unfolding(crate::specs::Naming::path_refusal))]
    pub fn path_refusal(&self, from: Name, to: Name, vid: u64) -> Option<Reason>
        ensures { result ≡ naming.path_refusal self.now from to vid }
    {
        reason_unless(self.are_declared(from, to, vid), Reason::NoSuchName)
    }

    /// Why a link between two bridges can't be declared, if it can't.
    #[tactic(auto, unfolding(crate::specs::Naming::named_link_refusal))]
    pub fn named_link_refusal(
        &self,
        name: Name,
        a: Name,
        port_a: u64,
        b: Name,
        port_b: u64,
        cost: u64,
    ) -> Option<Reason>
        ensures { result ≡ naming.named_link_refusal self.now name a port_a b port_b cost }
    {
        let Some(i) = self.bridge_place(a) else {
            return Some(Reason::NoSuchName);
        };
        let Some(j) = self.bridge_place(b) else {
            return Some(Reason::NoSuchName);
        };
        self.link_refusal(name, i, port_a, j, port_b, cost)
    }

    /// Why the link of a name can't go down, if it can't.
    #[tactic(auto, unfolding(crate::specs::Naming::down_refusal))]
    pub fn down_refusal(&self, name: Name) -> Option<Reason>
        ensures { result ≡ naming.down_refusal self.now name }
    {
        match self.link_place(name) {
            None => Some(Reason::NoSuchName),
            Some(link) => reason_unless(self.is_live(link), Reason::AlreadyDown),
        }
    }

    /// Why the link of a name can't come up, if it can't.
    #[tactic(auto, unfolding(crate::specs::Naming::up_refusal))]
    pub fn up_refusal(&self, name: Name) -> Option<Reason>
        ensures { result ≡ naming.up_refusal self.now name }
    {
        match self.link_place(name) {
            None => Some(Reason::NoSuchName),
            Some(link) => reason_unless(!self.is_live(link), Reason::AlreadyUp),
        }
    }

    /// Why an end of the link of a name can't get this metric, if it can't.
    #[tactic(auto, unfolding(crate::specs::Naming::metric_refusal))]
    pub fn metric_refusal(&self, name: Name, metric: u64) -> Option<Reason>
        ensures { result ≡ naming.metric_refusal self.now name metric }
    {
        match self.link_place(name) {
            None => Some(Reason::NoSuchName),
            Some(_) => reason_unless(
                1 <= metric && metric <= u64::from(GREATEST_METRIC),
                Reason::Range,
            ),
        }
    }

    /// Why a customer port of a bridge can't be attached to the service of an I-SID, if it can't.
    #[tactic(auto, unfolding(crate::specs::Naming::named_attach_refusal))]
    pub fn named_attach_refusal(&self, name: Name, port: u64, isid: u64) -> Option<Reason>
        ensures { result ≡ naming.named_attach_refusal self.now name port isid }
    {
        match self.bridge_place(name) {
            None => Some(Reason::NoSuchName),
            Some(place) => self.attach_refusal(place, port, isid),
        }
    }

    /// Why a customer port of a bridge can't be detached, if it can't.
    #[tactic(auto, unfolding(crate::specs::Naming::named_detach_refusal))]
    pub fn named_detach_refusal(&self, name: Name, port: u64) -> Option<Reason>
        ensures { result ≡ naming.named_detach_refusal self.now name port }
    {
        match self.bridge_place(name) {
            None => Some(Reason::NoSuchName),
            Some(place) => self.detach_refusal(place, port),
        }
    }

    /// Why a customer's frame can't enter at a customer port of a bridge, if it can't.
    #[tactic(auto, unfolding(crate::specs::Naming::named_entry_refusal))]
    pub fn named_entry_refusal(&self, name: Name, port: u64, frame: &[u8]) -> Option<Reason>
        ensures { result ≡ naming.named_entry_refusal self.now name port frame.now }
    {
        match self.bridge_place(name) {
            None => Some(Reason::NoSuchName),
            Some(place) => self.entry_refusal(place, port, frame),
        }
    }
}
