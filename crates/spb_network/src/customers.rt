//! Customer ports of the bridges of a network: what an accepted `attach`, `detach` or `frame` makes.
ghost use Rattle.std.specs.Prelude.{◌≡◌, ◌<◌, None, true, length, OnOk};
ghost use Rattle.spb_world.specs.Attaching as attaching;
ghost use Rattle.spb_world.specs.Naming as refuse;
ghost use Rattle.network_model.specs.Play as play;
ghost use Rattle.network_model.specs.Events as event;
ghost use Rattle.network_model.specs.Refusing as refusing;
ghost use Rattle.spb_network.specs.Network.{state_of, AreConfigured};
ghost use Rattle.network_model.specs.State.{CanAttachAt};
ghost use Rattle.spb_network.specs.Applying.{IsSoundNetwork, is_of_customers};

use crate::{NetworkOf, Reason, World, boxes};
use bridge_api::{Bridge, Outbox};
use scenario::Command;
use spb_types::{Attachment, Isid, Mode, Name, NoMemory};

impl<B: Bridge> NetworkOf<B> {
    /// Attaches a customer port of the bridge at a place, where nothing is attached.
    fn attach_port(&mut self, place: usize, attachment: Attachment) -> Result<(), NoMemory>
        requires made { AreConfigured B.shown self.old.boxes.items }
        requires new { attaching.IsNewAttachment self.old.world (place, attachment) }
        requires can { CanAttachAt (state_of B.shown self.old).views place attachment }
        ensures state { OnOk result (state_of B.shown self.new
            ≡ event.with_attached_port (state_of B.shown self.old) place attachment) }
        ensures made { OnOk result (AreConfigured B.shown self.new.boxes.items) }
    {
        boxes::attach(&mut self.boxes, place, attachment)?;
        self.world.attach(place, attachment)
    }

    /// Attaches a customer port of the bridge at a place to the service of an I-SID, in a mode.
    #[tactic(auto, unfolding(network_model::specs::Events::port_attached))]
    fn attach(&mut self, place: usize, port: u64, isid: u64, mode: Mode) -> Result<(), NoMemory>
        requires sound { IsSoundNetwork B.shown self.old }
        requires place { place < length self.old.world.bridges }
        requires accepted { attaching.attach_refusal self.old.world place port isid ≡ None }
        ensures state { OnOk result (state_of B.shown self.new
            ≡ event.port_attached (state_of B.shown self.old) place port isid mode) }
        ensures made { OnOk result (AreConfigured B.shown self.new.boxes.items) }
    {
        let Some(vid) = self.world.vid_of_isid(isid) else {
            return Ok(());
        };
        let attachment = Attachment {
            port: port as u16,
            isid: Isid { value: isid as u32 },
            vid,
            mode,
        };
        self.attach_port(place, attachment)
    }

    /// Detaches a customer port of the bridge at a place.
    #[tactic(auto, unfolding(network_model::specs::Events::port_detached))]
    fn detach(&mut self, place: usize, port: u64) -> Result<(), NoMemory>
        requires sound { IsSoundNetwork B.shown self.old }
        requires accepted { attaching.detach_refusal self.old.world place port ≡ None }
        ensures state { OnOk result (state_of B.shown self.new
            ≡ event.port_detached (state_of B.shown self.old) place port) }
        ensures made { OnOk result (AreConfigured B.shown self.new.boxes.items) }
    {
        boxes::detach(&mut self.boxes, place, port as u16)?;
        self.world.detach(place, port as u16);
        Ok(())
    }

    /// A customer's frame enters at a customer port of the bridge at a place.
    fn enter(&mut self, place: usize, port: u64, frame: &[u8]) -> Result<(), NoMemory>
        requires sound { IsSoundNetwork B.shown self.old }
        requires accepted { attaching.entry_refusal self.old.world place port frame.now ≡ None }
        ensures state { OnOk result (state_of B.shown self.new
            ≡ event.frame_entered (state_of B.shown self.old) place port frame.now) }
        ensures made { OnOk result (AreConfigured B.shown self.new.boxes.items) }
    {
        let mut outbox = Outbox::new(self.alloc);
        boxes::enter(&mut self.boxes, place, port as u16, frame, &mut outbox)?;
        self.send_on(place, outbox)
    }

    /// A customer port of a bridge is attached to a service.
    #[tactic(auto, unfolding(spb_world::specs::Naming::named_attach_refusal, network_model::specs::Play::at_bridge))]
    fn play_attach(&mut self, name: Name, port: u64, isid: u64, mode: Mode) -> Result<(), NoMemory>
        requires sound { IsSoundNetwork B.shown self.old }
        requires accepted { refuse.named_attach_refusal self.old.world name port isid ≡ None }
        ensures state { OnOk result (state_of B.shown self.new
            ≡ play.at_bridge (λ s i. event.port_attached s i port isid mode) (state_of B.shown self.old) name) }
        ensures made { OnOk result (AreConfigured B.shown self.new.boxes.items) }
    {
        match self.world.bridge_place(name) {
            None => Ok(()),
            Some(place) => self.attach(place, port, isid, mode),
        }
    }

    /// A customer port of a bridge is detached.
    #[tactic(auto, unfolding(spb_world::specs::Naming::named_detach_refusal, network_model::specs::Play::at_bridge))]
    fn play_detach(&mut self, name: Name, port: u64) -> Result<(), NoMemory>
        requires sound { IsSoundNetwork B.shown self.old }
        requires accepted { refuse.named_detach_refusal self.old.world name port ≡ None }
        ensures state { OnOk result (state_of B.shown self.new
            ≡ play.at_bridge (λ s i. event.port_detached s i port) (state_of B.shown self.old) name) }
        ensures made { OnOk result (AreConfigured B.shown self.new.boxes.items) }
    {
        match self.world.bridge_place(name) {
            None => Ok(()),
            Some(place) => self.detach(place, port),
        }
    }

    /// A customer's frame enters at a customer port of a bridge.
    #[tactic(auto, unfolding(spb_world::specs::Naming::named_entry_refusal, network_model::specs::Play::at_bridge))]
    fn play_frame(&mut self, name: Name, port: u64, frame: &[u8]) -> Result<(), NoMemory>
        requires sound { IsSoundNetwork B.shown self.old }
        requires accepted { refuse.named_entry_refusal self.old.world name port frame.now ≡ None }
        ensures state { OnOk result (state_of B.shown self.new
            ≡ play.at_bridge (λ s i. event.frame_entered s i port frame.now) (state_of B.shown self.old) name) }
        ensures made { OnOk result (AreConfigured B.shown self.new.boxes.items) }
    {
        match self.world.bridge_place(name) {
            None => Ok(()),
            Some(place) => self.enter(place, port, frame),
        }
    }
    /// What an `attach`, `detach` or `frame` that isn't refused makes of the network.
    pub(crate) fn play_customers(&mut self, command: &Command) -> Result<(), NoMemory>
        requires sound { IsSoundNetwork B.shown self.old }
        requires accepted { refusing.refusal_of (state_of B.shown self.old) command.now ≡ None }
        requires customers { is_of_customers command.now ≡ true }
        ensures state { OnOk result (state_of B.shown self.new ≡ play.played (state_of B.shown self.old) command.now) }
        ensures made { OnOk result (AreConfigured B.shown self.new.boxes.items) }
    {
        match command {
            Command::Attach {
                bridge,
                port,
                isid,
                mode,
            } => self.play_attach(*bridge, *port, *isid, *mode),
            Command::Detach { bridge, port } => self.play_detach(*bridge, *port),
            Command::Frame {
                bridge,
                port,
                frame,
            } => self.play_frame(*bridge, *port, frame.as_slice()),
            _ => Ok(()),
        }
    }
}
