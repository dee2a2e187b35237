//! Single rounds, whose deliveries are noted where they are watched.
ghost use Rattle.std.specs.Prelude.{◌≡◌, List, [], ◌++◌, None, Some, OnOk, OnErr};
ghost use Rattle.network_model.specs.declared.delivered.Delivered.{Delivered};
ghost use Rattle.network_model.specs.Captured.{seen_of};
ghost use Rattle.spb_network.specs.Applying.{Applies, IsReady};
ghost use Rattle.spb_network.specs.Network.{state_of};
ghost use Rattle.settle_laws.specs.Settling.{Notes, one_round};

use bridge_api::Bridge;
use scenario::Command;
use spb_network::{Answer, ApplyError, Delivered, NetworkOf};
use spb_types::NoMemory;
use std::alloc::Global;
use std::marker::Model;

/// The deliveries of rounds, in order, or nothing, where they aren't watched.
#[derive(Drop)]
pub struct Watch {
    watched: bool,
    items: Vec<Delivered>,
}

impl Model for Watch {
    ghost use Rattle.std.specs.Prelude.{List, Option, Some, None, if◌then◌else◌};
    ghost use Rattle.network_model.specs.declared.delivered.Delivered.{Delivered};

    ghost Value = { Option (List Delivered) };

    ghost view = { λ watch. if watch.watched then Some watch.items.items else None };
}

impl Watch {
    /// Deliveries aren't watched. Takes no memory.
    pub fn off(alloc: Global) -> Self
        ensures { result ≡ None }
    {
        Watch {
            watched: false,
            items: Vec::new(alloc),
        }
    }

    /// Deliveries are watched, and none was seen. Takes no memory.
    pub fn on(alloc: Global) -> Self
        ensures { result ≡ Some [] }
    {
        Watch {
            watched: true,
            items: Vec::new(alloc),
        }
    }

    /// Plays a round, and notes its deliveries if they are watched.
    pub fn apply_round<B: Bridge>(
        &mut self,
        network: &mut NetworkOf<B>,
    ) -> Result<Answer, ApplyError>
        requires { IsReady B.shown network.old }
        ensures applies { Applies B.shown network.old one_round result network.new }
        ensures ready { IsReady B.shown network.new }
        ensures notes { OnOk result (Notes (seen_of (state_of B.shown network.old) one_round) self.old self.new) }
    {
        if self.watched {
            network.apply_watched(&Command::Round(1), &mut self.items)
        } else {
            network.apply(&Command::Round(1))
        }
    }

    /// Moves what was seen, where it was watched, behind a list. After `NoMemory` the list is as it was.
    pub fn move_behind(self, list: &mut Vec<Delivered>) -> Result<(), NoMemory>
        ensures ok { OnOk result ((ds : List Delivered) → self ≡ Some ds → list.new.items ≡ list.old.items ++ ds) }
        ensures err { OnErr result (list.new.items ≡ list.old.items) }
    {
        let mut items = self.items;
        if list.is_empty() {
            *list = items;
            return Ok(());
        }
        list.append(&mut items)?;
        Ok(())
    }
}
