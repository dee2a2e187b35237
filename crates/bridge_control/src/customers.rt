//! Customers' frames: one that enters at a customer port, and a backbone frame that carries one.
ghost use Rattle.std.specs.Prelude.{◌≡◌, ◌++◌, OnOk, OnErr};
ghost use Rattle.bridge_api.specs.Customers as api;
ghost use Rattle.bridge_api.specs.Customers.{IsCustomerFrame};
ghost use Rattle.bridge_api.specs.Parsing as parsing;
ghost use Rattle.bridge_api.specs.Step.{with_moved, GainsMoved};
ghost use Rattle.bridge_control.specs.Carrying.{carrying, forwarded_by};
ghost use Rattle.bridge_control.specs.Kept.{AreOwn};
ghost use Rattle.bridge_control.specs.Machine.{view_of, IsReady, IsAfter};

use crate::machine::Machine;
use bridge_api::Outbox;
use forwarding::{Moved, from_backbone, from_customer};
use itag_frames::Backbone;
use spb_types::{NoMemory, Seq, Tables};
use std::alloc::Global;
use std::mem;

impl Machine {
    /// A customer's frame enters at a customer port. The tables are made if none are kept.
    pub(crate) fn customer(
        &mut self,
        port: u16,
        frame: &[u8],
        kept: &mut Option<Tables>,
        outbox: &mut Outbox,
    ) -> Result<(), NoMemory>
        requires ready { IsReady self.old }
        requires tables { AreOwn (view_of self.old) kept.old }
        requires frame { IsCustomerFrame frame.now }
        ensures after { OnOk result (IsAfter (api.after_entry port frame.now (view_of self.old)) self.new) }
        ensures sent { OnOk result
            (outbox.new ≡ with_moved (api.moved_by_entry port frame.now (view_of self.old)) outbox.old) }
        ensures gained { OnErr result
            (GainsMoved (api.moved_by_entry port frame.now (view_of self.old)) outbox.old outbox.new) }
        ensures kept { OnOk result (AreOwn (view_of self.new) kept.new) }
    {
        let tables = self.tables_or(kept.take())?;
        let moved = from_customer(self.alloc, &mut self.tenant, &tables, port, frame)?;
        *kept = Some(tables);
        self.drops.raise_for(moved.dropped);
        send_moved(self.alloc, moved, outbox)
    }

    /// A backbone frame comes in at a port with carrier: `frame` is what `whole` is opened as. The tables are made if
    /// none are kept.
    pub(crate) fn relay(
        &mut self,
        port: u8,
        frame: &Backbone<'_>,
        whole: &[u8],
        kept: &mut Option<Tables>,
        outbox: &mut Outbox,
    ) -> Result<(), NoMemory>
        requires ready { IsReady self.old }
        requires tables { AreOwn (view_of self.old) kept.old }
        requires brings { parsing.parsed whole.now ≡ carrying frame.now }
        ensures after { OnOk result (IsAfter (forwarded_by frame.now port (view_of self.old)) self.new) }
        ensures sent { OnOk result
            (outbox.new ≡ with_moved (api.moved_as (carrying frame.now) port whole.now (view_of self.old)) outbox.old) }
        ensures gained { OnErr result
            (GainsMoved (api.moved_as (carrying frame.now) port whole.now (view_of self.old)) outbox.old outbox.new) }
        ensures kept { OnOk result (AreOwn (view_of self.new) kept.new) }
    {
        let tables = self.tables_or(kept.take())?;
        let moved = from_backbone(self.alloc, &mut self.tenant, &tables, port, frame, whole)?;
        *kept = Some(tables);
        self.drops.raise_for(moved.dropped);
        send_moved(self.alloc, moved, outbox)
    }
}

/// Puts what a frame made the bridge send into the outbox.
fn send_moved(alloc: Global, moved: Moved, outbox: &mut Outbox) -> Result<(), NoMemory>
    ensures sent { OnOk result (outbox.new ≡ with_moved moved outbox.old) }
    ensures gained { OnErr result (GainsMoved moved outbox.old outbox.new) }
{
    put_behind(alloc, moved.wire, &mut outbox.wire)?;
    put_behind(alloc, moved.left, &mut outbox.left)
}

/// Puts the items of a list behind those of another, which becomes the list where it has none. After `NoMemory` nothing
/// changed.
fn put_behind<T: Drop>(alloc: Global, more: Seq<T>, list: &mut Seq<T>) -> Result<(), NoMemory>
    ensures ok { OnOk result (list.new ≡ list.old ++ more) }
    ensures err { OnErr result (list.new ≡ list.old) }
{
    if list.is_empty() {
        *list = more;
        return Ok(());
    }
    let mut items = mem::replace(list, Seq::new(alloc)).into_vec();
    let ended = items.append(&mut more.into_vec());
    *list = Seq::from_vec(items);
    ended?;
    Ok(())
}
