//! Hearing a frame.
ghost use Rattle.std.specs.Prelude.{◌≡◌, ◌≤◌, [], true, false, IfOk, OnOk, OnErr, if◌then◌else◌};
ghost use Rattle.isis_pdu.specs.Pdu.{hello_of, lsp_of, csnp_of, psnp_of};
ghost use Rattle.flooding.specs.Own.{HaveBytes};
ghost use Rattle.flooding.specs.Hearing.{HasFewOthers, hear_lsp_of, is_full_for_lsp};
ghost use Rattle.flooding.specs.Placing.{holding};
ghost use Rattle.bridge_api.specs.View.{IsPort, has_carrier_at};
ghost use Rattle.bridge_api.specs.Own.{originated_if_changed};
ghost use Rattle.bridge_api.specs.Parsing as parsing;
ghost use Rattle.bridge_api.specs.Hearing as api;
ghost use Rattle.bridge_api.specs.Customers.{moved_by_receive};
ghost use Rattle.bridge_api.specs.Step.{with_moved, GainsMoved};
ghost use Rattle.bridge_control.specs.Heard.{AreJudged, hello_saying};
ghost use Rattle.bridge_control.specs.Kept.{AreOwn};
ghost use Rattle.bridge_control.specs.Machine.{view_of, IsReady, IsAfter, hears};

use crate::heard::{HeardHello, Said, judged_at, none_heard, put_heard};
use crate::machine::Machine;
use crate::parsing::{Message, parse};
use crate::ports::{is_up, port_at, put_hold};
use bridge_api::{DropReason, Outbox};
use flooding::{FloodError, Own};
use isis_pdu::{Csnp, Hello, Lsp, Psnp};
use lsdb::Database;
use snp_sync::{entries_of_snp, hear_csnp, hear_psnp};
use spb_tlvs::{SnpEntry, ThreeWay, TlvError};
use spb_types::{NoMemory, PortSet, Tables};
use std::alloc::Global;

impl Machine {
    /// Hears a frame, which may be any bytes, at a port. One that is dropped is counted, and changes nothing else. Where
    /// by it other LSPs may be held, no tables are kept.
    pub(crate) fn receive(
        &mut self,
        port: u8,
        frame: &[u8],
        kept: &mut Option<Tables>,
        outbox: &mut Outbox,
    ) -> Result<(), NoMemory>
        requires ready { IsReady self.old }
        requires port { IsPort (view_of self.old) port }
        requires tables { AreOwn (view_of self.old) kept.old }
        ensures after { OnOk result (IsAfter (api.after_receive port frame.now (view_of self.old)) self.new) }
        ensures sent { OnOk result
            (outbox.new ≡ with_moved (moved_by_receive port frame.now (view_of self.old)) outbox.old) }
        ensures gained { OnErr result
            (GainsMoved (moved_by_receive port frame.now (view_of self.old)) outbox.old outbox.new) }
        ensures kept { OnOk result (AreOwn (view_of self.new) kept.new) }
    {
        if !port_at(self.ports.as_slice(), port).adjacency.carrier {
            self.count_drop(DropReason::NotAdjacent);
            return Ok(());
        }
        let Some(heard) = judged_at(self.heard.as_slice(), port, frame) else {
            return self.hear_anew(port, frame, kept, outbox);
        };
        let mut new = port_at(self.ports.as_slice(), port);
        if heard.refresh(&mut new.adjacency) {
            put_hold(&mut self.ports, port, new.adjacency.hold);
            return Ok(());
        }
        let said = heard.said;
        self.hear_again(port, said, kept)
    }

    /// Hears the hello that came last to a port with carrier again, by which more may change than the holding count.
    #[cold]
    fn hear_again(
        &mut self,
        port: u8,
        said: Said,
        kept: &mut Option<Tables>,
    ) -> Result<(), NoMemory>
        requires ready { IsReady self.old }
        requires port { IsPort (view_of self.old) port }
        requires carrier { has_carrier_at (view_of self.old) port ≡ true }
        requires state { said.way.state ≤ 2 }
        ensures after { OnOk result (IsAfter (hears (parsing.hello (hello_saying said []) said.way) port (view_of self.old)) self.new) }
        ensures kept { OnOk result (AreOwn (view_of self.new) kept.new) }
    {
        *kept = None;
        self.hear_hello(port, &said.hello(), &said.way)
    }

    /// Hears a frame at a port with carrier, which isn't the hello that came last there.
    fn hear_anew(
        &mut self,
        port: u8,
        frame: &[u8],
        kept: &mut Option<Tables>,
        outbox: &mut Outbox,
    ) -> Result<(), NoMemory>
        requires ready { IsReady self.old }
        requires port { IsPort (view_of self.old) port }
        requires carrier { has_carrier_at (view_of self.old) port ≡ true }
        requires tables { AreOwn (view_of self.old) kept.old }
        ensures after { OnOk result (IsAfter (api.after_receive port frame.now (view_of self.old)) self.new) }
        ensures sent { OnOk result
            (outbox.new ≡ with_moved (moved_by_receive port frame.now (view_of self.old)) outbox.old) }
        ensures gained { OnErr result
            (GainsMoved (moved_by_receive port frame.now (view_of self.old)) outbox.old outbox.new) }
        ensures kept { OnOk result (AreOwn (view_of self.new) kept.new) }
    {
        match parse(&self.db, frame) {
            Message::Hello(hello, way) => {
                *kept = None;
                self.hear_new_hello(port, frame, &hello, &way)
            }
            Message::Lsp(lsp, near) => {
                *kept = None;
                self.hear_lsp(port, &lsp, near)
            }
            Message::Csnp(csnp) => {
                *kept = None;
                self.hear_csnp(port, &csnp)
            }
            Message::Psnp(psnp) => {
                *kept = None;
                self.hear_psnp(port, &psnp)
            }
            Message::Dropped(reason) => {
                self.count_drop(reason);
                Ok(())
            }
            Message::Customer(backbone) => self.relay(port, &backbone, frame, kept, outbox),
        }
    }

    /// Hears a hello at a port with carrier, and keeps it.
    fn hear_new_hello(
        &mut self,
        port: u8,
        frame: &[u8],
        hello: &Hello<'_>,
        way: &ThreeWay,
    ) -> Result<(), NoMemory>
        requires ready { IsReady self.old }
        requires port { IsPort (view_of self.old) port }
        requires carrier { has_carrier_at (view_of self.old) port ≡ true }
        requires state { way.now.state ≤ 2 }
        requires brings { parsing.parsed frame.now ≡ parsing.hello (hello_of hello.now) way.now }
        ensures { OnOk result (IsAfter (hears (parsing.hello (hello_of hello.now) way.now) port (view_of self.old)) self.new) }
    {
        self.keep_hello(port, frame, hello, way)?;
        self.hear_hello(port, hello, way)
    }

    /// Keeps a hello as the one that came last to a port.
    fn keep_hello(
        &mut self,
        port: u8,
        frame: &[u8],
        hello: &Hello<'_>,
        way: &ThreeWay,
    ) -> Result<(), NoMemory>
        requires state { way.now.state ≤ 2 }
        requires brings { parsing.parsed frame.now ≡ parsing.hello (hello_of hello.now) way.now }
        requires judged { AreJudged self.old.id.system self.old.heard.items }
        ensures same { OnOk result (self.new ≡ record self.old { heard = self.new.heard }) }
        ensures judged { OnOk result (AreJudged self.old.id.system self.new.heard.items) }
    {
        let last = HeardHello::new(self.alloc, frame, self.id.system, port, hello, way)?;
        self.make_room_to_hear()?;
        put_heard(&mut self.heard, port, last);
        Ok(())
    }

    /// Makes room for the hello that came last to each port, unless there is room.
    fn make_room_to_hear(&mut self) -> Result<(), NoMemory>
        requires judged { AreJudged self.old.id.system self.old.heard.items }
        ensures same { OnOk result (self.new ≡ record self.old { heard = self.new.heard }) }
        ensures judged { OnOk result (AreJudged self.old.id.system self.new.heard.items) }
    {
        if self.heard.is_empty() {
            self.heard = none_heard(self.alloc, self.ports.len())?;
        }
        Ok(())
    }

    /// Hears a hello at a port with carrier.
    fn hear_hello(&mut self, port: u8, hello: &Hello<'_>, way: &ThreeWay) -> Result<(), NoMemory>
        requires ready { IsReady self.old }
        requires port { IsPort (view_of self.old) port }
        requires carrier { has_carrier_at (view_of self.old) port ≡ true }
        requires state { way.now.state ≤ 2 }
        ensures { OnOk result (IsAfter (hears (parsing.hello (hello_of hello.now) way.now) port (view_of self.old)) self.new) }
    {
        let mut new = port_at(self.ports.as_slice(), port);
        let heard = new.adjacency.hear(self.id.system, port, hello, way);
        self.change(port, new, heard)
    }

    /// Hears an LSP at a port with carrier. It is looked for at the place `near` first. What is heard leaves own LSPs
    /// saying what the bridge has to say, so that nothing is to be originated; and so it is with sequence numbers PDUs.
    fn hear_lsp(&mut self, port: u8, lsp: &Lsp<'_>, near: usize) -> Result<(), NoMemory>
        requires ready { IsReady self.old }
        requires port { IsPort (view_of self.old) port }
        ensures { OnOk result (IsAfter (hears (parsing.lsp (lsp_of lsp.now)) port (view_of self.old)) self.new) }
    {
        if !is_up(&port_at(self.ports.as_slice(), port)) {
            self.count_drop(DropReason::NotAdjacent);
            return Ok(());
        }
        let full = hear_lsp_if_it_fits(
            self.alloc,
            &mut self.db,
            self.up,
            port,
            lsp,
            &mut self.own,
            near,
        )?;
        self.drops.raise_times(DropReason::Full, full);
        Ok(())
    }

    /// Hears a CSNP at a port with carrier.
    fn hear_csnp(&mut self, port: u8, csnp: &Csnp<'_>) -> Result<(), NoMemory>
        requires ready { IsReady self.old }
        requires port { IsPort (view_of self.old) port }
        ensures { OnOk result (IsAfter (hears (parsing.csnp (csnp_of csnp.now)) port (view_of self.old)) self.new) }
    {
        if !is_up(&port_at(self.ports.as_slice(), port)) {
            self.count_drop(DropReason::NotAdjacent);
            return Ok(());
        }
        match entries_of_snp(self.alloc, csnp.tlvs) {
            Ok(entries) => self.hear_listed(port, csnp, entries.as_slice()),
            Err(TlvError::NoMemory) => Err(NoMemory),
            Err(TlvError::Cut | TlvError::Range) => {
                self.count_drop(DropReason::Tlv);
                Ok(())
            }
        }
    }

    /// Hears a CSNP with these entries at an Up port.
    fn hear_listed(
        &mut self,
        port: u8,
        csnp: &Csnp<'_>,
        entries: &[SnpEntry],
    ) -> Result<(), NoMemory>
        requires ready { IsReady self.old }
        requires port { IsPort (view_of self.old) port }
        ensures { OnOk result (IsAfter (originated_if_changed (api.heard_csnp (csnp_of csnp.now) entries.now port (view_of self.old))) self.new) }
    {
        let full = hear_csnp(
            self.alloc,
            &mut self.db,
            self.up,
            port,
            &csnp.start,
            &csnp.end,
            entries,
            &mut self.own,
        )?;
        self.drops.raise_times(DropReason::Full, full);
        Ok(())
    }

    /// Hears a PSNP at a port with carrier.
    fn hear_psnp(&mut self, port: u8, psnp: &Psnp<'_>) -> Result<(), NoMemory>
        requires ready { IsReady self.old }
        requires port { IsPort (view_of self.old) port }
        ensures { OnOk result (IsAfter (hears (parsing.psnp (psnp_of psnp.now)) port (view_of self.old)) self.new) }
    {
        if !is_up(&port_at(self.ports.as_slice(), port)) {
            self.count_drop(DropReason::NotAdjacent);
            return Ok(());
        }
        match entries_of_snp(self.alloc, psnp.tlvs) {
            Ok(entries) => self.hear_requests(port, entries.as_slice()),
            Err(TlvError::NoMemory) => Err(NoMemory),
            Err(TlvError::Cut | TlvError::Range) => {
                self.count_drop(DropReason::Tlv);
                Ok(())
            }
        }
    }

    /// Hears a PSNP with these entries at an Up port.
    fn hear_requests(&mut self, port: u8, entries: &[SnpEntry]) -> Result<(), NoMemory>
        requires ready { IsReady self.old }
        requires port { IsPort (view_of self.old) port }
        ensures { OnOk result (IsAfter (originated_if_changed (api.heard_psnp entries.now port (view_of self.old))) self.new) }
    {
        let full = hear_psnp(
            self.alloc,
            &mut self.db,
            self.up,
            port,
            entries,
            &mut self.own,
        )?;
        self.drops.raise_times(DropReason::Full, full);
        Ok(())
    }
}

/// Hears an LSP, which is looked for at the place `near` first. One that finds no place in the database changes nothing.
/// The answer is how many found none, 0 or 1.
fn hear_lsp_if_it_fits(
    alloc: Global,
    db: &mut Database,
    up: PortSet,
    port: u8,
    lsp: &Lsp<'_>,
    own: &mut Own,
    near: usize,
) -> Result<u64, NoMemory>
    requires low { 1 ≤ port }
    requires high { port ≤ 32 }
    requires bodies { HaveBytes own.old }
    requires few { HasFewOthers (holding db.old own.old) }
    ensures full { IfOk result (λ n.
        n ≡ (if is_full_for_lsp up port (lsp_of lsp.now) (holding db.old own.old) then 1 else 0)) }
    ensures heard { OnOk result
        (holding db.new own.new ≡ hear_lsp_of up port (lsp_of lsp.now) (holding db.old own.old)) }
{
    match flooding::hear_lsp_near(alloc, db, up, port, lsp, own, near) {
        Ok(()) => Ok(0),
        Err(FloodError::Full) => Ok(1),
        Err(FloodError::NoMemory) => Err(NoMemory),
    }
}
