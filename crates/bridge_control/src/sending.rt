//! What a bridge sends in a second: to each port its hello, and to an Up one CSNPs, LSPs and PSNPs, as frames.
ghost use Rattle.std.specs.Prelude.{◌≡◌, ◌+◌, ◌≤◌, ◌∷◌, ◌&&◌, ◌||◌, not, [], true, false, length, map, slice_get, Some, ℕ, IfOk, OnOk, OnErr, if◌then◌else◌};
ghost use Rattle.std.specs.List.{AllByRecursion};
ghost use Rattle.std.specs.Option.{option_copied};
ghost use Rattle.std.specs.FinMap.{entries};
ghost use Rattle.spb_types.specs.Ports.{has};
ghost use Rattle.spb_types.specs.declared.address.LspId.{LspId};
ghost use Rattle.lsdb.specs.Entry.{Entry};
ghost use Rattle.lsdb.specs.Database.{any_flags, is_srm_at, is_ssn_at, AreFlagsAt};
ghost use Rattle.flooding.specs.Entries.{AreSendable};
ghost use Rattle.snp_sync.specs.Sized.{AreSized};
ghost use Rattle.snp_sync.specs.Chunks.{chunks};
ghost use Rattle.snp_sync.specs.Sending.{bytes_in, psnp_for, all_ssn_cleared};
ghost use Rattle.itag_frames.specs.Frame.{control_bytes};
ghost use Rattle.bridge_api.specs.View.{is_port_up};
ghost use Rattle.bridge_api.specs.Step.{with_wire, Gains};
ghost use Rattle.bridge_api.specs.Ticking as api;
ghost use Rattle.bridge_control.specs.Frames.{frames_of, psnps_sent, frames_held, flagged_at};
ghost use Rattle.bridge_control.specs.Made.{IsMadeAt, AreMadeOf};
ghost use Rattle.bridge_control.specs.Machine.{kept_hello, hellos_from};

use crate::hello::send_hello;
use crate::made::{frame_of, frames_to_send, psnp_frame};
use crate::ports::is_up;
use bridge_api::{BridgePort, Outbox};
use itag_frames::control_frame;
use lsdb::Database;
use shared_frames::Frame;
use snp_sync::{ENTRIES_PER_PDU, csnps, requests_within};
use spb_tlvs::SnpEntry;
use spb_types::{NoMemory, PortSet, SystemId};
use std::alloc::Global;

/// Puts what is sent at each port into the outbox, port by port: `hellos` are those that are kept for them. Where `has_flags` is
/// false no flags stand, and no LSPs and PSNPs are looked for; nor are they at a port at which none stand. The frame of
/// an LSP is made once, and shared by the ports.
pub(crate) fn send_all(
    alloc: Global,
    system: SystemId,
    ports: &[BridgePort],
    hellos: &[Option<Frame>],
    db: &mut Database,
    has_flags: bool,
    outbox: &mut Outbox,
) -> Result<(), NoMemory>
    requires few { length ports.now ≤ 32 }
    requires hellos { hellos.now ≡ hellos_from system 1 ports.now }
    requires sendable { AreSendable db.old }
    requires sized { AreSized db.old }
    requires idle { has_flags ≡ false → any_flags db.old ≡ false }
    ensures sent { OnOk result (outbox.new ≡ with_wire (api.sent_from system 1 ports.now db.old) outbox.old) }
    ensures after_sending { OnOk result (db.new ≡ api.after_sending_from 1 ports.now db.old) }
    ensures gained { OnErr result (Gains (api.sent_from system 1 ports.now db.old) outbox.old outbox.new) }
{
    let places = flagged_places(alloc, db, has_flags)?;
    let srm = srm_ports(db, places.as_slice());
    let ssn = ssn_ports(db, places.as_slice());
    let frames = frames_to_send(alloc, system, db, places.as_slice())?;
    let flags = Flags {
        srm,
        ssn,
        places: places.as_slice(),
        frames: frames.as_slice(),
    };
    'send: for (place, port) in ports.iter().enumerate() {
        let number = place as u8 + 1;
        let hello = &hellos[place];
        send_at(alloc, system, number, port, hello, db, flags, outbox)?;
    }
    Ok(())
}

/// The ports at which the LSPs at these places are to be sent.
fn srm_ports(db: &Database, places: &[usize]) -> PortSet
    requires { AreFlagsAt 0 places.now (entries db.now) }
    ensures { (p : ℕ) → has result p ≡ false → is_srm_at p db.now ≡ false }
{
    let mut ports = PortSet::none();
    'find: for k in 0..places.len() {
        ports = with_ports(ports, srm_at(db, places[k]));
    }
    ports
}

/// The ports at which the LSPs at these places are to be acknowledged or asked for.
fn ssn_ports(db: &Database, places: &[usize]) -> PortSet
    requires { AreFlagsAt 0 places.now (entries db.now) }
    ensures { (p : ℕ) → has result p ≡ false → is_ssn_at p db.now ≡ false }
{
    let mut ports = PortSet::none();
    'find: for k in 0..places.len() {
        ports = with_ports(ports, ssn_at(db, places[k]));
    }
    ports
}

/// The ports at which the LSP at a place is to be sent; none where no LSP stands.
fn srm_at(db: &Database, place: usize) -> PortSet
    ensures { (e : LspId × Entry) → slice_get (entries db.now) place ≡ Some e → result ≡ e.1.srm }
{
    match db.at(place) {
        Some(held) => held.srm,
        None => PortSet::none(),
    }
}

/// The ports at which the LSP at a place is to be acknowledged or asked for; none where no LSP stands.
fn ssn_at(db: &Database, place: usize) -> PortSet
    ensures { (e : LspId × Entry) → slice_get (entries db.now) place ≡ Some e → result ≡ e.1.ssn }
{
    match db.at(place) {
        Some(held) => held.ssn,
        None => PortSet::none(),
    }
}

/// The ports of two sets.
#[tactic(auto, using(lsdb::proofs::Flags::has_either))]
fn with_ports(ports: PortSet, more: PortSet) -> PortSet
    ensures { (p : ℕ) → has result p ≡ (has ports p || has more p) }
{
    PortSet {
        bits: ports.bits | more.bits,
    }
}

/// The places at which flags stand. Where `has_flags` is false there are none, and none are looked for.
fn flagged_places(alloc: Global, db: &Database, has_flags: bool) -> Result<Vec<usize>, NoMemory>
    requires { has_flags ≡ false → any_flags db.now ≡ false }
    ensures { IfOk result (λ places. AreFlagsAt 0 places.items (entries db.now)) }
{
    if has_flags {
        db.flagged_places(alloc)
    } else {
        Ok(Vec::new(alloc))
    }
}

/// Where flags may stand: at ports that aren't in `srm` no LSP is to be sent, and at those that aren't in `ssn` none is
/// to be acknowledged or asked for; and no flags stand but at `places`. `frames` are those that were made of the LSPs at
/// these places, in order.
#[derive(Clone, Copy)]
struct Flags<'a> {
    srm: PortSet,
    ssn: PortSet,
    places: &'a [usize],
    frames: &'a [Option<Frame>],
}

/// Puts what is sent at a port into the outbox: mostly that is its hello alone.
#[inline(always)]
fn send_at(
    alloc: Global,
    system: SystemId,
    number: u8,
    port: &BridgePort,
    hello: &Option<Frame>,
    db: &mut Database,
    flags: Flags<'_>,
    outbox: &mut Outbox,
) -> Result<(), NoMemory>
    requires low { 1 ≤ number }
    requires high { number ≤ 32 }
    requires hello { hello.now ≡ kept_hello system number port.now }
    requires sendable { AreSendable db.old }
    requires sized { AreSized db.old }
    requires srm { has flags.srm number ≡ false → is_srm_at number db.old ≡ false }
    requires ssn { has flags.ssn number ≡ false → is_ssn_at number db.old ≡ false }
    requires places { AreFlagsAt 0 flags.places.now (entries db.old) }
    requires frames { AreMadeOf system (entries db.old) flags.places.now flags.frames.now }
    ensures sent { OnOk result (outbox.new ≡ with_wire (api.sent_at system number port.now db.old) outbox.old) }
    ensures after_sending { OnOk result (db.new ≡ api.after_sending_at number port.now db.old) }
    ensures gained { OnErr result (Gains (api.sent_at system number port.now db.old) outbox.old outbox.new) }
{
    send_hello(number, hello, outbox)?;
    if is_synced(number, port, flags.srm, flags.ssn) {
        return Ok(());
    }
    sync(alloc, system, number, port, db, flags, outbox)
}

/// Whether nothing but a hello can be sent at a port: it isn't Up, or no CSNPs are due there and neither set has it, the
/// ports at which LSPs are to be sent and those at which they are to be acknowledged or asked for.
fn is_synced(number: u8, port: &BridgePort, srm: PortSet, ssn: PortSet) -> bool
    requires low { 1 ≤ number }
    requires high { number ≤ 32 }
    ensures exact { result ≡ (not (is_port_up port.now)
        || (not port.now.csnp_due && not (has srm number) && not (has ssn number))) }
    ensures up { result ≡ false → is_port_up port.now ≡ true }
    ensures due { result ≡ true → is_port_up port.now ≡ true → port.now.csnp_due ≡ false }
    ensures srm { result ≡ true → is_port_up port.now ≡ true → has srm number ≡ false }
    ensures ssn { result ≡ true → is_port_up port.now ≡ true → has ssn number ≡ false }
{
    if !is_up(port) {
        return true;
    }
    !port.csnp_due && !srm.has(number) && !ssn.has(number)
}

/// Puts what is sent at an Up port, but for its hello, into the outbox. What the flags rule out isn't looked for.
#[cold]
fn sync(
    alloc: Global,
    system: SystemId,
    number: u8,
    port: &BridgePort,
    db: &mut Database,
    flags: Flags<'_>,
    outbox: &mut Outbox,
) -> Result<(), NoMemory>
    requires low { 1 ≤ number }
    requires high { number ≤ 32 }
    requires up { is_port_up port.now ≡ true }
    requires sendable { AreSendable db.old }
    requires sized { AreSized db.old }
    requires srm { has flags.srm number ≡ false → is_srm_at number db.old ≡ false }
    requires ssn { has flags.ssn number ≡ false → is_ssn_at number db.old ≡ false }
    requires places { AreFlagsAt 0 flags.places.now (entries db.old) }
    requires frames { AreMadeOf system (entries db.old) flags.places.now flags.frames.now }
    ensures sent { OnOk result (outbox.new ≡ with_wire (api.synced_at system number port.now db.old) outbox.old) }
    ensures after_sending { OnOk result (db.new ≡ api.after_sending_at number port.now db.old) }
    ensures gained { OnErr result (Gains (api.synced_at system number port.now db.old) outbox.old outbox.new) }
{
    send_summaries(alloc, system, number, port, db, outbox)?;
    send_flagged(alloc, system, number, db, flags, outbox)
}

/// Puts the CSNPs of the whole database into the outbox where they are due.
fn send_summaries(
    alloc: Global,
    system: SystemId,
    number: u8,
    port: &BridgePort,
    db: &Database,
    outbox: &mut Outbox,
) -> Result<(), NoMemory>
    requires { AreSized db.now }
    ensures sent { OnOk result (outbox.new ≡ with_wire (api.summaries_at system number port.now db.now) outbox.old) }
    ensures gained { OnErr result (Gains (api.summaries_at system number port.now db.now) outbox.old outbox.new) }
{
    if !port.csnp_due {
        return Ok(());
    }
    let pdus = csnps(alloc, db, system)?;
    send_pdus(alloc, system, number, pdus.as_slice(), outbox)
}

/// Puts the LSPs that are to be sent at a port into the outbox, and then PSNPs of what has SSN there.
fn send_flagged(
    alloc: Global,
    system: SystemId,
    number: u8,
    db: &mut Database,
    flags: Flags<'_>,
    outbox: &mut Outbox,
) -> Result<(), NoMemory>
    requires low { 1 ≤ number }
    requires high { number ≤ 32 }
    requires sendable { AreSendable db.old }
    requires sized { AreSized db.old }
    requires srm { has flags.srm number ≡ false → is_srm_at number db.old ≡ false }
    requires ssn { has flags.ssn number ≡ false → is_ssn_at number db.old ≡ false }
    requires places { AreFlagsAt 0 flags.places.now (entries db.old) }
    requires frames { AreMadeOf system (entries db.old) flags.places.now flags.frames.now }
    ensures sent { OnOk result (outbox.new ≡ with_wire (flagged_at system number db.old) outbox.old) }
    ensures after_sending { OnOk result (db.new ≡ all_ssn_cleared number db.old) }
    ensures gained { OnErr result (Gains (flagged_at system number db.old) outbox.old outbox.new) }
{
    send_lsps(alloc, system, number, db, flags, outbox)?;
    send_requests(alloc, system, number, db, flags, outbox)
}

/// Puts PSNPs of what has SSN at a port into the outbox.
fn send_requests(
    alloc: Global,
    system: SystemId,
    number: u8,
    db: &mut Database,
    flags: Flags<'_>,
    outbox: &mut Outbox,
) -> Result<(), NoMemory>
    requires low { 1 ≤ number }
    requires high { number ≤ 32 }
    requires sized { AreSized db.old }
    requires ssn { has flags.ssn number ≡ false → is_ssn_at number db.old ≡ false }
    requires places { AreFlagsAt 0 flags.places.now (entries db.old) }
    ensures sent { OnOk result (outbox.new ≡ with_wire (api.requests_at system number db.old) outbox.old) }
    ensures after_sending { OnOk result (db.new ≡ all_ssn_cleared number db.old) }
    ensures gained { OnErr result (Gains (api.requests_at system number db.old) outbox.old outbox.new) }
{
    if !flags.ssn.has(number) {
        return Ok(());
    }
    let entries = requests_within(alloc, db, number, flags.places)?;
    send_psnps(alloc, system, number, entries.as_slice(), outbox)
}

/// Puts the PSNPs of entries, at most 90 in each, into the outbox.
fn send_psnps(
    alloc: Global,
    system: SystemId,
    number: u8,
    entries: &[SnpEntry],
    outbox: &mut Outbox,
) -> Result<(), NoMemory>
    ensures sent { OnOk result (outbox.new ≡ with_wire (psnps_sent system number (chunks 90 entries.now)) outbox.old) }
    ensures gained { OnErr result (Gains (psnps_sent system number (chunks 90 entries.now)) outbox.old outbox.new) }
{
    'send: for chunk in entries.chunks(ENTRIES_PER_PDU) {
        send_psnp(alloc, system, number, chunk, outbox)?;
    }
    Ok(())
}

/// Puts the PSNP of at most 90 entries into the outbox.
fn send_psnp(
    alloc: Global,
    system: SystemId,
    number: u8,
    entries: &[SnpEntry],
    outbox: &mut Outbox,
) -> Result<(), NoMemory>
    requires { length entries.now ≤ 90 }
    ensures sent { OnOk result (outbox.new ≡ with_wire ((number, api.psnp_frame system (psnp_for system entries.now)) ∷ []) outbox.old) }
    ensures kept { OnErr result (outbox.new ≡ outbox.old) }
{
    let frame = psnp_frame(alloc, system, entries)?;
    send_frame(number, frame, outbox)
}

/// Puts the LSPs that are to be sent at a port into the outbox, in order of id.
fn send_lsps(
    alloc: Global,
    system: SystemId,
    number: u8,
    db: &Database,
    flags: Flags<'_>,
    outbox: &mut Outbox,
) -> Result<(), NoMemory>
    requires low { 1 ≤ number }
    requires high { number ≤ 32 }
    requires sendable { AreSendable db.now }
    requires sized { AreSized db.now }
    requires srm { has flags.srm number ≡ false → is_srm_at number db.now ≡ false }
    requires places { AreFlagsAt 0 flags.places.now (entries db.now) }
    requires frames { AreMadeOf system (entries db.now) flags.places.now flags.frames.now }
    ensures sent { OnOk result (outbox.new ≡ with_wire (api.lsps_at system number db.now) outbox.old) }
    ensures gained { OnErr result (Gains (api.lsps_at system number db.now) outbox.old outbox.new) }
{
    if !flags.srm.has(number) {
        return Ok(());
    }
    let places = flags.places;
    'send: for k in 0..places.len() {
        let made = flags.frames.get(k);
        send_lsp(alloc, system, number, db, places[k], made, outbox)?;
    }
    Ok(())
}

/// Puts the LSP at a place into the outbox, if it is to be sent at the port: `made` is its frame, if that was made.
fn send_lsp(
    alloc: Global,
    system: SystemId,
    number: u8,
    db: &Database,
    place: usize,
    made: Option<&Option<Frame>>,
    outbox: &mut Outbox,
) -> Result<(), NoMemory>
    requires low { 1 ≤ number }
    requires high { number ≤ 32 }
    requires sendable { AreSendable db.now }
    requires sized { AreSized db.now }
    requires made { IsMadeAt system (slice_get (entries db.now) place) (option_copied made) }
    ensures sent { OnOk result (outbox.new ≡ with_wire (frames_held system number (slice_get (entries db.now) place)) outbox.old) }
    ensures kept { OnErr result (outbox.new ≡ outbox.old) }
{
    let Some(held) = db.at(place) else {
        return Ok(());
    };
    if !held.srm.has(number) {
        return Ok(());
    }
    let frame = frame_of(alloc, system, held, made)?;
    send_frame(number, frame, outbox)
}

/// Puts PDUs of at most 1,497 bytes each, as control frames, into the outbox.
fn send_pdus(
    alloc: Global,
    system: SystemId,
    number: u8,
    pdus: &[Vec<u8>],
    outbox: &mut Outbox,
) -> Result<(), NoMemory>
    requires { AllByRecursion (λ pdu. length pdu.items ≤ 1497) pdus.now }
    ensures sent { OnOk result (outbox.new ≡ with_wire (frames_of system number (bytes_in pdus.now)) outbox.old) }
    ensures gained { OnErr result (Gains (frames_of system number (bytes_in pdus.now)) outbox.old outbox.new) }
{
    'send: for pdu in pdus {
        send_pdu(alloc, system, number, pdu.as_slice(), outbox)?;
    }
    Ok(())
}

/// Puts a PDU of at most 1,497 bytes, as a control frame, into the outbox.
fn send_pdu(
    alloc: Global,
    system: SystemId,
    number: u8,
    pdu: &[u8],
    outbox: &mut Outbox,
) -> Result<(), NoMemory>
    requires { length pdu.now ≤ 1497 }
    ensures sent { OnOk result (outbox.new ≡ with_wire ((number, control_bytes system.mac pdu.now) ∷ []) outbox.old) }
    ensures kept { OnErr result (outbox.new ≡ outbox.old) }
{
    let frame = control_frame(alloc, system.mac, pdu)?;
    send_frame(number, Frame::from_vec(frame)?, outbox)
}

/// Puts a frame into the outbox.
fn send_frame(number: u8, frame: Frame, outbox: &mut Outbox) -> Result<(), NoMemory>
    ensures sent { OnOk result (outbox.new ≡ with_wire ((number, frame) ∷ []) outbox.old) }
    ensures kept { OnErr result (outbox.new ≡ outbox.old) }
{
    outbox.wire.push((number, frame))
}
