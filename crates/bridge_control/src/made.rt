//! The frames of the LSPs that are to be sent, made once in a second and shared by the ports, and those of PSNPs.
ghost use Rattle.std.specs.Prelude.{◌≡◌, ◌≤◌, length, slice_get, IfOk};
ghost use Rattle.std.specs.Option.{option_copied};
ghost use Rattle.std.specs.FinMap.{entries};
ghost use Rattle.isis_pdu.specs.declared.kind.Kind.TheVariants as kinds;
ghost use Rattle.isis_pdu.specs.Grammar.{IsId};
ghost use Rattle.isis_pdu.specs.Spelling.{CanWrite};
ghost use Rattle.lsdb.specs.Database.{keyed};
ghost use Rattle.lsdb.specs.Entry.{entry_of};
ghost use Rattle.flooding.specs.Entries.{AreSendable};
ghost use Rattle.flooding.specs.Own.{tlvs_of_body};
ghost use Rattle.flooding.specs.Sending.{lsp_in};
ghost use Rattle.snp_sync.specs.Sized.{AreSized};
ghost use Rattle.snp_sync.specs.Sending.{psnp_for};
ghost use Rattle.bridge_api.specs.Ticking as api;
ghost use Rattle.bridge_control.specs.Made.{IsMadeOf, IsMadeAt, AreMadeOf};

use flooding::lsp_of;
use isis_pdu::{append_lsp, lsp_length};
use itag_frames::control_head;
use lsdb::{Database, Held};
use shared_frames::Frame;
use snp_sync::{append_psnp, psnp_length};
use spb_tlvs::SnpEntry;
use spb_types::{NoMemory, PortSet, SystemId};
use std::alloc::Global;

/// The frames of the LSPs at these places, of each that is to be sent at some port.
pub(crate) fn frames_to_send(
    alloc: Global,
    system: SystemId,
    db: &Database,
    places: &[usize],
) -> Result<Vec<Option<Frame>>, NoMemory>
    requires sendable { AreSendable db.now }
    requires sized { AreSized db.now }
    ensures { IfOk result (λ frames. AreMadeOf system (entries db.now) places.now frames.items) }
{
    let mut frames = Vec::with_capacity(alloc, places.len())?;
    'make: for k in 0..places.len() {
        frames.push(frame_at(alloc, system, db, places[k])?)?;
    }
    Ok(frames)
}

/// The frame of the LSP at a place, if it is to be sent at some port.
fn frame_at(
    alloc: Global,
    system: SystemId,
    db: &Database,
    place: usize,
) -> Result<Option<Frame>, NoMemory>
    requires sendable { AreSendable db.now }
    requires sized { AreSized db.now }
    ensures { IfOk result (λ frame. IsMadeAt system (slice_get (entries db.now) place) (Some frame)) }
{
    let Some(held) = db.at(place) else {
        return Ok(None);
    };
    if held.srm == PortSet::none() {
        return Ok(None);
    }
    let frame = lsp_frame(alloc, system, held)?;
    Ok(Some(frame))
}

/// The frame of the LSP that is held: the one that was made, if one was.
pub(crate) fn frame_of(
    alloc: Global,
    system: SystemId,
    held: &Held,
    made: Option<&Option<Frame>>,
) -> Result<Frame, NoMemory>
    requires written { CanWrite kinds.Lsp (tlvs_of_body held.now.body) }
    requires id { IsId held.now.id.system }
    requires made { IsMadeOf system (keyed held.now) (option_copied made) }
    ensures { IfOk result (λ frame. frame ≡ api.lsp_frame system (lsp_in held.now.id (entry_of held.now))) }
{
    match made {
        Some(Some(frame)) => frame.share(),
        _ => lsp_frame(alloc, system, held),
    }
}

/// The LSP that is held, as a control frame, into which it is written at once.
fn lsp_frame(alloc: Global, system: SystemId, held: &Held) -> Result<Frame, NoMemory>
    requires written { CanWrite kinds.Lsp (tlvs_of_body held.now.body) }
    requires id { IsId held.now.id.system }
    ensures { IfOk result (λ frame. frame ≡ api.lsp_frame system (lsp_in held.now.id (entry_of held.now))) }
{
    let lsp = lsp_of(held);
    let mut frame = control_head(alloc, system.mac, lsp_length(&lsp))?;
    append_lsp(&mut frame, &lsp)?;
    Frame::from_vec(frame)
}

/// The PSNP of at most 90 entries, as a control frame, into which it is written at once.
pub(crate) fn psnp_frame(
    alloc: Global,
    system: SystemId,
    entries: &[SnpEntry],
) -> Result<Frame, NoMemory>
    requires { length entries.now ≤ 90 }
    ensures { IfOk result (λ frame. frame ≡ api.psnp_frame system (psnp_for system entries.now)) }
{
    let head = control_head(alloc, system.mac, psnp_length(entries))?;
    let frame = append_psnp(head, system, entries)?;
    Frame::from_vec(frame)
}
