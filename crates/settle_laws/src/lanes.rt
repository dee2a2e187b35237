//! Whether the frames on their way pass a test.
ghost use Rattle.std.specs.Prelude.{◌≡◌, ◌<◌, ◌*◌, ◌&&◌, length, IfOk};
ghost use Rattle.std.specs.List.{list_all};
ghost use Rattle.spb_types.specs.declared.link.Dir.TheVariants.{Ab, Ba};
ghost use Rattle.isis_pdu.specs.Reading.{read};
ghost use Rattle.snp_sync.specs.Reading.{entries_in};
ghost use Rattle.bridge_api.specs.Parsing as api;
ghost use Rattle.network_model.specs.State.{lane_at};
ghost use Rattle.network_rounds.specs.Premises as premise;
ghost use Rattle.spb_network.specs.Contents.{frames_of};
ghost use Rattle.spb_network.specs.Network.{state_of};
ghost use Rattle.settle_laws.specs.Premises as spec;

use bridge_api::Bridge;
use isis_pdu::{Pdu, decode};
use itag_frames::{Frame, classify};
use lsdb::Version;
use snp_sync::entries_of_snp;
use spb_network::NetworkOf;
use spb_tlvs::{SnpEntry, TlvError};
use spb_types::NoMemory;
use std::alloc::Global;

/// What is asked of a frame on its way.
#[derive(Clone, Copy, Debug, PartialEq, Eq)]
pub(crate) enum FrameTest {
    /// It carries no customer's frame.
    Plain,
    /// If it is an LSP, or tells of some, more than so many seconds are left of each that is live.
    Lasting(u32),
}

/// Whether more than so many seconds are left of an LSP, if it is live.
pub(crate) fn outlives(most: u32, version: Version, lifetime: u16) -> bool
    ensures { result ≡ premise.outlives most version lifetime }
{
    match version {
        Version::Live { seq: _, sum: _ } => most < u32::from(lifetime),
        Version::Absent => true,
        Version::Dead { seq: _ } => true,
    }
}

/// Whether it is so of what an entry tells.
fn entry_outlives(most: u32, entry: &SnpEntry) -> bool
    ensures { result ≡ premise.told_outlives most entry.now }
{
    let version = Version::claimed(entry.seq, entry.lifetime, entry.sum);
    outlives(most, version, entry.lifetime)
}

/// Whether it is so of each.
fn entries_outlive(most: u32, entries: &[SnpEntry]) -> bool
    ensures { result ≡ list_all (premise.told_outlives most) entries.now }
{
    entries.iter().all(|entry| entry_outlives(most, entry))
}

/// Whether it is so of what the TLVs of a sequence numbers PDU tell, if they can be read.
fn told_outlive(alloc: Global, most: u32, tlvs: &[u8]) -> Result<bool, NoMemory>
    ensures { IfOk result (λ holds. holds ≡ premise.entries_outlive most (entries_in tlvs.now)) }
{
    match entries_of_snp(alloc, tlvs) {
        Ok(entries) => Ok(entries_outlive(most, &entries)),
        Err(TlvError::NoMemory) => Err(NoMemory),
        Err(TlvError::Cut) => Ok(true),
        Err(TlvError::Range) => Ok(true),
    }
}

/// Whether it is so of a PDU.
fn is_pdu_lasting(alloc: Global, most: u32, pdu: &[u8]) -> Result<bool, NoMemory>
    ensures { IfOk result (λ holds. holds ≡ premise.is_lasting most (api.by_pdu (read pdu.now))) }
{
    match decode(pdu) {
        Ok(Pdu::Lsp(lsp)) => {
            let version = Version::claimed(lsp.seq, lsp.lifetime, lsp.sum);
            Ok(outlives(most, version, lsp.lifetime))
        }
        Ok(Pdu::Csnp(csnp)) => told_outlive(alloc, most, csnp.tlvs),
        Ok(Pdu::Psnp(psnp)) => told_outlive(alloc, most, psnp.tlvs),
        Ok(Pdu::Hello(_)) => Ok(true),
        Err(_) => Ok(true),
    }
}

/// Whether it is so of a frame.
fn is_lasting(alloc: Global, most: u32, frame: &[u8]) -> Result<bool, NoMemory>
    ensures { IfOk result (λ holds. holds ≡ premise.is_lasting most (api.parsed frame.now)) }
{
    match classify(frame) {
        Ok(Frame::Control(pdu)) => is_pdu_lasting(alloc, most, pdu),
        Ok(Frame::Backbone(_)) => Ok(true),
        Err(_) => Ok(true),
    }
}

/// Whether a frame carries no customer's frame.
fn is_plain(frame: &[u8]) -> bool
    ensures { result ≡ premise.is_plain frame.now }
{
    match classify(frame) {
        Ok(Frame::Backbone(_)) => false,
        Ok(Frame::Control(_)) => true,
        Err(_) => true,
    }
}

/// Whether a frame passes a test.
fn frame_passes(alloc: Global, test: FrameTest, frame: &[u8]) -> Result<bool, NoMemory>
    ensures { IfOk result (λ holds. holds ≡ spec.frame_passes test frame.now) }
{
    match test {
        FrameTest::Plain => Ok(is_plain(frame)),
        FrameTest::Lasting(most) => is_lasting(alloc, most, frame),
    }
}

/// Whether each frame in a lane passes a test. No lane has more places than a `usize` counts.
fn lane_passes<B: Bridge>(
    alloc: Global,
    network: &NetworkOf<B>,
    test: FrameTest,
    lane: usize,
) -> Result<bool, NoMemory>
    requires { lane < 2 * length (state_of B.shown network.now).lanes }
    ensures { IfOk result (λ holds.
        holds ≡ list_all (spec.frame_passes test) (frames_of (state_of B.shown network.now) lane)) }
{
    let mut place: usize = 0;
    while let Some(frame) = network.frame_at(lane, place) {
        if !frame_passes(alloc, test, frame)? {
            return Ok(false);
        }
        let Some(next) = place.checked_add(1) else {
            return Err(NoMemory);
        };
        place = next;
    }
    Ok(true)
}

/// Whether each frame on its way over a link passes a test.
fn link_passes<B: Bridge>(
    alloc: Global,
    network: &NetworkOf<B>,
    test: FrameTest,
    link: usize,
) -> Result<bool, NoMemory>
    requires { link < length (state_of B.shown network.now).lanes }
    ensures { IfOk result (λ holds.
        holds ≡ (list_all (spec.frame_passes test) (lane_at (state_of B.shown network.now) link Ab)
        && list_all (spec.frame_passes test) (lane_at (state_of B.shown network.now) link Ba))) }
{
    let _lanes = network.lane_count();
    if !lane_passes(alloc, network, test, 2 * link)? {
        return Ok(false);
    }
    lane_passes(alloc, network, test, 2 * link + 1)
}

/// Whether each frame on its way passes a test.
pub(crate) fn lanes_pass<B: Bridge>(
    alloc: Global,
    network: &NetworkOf<B>,
    test: FrameTest,
) -> Result<bool, NoMemory>
    ensures { IfOk result (λ holds.
        holds ≡ premise.passes (spec.frame_passes test) (state_of B.shown network.now).lanes) }
{
    for link in 0..network.lane_count() / 2 {
        if !link_passes(alloc, network, test, link)? {
            return Ok(false);
        }
    }
    Ok(true)
}
