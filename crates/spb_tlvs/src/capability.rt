//! TLV 144 (MT-Capability): the SPB Instance and the service identifiers, read and written.
ghost use Rattle.std.specs.Prelude.{◌≡◌, ◌+◌, ◌*◌, ◌≤◌, ◌++◌, true, length, take, Ok, Err, Some, IfOk, OnOk, OnErr, if◌then◌else◌};
ghost use Rattle.std.specs.List.{flat_map, list_any, list_all, filter_map};
ghost use Rattle.spb_types.specs.Bytes.{u8_at};
ghost use Rattle.spb_tlvs.specs.Tlv.{tlv, tlv_of, tlvs_in, are_whole};
ghost use Rattle.spb_tlvs.specs.Reading.{Gives, Reads};
ghost use Rattle.spb_tlvs.specs.Capability as spec;

use crate::append::{push_some, put, whole_or_none};
use crate::codes::MT_CAPABILITY;
use crate::error::TlvError;
use crate::piece::split_piece;
use crate::tlv::TLV_HEAD;
use spb_types::limits::{GREATEST_ECT, GREATEST_VID, MOST_VIDS, SOURCE_IDS};
use spb_types::{Isid, Mac, NoMemory, Seq, SourceId, Vid, VidPlan, mac_in, u16_in, u24_in, u32_in};
use std::alloc::{AllocError, Global};

/// A service in an SPBM-SI: the I-SID, and whether the bridge sends frames of it into the backbone and takes frames of
/// it from there (RFC 6329, 16.1).
#[derive(Clone, Copy, Debug, PartialEq, Eq)]
pub struct Service {
    /// The I-SID, 1 to 16,777,215.
    pub isid: Isid,
    /// The T bit.
    pub transmit: bool,
    /// The R bit.
    pub receive: bool,
}

/// What a TLV 144 says of a bridge, in one sub-TLV (RFC 6329, 14).
#[derive(Debug, Drop)]
pub enum Capability {
    /// SPB-Inst (RFC 6329, 14.1): the bridge priority, the source id, and the base VIDs with their ECT numbers.
    Inst {
        priority: u16,
        source: SourceId,
        trees: Seq<VidPlan>,
    },
    /// SPBM-SI (RFC 6329, 16.1): the services at a backbone address in a base VID.
    Services {
        mac: Mac,
        vid: Vid,
        isids: Seq<Service>,
    },
}

const SPB_INST: u8 = 1;

const SPBM_SI: u8 = 3;

/// The ECT-ALGORITHM 00-80-C2-00, to which the ECT number is added.
const ECT_BASE: u32 = 0x0080_c200;

/// Reads the value of a TLV 144 (RFC 6329, 14): its SPB-Inst and SPBM-SI sub-TLVs in order. Other sub-TLVs, trees of
/// another ECT-ALGORITHM than 00-80-C2-01 to 00-80-C2-10, and I-SID 0 are ignored, and so is the whole value where
/// its MT id isn't 0. `Cut` where the value has fewer than 2 bytes, a sub-TLV isn't whole, an SPB-Inst has fewer than
/// 19 bytes and 8 for each tree, or an SPBM-SI has fewer than 8 bytes or a rest that is no multiple of 4; else `Range`
/// where a base VID is 0 or 4095.
pub fn read_capability(alloc: Global, value: &[u8]) -> Result<Vec<Capability>, TlvError>
    ensures { Reads result (spec.capabilities_of value.now) }
{
    if value.len() < 2 {
        return Err(TlvError::Cut);
    }
    let (_, subs) = value.split_at(2);
    if u16_in(value, 0) % 4096 != 0 {
        return Ok(Vec::new(alloc));
    }
    if !are_subs_whole(subs) {
        return Err(TlvError::Cut);
    }
    capabilities_in(alloc, subs)
}

/// Whether sub-TLVs are whole and have room for their fields.
fn are_subs_whole(subs: &[u8]) -> bool
    ensures { result ≡ are_whole spec.is_sub_whole subs.now }
{
    let mut rest = subs;
    while let Some((sub, after)) = split_piece(TLV_HEAD, rest) {
        if !is_sub_whole(sub) {
            return false;
        }
        rest = after;
    }
    rest.is_empty()
}

fn is_sub_whole(sub: &[u8]) -> bool
    requires { 2 ≤ length sub.now }
    ensures { result ≡ spec.is_sub_whole (tlv_of sub.now) }
{
    let (head, value) = sub.split_at(TLV_HEAD);
    match head[0] {
        SPB_INST => value.len() >= 19 && value.len() >= 19 + 8 * usize::from(value[18]),
        SPBM_SI => value.len() >= 8 && (value.len() - 8) % 4 == 0,
        _ => true,
    }
}

/// The capabilities of whole sub-TLVs. `Range` where a base VID is 0 or 4095.
fn capabilities_in(alloc: Global, subs: &[u8]) -> Result<Vec<Capability>, TlvError>
    requires { are_whole spec.is_sub_whole subs.now ≡ true }
    ensures { Reads result (spec.sub_capabilities_of subs.now) }
{
    let mut capabilities = Vec::new(alloc);
    let mut rest = subs;
    while let Some((sub, after)) = split_piece(TLV_HEAD, rest) {
        push_some(&mut capabilities, capability_in(alloc, sub)?)?;
        rest = after;
    }
    Ok(capabilities)
}

/// The capability that a sub-TLV is, if it is one.
fn capability_in(alloc: Global, sub: &[u8]) -> Result<Option<Capability>, TlvError>
    requires head { 2 ≤ length sub.now }
    requires whole { spec.is_sub_whole (tlv_of sub.now) ≡ true }
    ensures { Gives (λ c. c) result (spec.one_capability (tlv_of sub.now)) }
{
    let (head, value) = sub.split_at(TLV_HEAD);
    match head[0] {
        SPB_INST => Ok(Some(inst_in(alloc, value)?)),
        SPBM_SI => Ok(Some(services_in(alloc, value)?)),
        _ => Ok(None),
    }
}

/// The SPB-Inst of a value with room for its fields.
fn inst_in(alloc: Global, value: &[u8]) -> Result<Capability, TlvError>
    requires head { 19 ≤ length value.now }
    requires whole { 19 + 8 * u8_at value.now 18 ≤ length value.now }
    ensures { Gives (λ c. c) result (if list_any spec.is_tree_outside (spec.trees_in value.now) then Err TlvError.Range else Ok (spec.inst_of value.now)) }
{
    let trees = trees_in(value);
    if is_any_outside(trees) {
        return Err(TlvError::Range);
    }
    let plans = plans_in(alloc, trees)?;
    Ok(Capability::Inst {
        priority: u16_in(value, 12),
        source: SourceId {
            value: u32_in(value, 14) % SOURCE_IDS,
        },
        trees: Seq::from_vec(plans),
    })
}

fn trees_in(value: &[u8]) -> &[[u8; 8]]
    requires head { 19 ≤ length value.now }
    requires whole { 19 + 8 * u8_at value.now 18 ≤ length value.now }
    ensures { result.now ≡ spec.trees_in value.now }
{
    let (head, rest) = value.split_at(19);
    let (trees, _) = rest.as_chunks::<8>();
    &trees[..usize::from(head[18])]
}

fn is_any_outside(trees: &[[u8; 8]]) -> bool
    ensures { result ≡ list_any spec.is_tree_outside trees.now }
{
    trees.iter().any(|tree| is_tree_outside(tree))
}

fn is_tree_outside(tree: &[u8; 8]) -> bool
    ensures { result ≡ spec.is_tree_outside tree.now }
{
    is_known(tree) && is_outside(u24_in(tree, 5) / 4096)
}

fn is_known(tree: &[u8; 8]) -> bool
    ensures { result ≡ spec.is_known tree.now }
{
    let algorithm = u32_in(tree, 1);
    ECT_BASE + 1 <= algorithm && algorithm <= ECT_BASE + u32::from(GREATEST_ECT)
}

fn is_outside(vid: u32) -> bool
    ensures { result ≡ spec.is_outside vid }
{
    !(1 <= vid && vid <= u32::from(GREATEST_VID))
}

fn plans_in(alloc: Global, trees: &[[u8; 8]]) -> Result<Vec<VidPlan>, AllocError>
    ensures { IfOk result (λ v. v.items ≡ filter_map spec.plan_in trees.now) }
{
    trees.iter().filter_map(|tree| plan_in(tree)).collect(alloc)
}

/// The base VID and the ECT number of a tree, if its ECT-ALGORITHM has one.
fn plan_in(tree: &[u8; 8]) -> Option<VidPlan>
    ensures { result ≡ spec.plan_in tree.now }
{
    if !is_known(tree) {
        return None;
    }
    Some(VidPlan {
        vid: Vid {
            value: (u24_in(tree, 5) / 4096) as u16,
        },
        ect: (u32_in(tree, 1) - ECT_BASE) as u8,
    })
}

/// The SPBM-SI of a value with room for its fields.
fn services_in(alloc: Global, value: &[u8]) -> Result<Capability, TlvError>
    requires { 8 ≤ length value.now }
    ensures { Gives (λ c. c) result (if spec.is_outside (spec.service_vid_of value.now) then Err TlvError.Range else Ok (spec.services_of value.now)) }
{
    let (head, rest) = value.split_at(8);
    let vid = u16_in(head, 6) % 4096;
    if is_outside(u32::from(vid)) {
        return Err(TlvError::Range);
    }
    let (services, _) = rest.as_chunks::<4>();
    Ok(Capability::Services {
        mac: mac_in(head, 0),
        vid: Vid { value: vid },
        isids: Seq::from_vec(isids_in(alloc, services)?),
    })
}

fn isids_in(alloc: Global, services: &[[u8; 4]]) -> Result<Vec<Service>, AllocError>
    ensures { IfOk result (λ v. v.items ≡ filter_map spec.service_of services.now) }
{
    services
        .iter()
        .filter_map(|bytes| service_in(bytes))
        .collect(alloc)
}

/// The service of four bytes, unless its I-SID is 0.
fn service_in(bytes: &[u8; 4]) -> Option<Service>
    ensures { result ≡ spec.service_of bytes.now }
{
    let isid = u24_in(bytes, 1);
    if isid == 0 {
        return None;
    }
    Some(Service {
        isid: Isid { value: isid },
        transmit: bytes[0] >= 128,
        receive: bytes[0] % 128 >= 64,
    })
}

/// Appends the TLV 144 of this capability (RFC 6329, 14). An `Inst` has a source below 1,048,576 and at most 16 trees,
/// with VIDs 1 to 4094 and ECT numbers 1 to 16; a `Services` has a VID 1 to 4094 and at most 60 I-SIDs, each 1 to
/// 16,777,215.
pub fn write_capability(out: &mut Vec<u8>, item: &Capability) -> Result<(), NoMemory>
    requires { spec.IsCapability item.now }
    ensures ok { OnOk result (out.new.items ≡ out.old.items ++ tlv 144 (spec.capability_value item.now)) }
    ensures err { OnErr result (out.new.items ≡ out.old.items) }
{
    let before = out.len();
    let ended = put_capability(out, item);
    whole_or_none(out, before, ended)
}

fn put_capability(out: &mut Vec<u8>, item: &Capability) -> Result<(), NoMemory>
    requires { spec.IsCapability item.now }
    ensures ok { OnOk result (out.new.items ≡ out.old.items ++ tlv 144 (spec.capability_value item.now)) }
    ensures err { OnErr result (take (length out.old.items) out.new.items ≡ out.old.items) }
{
    match item {
        Capability::Inst {
            priority,
            source,
            trees,
        } => put_inst(out, *priority, *source, trees.as_slice()),
        Capability::Services { mac, vid, isids } => {
            put_services(out, *mac, *vid, isids.as_slice())
        }
    }
}

fn put_inst(
    out: &mut Vec<u8>,
    priority: u16,
    source: SourceId,
    trees: &[VidPlan],
) -> Result<(), NoMemory>
    requires { length trees.now ≤ MOST_VIDS }
    ensures ok { OnOk result (out.new.items ≡ out.old.items ++ tlv 144 (spec.capability_value (Capability.Inst priority source trees.now))) }
    ensures err { OnErr result (take (length out.old.items) out.new.items ≡ out.old.items) }
{
    put_inst_head(out, priority, source, trees.len() as u8)?;
    put_trees(out, trees)
}

/// Appends what stands before the trees, of which there are so many.
fn put_inst_head(
    out: &mut Vec<u8>,
    priority: u16,
    source: SourceId,
    count: u8,
) -> Result<(), NoMemory>
    requires { count ≤ MOST_VIDS }
    ensures ok { OnOk result (out.new.items ≡ out.old.items ++ spec.heads 1 (19 + 8 * count) ++ spec.inst_fields priority source count) }
    ensures err { OnErr result (take (length out.old.items) out.new.items ≡ out.old.items) }
{
    let len = 19 + 8 * count;
    put(out, &[MT_CAPABILITY, 4 + len, 0, 0, SPB_INST, len])?;
    put(out, &[0; 12])?;
    put(out, &priority.to_be_bytes())?;
    put(out, &source.value.to_be_bytes())?;
    put(out, &[count])
}

fn put_trees(out: &mut Vec<u8>, trees: &[VidPlan]) -> Result<(), NoMemory>
    ensures ok { OnOk result (out.new.items ≡ out.old.items ++ flat_map spec.tree_bytes trees.now) }
    ensures err { OnErr result (take (length out.old.items) out.new.items ≡ out.old.items) }
{
    for plan in trees {
        put(out, &tree_bytes(plan))?;
    }
    Ok(())
}

fn tree_bytes(plan: &VidPlan) -> [u8; 8]
    ensures { result ≡ spec.tree_bytes plan.now }
{
    let [_, high, middle, low] = (u32::from(plan.vid.value) * 4096).to_be_bytes();
    [0x40, 0x00, 0x80, 0xc2, plan.ect, high, middle, low]
}

fn put_services(out: &mut Vec<u8>, mac: Mac, vid: Vid, services: &[Service]) -> Result<(), NoMemory>
    requires { length services.now ≤ 60 }
    ensures ok { OnOk result (out.new.items ≡ out.old.items ++ tlv 144 (spec.capability_value (Capability.Services mac vid services.now))) }
    ensures err { OnErr result (take (length out.old.items) out.new.items ≡ out.old.items) }
{
    put_services_head(out, mac, vid, services.len() as u8)?;
    put_isids(out, services)
}

/// Appends what stands before the I-SIDs, of which there are so many.
fn put_services_head(out: &mut Vec<u8>, mac: Mac, vid: Vid, count: u8) -> Result<(), NoMemory>
    requires { count ≤ 60 }
    ensures ok { OnOk result (out.new.items ≡ out.old.items ++ spec.heads 3 (8 + 4 * count) ++ spec.services_fields mac vid) }
    ensures mac { OnOk result (length mac.bytes ≡ 6) }
    ensures err { OnErr result (take (length out.old.items) out.new.items ≡ out.old.items) }
{
    let len = 8 + 4 * count;
    put(out, &[MT_CAPABILITY, 4 + len, 0, 0, SPBM_SI, len])?;
    put(out, &mac.bytes)?;
    put(out, &vid.value.to_be_bytes())
}

fn put_isids(out: &mut Vec<u8>, services: &[Service]) -> Result<(), NoMemory>
    ensures ok { OnOk result (out.new.items ≡ out.old.items ++ flat_map spec.service_bytes services.now) }
    ensures err { OnErr result (take (length out.old.items) out.new.items ≡ out.old.items) }
{
    for service in services {
        put(out, &service_bytes(service))?;
    }
    Ok(())
}

fn service_bytes(service: &Service) -> [u8; 4]
    ensures { result ≡ spec.service_bytes service.now }
{
    let [_, high, middle, low] = service.isid.value.to_be_bytes();
    [flags_of(service), high, middle, low]
}

fn flags_of(service: &Service) -> u8
    ensures { result ≡ spec.service_flags service.now }
{
    let transmit = if service.transmit { 128 } else { 0 };
    let receive = if service.receive { 64 } else { 0 };
    transmit + receive
}
