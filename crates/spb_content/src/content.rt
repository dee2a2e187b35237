//! What an LSP says of its bridge, read of its TLVs.
ghost use Rattle.std.specs.Prelude.{◌≡◌, ◌++◌, ℕ, ◌<◌, [], ◌∷◌, length, map, flat_map, MatchOption, IfOk, OnOk, Result, List, ◌==◌, if◌then◌else◌};
ghost use Rattle.spb_tlvs.specs.Tlv.{values_with};
ghost use Rattle.spb_tlvs.specs.Reading.{Reads};
ghost use Rattle.spb_tlvs.specs.Neighbour.{neighbours_of};
ghost use Rattle.spb_tlvs.specs.Capability.{capabilities_of};
ghost use Rattle.spb_tlvs.specs.declared.error.TlvError.{TlvError};
ghost use Rattle.spb_content.specs.Content as spec;

use spb_tlvs::{
    Capability, EXTENDED_IS_REACHABILITY, MT_CAPABILITY, Neighbour, Service, TlvError,
    read_capability, read_neighbours, split_tlv,
};
use spb_types::{Mac, NoMemory, Seq, SourceId, Vid, VidPlan};
use std::alloc::Global;

/// What a bridge says of itself in an SPB-Inst (RFC 6329, 14.1).
#[derive(Debug, Drop)]
pub struct Inst {
    /// The bridge priority.
    pub priority: u16,
    /// The source id, 0 to 1,048,575.
    pub source: SourceId,
    /// The base VIDs with their ECT numbers.
    pub trees: Seq<VidPlan>,
}

/// What the TLVs of an LSP say of a bridge.
#[derive(Debug, Drop)]
pub struct Content {
    /// The first SPB-Inst. Without one the system is no bridge.
    pub inst: Option<Inst>,
    /// The neighbours that it lists, in order.
    pub neighbours: Seq<Neighbour>,
    /// The services, in order, each with the B-MAC and the base VID of its SPBM-SI.
    pub services: Seq<(Mac, Vid, Service)>,
}

/// Reads the TLVs of an LSP (RFC 6329, 13 to 16): the neighbours of all TLVs 22 and the services of all TLVs 144 in
/// order, and the first SPB-Inst. A TLV that can't be read is ignored, and so is every other TLV.
#[tactic(auto, unfolding(crate::specs::Content::content_in))]
pub fn read_content(alloc: Global, tlvs: &[u8]) -> Result<Content, NoMemory>
    ensures { IfOk result (λ content. content ≡ spec.content_in tlvs.now) }
{
    let neighbours = neighbours_in(alloc, tlvs)?;
    let capabilities = capabilities_in(alloc, tlvs)?;
    content_with(alloc, neighbours, capabilities)
}

/// What was read, or nothing where it couldn't be.
fn or_nothing<T: Drop>(alloc: Global, read: Result<Vec<T>, TlvError>) -> Result<Vec<T>, NoMemory>
    ensures { (said : Result (List T) TlvError) → Reads read said → IfOk result (λ v. v.items ≡ spec.or_nothing said) }
{
    match read {
        Ok(items) => Ok(items),
        Err(TlvError::NoMemory) => Err(NoMemory),
        Err(_) => Ok(Vec::new(alloc)),
    }
}

/// The neighbours of all TLVs 22, in order.
fn neighbours_in(alloc: Global, tlvs: &[u8]) -> Result<Vec<Neighbour>, NoMemory>
    ensures { IfOk result (λ v. v.items ≡ spec.neighbours_in tlvs.now) }
{
    let mut neighbours = Vec::new(alloc);
    let mut rest = tlvs;
    while let Some((code, value, after)) = split_tlv(rest) {
        if code == EXTENDED_IS_REACHABILITY {
            let more = or_nothing(alloc, read_neighbours(alloc, value))?;
            neighbours.extend_from_slice(more.as_slice())?;
        }
        rest = after;
    }
    Ok(neighbours)
}

/// The capabilities of all TLVs 144, in order.
fn capabilities_in(alloc: Global, tlvs: &[u8]) -> Result<Vec<Capability>, NoMemory>
    ensures { IfOk result (λ v. v.items ≡ spec.capabilities_in tlvs.now) }
{
    let mut capabilities = Vec::new(alloc);
    let mut rest = tlvs;
    while let Some((code, value, after)) = split_tlv(rest) {
        if code == MT_CAPABILITY {
            let mut more = or_nothing(alloc, read_capability(alloc, value))?;
            capabilities.append(&mut more)?;
        }
        rest = after;
    }
    Ok(capabilities)
}

/// The first SPB-Inst of the capabilities and all their services, with the neighbours.
fn content_with(
    alloc: Global,
    neighbours: Vec<Neighbour>,
    capabilities: Vec<Capability>,
) -> Result<Content, NoMemory>
    ensures { IfOk result (λ c. c ≡ record { inst = spec.first_inst capabilities.items; neighbours = neighbours.items; services = flat_map spec.services_of capabilities.items }) }
{
    let mut inst = None;
    let mut services = Vec::new(alloc);
    for capability in capabilities {
        match capability {
            Capability::Inst {
                priority,
                source,
                trees,
            } => {
                if inst.is_none() {
                    inst = Some(Inst {
                        priority,
                        source,
                        trees,
                    });
                }
            }
            Capability::Services { mac, vid, isids } => {
                put_services(&mut services, mac, vid, isids.as_slice())?;
            }
        }
    }
    Ok(Content {
        inst,
        neighbours: Seq::from_vec(neighbours),
        services: Seq::from_vec(services),
    })
}

fn put_services(
    services: &mut Vec<(Mac, Vid, Service)>,
    mac: Mac,
    vid: Vid,
    more: &[Service],
) -> Result<(), NoMemory>
    ensures { OnOk result (services.new.items ≡ services.old.items ++ map (λ s. (mac, vid, s)) more.now) }
{
    for service in more {
        services.push((mac, vid, *service))?;
    }
    Ok(())
}
