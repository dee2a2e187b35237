//! What a bridge says of itself, cut into fragments: what its LSP of each number says.
ghost use Rattle.std.specs.Prelude.{◌≡◌, ◌*◌, ◌++◌, length, take, drop, IfOk, option_map};
ghost use Rattle.spb_content.specs.Local.{IsLocal};
ghost use Rattle.spb_content.specs.Fragments as spec;
ghost use Rattle.spb_content.specs.Fragments.{AreToCut, fragment, fragments_from, bodies_saying};

use crate::Local;
use crate::local::{put_content, put_services};
use crate::merging::merge;
use spb_types::{Member, NoMemory, Seq};
use std::alloc::Global;

/// How many services a fragment has at most: as many as one TLV has room for.
const SERVICES: usize = 60;

/// Room for what most bridges say, so that it need not move while it is written.
const USUAL_LENGTH: usize = 256;

/// The TLVs of fragment `number`, which the own LSP of that number says (RFC 6329, 13 to 16). Number 0 has, in this
/// order, the area addresses; the protocols supported; the neighbours, 13 in a TLV 22, and none without a neighbour; a
/// TLV 144 with the SPB-Inst and its trees by ascending VID; and services. Each other number has services alone, and
/// exists where there is one for it.
///
/// The services are the different pairs of a base VID and an I-SID of the attached ports, ascending. Number k has those
/// with the places 60k to 60k + 59: for each base VID among them, ascending, a TLV 144 with one SPBM-SI and those
/// I-SIDs, ascending, each with T set where one of its ports sends, and R where one receives.
///
/// The source is below 1,048,576. There are at most 16 VIDs, which differ and are 1 to 4094, with ECT numbers 1 to 16.
/// The metrics are below 16,777,216. There are at most [`spb_types::limits::MOST_ISIDS`] different I-SIDs, each 1 to
/// 16,777,215 and in one VID of 1 to 4094.
pub fn content_of(alloc: Global, local: &Local, number: u8) -> Result<Option<Vec<u8>>, NoMemory>
    requires { IsLocal local.now }
    ensures { IfOk result (λ tlvs. option_map (λ v. v.items) tlvs ≡ fragment local.now number) }
{
    if local.attached.len() <= SERVICES {
        return fragment_at(alloc, local, local.attached.as_slice(), number, &[]);
    }
    let services = services_of(alloc, local)?;
    fragment_at(alloc, local, services.as_slice(), number, &[])
}

/// The bodies of the LSPs with the numbers below `numbers` that have a fragment, from number 0 on: each the flags octet
/// and then the TLVs, as [`content_of`] gives them. No number behind one without a fragment has one. The services are
/// sorted once.
pub fn bodies_of(
    alloc: Global,
    local: &Local,
    numbers: u8,
    flags: u8,
) -> Result<Vec<Option<Seq<u8>>>, NoMemory>
    requires { IsLocal local.now }
    ensures { IfOk result (λ bodies. bodies.items ≡ bodies_saying flags (fragments_from local.now numbers 0)) }
{
    if local.attached.len() <= SERVICES {
        return bodies_below(alloc, local, local.attached.as_slice(), numbers, flags);
    }
    let services = services_of(alloc, local)?;
    bodies_below(alloc, local, services.as_slice(), numbers, flags)
}

/// The services of a bridge, each once, ascending by base VID and then by I-SID.
fn services_of(alloc: Global, local: &Local) -> Result<Vec<Member>, NoMemory>
    requires { IsLocal local.now }
    ensures { IfOk result (λ services. services.items ≡ spec.services_by local.now) }
{
    merge(alloc, local.config.id.system, local.attached.as_slice())
}

/// The bodies of the LSPs with the numbers below this one, up to the first without a fragment.
fn bodies_below(
    alloc: Global,
    local: &Local,
    services: &[Member],
    numbers: u8,
    flags: u8,
) -> Result<Vec<Option<Seq<u8>>>, NoMemory>
    requires local { IsLocal local.now }
    requires services { AreToCut local.now services.now }
    ensures { IfOk result (λ bodies. bodies.items ≡ bodies_saying flags (fragments_from local.now numbers 0)) }
{
    let mut bodies = Vec::with_capacity(alloc, 1 + services.len() / SERVICES)?;
    for number in 0..numbers {
        let Some(body) = fragment_at(alloc, local, services, number, &[flags])? else {
            return Ok(bodies);
        };
        bodies.push(Some(Seq::from_vec(body)))?;
    }
    Ok(bodies)
}

/// One fragment, behind these octets.
fn fragment_at(
    alloc: Global,
    local: &Local,
    services: &[Member],
    number: u8,
    front: &[u8],
) -> Result<Option<Vec<u8>>, NoMemory>
    requires local { IsLocal local.now }
    requires services { AreToCut local.now services.now }
    ensures { IfOk result (λ bytes. option_map (λ v. v.items) bytes
        ≡ option_map (λ tlvs. front.now ++ tlvs) (fragment local.now number)) }
{
    let part = part_of(services, number);
    if number == 0 {
        let mut out = begun_with(alloc, front)?;
        put_content(alloc, &mut out, local, part)?;
        return Ok(Some(out));
    }
    if part.is_empty() {
        return Ok(None);
    }
    let mut out = begun_with(alloc, front)?;
    put_services(alloc, &mut out, local, part)?;
    Ok(Some(out))
}

/// These octets, with room for what most bridges say behind them.
fn begun_with(alloc: Global, front: &[u8]) -> Result<Vec<u8>, NoMemory>
    ensures { IfOk result (λ out. out.items ≡ front.now) }
{
    let mut out = Vec::with_capacity(alloc, USUAL_LENGTH)?;
    out.extend_from_slice(front)?;
    Ok(out)
}

/// The services with the places of a fragment.
fn part_of(services: &[Member], number: u8) -> &[Member]
    ensures { result.now ≡ take 60 (drop (60 * number) services.now) }
{
    let start = services.len().min(SERVICES * usize::from(number));
    let end = services.len().min(start + SERVICES);
    &services[start..end]
}
