//! Where a frame goes by what is learned, and what is learned of its source.
ghost use Rattle.std.specs.Prelude.{◌≡◌, ◌≤◌, length, OnOk, OnErr};
ghost use Rattle.forwarding.specs.Tenant.{going_by, going_of, with_source};

use customer_learning::{Learned, Place};
use spb_types::{Isid, Mac, NoMemory, mac_in};

/// Where a frame to an address goes, as learned.
#[derive(Clone, Copy, Debug, PartialEq, Eq)]
pub enum Going {
    /// To every port of the service instance, here and at other bridges.
    Everywhere,
    /// To a customer port of this bridge.
    AtPort(u16),
    /// To another bridge, by its backbone address.
    Behind(Mac),
}

fn going_by(place: Option<Place>) -> Going
    ensures { result ≡ going_by place }
{
    match place {
        None => Going::Everywhere,
        Some(Place::Local(port)) => Going::AtPort(port),
        Some(Place::Remote(mac)) => Going::Behind(mac),
    }
}

/// Where a frame to an address of an I-SID goes.
pub fn going_of(learned: &Learned, isid: Isid, da: Mac) -> Going
    ensures { result ≡ going_of learned.now isid da }
{
    if da.is_group() {
        return Going::Everywhere;
    }
    going_by(learned.find(isid, da))
}

/// Learns that the source of a customer's frame is at a place, unless it is a group address. After `NoMemory` nothing
/// changed.
pub fn learn_source(
    learned: &mut Learned,
    place: Place,
    isid: Isid,
    frame: &[u8],
) -> Result<(), NoMemory>
    requires { 14 ≤ length frame.now }
    ensures ok { OnOk result (learned.new ≡ with_source place isid frame.now learned.old) }
    ensures err { OnErr result (learned.new ≡ learned.old) }
{
    let sa = mac_in(frame, 6);
    if sa.is_group() {
        return Ok(());
    }
    learned.learn(isid, sa, place)
}
