//! What becomes of a backbone frame, decided before anything is sent: the ingress check, its I-SID, its destination.
ghost use Rattle.std.specs.Prelude.{◌≡◌, IfOk};
ghost use Rattle.spb_types.specs.Tables.{unicast_in};
ghost use Rattle.forwarding.specs.Ports.{is_way};
ghost use Rattle.forwarding.specs.Tenant as spec;

use crate::Tenant;
use crate::copies::wire_but_for;
use crate::ports::ports_in;
use itag_frames::Backbone;
use spb_types::{
    DropReason, Isid, Mac, NoMemory, PortSet, Tables, Vid, group_of, ingress_ok, u24_in, unicast_of,
};
use std::alloc::Global;

/// What becomes of a backbone frame that comes in.
#[derive(Clone, Copy, Debug, PartialEq, Eq)]
pub enum Step {
    /// It is dropped.
    Stopped(DropReason),
    /// It is delivered here.
    Here,
    /// It is relayed at a port.
    Onward(u8),
    /// It is relayed at these ports but for the one at which it came, and delivered here.
    Spread(PortSet),
}

// Whether frames from an address come in at this port.
fn comes_in(tables: &Tables, vid: Vid, sa: Mac, port: u8) -> bool
    ensures { result ≡ is_way port (unicast_in tables.now.unicast vid sa) }
{
    ingress_ok(tables, vid, sa, port)
}

fn is_of_another(da: Mac, isid: Isid) -> bool
    ensures { result ≡ spec.is_of_another da isid }
{
    da.is_group() && u24_in(&da.bytes, 3) != isid.value
}

fn way_on(port: u8, way: Option<u8>) -> Step
    ensures { result ≡ spec.way_on port way }
{
    match way {
        None => Step::Stopped(DropReason::NoWay),
        Some(next) => {
            if next == port {
                Step::Stopped(DropReason::NoWay)
            } else {
                Step::Onward(next)
            }
        }
    }
}

/// What becomes of a frame that comes in at a port: the ingress check comes first, then the I-SID of a group address,
/// and then its destination says where it goes.
pub fn step_of(tenant: &Tenant, tables: &Tables, port: u8, frame: &Backbone<'_>) -> Step
    ensures { result ≡ spec.step_of tenant.now tables.now port (spec.parts frame.now) }
{
    if !comes_in(tables, frame.vid, frame.sa, port) {
        return Step::Stopped(DropReason::Ingress);
    }
    if is_of_another(frame.da, frame.isid) {
        return Step::Stopped(DropReason::Mismatch);
    }
    if frame.da == tenant.me {
        return Step::Here;
    }
    if frame.da.is_group() {
        return Step::Spread(group_of(tables, frame.vid, frame.da));
    }
    way_on(port, unicast_of(tables, frame.vid, frame.da))
}

impl Step {
    /// Whether the frame is delivered here.
    pub fn is_delivered(self) -> bool
        ensures { result ≡ spec.is_delivered self }
    {
        match self {
            Step::Stopped(_) => false,
            Step::Here => true,
            Step::Onward(_) => false,
            Step::Spread(_) => true,
        }
    }

    /// Why the frame is dropped, if it is.
    pub fn dropped(self) -> Option<DropReason>
        ensures { result ≡ spec.dropped_by self }
    {
        match self {
            Step::Stopped(reason) => Some(reason),
            Step::Here => None,
            Step::Onward(_) => None,
            Step::Spread(_) => None,
        }
    }

    /// The ports at which the frame, which came at this port, is relayed.
    pub fn relayed_at(self, alloc: Global, port: u8) -> Result<Vec<u8>, NoMemory>
        ensures { IfOk result (λ ports. ports.items ≡ spec.relayed_at port self) }
    {
        match self {
            Step::Stopped(_) => Ok(Vec::new(alloc)),
            Step::Here => Ok(Vec::new(alloc)),
            Step::Onward(next) => Ok(Vec::from_slice(alloc, &[next])?),
            Step::Spread(set) => {
                let mut ports = ports_in(alloc, set)?;
                wire_but_for(port, &mut ports);
                Ok(ports)
            }
        }
    }
}
