//! A frame at several ports: shared at backbone ports, and a copy at each customer port.
ghost use Rattle.std.specs.Prelude.{◌≡◌, IfOk};
ghost use Rattle.forwarding.specs.Ports.{but_for};
ghost use Rattle.forwarding.specs.Tenant.{each_with};

use shared_frames::Frame;
use spb_types::{NoMemory, Seq};
use std::alloc::Global;

/// The frame at each of these backbone ports.
pub fn on_wire(alloc: Global, frame: &Frame, ports: &[u8]) -> Result<Seq<(u8, Frame)>, NoMemory>
    ensures { IfOk result (λ out. out ≡ each_with frame.now ports.now) }
{
    let mut out = Vec::with_capacity(alloc, ports.len())?;
    for port in ports {
        out.push((*port, frame.share()?))?;
    }
    Ok(Seq::from_vec(out))
}

/// The frame at each of these customer ports.
pub fn leaving(alloc: Global, frame: &[u8], ports: &[u16]) -> Result<Seq<(u16, Seq<u8>)>, NoMemory>
    ensures { IfOk result (λ out. out ≡ each_with frame.now ports.now) }
{
    let mut out = Vec::with_capacity(alloc, ports.len())?;
    for port in ports {
        let copy = Seq::from_vec(Vec::from_slice(alloc, frame)?);
        out.push((*port, copy))?;
    }
    Ok(Seq::from_vec(out))
}

/// Backbone ports but for one.
pub fn wire_but_for(port: u8, ports: &mut Vec<u8>)
    ensures { ports.new.items ≡ but_for port ports.old.items }
{
    ports.retain(|p| *p != port);
}

/// Customer ports but for one.
pub fn local_but_for(port: u16, ports: &mut Vec<u16>)
    ensures { ports.new.items ≡ but_for port ports.old.items }
{
    ports.retain(|p| *p != port);
}
