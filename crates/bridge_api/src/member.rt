//! The members of services that a bridge is by what is attached to its customer ports.
ghost use Rattle.std.specs.Prelude.{◌≡◌, map, IfOk};
ghost use Rattle.bridge_api.specs.Own as own;

use spb_types::{Attachment, Member, NoMemory, SystemId};
use std::alloc::Global;

/// The members that attached customer ports make a system, one for each, in their order.
///
/// It fails only where there is no memory.
pub fn attached_members(
    alloc: Global,
    system: SystemId,
    attached: &[Attachment],
) -> Result<Vec<Member>, NoMemory>
    ensures { IfOk result (λ members. members.items ≡ map (own.member_of system) attached.now) }
{
    let members = attached
        .iter()
        .map(|attachment| member_of(system, attachment))
        .collect(alloc)?;
    Ok(members)
}

fn member_of(system: SystemId, attachment: &Attachment) -> Member
    ensures { result ≡ own.member_of system attachment.now }
{
    Member {
        system,
        isid: attachment.isid,
        vid: attachment.vid,
        transmit: attachment.mode.sends(),
        receive: attachment.mode.receives(),
    }
}
