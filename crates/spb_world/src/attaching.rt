//! Tests of customer ports and frames, and of what is attached at one bridge.
ghost use Rattle.std.specs.Prelude.{◌≡◌, ◌&&◌, ◌==◌, not, length, nat_eq};
ghost use Rattle.std.specs.List.{list_any};
ghost use Rattle.std.specs.List.Sorted.{IsSorted};
ghost use Rattle.std.specs.Ordering.{nat_cmp};
ghost use Rattle.spb_types.specs.Service.{sends};
ghost use Rattle.bridge_api.specs.Config.{different};
ghost use Rattle.spb_world.specs.Attaching as attaching;

use spb_types::Attachment;
use spb_types::limits::{MOST_CUSTOMER_PORTS, MOST_ISIDS};

/// Whether this is the number of a customer port.
#[tactic(auto, unfolding(crate::specs::Attaching::is_customer_port))]
pub fn is_customer_port(port: u64) -> bool
    ensures { result ≡ attaching.is_customer_port port }
{
    1 <= port && port <= u64::from(MOST_CUSTOMER_PORTS)
}

/// Whether a customer's frame has two addresses and a type, and is no jumbo: 14 to 2,000 bytes (IEEE 802.3, 3.1.1).
#[tactic(auto, unfolding(crate::specs::Attaching::is_customer_frame))]
pub fn is_customer_frame(frame: &[u8]) -> bool
    ensures { result ≡ attaching.is_customer_frame frame.now }
{
    14 <= frame.len() && frame.len() <= 2000
}

/// Whether this is attached to a customer port.
fn is_at(attachment: &Attachment, port: u64) -> bool
    ensures { result ≡ (attachment.now.port == port) }
{
    u64::from(attachment.port) == port
}

/// Whether something is attached to a customer port.
pub fn is_attached(attached: &[Attachment], port: u64) -> bool
    ensures { result ≡ list_any (λ a. a.port == port) attached.now }
{
    attached.iter().any(|attachment| is_at(attachment, port))
}

/// Whether this is attached to a customer port, and sends.
fn is_sender(attachment: &Attachment, port: u64) -> bool
    ensures { result ≡ ((attachment.now.port == port) && sends attachment.now.mode) }
{
    is_at(attachment, port) && attachment.mode.sends()
}

/// Whether what is attached to a customer port sends.
pub fn is_sending(attached: &[Attachment], port: u64) -> bool
    ensures { result ≡ list_any (λ a. (a.port == port) && sends a.mode) attached.now }
{
    attached
        .iter()
        .any(|attachment| is_sender(attachment, port))
}

/// Whether this is attached to an I-SID.
fn is_of(attachment: &Attachment, isid: u64) -> bool
    ensures { result ≡ nat_eq isid attachment.now.isid.value }
{
    isid == u64::from(attachment.isid.value)
}

/// Whether a customer port is attached to an I-SID.
fn is_member(attached: &[Attachment], isid: u64) -> bool
    ensures { result ≡ list_any (λ a. nat_eq isid a.isid.value) attached.now }
{
    attached.iter().any(|attachment| is_of(attachment, isid))
}

/// Whether nothing before this is attached to its I-SID.
fn is_first_of_isid(before: &[Attachment], attachment: &Attachment) -> bool
    ensures { result ≡ not (list_any (λ a. nat_eq attachment.now.isid.value a.isid.value) before.now) }
{
    !is_member(before, u64::from(attachment.isid.value))
}

/// How many different I-SIDs customer ports are attached to, by comparing each with those before it.
fn isid_count_by_place(attached: &[Attachment]) -> usize
    ensures { result ≡ length (attaching.different_isids attached.now) }
{
    let mut count = 0;
    for k in 0..attached.len() {
        if is_first_of_isid(&attached[..k], &attached[k]) {
            count += 1;
        }
    }
    count
}

/// Writes the I-SID of each attachment to its place.
fn put_isids(isids: &mut [u32], attached: &[Attachment])
    requires { length isids.old ≡ length attached.now }
    ensures { isids.new ≡ attaching.isids_of attached.now }
{
    for (k, attachment) in attached.iter().enumerate() {
        isids[k] = attachment.isid.value;
    }
}

/// How many different I-SIDs there are among ascending ones: each counts, unless the next one is the same.
fn ascending_isid_count(isids: &[u32]) -> usize
    requires { IsSorted nat_cmp isids.now }
    ensures { result ≡ length (different isids.now) }
{
    let mut count = 0;
    for k in 0..isids.len() {
        if isids.get(k + 1) != Some(&isids[k]) {
            count += 1;
        }
    }
    count
}

/// How many different I-SIDs customer ports are attached to. They are sorted on the stack, which has a place for each
/// customer port. If more were attached than there are places, each would be compared with those before it.
fn isid_count(attached: &[Attachment]) -> usize
    ensures { result ≡ length (attaching.different_isids attached.now) }
{
    let mut places = [0; MOST_CUSTOMER_PORTS as usize];
    if attached.len() > places.len() {
        return isid_count_by_place(attached);
    }
    let isids = &mut places[..attached.len()];
    put_isids(isids, attached);
    isids.sort_unstable();
    ascending_isid_count(isids)
}

/// Whether a bridge to which this is attached has at most [`MOST_ISIDS`] different I-SIDs, with one more. Where fewer
/// ports are attached, their number tells it.
#[tactic(auto, unfolding(crate::specs::Attaching::has_isid_room))]
pub fn has_isid_room(attached: &[Attachment], isid: u64) -> bool
    ensures { result ≡ attaching.has_isid_room attached.now isid }
{
    if attached.len() < MOST_ISIDS {
        return true;
    }
    let count = isid_count(attached);
    if is_member(attached, isid) {
        count <= MOST_ISIDS
    } else {
        count < MOST_ISIDS
    }
}
