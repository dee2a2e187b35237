//! The addresses of one service instance.
ghost use Rattle.std.specs.Prelude.{◌≡◌, [], find, IfOk, OnOk, OnErr, option_map, slice_get};
ghost use Rattle.std.specs.List.{position};
ghost use Rattle.lru.specs.LruCache.{lru_cache};
ghost use Rattle.customer_learning.specs.Known.{brought, is_local, place_among, without_local};
ghost use Rattle.customer_learning.specs.Tables.{is_of};

use crate::Place;
use lru::LruCache;
use spb_types::limits::MOST_ADDRESSES;
use spb_types::{Isid, Mac, NoMemory};
use std::alloc::Global;
use std::num::NonZeroUsize;

/// What is learned of an I-SID.
#[derive(Drop)]
pub struct Table {
    pub isid: Isid,
    pub addresses: LruCache<Mac, Place>,
}

/// A table of no address.
pub fn new_table(alloc: Global, isid: Isid) -> Result<Table, NoMemory>
    ensures isid { IfOk result (λ t. t.isid ≡ isid) }
    ensures addresses { IfOk result (λ t. t.addresses ≡ lru_cache [] MOST_ADDRESSES) }
{
    let most = NonZeroUsize::new(MOST_ADDRESSES).unwrap();
    let addresses = LruCache::sparse(alloc, most)?;
    Ok(Table { isid, addresses })
}

/// Where the first table of an I-SID stands.
pub fn place_of(tables: &[Table], isid: Isid) -> Option<usize>
    ensures { result ≡ position (is_of isid) tables.now }
{
    tables.iter().position(|t| t.isid.value == isid.value)
}

/// The place of an address.
pub fn place_among(addresses: &LruCache<Mac, Place>, mac: Mac) -> Option<Place>
    ensures { result ≡ place_among addresses.now.entries mac }
{
    addresses.peek(&mac).copied()
}

/// Brings an address to the front with its place. After `NoMemory` nothing changed.
pub fn bring(addresses: &mut LruCache<Mac, Place>, mac: Mac, place: Place) -> Result<(), NoMemory>
    requires { addresses.old.cap ≡ MOST_ADDRESSES }
    ensures ok { OnOk result (addresses.new ≡ lru_cache (brought mac place addresses.old.entries) MOST_ADDRESSES) }
    ensures err { OnErr result (addresses.new ≡ addresses.old) }
{
    prove!(addresses.len() <= MOST_ADDRESSES);
    addresses.put(mac, place)?;
    Ok(())
}

/// The first address at a customer port.
fn first_at(addresses: &LruCache<Mac, Place>, port: u16) -> Option<Mac>
    ensures { result ≡ option_map (λ e. e.0) (find (λ e. is_local port e.1) addresses.now.entries) }
{
    for (mac, place) in addresses {
        if place.is_local(port) {
            return Some(*mac);
        }
    }
    None
}

/// Forgets the addresses at a customer port. The others stay as they are.
pub fn forget_at(addresses: &mut LruCache<Mac, Place>, port: u16)
    ensures { addresses.new ≡ lru_cache (without_local port addresses.old.entries) addresses.old.cap }
{
    while let Some(mac) = first_at(addresses, port) {
        prove!(addresses.len() <= addresses.cap().get());
        addresses.pop(&mac);
    }
}
