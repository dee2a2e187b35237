//! The database: LSPs in order of id, found by a binary search, with the changes that a bridge makes to them.
ghost use Rattle.std.specs.Prelude.{◌≡◌, ◌≤◌, ◌↔◌, ◌+◌, ℕ, Some, None, true, false, IfOk, IfErr, IfSome, OnOk, OnErr, IsErrOf, IsNone, nat_eq, slice_get, map, take, drop, length, [], ◌∷◌, ◌++◌, if◌then◌else◌};
ghost use Rattle.std.specs.Option.{option_map, option_copied};
ghost use Rattle.std.specs.FinMap as finite;
ghost use Rattle.std.specs.List.{AllByRecursion, list_any};
ghost use Rattle.lsdb.specs.Version.{relation, is_absent};
ghost use Rattle.lsdb.specs.Entry.{entry_of, CanBeHeld, IsClean, cleaned, with_flags, with_srm, with_ssn, with_flags_at, raised, purged, flags_cleared_at, aged, has_flags};
ghost use Rattle.lsdb.specs.Database.{keyed, fits, version_at, changed, changed_at_place, version_at_place, version_if_held, StandsAt, each, any_flags, is_srm_at, is_ssn_at, flagged_from, flagged_places};
ghost use Rattle.spb_types.specs.Ports.{has};
ghost use Rattle.lsdb.specs.Place.{with_entry};
ghost use Rattle.lsdb.specs.Calm.{LivesFor, AreCalm, HaveLeft, lowered_by};
ghost use Rattle.spb_types.specs.declared.ports.PortSet.{PortSet};

use crate::search::{place_near, place_of};
use crate::{Held, Relation, Version, item};
use spb_types::limits::{MOST_LSPS, MOST_PORTS};
use spb_types::{LspId, NoMemory, PortSet};
use std::alloc::{AllocFailed, Global};
use std::marker::Model;
use thiserror::Error;

/// The link state database of a bridge: at most 4,096 LSPs in order of id. Contracts see it as the finite map from ids
/// to entries.
#[derive(Debug, Drop)]
pub struct Database {
    held: Vec<Held>,
    /// For so many seconds nothing but lifetimes changes by age: no LSP has flags, and no live one dies. None where that
    /// isn't known; each change but a second forgets it.
    calm: Option<u16>,
}

impl Model for Database {
    ghost use Rattle.std.specs.Prelude.{map, IfSome};
    ghost use Rattle.std.specs.Coded.{codes};
    ghost use Rattle.std.specs.FinMap.{from_sorted, code};
    ghost use Rattle.lsdb.specs.Database.{Lsps, keyed};
    ghost use Rattle.lsdb.specs.Place.{IsSound};
    ghost use Rattle.lsdb.specs.Calm.{AreCalm};

    ghost Value = { Lsps };

    ghost coded = { code (Prim.hlevel codes) (Prim.hlevel codes) };

    ghost view = { λ d. from_sorted (map keyed d.held.items) };

    ghost invariant = { λ d. IsSound d.held.items × IfSome d.calm (λ seconds. AreCalm seconds d.held.items) };
}

/// Why an LSP wasn't put in.
#[derive(Clone, Copy, Debug, PartialEq, Eq, Error)]
pub enum PutError {
    /// The id is new, and 4,096 ids are held.
    #[error("the database is full")]
    Full,
    /// No memory was found for a place.
    #[error("out of memory")]
    NoMemory,
}

impl<T: Drop> From<AllocFailed<T>> for PutError {
    ghost use Rattle.lsdb.specs.declared.database.PutError.TheVariants.{NoMemory};

    ghost from_gives = { λ _ e. e ≡ NoMemory };

    fn from(_refused: AllocFailed<T>) -> Self {
        PutError::NoMemory
    }
}

/// Whether there was an LSP to raise.
#[derive(Clone, Copy, Debug, PartialEq, Eq)]
pub enum Raised {
    /// It has the new version.
    Raised,
    /// The id isn't held.
    NotHeld,
}

/// An id that was looked up: where it stands, counted from 0 in order of id, if it is held, and its version, which is
/// absent where it isn't held.
#[derive(Clone, Copy, Debug)]
pub struct Found {
    pub place: Option<usize>,
    pub version: Version,
}

// Changes every LSP by `item::age`, and tells whether one then has flags.
fn age_all(held: &mut Vec<Held>, up: PortSet) -> bool
    requires { AllByRecursion (λ h. IsClean (entry_of h)) held.old.items }
    ensures items { held.new.items ≡ map (with_entry (aged up)) held.old.items }
    ensures flags { result ≡ list_any (λ h. has_flags (entry_of h)) held.new.items }
{
    let mut flagged = PortSet::none();
    for h in held.iter_mut() {
        item::age(h, up);
        flagged = item::with_flags_of(h, flagged);
    }
    item::has_ports(flagged)
}

// Lets so many seconds pass at every LSP, of which none dies.
fn lower_all(held: &mut Vec<Held>, seconds: u16)
    ensures { held.new.items ≡ map (with_entry (lowered_by seconds)) held.old.items }
{
    for h in held.iter_mut() {
        item::lower(h, seconds);
    }
}

// For how many more seconds it is calm when so many have passed, if it was known to be for all of these.
fn calm_after(calm: Option<u16>, seconds: u16) -> Option<u16>
    ensures { IfSome result (λ left. calm ≡ Some (left + seconds)) }
{
    match calm {
        Some(known) if seconds <= known => Some(known - seconds),
        _ => None,
    }
}

// So many seconds no live LSP dies.
fn seconds_left(held: &[Held]) -> u16
    ensures { AllByRecursion (λ h. LivesFor result (entry_of h)) held.now }
{
    let mut left = u16::MAX;
    for h in held {
        left = item::least_left(h, left);
    }
    left
}

// For how many seconds nothing but lifetimes changes by age, if no flags stand.
fn calm_in(held: &[Held], flags: bool) -> Option<u16>
    requires { flags ≡ list_any (λ h. has_flags (entry_of h)) held.now }
    ensures { IfSome result (λ seconds. AreCalm seconds held.now) }
{
    if flags {
        None
    } else {
        Some(seconds_left(held))
    }
}

// Changes every LSP by `item::clear_flags`.
fn clear_all_flags(held: &mut Vec<Held>, port: u8)
    requires low { 1 ≤ port }
    requires high { port ≤ MOST_PORTS }
    ensures { held.new.items ≡ map (with_entry (flags_cleared_at port)) held.old.items }
{
    for h in held.iter_mut() {
        item::clear_flags(h, port);
    }
}

// Notes a place, if flags stand there.
fn note_flagged(places: &mut Vec<usize>, place: usize, flagged: bool) -> Result<(), NoMemory>
    ensures { OnOk result (places.new.items ≡ places.old.items ++ (if flagged then place ∷ [] else [])) }
{
    if flagged {
        places.push(place)?;
    }
    Ok(())
}

// The places of the LSPs that have flags, in order.
fn flagged_places(alloc: Global, held: &[Held]) -> Result<Vec<usize>, NoMemory>
    ensures { IfOk result (λ places. places.items ≡ flagged_from 0 (map keyed held.now)) }
{
    let mut places = Vec::new(alloc);
    for place in 0..held.len() {
        note_flagged(&mut places, place, item::has_flags(&held[place]))?;
    }
    Ok(places)
}

// The ports at which some LSP is to be sent.
fn srm_ports(held: &[Held]) -> PortSet
    ensures { (p : ℕ) → has result p ≡ list_any (λ h. has h.srm p) held.now }
{
    let mut ports = PortSet::none();
    for h in held {
        ports = item::either(ports, h.srm);
    }
    ports
}

// The ports at which some LSP is to be acknowledged or asked for.
fn ssn_ports(held: &[Held]) -> PortSet
    ensures { (p : ℕ) → has result p ≡ list_any (λ h. has h.ssn p) held.now }
{
    let mut ports = PortSet::none();
    for h in held {
        ports = item::either(ports, h.ssn);
    }
    ports
}

impl Database {
    /// The empty database, which takes no memory.
    pub fn new(alloc: Global) -> Self
        ensures { result ≡ finite.empty }
    {
        Database {
            held: Vec::new(alloc),
            calm: None,
        }
    }

    /// How many ids are held, at most 4,096.
    pub fn len(&self) -> usize
        ensures len { result ≡ finite.len self.now }
        ensures few { result ≤ MOST_LSPS }
    {
        self.held.len()
    }

    /// Whether no id is held.
    pub fn is_empty(&self) -> bool
        ensures { result ≡ nat_eq (finite.len self.now) 0 }
    {
        self.len() == 0
    }

    /// The LSP at a place, counted from 0 in order of id. None exactly where the place is past the last.
    pub fn at(&self, place: usize) -> Option<&Held>
        ensures entry { option_map keyed (option_copied result) ≡ slice_get (finite.entries self.now) place }
        ensures clean { IfSome result (λ h. IsClean (entry_of h.now)) }
    {
        if place < self.held.len() {
            Some(&self.held[place])
        } else {
            None
        }
    }

    /// The LSP under an id. None exactly where the id isn't held.
    pub fn find(&self, id: &LspId) -> Option<&Held>
        ensures entry { option_map entry_of (option_copied result) ≡ finite.get self.now id.now }
        ensures id { IfSome result (λ h. h.now.id ≡ id.now) }
        ensures clean { IfSome result (λ h. IsClean (entry_of h.now)) }
    {
        match place_of(&self.held, id) {
            Ok(place) => Some(&self.held[place]),
            Err(_) => None,
        }
    }

    /// The version under an id, absent where the id isn't held.
    pub fn version_at(&self, id: &LspId) -> Version
        ensures { result ≡ version_at self.now id.now }
    {
        match self.find(id) {
            Some(held) => held.version,
            None => Version::Absent,
        }
    }

    /// Looks an id up.
    pub fn look_up(&self, id: &LspId) -> Found
        ensures place { StandsAt self.now id.now result.place }
        ensures version { result.version ≡ version_at self.now id.now }
    {
        self.look_up_near(self.held.len(), id)
    }

    /// Looks an id up, at the place `near` before any other: where it stands there, that takes one comparison.
    pub fn look_up_near(&self, near: usize, id: &LspId) -> Found
        ensures place { StandsAt self.now id.now result.place }
        ensures version { result.version ≡ version_at self.now id.now }
    {
        match place_near(&self.held, near, id) {
            Ok(place) => Found {
                place: Some(place),
                version: self.held[place].version,
            },
            Err(_) => Found {
                place: None,
                version: Version::Absent,
            },
        }
    }

    /// The version of the LSP at a place, absent where there is none.
    pub fn version_if_held(&self, place: Option<usize>) -> Version
        ensures { result ≡ version_if_held self.now place }
    {
        match place {
            Some(place) => self.version_at_place(place),
            None => Version::Absent,
        }
    }

    fn version_at_place(&self, place: usize) -> Version
        ensures { result ≡ version_at_place self.now place }
    {
        match self.at(place) {
            Some(held) => held.version,
            None => Version::Absent,
        }
    }

    /// Puts an LSP in, in place of the one that is held under its id. A dead one is kept with lifetime 0 and the body
    /// 01, and an absent one with neither. A live one has a lifetime of at least 1, and all but an absent one have a
    /// body.
    ///
    /// `Full` exactly where the id is new and 4,096 ids are held. After an error the database is as it was.
    pub fn put(&mut self, held: Held) -> Result<(), PutError>
        requires { CanBeHeld held.version held.lifetime held.body }
        ensures ok { OnOk result (self.new ≡ finite.insert self.old held.id (cleaned (entry_of held))) }
        ensures full { IsErrOf result PutError.Full ↔ (fits self.old held.id ≡ false) }
        ensures err { OnErr result (self.new ≡ self.old) }
    {
        let last = self.held.len();
        self.put_near(last, held)
    }

    /// [`put`](Self::put), which looks for the id at the place `near` before any other: where it stands there, that takes
    /// one comparison.
    pub fn put_near(&mut self, near: usize, held: Held) -> Result<(), PutError>
        requires { CanBeHeld held.version held.lifetime held.body }
        ensures ok { OnOk result (self.new ≡ finite.insert self.old held.id (cleaned (entry_of held))) }
        ensures full { IsErrOf result PutError.Full ↔ (fits self.old held.id ≡ false) }
        ensures err { OnErr result (self.new ≡ self.old) }
    {
        let mut held = held;
        item::clean(&mut held);
        self.calm = None;
        match place_near(&self.held, near, &held.id) {
            Ok(place) => {
                self.held[place] = held;
                Ok(())
            }
            Err(place) => {
                if self.held.len() >= MOST_LSPS {
                    return Err(PutError::Full);
                }
                self.held.insert(place, held)?;
                Ok(())
            }
        }
    }

    /// Gives the LSP under an id a newer version, lifetime and body; its flags stay. A dead one is kept with lifetime 0
    /// and the body 01. `to` is newer than what is held, a live one has a lifetime of at least 1, and the body at least
    /// one byte. Takes no memory.
    pub fn raise(&mut self, id: &LspId, to: Version, lifetime: u16, body: Vec<u8>) -> Raised
        requires newer { relation to (version_at self.old id.now) ≡ Relation.Newer }
        requires can { CanBeHeld to lifetime body.items }
        ensures held { (result ≡ Raised.NotHeld) ↔ IsNone (finite.get self.old id.now) }
        ensures entry { self.new ≡ changed (raised to lifetime body.items) self.old id.now }
    {
        match place_of(&self.held, id) {
            Ok(place) => {
                self.calm = None;
                item::raise(&mut self.held[place], to, lifetime, body);
                Raised::Raised
            }
            Err(_) => Raised::NotHeld,
        }
    }

    /// Gives the LSP under an id these flags. Nothing happens where the id isn't held.
    pub fn set_flags(&mut self, id: &LspId, srm: PortSet, ssn: PortSet)
        ensures { self.new ≡ changed (with_flags srm ssn) self.old id.now }
    {
        match place_of(&self.held, id) {
            Ok(place) => {
                self.calm = None;
                item::set_flags(&mut self.held[place], srm, ssn)
            }
            Err(_) => {}
        }
    }

    /// Makes the LSP under an id dead at this number, to be sent at these ports and acknowledged at none. The id is
    /// held, and not as absent. Takes no memory.
    pub fn purge(&mut self, id: &LspId, seq: u32, srm: PortSet)
        requires { is_absent (version_at self.old id.now) ≡ false }
        ensures { self.new ≡ changed (purged seq srm) self.old id.now }
    {
        match place_of(&self.held, id) {
            Ok(place) => {
                self.calm = None;
                item::purge(&mut self.held[place], seq, srm)
            }
            Err(_) => {}
        }
    }

    /// Puts a port, 1 to 32, into the ports at which the LSP under an id is to be sent, or takes it out of them.
    /// Nothing happens where the id isn't held.
    pub fn set_srm(&mut self, id: &LspId, port: u8, on: bool)
        requires low { 1 ≤ port }
        requires high { port ≤ MOST_PORTS }
        ensures { self.new ≡ changed (with_srm port on) self.old id.now }
    {
        match place_of(&self.held, id) {
            Ok(place) => {
                self.calm = None;
                item::set_srm(&mut self.held[place], port, on)
            }
            Err(_) => {}
        }
    }

    /// Puts a port, 1 to 32, into the ports at which the LSP under an id is to be acknowledged, or takes it out of
    /// them. Nothing happens where the id isn't held.
    pub fn set_ssn(&mut self, id: &LspId, port: u8, on: bool)
        requires low { 1 ≤ port }
        requires high { port ≤ MOST_PORTS }
        ensures { self.new ≡ changed (with_ssn port on) self.old id.now }
    {
        match place_of(&self.held, id) {
            Ok(place) => {
                self.calm = None;
                item::set_ssn(&mut self.held[place], port, on)
            }
            Err(_) => {}
        }
    }

    /// Puts a port, 1 to 32, into the ports at which the LSP at a place is to be sent, or takes it out of them. Nothing
    /// happens where the place is past the last.
    pub fn set_srm_at(&mut self, place: usize, port: u8, on: bool)
        requires low { 1 ≤ port }
        requires high { port ≤ MOST_PORTS }
        ensures { self.new ≡ changed_at_place (with_srm port on) self.old place }
    {
        if place < self.held.len() {
            self.calm = None;
            item::set_srm(&mut self.held[place], port, on);
        }
    }

    /// Puts a port, 1 to 32, into the ports at which the LSP at a place is to be acknowledged, or takes it out of them.
    /// Nothing happens where the place is past the last.
    pub fn set_ssn_at(&mut self, place: usize, port: u8, on: bool)
        requires low { 1 ≤ port }
        requires high { port ≤ MOST_PORTS }
        ensures { self.new ≡ changed_at_place (with_ssn port on) self.old place }
    {
        if place < self.held.len() {
            self.calm = None;
            item::set_ssn(&mut self.held[place], port, on);
        }
    }

    /// Puts a port, 1 to 32, into the ports at which the LSP at a place is to be sent, or takes it out of them, and the
    /// same for those at which it is to be acknowledged. Nothing happens where the place is past the last.
    pub fn set_flags_at(&mut self, place: usize, port: u8, srm: bool, ssn: bool)
        requires low { 1 ≤ port }
        requires high { port ≤ MOST_PORTS }
        ensures { self.new ≡ changed_at_place (with_flags_at port srm ssn) self.old place }
    {
        if place < self.held.len() {
            self.calm = None;
            item::set_flags_at(&mut self.held[place], port, srm, ssn);
        }
    }

    /// Takes a port, 1 to 32, out of the flags of every LSP.
    pub fn clear_port(&mut self, port: u8)
        requires low { 1 ≤ port }
        requires high { port ≤ MOST_PORTS }
        ensures { self.new ≡ each (λ id e. flags_cleared_at port e) self.old }
    {
        self.calm = None;
        clear_all_flags(&mut self.held, port);
    }

    /// A second passes: each live lifetime falls by one. At 0 the LSP is dead at its number, with lifetime 0 and the
    /// body 01, and is to be sent at every Up port; where it is to be acknowledged stays. That a dead LSP is kept as
    /// long as the bridge runs, and not for a minute alone (ISO/IEC 10589, 7.3.16.4), is *profile*. Tells, as
    /// `has_flags`, whether any flag stands afterwards, in the same walk; where it is known that none stands and that no
    /// LSP dies, the walk does nothing but let the lifetimes fall. Takes no memory.
    pub fn age_one(&mut self, up: PortSet) -> bool
        ensures aged { self.new ≡ each (λ id e. aged up e) self.old }
        ensures flags { result ≡ any_flags self.new }
    {
        if self.pass_calm_second() {
            return false;
        }
        let flags = age_all(&mut self.held, up);
        self.calm = calm_in(&self.held, flags);
        flags
    }

    /// A second passes, if it is known to be one in which nothing but lifetimes changes. Tells whether it is, and else
    /// changes nothing.
    fn pass_calm_second(&mut self) -> bool
        ensures aged { result ≡ true → (up : PortSet) → self.new ≡ each (λ id e. aged up e) self.old }
        ensures flags { result ≡ true → any_flags self.new ≡ false }
        ensures kept { result ≡ false → self.new ≡ self.old }
    {
        let Some(seconds) = self.calm else {
            return false;
        };
        if seconds == 0 {
            return false;
        }
        lower_all(&mut self.held, 1);
        self.calm = Some(seconds - 1);
        true
    }

    /// For how many seconds nothing but lifetimes changes by age, with no flags, as far as that is known: 0 where it
    /// isn't.
    pub fn calm_seconds(&self) -> u16
        ensures flags { 1 ≤ result → any_flags self.now ≡ false }
        ensures left { 1 ≤ result → HaveLeft result self.now }
    {
        match self.calm {
            Some(seconds) => seconds,
            None => 0,
        }
    }

    /// So many seconds pass, in which no live LSP dies: each lifetime falls by as many. Takes no memory.
    pub fn pass_calm(&mut self, seconds: u16)
        requires { HaveLeft seconds self.old }
        ensures { self.new ≡ each (λ id e. lowered_by seconds e) self.old }
    {
        self.calm = calm_after(self.calm, seconds);
        lower_all(&mut self.held, seconds);
    }

    /// The places at which flags stand, counted from 0 in order of id.
    pub fn flagged_places(&self, alloc: Global) -> Result<Vec<usize>, NoMemory>
        ensures { IfOk result (λ places. places.items ≡ flagged_places self.now) }
    {
        flagged_places(alloc, &self.held)
    }

    /// The ports at which some LSP is to be sent.
    pub fn srm_ports(&self) -> PortSet
        ensures { (p : ℕ) → has result p ≡ is_srm_at p self.now }
    {
        srm_ports(&self.held)
    }

    /// The ports at which some LSP is to be acknowledged or asked for.
    pub fn ssn_ports(&self) -> PortSet
        ensures { (p : ℕ) → has result p ≡ is_ssn_at p self.now }
    {
        ssn_ports(&self.held)
    }

    /// Whether any LSP is to be sent, or to be acknowledged or asked for, at some port.
    pub fn has_flags(&self) -> bool
        ensures { result ≡ any_flags self.now }
    {
        self.held.iter().any(|h| item::has_flags(h))
    }
}
