//! Own LSPs, brought up to date, and for how long they stay so.
ghost use Rattle.std.specs.Prelude.{ℕ, ◌≡◌, ◌≤◌, ◌<◌, ◌&&◌, not, true, false, length, is_some, if◌then◌else◌, OnOk, IfOk};
ghost use Rattle.std.specs.Option.{option_map, option_copied};
ghost use Rattle.std.specs.FinMap.{get};
ghost use Rattle.lsdb.specs.Entry.{entry_of};
ghost use Rattle.lsdb.specs.Database.{version_in, StandsAt};
ghost use Rattle.lsdb.specs.Time.{is_live};
ghost use Rattle.flooding.specs.Own.{own_numbers, own_number, body_of_number, HaveBytes, HasFirstNumbers};
ghost use Rattle.flooding.specs.Hearing.{HasFewOthers};
ghost use Rattle.flooding.specs.Placing.{holding};
ghost use Rattle.flooding.specs.Settling as settling;
ghost use Rattle.flooding.specs.HeldNumbers.{NoneAbove};

use crate::Own;
use crate::origination::bring_up;
use crate::own::OWN_NUMBERS;
use lsdb::{Database, Held, Version};
use spb_types::{LspId, NoMemory, PortSet, Seq};
use std::alloc::Global;

/// The remaining lifetime in seconds at which an own LSP is originated anew (ISO/IEC 10589, 7.3.7).
const REFRESH_AT: u16 = 300;

/// Originates each number whose LSP that is held isn't live with the body that the system has for it, and purges each
/// live one that it has none for.
///
/// At most 4,080 ids are held that aren't own numbers; each body has at least one byte. The one error is `NoMemory`.
pub fn settle(alloc: Global, db: &mut Database, up: PortSet, own: &mut Own) -> Result<(), NoMemory>
    requires few { HasFewOthers (holding db.old own.old) }
    requires bodies { HaveBytes own.old }
    ensures { OnOk result (holding db.new own.new ≡ settling.settled up (holding db.old own.old)) }
{
    bring_all_up(alloc, db, up, own, false)?;
    Ok(())
}

/// Does as [`settle`], originates also each LSP with a body that has 300 seconds or less left, and tells whether
/// anything was brought up to date. Where no body was renewed since the LSPs said it, `renewed` is false: then only the
/// lifetimes are looked at.
///
/// At most 4,080 ids are held that aren't own numbers; each body has at least one byte, and the numbers without one come
/// last. The one error is `NoMemory`.
pub fn keep_fresh(
    alloc: Global,
    db: &mut Database,
    up: PortSet,
    own: &mut Own,
    renewed: bool,
) -> Result<bool, NoMemory>
    requires few { HasFewOthers (holding db.old own.old) }
    requires bodies { HaveBytes own.old }
    requires first { HasFirstNumbers own.old }
    requires said { renewed ≡ false → own.old.spent ≡ false → (number : ℕ) → number < own_numbers
        → settling.is_said (holding db.old own.old) number ≡ true }
    ensures after { OnOk result (holding db.new own.new ≡ settling.kept_fresh up (holding db.old own.old)) }
    ensures idle { IfOk result (λ originated. originated ≡ false → holding db.new own.new ≡ holding db.old own.old) }
{
    if !renewed && (own.spent || !has_old(db, own)) {
        return Ok(false);
    }
    bring_all_up(alloc, db, up, own, true)
}

/// Brings each number up to what the system says that doesn't stand, by what its LSP says or, where `by_age`, also by
/// its lifetime; and tells whether there was one. A number that is neither held nor has a body stands, and isn't looked
/// up.
#[tactic(auto, unfolding(crate::specs::Settling::settled_by))]
fn bring_all_up(
    alloc: Global,
    db: &mut Database,
    up: PortSet,
    own: &mut Own,
    by_age: bool,
) -> Result<bool, NoMemory>
    requires few { HasFewOthers (holding db.old own.old) }
    requires bodies { HaveBytes own.old }
    ensures after { OnOk result (holding db.new own.new
        ≡ settling.settled_by (if by_age then settling.is_new else settling.says) up (holding db.old own.old)) }
    ensures idle { IfOk result (λ brought. brought ≡ false → holding db.new own.new ≡ holding db.old own.old) }
{
    let mut brought = false;
    if own.spent {
        return Ok(false);
    }
    let first = db.look_up(&own.id(0)).place;
    let last = last_held(db, own, first);
    for number in 0..OWN_NUMBERS {
        if number > last && own.body(number).is_none() {
            continue;
        }
        if !stands(db, own, first.unwrap_or(0), number, by_age) {
            bring_up(alloc, db, up, own, number)?;
            brought = true;
        }
    }
    Ok(brought)
}

/// A number above which none is held. `first` is the place of number 0, if it is held: then the others that are held
/// stand behind it, and the greatest of them is the answer.
fn last_held(db: &Database, own: &Own, first: Option<usize>) -> u8
    requires { StandsAt db.now (own_number own.now.system 0) first }
    ensures { NoneAbove result (holding db.now own.now) }
{
    let Some(first) = first else {
        return OWN_NUMBERS;
    };
    let len = db.len();
    let mut last = 0;
    for place in first + 1..len {
        let Some(held) = db.at(place) else {
            return last;
        };
        if !own.has_number(&held.id) {
            return last;
        }
        last = held.id.number;
    }
    last
}

/// Whether the own LSP of a number stands, by what it says or, where `by_age`, also by its lifetime. It is looked for so
/// many places behind `first` before any other.
fn stands(db: &Database, own: &Own, first: usize, number: u8, by_age: bool) -> bool
    ensures { result ≡ settling.stands (if by_age then settling.is_new else settling.says) (holding db.now own.now) number }
{
    let body = own.body(number);
    let held = held_near(
        db,
        first.saturating_add(usize::from(number)),
        &own.id(number),
    );
    says(body, held) && !(by_age && body.is_some() && is_old(held))
}

/// The LSP under an id, which is looked for at the place `near` before any other.
fn held_near<'a>(db: &'a Database, near: usize, id: &LspId) -> Option<&'a Held>
    ensures { option_map entry_of (option_copied result) ≡ get db.now id.now }
{
    match db.look_up_near(near, id).place {
        Some(place) => db.at(place),
        None => None,
    }
}

/// Whether what is held is live with this body; where there is none, whether it isn't live.
fn says(body: Option<&Seq<u8>>, held: Option<&Held>) -> bool
    ensures { result ≡ settling.says (option_copied body.entry) (option_map entry_of (option_copied held.entry)) }
{
    match body {
        None => !is_live(held),
        Some(body) => match held {
            None => false,
            Some(held) => {
                matches!(held.version, Version::Live { .. })
                    && held.body.as_slice() == body.as_slice()
            }
        },
    }
}

/// Whether an LSP is held that is live.
fn is_live(held: Option<&Held>) -> bool
    ensures { result ≡ is_live (version_in (option_map entry_of (option_copied held.entry))) }
{
    match held {
        None => false,
        Some(held) => matches!(held.version, Version::Live { .. }),
    }
}

/// Whether an own LSP with a body has to be originated anew by its lifetime. No number is looked at behind the first
/// without a body.
fn has_old(db: &Database, own: &Own) -> bool
    requires { HasFirstNumbers own.now }
    ensures { result ≡ false → (number : ℕ) → number < own_numbers
        → (is_some (body_of_number own.now number) && settling.is_old (settling.own_held (holding db.now own.now) number)) ≡ false }
{
    for next in 0..OWN_NUMBERS {
        if own.body(next).is_none() {
            return false;
        }
        if is_old(db.find(&own.id(next))) {
            return true;
        }
    }
    false
}

/// For how many seconds no own LSP is to be originated anew for its age: 0 where one has 301 or less left, and where
/// the system is spent. No number is looked at behind the first without a body.
///
/// Each own LSP is current, and the numbers without a body come last.
pub fn fresh_seconds(db: &Database, own: &Own) -> u16
    requires first { HasFirstNumbers own.now }
    requires current { settling.AreCurrent (holding db.now own.now) }
    ensures { 1 ≤ result → settling.AreFreshFor result (holding db.now own.now) }
{
    if own.spent {
        return 0;
    }
    let mut seconds = u16::MAX;
    for fragment in 0..OWN_NUMBERS {
        if own.body(fragment).is_none() {
            return seconds;
        }
        seconds = least_fresh(db.find(&own.id(fragment)), seconds);
    }
    seconds
}

/// The greatest number of seconds up to `most` in which what is held isn't to be originated anew for its age, or 0.
fn least_fresh(held: Option<&Held>, most: u16) -> u16
    ensures most { result ≤ most }
    ensures fresh { 1 ≤ result → settling.IsFreshFor result (option_map entry_of (option_copied held.entry)) }
{
    match held {
        Some(held) => held.lifetime.saturating_sub(REFRESH_AT + 1).min(most),
        None => most,
    }
}

/// Whether what is held has to be originated anew by its lifetime.
fn is_old(held: Option<&Held>) -> bool
    ensures { result ≡ settling.is_old (option_map entry_of (option_copied held.entry)) }
{
    match held {
        Some(held) => held.lifetime <= REFRESH_AT,
        None => false,
    }
}
