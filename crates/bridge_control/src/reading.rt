//! The graph that a bridge reads from the LSPs that it holds, and its tables and paths in that graph.
ghost use Rattle.std.specs.Prelude.{◌≡◌, ◌≤◌, ◌++◌, [], true, false, length, Some, None, IfOk, IfSome, OnOk};
ghost use Rattle.std.specs.Option.{option_map, option_to_list, option_copied, unwrap_or};
ghost use Rattle.std.specs.FinMap.{get};
ghost use Rattle.spb_types.specs.declared.limits.TheConstants.{MOST_LSPS};
ghost use Rattle.spb_types.specs.Graph.{IsValidFor};
ghost use Rattle.spb_types.specs.Ect.{mask_of};
ghost use Rattle.ect_trees.specs.Tree.{best_path};
ghost use Rattle.flooding.specs.Own as own;
ghost use Rattle.lsdb.specs.Database.{keyed};
ghost use Rattle.lsdb.specs.Entry.{entry_of};
ghost use Rattle.bridge_api.specs.Graph as read;
ghost use Rattle.bridge_api.specs.Tables as tables;
ghost use Rattle.bridge_api.specs.Graph.{own_tables, own_path};
ghost use Rattle.bridge_api.specs.Laws.{IsSoundView};
ghost use Rattle.bridge_control.specs.Kept.{IsOwnReading, IsOwnIfKept};
ghost use Rattle.bridge_control.specs.Machine.{view_of};
ghost use Rattle.bridge_control.specs.Reading as reading;

use crate::machine::Machine;
use crate::shared::{SharedReading, keep_in, take_from};
use crate::shared_reading::Reading;
use flooding::OWN_NUMBERS;
use lsdb::{Database, Held, Version};
use spb_content::{Content, read_content, said_graph_of};
use spb_types::limits::GREATEST_ECT;
use spb_types::{Graph, LspId, NoMemory, Path, SystemId, Tables, Vid, VidPlan};
use std::alloc::Global;

/// The TLVs of a body, which follow its flags octet (ISO/IEC 10589, 9.8).
fn tlvs_of(body: &[u8]) -> &[u8]
    ensures { result.now ≡ own.tlvs_of_body body.now }
{
    match body {
        [_, tlvs @ ..] => tlvs,
        [] => [].as_slice(),
    }
}

/// Whether a system originates an LSP under this id: its pseudonode is 0, and its number one of those that systems use.
#[tactic(auto, unfolding(flooding::specs::Own::own_numbers))]
fn is_numbered(id: &LspId) -> bool
    ensures { result ≡ tables.is_numbered id.now }
{
    id.pseudonode == 0 && id.number < OWN_NUMBERS
}

/// Whether an LSP that is held is live, and a system originates it. Nothing else is read.
pub(crate) fn is_read(held: &Held) -> bool
    ensures read { result ≡ true → tables.live_lsp (keyed held.now) ≡ Some (held.now.id, held.now.body) }
    ensures other { result ≡ false → tables.live_lsp (keyed held.now) ≡ None }
{
    is_numbered(&held.id) && matches!(held.version, Version::Live { .. })
}

/// Whether an LSP of a number above 0 is read.
fn has_more(db: &Database) -> bool
    ensures { result ≡ false → reading.AreFirst (tables.live_lsps db.now) }
{
    for place in 0..db.len() {
        let Some(held) = db.at(place) else {
            return true;
        };
        if held.id.number != 0 && is_read(held) {
            return true;
        }
    }
    false
}

/// The LSP under an id, which is looked for at the place `near` before any other.
fn held_near<'a>(db: &'a Database, near: usize, id: &LspId) -> Option<&'a Held>
    ensures { option_map entry_of (option_copied result) ≡ get db.now id.now }
{
    match db.look_up_near(near, id).place {
        Some(place) => db.at(place),
        None => None,
    }
}

/// Puts the TLVs of an LSP that is held behind others, if it is live.
fn put_live(tlvs: &mut Vec<u8>, held: Option<&Held>) -> Result<(), NoMemory>
    ensures { OnOk result (tlvs.new.items ≡ tlvs.old.items
        ++ own.tlvs_of_body (unwrap_or (tables.body_if_live (option_map entry_of (option_copied held.entry))) [])) }
{
    if let Some(held) = held
        && matches!(held.version, Version::Live { .. })
    {
        tlvs.extend_from_slice(tlvs_of(held.body.as_slice()))?;
    }
    Ok(())
}

/// Puts the TLVs of the LSP under an id behind others, if it is read. It is looked for at the place `near` before any
/// other.
fn put_tlvs(tlvs: &mut Vec<u8>, db: &Database, near: usize, id: &LspId) -> Result<(), NoMemory>
    requires { tables.is_numbered id.now ≡ true }
    ensures { OnOk result (tlvs.new.items ≡ tlvs.old.items ++ tables.tlvs_under (tables.live_lsps db.now) id.now) }
{
    put_live(tlvs, held_near(db, near, id))
}

/// What the LSPs of a system that are read say, put together. That of number 0 stands at this place, and the others
/// most likely behind it.
fn said_together(
    alloc: Global,
    db: &Database,
    place: usize,
    system: SystemId,
) -> Result<Content, NoMemory>
    requires { place ≤ MOST_LSPS }
    ensures { IfOk result (λ content. content ≡ tables.said_among (tables.live_lsps db.now) system) }
{
    let mut tlvs = Vec::new(alloc);
    for number in 0..OWN_NUMBERS {
        let id = LspId {
            system,
            pseudonode: 0,
            number,
        };
        put_tlvs(&mut tlvs, db, place + usize::from(number), &id)?;
    }
    read_content(alloc, tlvs.as_slice())
}

/// What the system of an LSP of number 0 says, which is read and stands at this place. Where no LSP of another number is
/// read, it is read where it stands.
fn said_at(
    alloc: Global,
    db: &Database,
    place: usize,
    held: &Held,
    more: bool,
) -> Result<Content, NoMemory>
    requires place { place ≤ MOST_LSPS }
    requires held { get db.now held.now.id ≡ Some (entry_of held.now) }
    requires first { held.now.id.number ≡ 0 }
    requires read { tables.live_lsp (keyed held.now) ≡ Some (held.now.id, held.now.body) }
    requires more { more ≡ false → reading.AreFirst (tables.live_lsps db.now) }
    ensures { IfOk result (λ content. content ≡ tables.said_among (tables.live_lsps db.now) held.now.id.system) }
{
    if more {
        return said_together(alloc, db, place, held.id.system);
    }
    read_content(alloc, tlvs_of(held.body.as_slice()))
}

/// What is read at an LSP that is held, which stands at this place: if it is one of number 0, all that its system says.
fn read_held(
    alloc: Global,
    db: &Database,
    place: usize,
    held: &Held,
    more: bool,
) -> Result<Option<(SystemId, Content)>, NoMemory>
    requires place { place ≤ MOST_LSPS }
    requires held { get db.now held.now.id ≡ Some (entry_of held.now) }
    requires more { more ≡ false → reading.AreFirst (tables.live_lsps db.now) }
    ensures { IfOk result (λ said. said ≡ reading.read_entry (tables.live_lsps db.now) (keyed held.now)) }
{
    if !is_read(held) {
        return Ok(None);
    }
    if held.id.number != 0 {
        return Ok(None);
    }
    let content = said_at(alloc, db, place, held, more)?;
    Ok(Some((held.id.system, content)))
}

/// Puts what is read at an LSP that is held, which stands at this place, behind the others.
fn push_read(
    alloc: Global,
    list: &mut Vec<(SystemId, Content)>,
    db: &Database,
    place: usize,
    held: &Held,
    more: bool,
) -> Result<(), NoMemory>
    requires place { place ≤ MOST_LSPS }
    requires held { get db.now held.now.id ≡ Some (entry_of held.now) }
    requires more { more ≡ false → reading.AreFirst (tables.live_lsps db.now) }
    ensures { OnOk result (list.new.items
        ≡ list.old.items ++ option_to_list (reading.read_entry (tables.live_lsps db.now) (keyed held.now))) }
{
    if let Some(said) = read_held(alloc, db, place, held, more)? {
        list.push(said)?;
    }
    Ok(())
}

/// What a bridge reads of all systems from the LSPs that it holds, in order of their ids. Where any LSP of a
/// number above 0 is read, those of each system are put behind one another and read once (ISO/IEC 10589, 7.3.7).
pub(crate) fn contents(alloc: Global, db: &Database) -> Result<Vec<(SystemId, Content)>, NoMemory>
    ensures read { IfOk result (λ list. list.items ≡ tables.contents_among (tables.live_lsps db.now)) }
    ensures few { IfOk result (λ list. length list.items ≤ MOST_LSPS) }
{
    let more = has_more(db);
    let mut list = Vec::new(alloc);
    for place in 0..db.len() {
        if let Some(held) = db.at(place) {
            push_read(alloc, &mut list, db, place, held, more)?;
        }
    }
    Ok(list)
}

impl Machine {
    /// The graph of all that the bridge reads.
    pub(crate) fn graph(&self) -> Result<Graph, NoMemory>
        requires { IsSoundView (view_of self.now) }
        ensures graph { IfOk result (λ g. g ≡ read.read_graph (view_of self.now)) }
        ensures valid { IfOk result (λ g. IsValidFor g self.now.id.system) }
    {
        let list = contents(self.alloc, &self.db)?;
        said_graph_of(self.alloc, list.as_slice())
    }

    /// The tables of the bridge in that graph. Where bridges share what they read, that is taken over if it is the same.
    pub(crate) fn tables(&self, shared: Option<&SharedReading>) -> Result<Tables, NoMemory>
        requires { IsSoundView (view_of self.now) }
        ensures { IfOk result (λ t. t ≡ own_tables (view_of self.now)) }
    {
        let mut reading = self.reading(take_from(shared))?;
        let tables = reading.tables(self.alloc, self.id.system);
        keep_in(shared, reading, self.id.system);
        tables
    }

    /// What is planned for a VID. None exactly where the VID isn't configured.
    fn plan(&self, vid: Vid) -> Option<&VidPlan>
        ensures { option_copied result ≡ read.planned_for self.now.vids vid }
    {
        self.vids.iter().find(|plan| plan.vid == vid)
    }

    /// What the bridge reads: what it keeps of that, or, where it keeps nothing, what bridges share, if it is the same,
    /// or what it reads anew.
    fn reading_or(
        &self,
        kept: Option<Reading>,
        shared: Option<&SharedReading>,
    ) -> Result<Reading, NoMemory>
        requires sound { IsSoundView (view_of self.now) }
        requires own { IsOwnIfKept (view_of self.now) kept }
        ensures { IfOk result (IsOwnReading (view_of self.now)) }
    {
        match kept {
            Some(reading) => Ok(reading),
            None => self.reading(take_from(shared)),
        }
    }

    /// Keeps what the bridge reads, with the best paths from it by an ECT algorithm.
    fn prepare_by(
        &self,
        kept: &mut Option<Reading>,
        shared: Option<&SharedReading>,
        ect: u8,
    ) -> Result<(), NoMemory>
        requires sound { IsSoundView (view_of self.now) }
        requires own { IsOwnIfKept (view_of self.now) kept.old }
        requires low { 1 ≤ ect }
        requires high { ect ≤ GREATEST_ECT }
        ensures { IsOwnIfKept (view_of self.now) kept.new }
    {
        let mut reading = self.reading_or(kept.take(), shared)?;
        let ended = reading.prepare(self.alloc, self.id.system, ect);
        *kept = Some(reading);
        ended
    }

    /// Keeps what paths in a VID are read from. Where the VID isn't configured, nothing is read.
    pub(crate) fn prepare_paths(
        &self,
        kept: &mut Option<Reading>,
        shared: Option<&SharedReading>,
        vid: Vid,
    ) -> Result<(), NoMemory>
        requires sound { IsSoundView (view_of self.now) }
        requires own { IsOwnIfKept (view_of self.now) kept.old }
        ensures { IsOwnIfKept (view_of self.now) kept.new }
    {
        match self.plan(vid) {
            None => Ok(()),
            Some(plan) => self.prepare_by(kept, shared, plan.ect),
        }
    }

    /// The best path of the bridge to a system by an ECT algorithm, in what bridges share, if it reads the same, and else
    /// in what it reads anew.
    fn shared_path(
        &self,
        shared: Option<&SharedReading>,
        to: SystemId,
        ect: u8,
    ) -> Result<Option<Path>, NoMemory>
        requires sound { IsSoundView (view_of self.now) }
        requires low { 1 ≤ ect }
        requires high { ect ≤ GREATEST_ECT }
        ensures { IfOk result (λ path.
            path ≡ best_path (read.read_graph (view_of self.now)) (mask_of ect) self.now.id.system to) }
    {
        let reading = self.reading(take_from(shared))?;
        let path = reading.path(self.alloc, self.id.system, to, ect);
        keep_in(shared, reading, self.id.system);
        path
    }

    /// The best path of the bridge to a system by an ECT algorithm, in that graph. None exactly where there is none.
    fn path_by(
        &self,
        kept: Option<&Reading>,
        shared: Option<&SharedReading>,
        to: SystemId,
        ect: u8,
    ) -> Result<Option<Path>, NoMemory>
        requires sound { IsSoundView (view_of self.now) }
        requires own { IfSome kept (λ r. IsOwnReading (view_of self.now) r.now) }
        requires low { 1 ≤ ect }
        requires high { ect ≤ GREATEST_ECT }
        ensures { IfOk result (λ path.
            path ≡ best_path (read.read_graph (view_of self.now)) (mask_of ect) self.now.id.system to) }
    {
        match kept {
            None => self.shared_path(shared, to, ect),
            Some(reading) => reading.path(self.alloc, self.id.system, to, ect),
        }
    }

    /// The best path of the bridge to a system in a VID, in that graph. None exactly where there is none, or where the
    /// VID isn't configured; then nothing is read.
    pub(crate) fn path(
        &self,
        kept: Option<&Reading>,
        shared: Option<&SharedReading>,
        to: SystemId,
        vid: Vid,
    ) -> Result<Option<Path>, NoMemory>
        requires sound { IsSoundView (view_of self.now) }
        requires own { IfSome kept (λ r. IsOwnReading (view_of self.now) r.now) }
        ensures { IfOk result (λ path. path ≡ own_path (view_of self.now) to vid) }
    {
        match self.plan(vid) {
            None => Ok(None),
            Some(plan) => self.path_by(kept, shared, to, plan.ect),
        }
    }
}
