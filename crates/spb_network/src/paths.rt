//! The path between two bridges, by the LSPs that the first holds. Many paths are asked of one bridge in a row, so it
//! keeps what they are read from until another question is asked.
ghost use Rattle.std.specs.Prelude.{◌≡◌, slice_get, IfOk};
ghost use Rattle.std.specs.Option.{option_and_then};
ghost use Rattle.bridge_api.specs.Graph.{own_path};
ghost use Rattle.network_model.specs.Paths as paths;
ghost use Rattle.spb_network.specs.Network.{state_of, IsInOrder};
ghost use Rattle.spb_network.specs.Applying.{IsSoundNetwork};

use crate::{Answer, NetworkOf, boxes};
use bridge_api::Bridge;
use spb_types::{Name, NoMemory, Path, Seq, SystemId, Vid};

impl<B: Bridge> NetworkOf<B> {
    /// Lets the bridge rest of which paths were asked last.
    pub(crate) fn rest_asked(&mut self)
        requires { IsSoundNetwork B.shown self.old }
        ensures state { state_of B.shown self.new ≡ state_of B.shown self.old }
        ensures sound { IsSoundNetwork B.shown self.new }
        ensures halted { self.new.halted ≡ self.old.halted }
    {
        if let Some(place) = self.asked.take() {
            boxes::rest(&mut self.boxes, place);
        }
    }

    /// Makes the bridge at a place ready for paths in a base VID. Another that was ready for some rests.
    fn prepare_paths_at(&mut self, place: usize, vid: Vid) -> Result<(), NoMemory>
        requires { IsSoundNetwork B.shown self.old }
        ensures state { state_of B.shown self.new ≡ state_of B.shown self.old }
        ensures sound { IsSoundNetwork B.shown self.new }
        ensures halted { self.new.halted ≡ self.old.halted }
    {
        if self.asked != Some(place) {
            self.rest_asked();
            self.asked = Some(place);
        }
        boxes::prepare_paths(&mut self.boxes, place, vid)
    }

    /// Makes a bridge ready for paths in a base VID, if both are declared.
    pub(crate) fn prepare_paths(&mut self, from: Name, vid: u64) -> Result<(), NoMemory>
        requires { IsSoundNetwork B.shown self.old }
        ensures state { state_of B.shown self.new ≡ state_of B.shown self.old }
        ensures sound { IsSoundNetwork B.shown self.new }
        ensures halted { self.new.halted ≡ self.old.halted }
    {
        let Some(place) = self.world.bridge_place(from) else {
            return Ok(());
        };
        match self.world.declared_vid(vid) {
            None => Ok(()),
            Some(vid) => self.prepare_paths_at(place, vid),
        }
    }

    /// The answer of the bridge at a place about its path to another in a base VID; `Silent` where one isn't declared.
    pub(crate) fn path(
        &self,
        from: Name,
        to: Name,
        vid: u64,
        place: usize,
    ) -> Result<Answer, NoMemory>
        requires { IsInOrder B.shown self.now }
        ensures { IfOk result (λ answer.
            answer ≡ paths.path_from (state_of B.shown self.now) place from to vid) }
    {
        let Some(end) = self.world.bridge_place(to) else {
            return Ok(Answer::Silent);
        };
        let Some(vid) = self.world.declared_vid(vid) else {
            return Ok(Answer::Silent);
        };
        let path = self.path_between(place, self.world.system(end), vid)?;
        self.path_answer(from, to, vid, path)
    }

    /// The best path from the bridge at a place to a system, by the LSPs that the bridge holds. None exactly where
    /// there is none.
    fn path_between(&self, place: usize, to: SystemId, vid: Vid) -> Result<Option<Path>, NoMemory>
        requires { IsInOrder B.shown self.now }
        ensures { IfOk result (λ path. path
            ≡ option_and_then (λ v. own_path v to vid) (slice_get (state_of B.shown self.now).views place)) }
    {
        match self.boxes.get(place) {
            None => Ok(None),
            Some(bridge) => bridge.path(to, vid),
        }
    }

    /// What is answered of a path.
    fn path_answer(
        &self,
        from: Name,
        to: Name,
        vid: Vid,
        path: Option<Path>,
    ) -> Result<Answer, NoMemory>
        ensures { IfOk result (λ answer.
            answer ≡ paths.path_answer self.now.world.bridges from to vid path) }
    {
        match path {
            None => Ok(Answer::Path {
                from,
                to,
                vid,
                cost: 0,
                names: Seq::new(self.alloc),
            }),
            Some(path) => {
                let names = self.world.names_on(self.alloc, path.bridges.as_slice())?;
                Ok(Answer::Path {
                    from,
                    to,
                    vid,
                    cost: path.cost,
                    names: Seq::from_vec(names),
                })
            }
        }
    }
}
