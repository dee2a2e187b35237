//! Base VIDs by number, and bridges by their system ids.
ghost use Rattle.std.specs.Prelude.{◌≡◌, ◌==◌, find, IfOk};
ghost use Rattle.std.specs.Option.{option_copied};
ghost use Rattle.spb_world.specs.World as state;
ghost use Rattle.spb_world.specs.Systems as systems;

use crate::{World, check};
use spb_types::{Name, NoMemory, SystemId, Vid, VidPlan};
use std::alloc::Global;

/// What is planned for the base VID of a number. None exactly where it isn't declared.
fn planned_for(vids: &[VidPlan], vid: u64) -> Option<&VidPlan>
    ensures { option_copied result ≡ find (λ plan. plan.vid.value == vid) vids.now }
{
    vids.iter().find(|plan| check::is_vid(plan, vid))
}

impl World {
    /// The base VID of a number. None exactly where it isn't declared.
    pub fn declared_vid(&self, vid: u64) -> Option<Vid>
        ensures { result ≡ state.declared_vid self.now.vids vid }
    {
        match planned_for(self.vids(), vid) {
            None => None,
            Some(plan) => Some(plan.vid),
        }
    }

    /// The name of the bridge of a system id. None exactly where there is none.
    fn name_of_system(&self, system: SystemId) -> Option<Name>
        ensures { result ≡ systems.name_of_system self.now.bridges system }
    {
        match self.place_of_system(system) {
            None => None,
            Some(place) => self.bridge_name(place),
        }
    }

    /// The names of the bridges on a path, in order.
    pub fn names_on(&self, alloc: Global, path: &[SystemId]) -> Result<Vec<Name>, NoMemory>
        ensures { IfOk result (λ names. names.items ≡ systems.names_on self.now.bridges path.now) }
    {
        let names = path
            .iter()
            .filter_map(|system| self.name_of_system(*system))
            .collect(alloc)?;
        Ok(names)
    }
}
