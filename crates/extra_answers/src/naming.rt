//! Names of declared bridges and numbers of declared base VIDs.
ghost use Rattle.std.specs.Prelude.{◌≡◌, ◌==◌, IfSome};
ghost use Rattle.std.specs.Option.{option_copied};
ghost use Rattle.spb_tlvs.specs.Capability.{IsTree};
ghost use Rattle.spb_world.specs.World.{Sound};
ghost use Rattle.spb_world.specs.Systems.{name_of_system};
ghost use Rattle.extra_answers.specs.Answers as answers;
ghost use Rattle.extra_answers.specs.Entries as entries;

use spb_types::{Name, SystemId, VidPlan};
use spb_world::World;

/// Whether a plan is that of the base VID of a number.
fn is_of(plan: &VidPlan, vid: u64) -> bool
    ensures { result ≡ (plan.now.vid.value == vid) }
{
    u64::from(plan.vid.value) == vid
}

/// The plan of the base VID of a number. None exactly where there is none.
fn plan_of(vids: &[VidPlan], vid: u64) -> Option<&VidPlan>
    ensures { option_copied result ≡ answers.planned_for vids.now vid }
{
    vids.iter().find(|plan| is_of(plan, vid))
}

/// What is planned for the base VID of a number. None exactly where it isn't declared.
pub fn planned_for(world: &World, vid: u64) -> Option<VidPlan>
    requires { Sound world.now }
    ensures plan { result ≡ answers.planned_for world.now.vids vid }
    ensures tree { IfSome result IsTree }
{
    match plan_of(world.vids(), vid) {
        None => None,
        Some(plan) => Some(*plan),
    }
}

/// The system id of the bridge of a name, or zeros where it isn't declared.
pub fn system_named(world: &World, name: Name) -> SystemId
    ensures { result ≡ entries.system_named world.now.bridges name }
{
    world.system(world.bridge_place(name).unwrap_or(world.bridge_count()))
}

/// The name of the bridge of a system id. None exactly where there is none.
pub fn name_of(world: &World, system: SystemId) -> Option<Name>
    ensures { result ≡ name_of_system world.now.bridges system }
{
    match world.place_of_system(system) {
        None => None,
        Some(place) => world.bridge_name(place),
    }
}
