//! The roads of the actual wiring.
ghost use Rattle.std.specs.Prelude.{◌≡◌, IfOk};
ghost use Rattle.spb_world.specs.World.{Sound, world_graph};

use ect_trees::Roads;
use spb_types::NoMemory;
use spb_world::World;
use std::alloc::Global;

/// The roads of the actual wiring, made anew.
pub fn roads_of(alloc: Global, world: &World) -> Result<Roads, NoMemory>
    requires { Sound world.now }
    ensures { IfOk result (λ roads. roads ≡ world_graph world.now) }
{
    let graph = world.graph(alloc)?;
    Roads::over(alloc, graph)
}
