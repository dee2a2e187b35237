//! What one change would make of what is declared, with the declarations as they are left alone.
ghost use Rattle.std.specs.Prelude.{◌≡◌, None, IfOk};
ghost use Rattle.spb_world.specs.Changing as changing;
ghost use Rattle.spb_world.specs.Declaring as declare;
ghost use Rattle.spb_world.specs.Naming.{metric_refusal};

use crate::World;
use scenario::{Command, Side};
use spb_types::{Name, NoMemory};
use std::alloc::Global;

impl World {
    /// The world after a `down`, an `up` or a `metric` that would be accepted. Of any other command it is a copy.
    ///
    /// It copies what is declared and attached.
    #[tactic(auto, unfolding(crate::specs::Changing::with_change))]
    pub fn after(&self, alloc: Global, change: &Command) -> Result<World, NoMemory>
        requires { changing.change_refusal self.now change.now ≡ None }
        ensures { IfOk result (λ world. world ≡ changing.with_change self.now change.now) }
    {
        let mut world = self.copied(alloc)?;
        match change {
            Command::Down(link) => world.switch_link(*link, false),
            Command::Up(link) => world.switch_link(*link, true),
            Command::Metric { link, side, metric } => world.set_link_metric(*link, *side, *metric),
            _ => {}
        }
        Ok(world)
    }

    /// The link of a name comes up, or goes down.
    fn switch_link(&mut self, link: Name, on: bool)
        ensures { self.new ≡ changing.with_link_changed (declare.with_live on self.old) self.old link }
    {
        match self.link_place(link) {
            None => {}
            Some(place) => self.set_live(place, on),
        }
    }

    /// An end of the link of a name gets this metric.
    #[tactic(auto, using(crate::proofs::RefusalLemmas::metric_refusal_none))]
    fn set_link_metric(&mut self, link: Name, side: Side, metric: u64)
        requires { metric_refusal self.old link metric ≡ None }
        ensures { self.new ≡ changing.with_link_changed (declare.with_end_metric side metric self.old) self.old link }
    {
        match self.link_place(link) {
            None => {}
            Some(place) => self.set_metric(place, side, metric as u32),
        }
    }
}
