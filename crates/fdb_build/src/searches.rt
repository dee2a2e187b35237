//! Who says which bridge directly follows another on a best path.
ghost use Rattle.std.specs.Prelude.{◌≡◌, IfOk, IfSome};
ghost use Rattle.ect_trees.specs.Followers.{IsFollowerAt};
ghost use Rattle.ect_trees.specs.Routes.{AreRoutes};
ghost use Rattle.fdb_build.specs.Searches.{CanRead};

use ect_trees::{Forest, Roads, Routes, Trees};
use spb_types::NoMemory;
use std::alloc::Global;

/// Who says, over the roads of a graph, which bridge directly follows another on the best path from a source.
pub(crate) trait Searches: Copy {
    ghost use Rattle.std.specs.Prelude.{◌≡◌, ℕ, ◌<◌, false, length, IfOk};
    ghost use Rattle.spb_types.specs.declared.graph.Graph.{Graph};
    ghost use Rattle.ect_trees.specs.Followers.{IsFollowerAt, NoneFollows};

    /// It has what it needs for this mask in this graph.
    ghost can: { Self → Graph → ℕ → Type 0 };

    /// The place of the bridge that directly follows the one at the place `me` on the best path under a mask from the
    /// bridge at one place to that at another, or the number of bridges where none does.
    fn follower(
        self,
        alloc: Global,
        roads: &Roads,
        from: usize,
        mask: u8,
        me: usize,
        to: usize,
    ) -> Result<usize, NoMemory>
        requires can { can self roads.now mask }
        requires from { from < length roads.now.bridges }
        requires me { me < length roads.now.bridges }
        ensures { IfOk result (IsFollowerAt roads.now mask from me to) };

    /// The same, where more will be asked of the best paths from the bridge at a place under a mask: what is kept of
    /// these is looked up once.
    fn at(self, from: usize, mask: u8) -> Self
        ensures { (g : Graph) (m : ℕ) → can self g m → can result g m };

    /// Whether a bridge may directly follow the one at the place `me` on some best path from another under a mask.
    fn leads_on(self, roads: &Roads, from: usize, mask: u8, me: usize) -> bool
        requires can { can self roads.now mask }
        requires from { from < length roads.now.bridges }
        requires me { me < length roads.now.bridges }
        ensures { result ≡ false → NoneFollows roads.now mask from me };
}

/// The best paths that a forest of the same graph keeps, and those of them that were looked up last.
#[derive(Clone, Copy)]
pub(crate) struct Grown<'a> {
    pub forest: &'a Forest,
    pub last: Option<&'a Routes>,
}

impl<'a> Searches for Grown<'a> {
    ghost can = { λ grown g mask. (grown.forest.now.graph ≡ g) × IfSome grown.last (λ t. AreRoutes g t.now) };

    #[inline(always)]
    fn follower(
        self,
        alloc: Global,
        roads: &Roads,
        from: usize,
        mask: u8,
        me: usize,
        to: usize,
    ) -> Result<usize, NoMemory> {
        if let Some(routes) = self.last
            && routes.serve(from, mask)
        {
            return Ok(routes.follower(roads.mesh(), me, to));
        }
        self.forest.follower(alloc, from, mask, me, to)
    }

    fn at(self, from: usize, mask: u8) -> Self {
        Grown {
            forest: self.forest,
            last: self.forest.routes(from, mask),
        }
    }

    fn leads_on(self, roads: &Roads, from: usize, mask: u8, me: usize) -> bool {
        if let Some(routes) = self.last
            && routes.serve(from, mask)
        {
            return routes.leads_on(roads.mesh(), me);
        }
        true
    }
}

/// Trees that are there, from each bridge of a graph that is alike.
impl<T: Trees> Searches for &T {
    ghost can = { λ trees g mask. CanRead (T.graph trees.now) (T.has trees.now) g mask };

    fn follower(
        self,
        alloc: Global,
        roads: &Roads,
        from: usize,
        mask: u8,
        me: usize,
        to: usize,
    ) -> Result<usize, NoMemory> {
        Ok(roads.follower_by(self, from, mask, me, to))
    }

    fn at(self, from: usize, mask: u8) -> Self {
        self
    }

    fn leads_on(self, roads: &Roads, from: usize, mask: u8, me: usize) -> bool {
        true
    }
}
