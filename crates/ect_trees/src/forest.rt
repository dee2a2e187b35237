//! The best paths in one graph, from some of its bridges and under some masks.
ghost use Rattle.std.specs.Prelude.{◌≡◌, ◌<◌, ℕ, [], true, false, length, All, IfOk, IfSome, IsOk, OnOk, is_some};
ghost use Rattle.std.specs.Option.{option_copied};
ghost use Rattle.spb_types.specs.declared.address.SystemId.{SystemId};
ghost use Rattle.spb_types.specs.declared.graph.Graph.{Graph};
ghost use Rattle.ect_trees.specs.Arcs.{IsBridgeAt};
ghost use Rattle.ect_trees.specs.Followers.{IsFollowerAt};
ghost use Rattle.ect_trees.specs.Forest as forest;
ghost use Rattle.ect_trees.specs.Routes.{AreRoutes, serve};
ghost use Rattle.ect_trees.specs.Tree.{best_path};

use crate::followers::follower_anew;
use crate::guess::Hints;
use crate::roads::Roads;
use crate::routes::{Routes, routes_from};
use crate::tree::tree_over;
use spb_types::{NoMemory, Path, SystemId};
use std::alloc::Global;
use std::marker::Model;

/// A graph, and best paths in it that are kept, each searched once. Contracts see the graph, and which paths are kept.
#[derive(Drop)]
pub struct Forest {
    roads: Roads,
    hints: Hints,
    /// The routes from each bridge, by its place in the graph.
    rows: Vec<Vec<Routes>>,
}

impl Model for Forest {
    ghost use Rattle.std.specs.Prelude.{◌≡◌, length};
    ghost use Rattle.ect_trees.specs.Forest.{ForestView, AreGrown};

    ghost Value = { ForestView };

    ghost view = { λ f. record { graph = f.roads; rows = f.rows.items } };

    ghost invariant = { λ f. (length f.rows.items ≡ length f.roads.bridges) × AreGrown f.roads f.rows.items };
}

/// The first of these routes that serve from a place under a mask.
fn serving(row: &[Routes], from: usize, mask: u8) -> Option<&Routes>
    ensures { option_copied result ≡ forest.serving row.now from mask }
{
    row.iter().find(|routes| routes.serve(from, mask))
}

/// The first that do of those that are kept from that place.
fn kept(rows: &[Vec<Routes>], from: usize, mask: u8) -> Option<&Routes>
    ensures { option_copied result ≡ forest.kept rows.now from mask }
{
    serving(rows.get(from)?.as_slice(), from, mask)
}

/// No routes, for as many places.
fn no_routes(alloc: Global, places: usize) -> Result<Vec<Vec<Routes>>, NoMemory>
    ensures { IfOk result (λ rows. (length rows.items ≡ places) × All (λ row. row.items ≡ []) rows.items) }
{
    let mut rows = Vec::with_capacity(alloc, places)?;
    for _place in 0..places {
        rows.push(Vec::new(alloc))?;
    }
    Ok(rows)
}

impl Forest {
    /// No paths yet, over the roads of a graph.
    pub fn new(alloc: Global, roads: Roads) -> Result<Self, NoMemory>
        ensures graph { IfOk result (λ forest. forest.graph ≡ roads) }
        ensures none { IfOk result (λ new. (from mask : ℕ) → forest.keeps new from mask ≡ false) }
    {
        let rows = no_routes(alloc, roads.graph().bridges.len())?;
        let hints = Hints::new(alloc, roads.graph())?;
        Ok(Forest { roads, hints, rows })
    }

    /// The roads of the graph.
    pub fn roads(&self) -> &Roads
        ensures { result.now ≡ self.now.graph }
    {
        &self.roads
    }

    /// Searches the best paths from the bridge at a place under a mask, unless they are kept, and keeps them. Where no
    /// bridge has that place, nothing is searched.
    pub fn grow(&mut self, alloc: Global, from: usize, mask: u8) -> Result<(), NoMemory>
        ensures graph { self.new.graph ≡ self.old.graph }
        ensures kept { OnOk result (from < length self.old.graph.bridges → forest.keeps self.new from mask ≡ true) }
        ensures still { forest.KeepsStill self.old self.new }
    {
        if from >= self.rows.len() || kept(self.rows.as_slice(), from, mask).is_some() {
            return Ok(());
        }
        let routes = routes_from(alloc, self.roads.mesh(), &self.hints, from, mask)?;
        self.rows[from].push(routes)?;
        Ok(())
    }

    /// The best paths from the bridge at a place under a mask, if they are kept.
    pub fn routes(&self, from: usize, mask: u8) -> Option<&Routes>
        ensures routes { IfSome result (λ t. AreRoutes self.now.graph t.now) }
        ensures serve { IfSome result (λ t. serve t.now from mask ≡ true) }
        ensures kept { is_some result ≡ forest.keeps self.now from mask }
    {
        let rows = self.rows.as_slice();
        kept(rows, from, mask)
    }

    /// The place of the bridge that directly follows the one at the place `me` on the best path under a mask from the
    /// bridge at one place to that at another, or the number of bridges where none does (IEEE 802.1aq, 28.5 to 28.8).
    /// Where the paths are kept, they are read, and it can't fail; else they are searched for this answer alone.
    pub fn follower(
        &self,
        alloc: Global,
        from: usize,
        mask: u8,
        me: usize,
        to: usize,
    ) -> Result<usize, NoMemory>
        requires from { from < length self.now.graph.bridges }
        requires me { me < length self.now.graph.bridges }
        ensures follower { IfOk result (IsFollowerAt self.now.graph mask from me to) }
        ensures kept { forest.keeps self.now from mask ≡ true → IsOk result }
    {
        let mesh = self.roads.mesh();
        if let Some(routes) = kept(self.rows.as_slice(), from, mask) {
            return Ok(routes.follower(mesh, me, to));
        }
        let bridges = mesh.graph.bridges.as_slice();
        let (source, system) = (bridges[from].id.system, bridges[me].id.system);
        follower_anew(alloc, mesh, source, mask, system, to)
    }

    /// The best path under a mask from the bridge at a place to another, with its cost (IEEE 802.1aq, 28.5 to 28.8).
    /// None exactly where there is no path. Where the paths are kept, it is read back from their steps; else they are
    /// searched for this answer alone.
    pub fn path(
        &self,
        alloc: Global,
        from: usize,
        mask: u8,
        to: SystemId,
    ) -> Result<Option<Path>, NoMemory>
        requires { from < length self.now.graph.bridges }
        ensures { IfOk result (λ path. (a : SystemId)
            → IsBridgeAt self.now.graph from a → path ≡ best_path self.now.graph mask a to) }
    {
        let mesh = self.roads.mesh();
        let source = mesh.graph.bridges.as_slice()[from].id.system;
        if let Some(routes) = kept(self.rows.as_slice(), from, mask) {
            return routes.path_to(alloc, mesh, source, to);
        }
        let tree = tree_over(alloc, mesh, source, mask)?;
        tree.path_to(alloc, to)
    }
}
