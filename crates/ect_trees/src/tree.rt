//! The tree of the best paths from a bridge.
ghost use Rattle.std.specs.Prelude.{◌≡◌, ◌≤◌, [], length, option_map, IfOk, OnOk, OnErr};
ghost use Rattle.std.specs.Option.{option_copied};
ghost use Rattle.ect_trees.specs.Arcs.{AreReady};
ghost use Rattle.ect_trees.specs.Change.{WasGrown};
ghost use Rattle.ect_trees.specs.Search.{path_of, paths_in};
ghost use Rattle.ect_trees.specs.Tree as tree;

use crate::mesh::Mesh;
use crate::roads::Roads;
use crate::search::{Label, Search};
use spb_types::{Edge, NoMemory, Path, Seq, SystemId};
use std::alloc::Global;
use std::marker::Model;
use std::mem;

/// The best paths from a source, one to each bridge that has a path. Each stands at the place of its bridge in the
/// graph's list. Contracts see the source, the list of paths, and the labels by place.
#[derive(Debug, Drop)]
pub struct Tree {
    source: SystemId,
    labels: Vec<Option<Label>>,
}

impl Model for Tree {
    ghost use Rattle.ect_trees.specs.Search.{paths_in};
    ghost use Rattle.ect_trees.specs.Tree.{Paths, EndOnce};

    ghost Value = { Paths };

    ghost view = { λ t. record { source = t.source; paths = paths_in t.labels.items; labels = t.labels.items } };

    ghost invariant = { λ t. EndOnce t.labels.items };
}

/// Whether the label's path ends at this bridge.
fn ends_at(label: &Label, to: SystemId) -> bool
    ensures { result ≡ tree.ends_at label.now.bridges.items to }
{
    match label.bridges.as_slice().last() {
        None => false,
        Some(end) => *end == to,
    }
}

/// The first of the labels whose path ends at a bridge, if there is one.
fn ending_at(labels: &[Option<Label>], to: SystemId) -> Option<&Label>
    ensures { option_map path_of (option_copied result) ≡ tree.path_in (paths_in labels.now) to }
{
    for label in labels {
        if let Some(label) = label
            && ends_at(label, to)
        {
            return Some(label);
        }
    }
    None
}

/// The tree of the best paths from `source` under `mask`.
pub(crate) fn tree_over(
    alloc: Global,
    mesh: &Mesh,
    source: SystemId,
    mask: u8,
) -> Result<Tree, NoMemory>
    requires { AreReady mesh.now }
    ensures best { IfOk result (tree.GivesBest mesh.now.graph mask source) }
    ensures grown { IfOk result (tree.IsGrown mesh.now.graph mask) }
{
    let search = Search { mesh, source, mask };
    let labels = search.labels(alloc)?;
    Ok(Tree { source, labels })
}

impl Tree {
    /// The bridge from which the paths lead.
    pub fn source(&self) -> SystemId
        ensures { result ≡ self.now.source }
    {
        self.source
    }

    /// The label whose path ends at a bridge, if there is one.
    fn find(&self, to: SystemId) -> Option<&Label>
        ensures { option_map path_of (option_copied result) ≡ tree.path_in self.now.paths to }
    {
        ending_at(self.labels.as_slice(), to)
    }

    /// The label whose path ends at a bridge, if there is one, which is looked for at this place first: that of the
    /// bridge in the graph's list.
    pub fn find_near(&self, place: usize, to: SystemId) -> Option<&Label>
        ensures { option_map path_of (option_copied result) ≡ tree.path_in self.now.paths to }
    {
        if let Some(Some(near)) = self.labels.get(place)
            && ends_at(near, to)
        {
            return Some(near);
        }
        self.find(to)
    }

    /// The second bridge of the best path to a bridge: where the way there goes first. None where there is no path, or
    /// no second bridge. The path is looked for at `place` first, that of the bridge in the graph's list.
    pub fn next_hop(&self, place: usize, to: SystemId) -> Option<SystemId>
        ensures { result ≡ tree.second_in self.now.paths to }
    {
        match self.find_near(place, to) {
            None => None,
            Some(label) => label.bridges.as_slice().get(1).copied(),
        }
    }

    /// The best path to a bridge. None exactly where there is no path.
    pub fn path_to(&self, alloc: Global, to: SystemId) -> Result<Option<Path>, NoMemory>
        ensures { IfOk result (λ path. path ≡ tree.path_in self.now.paths to) }
    {
        match self.find(to) {
            None => Ok(None),
            Some(label) => {
                let bridges = Vec::from_slice(alloc, label.bridges.as_slice())?;
                Ok(Some(Path {
                    cost: label.cost,
                    bridges: Seq::from_vec(bridges),
                }))
            }
        }
    }

    /// Brings the tree up to date after the edge between these two bridges was added or removed, or got another cost:
    /// it has the best paths of the graph as the roads have it now. Says how many paths were computed anew. Where memory
    /// is out, no path is left.
    pub fn repair(
        &mut self,
        alloc: Global,
        roads: &Roads,
        mask: u8,
        edge: &Edge,
    ) -> Result<u64, NoMemory>
        requires { WasGrown roads.now mask edge.now.a edge.now.b self.old }
        ensures source { self.new.source ≡ self.old.source }
        ensures grown { OnOk result (tree.IsGrown roads.now mask self.new) }
        ensures few { IfOk result (λ anew. anew ≤ length roads.now.bridges) }
        ensures failed { OnErr result (self.new.paths ≡ []) }
    {
        let mut labels = mem::replace(&mut self.labels, Vec::new(alloc));
        let search = Search {
            mesh: roads.mesh(),
            source: self.source,
            mask,
        };
        let anew = search.repair(alloc, &mut labels, edge)?;
        self.labels = labels;
        Ok(anew)
    }
}
