//! Trees that are kept.
ghost use Rattle.std.specs.Prelude.{◌≡◌, ℕ, Bool, is_some, IfSome};
ghost use Rattle.spb_types.specs.declared.address.SystemId.{SystemId};
ghost use Rattle.spb_types.specs.declared.graph.Graph.{Graph};
ghost use Rattle.ect_trees.specs.Tree.{GivesBest};

use crate::tree::Tree;
use spb_types::SystemId;

/// Trees of one graph, each found by its source and its mask.
pub trait Trees {
    /// The graph whose trees they are.
    ghost graph: { Self → Graph };

    /// Whether there is a tree from this source under this mask.
    ghost has: { Self → SystemId → ℕ → Bool };

    /// The tree from a source under a mask, if there is one.
    fn tree_of(&self, source: SystemId, mask: u8) -> Option<&Tree>
        ensures best { IfSome result (λ t. GivesBest (graph self.now) mask source t.now) }
        ensures some { is_some result ≡ has self.now source mask };
}
