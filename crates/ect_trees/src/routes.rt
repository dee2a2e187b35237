//! The best paths from a bridge, as they are kept.
ghost use Rattle.std.specs.Prelude.{◌≡◌, ◌<◌, true, false, length, IfOk};
ghost use Rattle.spb_types.specs.Graph.{IsValid};
ghost use Rattle.ect_trees.specs.Arcs.{AreReady, IsBridgeAt};
ghost use Rattle.ect_trees.specs.Routes as routes;

use crate::followers::{follower, follower_in, leads_on};
use crate::guess::{Hints, guessed};
use crate::mesh::Mesh;
use crate::paths::path_by;
use crate::tree::{Tree, tree_over};
use crate::trial::{Verdict, verdict_of};
use crate::ways::{Step, Ways};
use spb_types::{NoMemory, Path, SystemId};
use std::alloc::Global;

/// How best paths are kept: by the last step of each, with the verdict on these steps; or whole.
#[derive(Drop)]
pub enum Form {
    Steps(Vec<Option<Step>>, Verdict),
    Whole(Tree),
}

/// The best paths from the bridge at a place, under a mask.
#[derive(Drop)]
pub struct Routes {
    pub from: usize,
    pub mask: u8,
    pub form: Form,
}

/// The best paths from a bridge, the one at a place. They are guessed, and what is guessed is looked at; where it isn't
/// right, whole paths are searched.
fn form_of(
    alloc: Global,
    mesh: &Mesh,
    hints: &Hints,
    from: usize,
    source: SystemId,
    mask: u8,
) -> Result<Form, NoMemory>
    requires ready { AreReady mesh.now }
    requires here { IsBridgeAt mesh.now.graph from source }
    ensures { IfOk result (routes.AreBestAt mesh.now.graph from mask) }
{
    let steps = guessed(alloc, mesh, hints, from, mask)?;
    let ways = Ways {
        mesh,
        mask,
        steps: steps.as_slice(),
    };
    match verdict_of(alloc, &ways, from)? {
        Verdict::Wrong => Ok(Form::Whole(tree_over(alloc, mesh, source, mask)?)),
        verdict => Ok(Form::Steps(steps, verdict)),
    }
}

/// The best paths from the bridge at a place, under a mask. The hints serve for a guess alone.
pub(crate) fn routes_from(
    alloc: Global,
    mesh: &Mesh,
    hints: &Hints,
    from: usize,
    mask: u8,
) -> Result<Routes, NoMemory>
    requires ready { AreReady mesh.now }
    requires within { from < length mesh.now.graph.bridges }
    ensures routes { IfOk result (routes.AreRoutes mesh.now.graph) }
    ensures serve { IfOk result (λ t. routes.serve t from mask ≡ true) }
{
    let source = mesh.graph.bridges.as_slice()[from].id.system;
    Ok(Routes {
        from,
        mask,
        form: form_of(alloc, mesh, hints, from, source, mask)?,
    })
}

impl Routes {
    /// Whether these are the best paths from the bridge at this place under this mask.
    #[inline(always)]
    pub fn serve(&self, from: usize, mask: u8) -> bool
        ensures { result ≡ routes.serve self.now from mask }
    {
        self.from == from && (self.mask == mask || self.form.is_for_all_masks())
    }

    /// The place of the bridge that directly follows the one at a place on the path to another, or the number of
    /// bridges where none does.
    #[inline(always)]
    pub fn follower(&self, mesh: &Mesh, me: usize, to: usize) -> usize
        requires valid { IsValid mesh.now.graph }
        requires me { me < length mesh.now.graph.bridges }
        ensures { routes.LeadBy mesh.now.graph self.now me to result }
    {
        match &self.form {
            Form::Steps(steps, _) => follower(steps.as_slice(), me, to),
            Form::Whole(tree) => {
                let system = mesh.graph.bridges.as_slice()[me].id.system;
                follower_in(mesh, tree, system, to)
            }
        }
    }

    /// Whether a bridge may directly follow the one at a place on some path. Whole paths aren't looked at.
    pub fn leads_on(&self, mesh: &Mesh, me: usize) -> bool
        requires ready { AreReady mesh.now }
        requires me { me < length mesh.now.graph.bridges }
        ensures { result ≡ false → routes.NoneLed mesh.now.graph self.now me }
    {
        match &self.form {
            Form::Steps(steps, _) => leads_on(mesh, steps.as_slice(), me),
            Form::Whole(_) => true,
        }
    }

    /// The path to a bridge from the source, with its cost. None exactly where there is none.
    pub fn path_to(
        &self,
        alloc: Global,
        mesh: &Mesh,
        source: SystemId,
        to: SystemId,
    ) -> Result<Option<Path>, NoMemory>
        requires { IsValid mesh.now.graph }
        ensures { IfOk result (routes.PathBy mesh.now.graph self.now source to) }
    {
        match &self.form {
            Form::Steps(steps, _) => path_by(alloc, mesh, source, steps.as_slice(), to),
            Form::Whole(tree) => tree.path_to(alloc, to),
        }
    }
}

impl Form {
    /// Whether these are surely the best paths under every mask, since no other is as short in cost and hops.
    #[inline(always)]
    fn is_for_all_masks(&self) -> bool
        ensures { result ≡ routes.is_for_all_masks self.now }
    {
        matches!(self, Form::Steps(_, Verdict::Untied))
    }
}
