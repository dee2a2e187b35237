//! The tables that are kept between two calls.
ghost use Rattle.std.specs.Prelude.{◌≡◌, IfOk};
ghost use Rattle.bridge_api.specs.Laws.{IsSoundView};
ghost use Rattle.bridge_api.specs.Tables.{own_tables};
ghost use Rattle.bridge_control.specs.Kept.{AreOwn};
ghost use Rattle.bridge_control.specs.Machine.{view_of};

use crate::machine::Machine;
use spb_types::{NoMemory, Seq, Tables};
use std::alloc::Global;

impl Machine {
    /// The tables of the bridge: those that are kept, or, where none are, made anew.
    pub(crate) fn tables_or(&self, kept: Option<Tables>) -> Result<Tables, NoMemory>
        requires sound { IsSoundView (view_of self.now) }
        requires tables { AreOwn (view_of self.now) kept }
        ensures { IfOk result (λ t. t ≡ own_tables (view_of self.now)) }
    {
        match kept {
            Some(tables) => Ok(tables),
            None => self.tables(None),
        }
    }
}

/// A copy of tables.
pub(crate) fn copy_of(alloc: Global, tables: &Tables) -> Result<Tables, NoMemory>
    ensures { IfOk result (λ t. t ≡ tables.now) }
{
    let unicast = Vec::from_slice(alloc, tables.unicast.as_slice())?;
    let group = Vec::from_slice(alloc, tables.group.as_slice())?;
    Ok(Tables {
        unicast: Seq::from_vec(unicast),
        group: Seq::from_vec(group),
    })
}
