//! The edges that are there after the steps made so far, while the history goes on.

ghost use Rattle.std.specs.Prelude.{◌≡◌, IfOk};
ghost use Rattle.edge_forest.specs.Net.{numbers_of};

use crate::net::Current;
use std::alloc::Global;
use tgap_model::{List, Memory};

/// The numbers of the edges that have not ended, in the order of their keys.
pub fn numbers_of(alloc: Global, rows: &[Option<Current>]) -> Result<List<u32>, Memory>
    ensures { IfOk result (λ ids. ids ≡ numbers_of rows.now) }
{
    let mut ids = List::new(alloc);
    for row in rows {
        if let Some(current) = row {
            ids.push(current.id)?;
        }
    }
    Ok(ids)
}
