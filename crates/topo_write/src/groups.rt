//! Places of a list by what stands there.

ghost use Rattle.std.specs.Prelude.{◌≡◌, ◌<◌, ◌^◌, ℕ, [], replicate, length, get_or, All, IfOk};
ghost use Rattle.topo_write.specs.Building.{AreGroups};

use std::alloc::Global;
use tgap_model::{List, Memory};

/// A number above all of these.
pub fn end_of(keys: &[u32]) -> usize
    ensures { All (λ k. k < result) keys.now }
{
    let mut end = 0;
    for key in keys {
        if end <= *key as usize {
            end = *key as usize + 1;
        }
    }
    end
}

/// So many empty lists.
fn empty_lists(alloc: Global, count: usize) -> Result<Vec<List<u32>>, Memory>
    ensures { IfOk result (λ lists. lists.items ≡ replicate count []) }
{
    let mut lists = Vec::with_capacity(alloc, count)?;
    for _ in 0..count {
        lists.push(List::new(alloc))?;
    }
    Ok(lists)
}

/// For each number below `count` the places at which the list has it, in ascending order.
pub fn grouped(alloc: Global, keys: &[u32], count: usize) -> Result<Vec<List<u32>>, Memory>
    requires few { length keys.now < 2 ^ 32 }
    requires below { All (λ k. k < count) keys.now }
    ensures count { IfOk result (λ groups. length groups.items ≡ count) }
    ensures groups { IfOk result (λ groups. AreGroups keys.now (length keys.now) groups.items) }
{
    let mut groups = empty_lists(alloc, count)?;
    for place in 0..keys.len() {
        groups[keys[place] as usize].push(place as u32)?;
    }
    Ok(groups)
}
