//! The keys of edges, listed by the labels of their faces.

ghost use Rattle.std.specs.Prelude.{◌≡◌, ◌<◌, ◌++◌, [], length, set, filter, IfOk, OnOk, OnErr};
ghost use Rattle.edge_forest.specs.Growth.{has_row, keys_at, keys_with};

use crate::growth::Growth;
use crate::net::Net;
use std::alloc::Global;
use std::mem;
use tgap_model::{List, Memory};

/// Whether an edge that has not ended has this key.
fn has_row(net: &Net, key: u32) -> bool
    ensures { result ≡ has_row net.now.rows.items key }
{
    match net.rows.get(key as usize) {
        Some(row) => row.is_some(),
        None => false,
    }
}

/// Appends those of the listed keys that are keys of edges that have not ended.
fn push_present(keys: &mut List<u32>, net: &Net, listed: &[u32]) -> Result<(), Memory>
    ensures { OnOk result (keys.new ≡ keys.old ++ filter (has_row net.now.rows.items) listed.now) }
{
    for key in listed {
        if has_row(net, *key) {
            keys.push(*key)?;
        }
    }
    Ok(())
}

/// The keys that are listed for a label, less those of edges that have ended.
pub fn keys_with(alloc: Global, growth: &Growth, label: u32) -> Result<List<u32>, Memory>
    requires { label < length growth.now.keys.items }
    ensures { IfOk result (λ keys. keys ≡ keys_with growth.now label) }
{
    let mut keys = List::new(alloc);
    push_present(
        &mut keys,
        &growth.net,
        growth.keys[label as usize].as_slice(),
    )?;
    Ok(keys)
}

/// Lists keys for a label, after those that it has. On want of memory the lists are as before.
pub fn list_keys(lists: &mut Vec<List<u32>>, label: u32, keys: &[u32]) -> Result<(), Memory>
    requires { label < length lists.old.items }
    ensures ok { OnOk result (lists.new.items ≡ set lists.old.items label (keys_at lists.old.items label ++ keys.now)) }
    ensures err { OnErr result (lists.new.items ≡ lists.old.items) }
{
    let alloc = *lists.allocator();
    let mut listed = mem::replace(&mut lists[label as usize], List::new(alloc)).into_vec();
    let result = listed.extend_from_slice(keys);
    lists[label as usize] = List::from(listed);
    result?;
    Ok(())
}

/// Frees the list of a label that no edge has any more.
pub fn drop_keys(lists: &mut Vec<List<u32>>, label: u32)
    requires { label < length lists.old.items }
    ensures { lists.new.items ≡ set lists.old.items label [] }
{
    let alloc = *lists.allocator();
    lists[label as usize] = List::new(alloc);
}
