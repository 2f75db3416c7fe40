//! Which edges are known to be in a window, by key.

ghost use Rattle.std.specs.Prelude.{◌≡◌, ◌≢◌, ◌⊎◌, ℕ, true, false, length};
ghost use Rattle.tgap_model.specs.WindowRecords.{has_key};
ghost use Rattle.refine_packets.specs.Walk.{is_known};

use tgap_model::Edge;

/// Whether the edge with this key is known to be in the window.
pub fn is_known(known: &[bool], key: u32) -> bool
    ensures { result ≡ is_known known.now key }
{
    match known.get(key as usize) {
        Some(flag) => *flag,
        None => false,
    }
}

/// Notes the edge with this key.
fn enter(known: &mut Vec<bool>, key: u32)
    ensures { (i : ℕ) → i ≢ key → is_known known.new.items i ≡ is_known known.old.items i }
{
    if let Some(flag) = known.get_mut(key as usize) {
        *flag = true;
    }
}

/// Notes the edge with this key no more.
fn leave(known: &mut Vec<bool>, key: u32)
    ensures others { (i : ℕ) → i ≢ key → is_known known.new.items i ≡ is_known known.old.items i }
    ensures it { is_known known.new.items key ≡ false }
{
    if let Some(flag) = known.get_mut(key as usize) {
        *flag = false;
    }
}

/// Notes these edges.
pub fn enter_all(known: &mut Vec<bool>, edges: &[Edge])
    ensures { (i : ℕ) → is_known known.new.items i ≡ true → (is_known known.old.items i ≡ true) ⊎ (has_key edges.now i ≡ true) }
{
    for edge in edges {
        enter(known, edge.key);
    }
}

/// Notes these edges no more.
pub fn leave_all(known: &mut Vec<bool>, edges: &[Edge])
    ensures { (i : ℕ) → is_known known.new.items i ≡ true → (is_known known.old.items i ≡ true) × (has_key edges.now i ≡ false) }
{
    for edge in edges {
        leave(known, edge.key);
    }
}
