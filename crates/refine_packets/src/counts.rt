//! How many sides of the edges of a window each face is.

ghost use Rattle.std.specs.Prelude.{◌≡◌, ◌<◌, ℕ, ◌+◌, ◌-◌, ◌^◌, length, replicate, IfOk};
ghost use Rattle.refine_packets.specs.Counts.{AreCounted, count_at, one_at, sides_at};

use tgap_model::Edge;

/// The count of a face; of one past the last it is 0.
pub fn count_at(counts: &[u32], face: u32) -> u32
    ensures { result ≡ count_at counts.now face }
{
    match counts.get(face as usize) {
        Some(count) => *count,
        None => 0,
    }
}

/// Counts one side more of a face.
fn add_side(counts: &mut Vec<u32>, face: u32)
    requires there { face < length counts.old.items }
    requires room { count_at counts.old.items face + 1 < 2 ^ 32 }
    ensures long { length counts.new.items ≡ length counts.old.items }
    ensures each { (f : ℕ) → count_at counts.new.items f ≡ count_at counts.old.items f + one_at f face }
{
    counts[face as usize] += 1;
}

/// Counts one side less of a face.
fn take_side(counts: &mut Vec<u32>, face: u32)
    requires there { face < length counts.old.items }
    ensures long { length counts.new.items ≡ length counts.old.items }
    ensures each { (f : ℕ) → count_at counts.new.items f ≡ count_at counts.old.items f - one_at f face }
{
    counts[face as usize] = counts[face as usize].saturating_sub(1);
}

/// Counts the sides of these edges too.
pub fn add_sides(counts: &mut Vec<u32>, edges: &[Edge])
    requires there { AreCounted (length counts.old.items) edges.now }
    requires room { (f : ℕ) → count_at counts.old.items f + sides_at f edges.now < 2 ^ 32 }
    ensures long { length counts.new.items ≡ length counts.old.items }
    ensures each { (f : ℕ) → count_at counts.new.items f ≡ count_at counts.old.items f + sides_at f edges.now }
{
    for edge in edges {
        add_side(counts, edge.left);
        add_side(counts, edge.right);
    }
}

/// Counts the sides of these edges no more.
pub fn take_sides(counts: &mut Vec<u32>, edges: &[Edge])
    requires there { AreCounted (length counts.old.items) edges.now }
    ensures long { length counts.new.items ≡ length counts.old.items }
    ensures each { (f : ℕ) → count_at counts.new.items f ≡ count_at counts.old.items f - sides_at f edges.now }
{
    for edge in edges {
        take_side(counts, edge.left);
        take_side(counts, edge.right);
    }
}
