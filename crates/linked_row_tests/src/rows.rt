//! Rows of numbers, beside the lists that they have to be.

use linked_row::Links;
use std::alloc::Global;
use std::process::Abort;
use std::test::Fail;
use tgap_model::Memory;

/// Puts a number in below a node, where both may be.
fn put(links: &mut Links, upper: u32, number: u32) {
    let is_node = upper == links.end() || links.has(upper);
    if is_node && number < links.end() && !links.has(number) {
        links.insert_below(upper, number);
    }
}

/// Takes a number out, where it is in the row.
fn take_out(links: &mut Links, number: u32) {
    if links.has(number) {
        links.remove(number);
    }
}

/// What stands below a node, and the end where there is no such node.
fn below(links: &Links, node: u32) -> u32 {
    if node == links.end() || links.has(node) {
        links.below(node)
    } else {
        links.end()
    }
}

/// What stands above a node, and the end where there is no such node.
fn above(links: &Links, node: u32) -> u32 {
    if node == links.end() || links.has(node) {
        links.above(node)
    } else {
        links.end()
    }
}

/// The numbers from the first one down.
fn numbers_down(alloc: Global, links: &Links) -> Result<Vec<u32>, Memory> {
    let mut numbers = Vec::new(alloc);
    let mut node = links.end();
    for _ in 0..links.end() {
        node = below(links, node);
        if node == links.end() {
            return Ok(numbers);
        }
        numbers.push(node)?;
    }
    Ok(numbers)
}

/// The numbers from the last one up.
fn numbers_up(alloc: Global, links: &Links) -> Result<Vec<u32>, Memory> {
    let mut numbers = Vec::new(alloc);
    let mut node = links.end();
    for _ in 0..links.end() {
        node = above(links, node);
        if node == links.end() {
            return Ok(numbers);
        }
        numbers.push(node)?;
    }
    Ok(numbers)
}

/// The numbers in the other order.
fn reversed(alloc: Global, numbers: &[u32]) -> Result<Vec<u32>, Memory> {
    let mut turned = Vec::new(alloc);
    turned.extend_from_slice(numbers)?;
    turned.reverse();
    Ok(turned)
}

/// How many numbers the row says that it has, of those below its end and a few from there on.
fn count_of(links: &Links) -> u32 {
    let mut count = 0u32;
    for number in 0..links.end().saturating_add(4) {
        if links.has(number) {
            count = count.wrapping_add(1);
        }
    }
    count
}

/// A change of a row.
#[derive(Clone, Copy)]
enum Change {
    /// Below a node a number comes in.
    In(u32, u32),
    /// A number goes out.
    Out(u32),
}

/// Makes one change.
fn apply(links: &mut Links, change: Change) {
    match change {
        Change::In(upper, number) => put(links, upper, number),
        Change::Out(number) => take_out(links, number),
    }
}

/// The next of some numbers that look like chance.
fn next_chance(chance: u32) -> u32 {
    chance.wrapping_mul(1_664_525).wrapping_add(1_013_904_223)
}

/// Compares a row with the list that it has to be: from the first number down, from the last one up, and by their count.
fn assert_numbers(
    rt: &impl Abort,
    alloc: Global,
    links: &Links,
    expected: &[u32],
) -> Result<(), Memory> {
    let down = numbers_down(alloc, links)?;
    assert_eq!(rt; down.as_slice(), expected);
    let up = numbers_up(alloc, links)?;
    let turned = reversed(alloc, expected)?;
    assert_eq!(rt; up.as_slice(), turned.as_slice());
    assert_eq!(rt; count_of(links) as usize, expected.len());
    Ok(())
}

/// The end of a row, what stands below it and above it, and what stood above the number 0.
fn ends_of(links: &Links) -> [u32; 4] {
    let end = links.end();
    [
        end,
        below(links, end),
        above(links, end),
        links.last_above(0),
    ]
}

#[test]
fn an_empty_row_has_its_end_alone(rt: HostRuntime) -> Result<(), Fail> {
    for count in [0, 1, 4, 1000] {
        let links = Links::of(rt.alloc(), count)?;
        assert_eq!(rt; ends_of(&links), [count; 4]);
        assert_numbers(&rt, rt.alloc(), &links, &[])?;
    }
    Ok(())
}

/// Changes of a row for six numbers, and what it has after each.
const STEPS: &[(Change, &[u32])] = &[
    (Change::In(6, 3), &[3]),
    (Change::Out(3), &[]),
    (Change::In(6, 3), &[3]),
    // first, last and in the middle
    (Change::In(6, 0), &[0, 3]),
    (Change::In(3, 5), &[0, 3, 5]),
    (Change::In(0, 2), &[0, 2, 3, 5]),
    // of the middle, the first, the last and the only one
    (Change::Out(2), &[0, 3, 5]),
    (Change::Out(0), &[3, 5]),
    (Change::Out(5), &[3]),
    (Change::Out(3), &[]),
    (Change::In(6, 5), &[5]),
    (Change::In(6, 2), &[2, 5]),
];

#[test]
fn numbers_come_in_and_go_out(rt: HostRuntime) -> Result<(), Fail> {
    let mut links = Links::of(rt.alloc(), 6)?;
    for (change, expected) in STEPS {
        apply(&mut links, *change);
        assert_numbers(&rt, rt.alloc(), &links, expected)?;
    }
    Ok(())
}

/// What stood above the numbers 0, 1 and 2; 0 for one that the row cannot have.
fn hints_of(links: &Links) -> [u32; 3] {
    let mut hints = [0; 3];
    for number in 0..3 {
        if number <= links.end() {
            hints[number as usize] = links.last_above(number);
        }
    }
    hints
}

#[test]
fn a_number_that_left_keeps_what_stood_above_it(rt: HostRuntime) -> Result<(), Fail> {
    let mut links = Links::of(rt.alloc(), 4)?;
    put(&mut links, 4, 2);
    put(&mut links, 2, 1);
    take_out(&mut links, 1);
    take_out(&mut links, 2);
    assert_eq!(rt; hints_of(&links), [4, 2, 4]);
    Ok(())
}

/// Takes a number out of a row and of the list of its numbers, or puts it into both where it is in neither, at a place by chance.
fn change_both(
    links: &mut Links,
    plain: &mut Vec<u32>,
    number: u32,
    chance: u32,
) -> Result<(), Memory> {
    match plain.iter().position(|other| *other == number) {
        Some(place) => {
            take_out(links, number);
            plain.remove(place);
        }
        None => {
            let place = chance as usize % (plain.len() + 1);
            let upper = if place == 0 {
                links.end()
            } else {
                plain[place - 1]
            };
            put(links, upper, number);
            plain.insert(place, number)?;
        }
    }
    Ok(())
}

#[test]
fn a_long_run_of_changes_leaves_what_a_plain_list_has(rt: HostRuntime) -> Result<(), Fail> {
    let mut links = Links::of(rt.alloc(), 40)?;
    let mut plain: Vec<u32> = Vec::new(rt.alloc());
    let mut chance = 1u32;
    for _ in 0..1000 {
        let first = next_chance(chance);
        chance = next_chance(first);
        change_both(&mut links, &mut plain, (first >> 8) % 40, chance >> 8)?;
        assert_numbers(&rt, rt.alloc(), &links, &plain)?;
    }
    Ok(())
}
