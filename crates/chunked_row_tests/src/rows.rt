//! Rows of some thousand numbers, beside the lists that they have to be.

use chunked_row::Row;
use std::alloc::Global;
use std::process::Abort;
use std::test::Fail;
use tgap_model::Memory;

/// The numbers below a count, of which each comes in at the place of its half: the odd ones ascend, and the even ones
/// behind them descend.
fn halved(alloc: Global, count: u32) -> Result<Row, Memory> {
    let mut row = Row::new(alloc);
    for number in 0..count {
        let half = number as usize / 2;
        row.insert(half.min(row.len()), number)?;
    }
    Ok(row)
}

/// The numbers below a count, in order.
fn counted(alloc: Global, count: u32) -> Result<Row, Memory> {
    let mut row = Row::new(alloc);
    for number in 0..count {
        row.insert(row.len(), number)?;
    }
    Ok(row)
}

/// Takes so many numbers out at a place.
fn remove_some(row: &mut Row, place: usize, count: usize) {
    for _ in 0..count {
        if place < row.len() {
            row.remove(place);
        }
    }
}

/// The numbers of a row, in order.
fn numbers_of(alloc: Global, row: &Row) -> Result<Vec<u32>, Memory> {
    let mut numbers = Vec::new(alloc);
    for place in 0..row.len() {
        numbers.push(row.at(place))?;
    }
    Ok(numbers)
}

/// The odd numbers from one up to another, and then the even ones down from a third.
fn odd_and_even(alloc: Global, low: u32, high: u32, even: u32) -> Result<Vec<u32>, Memory> {
    let mut numbers = Vec::new(alloc);
    for number in low..high {
        if number % 2 == 1 {
            numbers.push(number)?;
        }
    }
    for down in 0..even {
        if (even - down) % 2 == 0 {
            numbers.push(even - down)?;
        }
    }
    numbers.push(0)?;
    Ok(numbers)
}

/// Compares the numbers of a row.
fn assert_numbers(
    rt: &impl Abort,
    alloc: Global,
    row: &Row,
    expected: &[u32],
) -> Result<(), Memory> {
    let numbers = numbers_of(alloc, row)?;
    assert_eq!(rt; numbers.as_slice(), expected);
    Ok(())
}

/// Compares the row of so many numbers that come in in its middle.
fn assert_halved(rt: &impl Abort, alloc: Global, count: u32) -> Result<(), Memory> {
    let expected = odd_and_even(alloc, 1, count, count.saturating_sub(2))?;
    let row = halved(alloc, count)?;
    assert_numbers(rt, alloc, &row, &expected)
}

#[test]
fn numbers_come_in_in_the_middle(rt: HostRuntime) -> Result<(), Fail> {
    for count in [2, 6, 1024, 1026, 2050, 6000] {
        assert_halved(&rt, rt.alloc(), count)?;
    }
    Ok(())
}

#[test]
fn numbers_go_out_of_the_middle(rt: HostRuntime) -> Result<(), Fail> {
    let expected = odd_and_even(rt.alloc(), 4001, 6000, 3998)?;
    let mut row = halved(rt.alloc(), 6000)?;
    // the even numbers from 5998 down to 4000
    remove_some(&mut row, 3000, 1000);
    // the odd numbers up to 3999
    remove_some(&mut row, 0, 2000);
    assert_numbers(&rt, rt.alloc(), &row, &expected)?;
    remove_some(&mut row, 0, 3000);
    assert!(rt; row.is_empty());
    Ok(())
}

/// Looks for the places of some bounds among the numbers below 4000.
fn assert_places(rt: &impl Abort, row: &Row) {
    for bound in [0, 1, 511, 512, 513, 1023, 1024, 1025, 2500, 3999, 4000] {
        let place = row.search(|number: u32| number < bound);
        assert_eq!(rt; place, bound as usize);
    }
}

#[test]
fn a_place_is_found(rt: HostRuntime) -> Result<(), Fail> {
    let row = counted(rt.alloc(), 4000)?;
    assert_places(&rt, &row);
    Ok(())
}
