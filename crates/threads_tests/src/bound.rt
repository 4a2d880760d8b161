//! Tests of the bound word.
use hd_desk::{BoundWord, NO_BOUND};
use std::test::Fail;

#[test]
fn the_bound_is_the_least_of_what_was_offered(rt: HostRuntime) -> Result<(), Fail> {
    let (word, mut seat) = BoundWord::new(rt.alloc(), None)?;
    assert!(rt; word.load(&mut seat) == None);
    word.offer(&mut seat, 7);
    assert!(rt; word.load(&mut seat) == Some(7));
    word.offer(&mut seat, 3);
    assert!(rt; word.load(&mut seat) == Some(3));
    word.offer(&mut seat, 5);
    assert!(rt; word.load(&mut seat) == Some(3));
    assert!(rt; word.settle(seat) == Some(3));
    Ok(())
}

#[test]
fn a_seat_reads_what_another_offered(rt: HostRuntime) -> Result<(), Fail> {
    let (word, mut seat) = BoundWord::new(rt.alloc(), Some(9))?;
    let mut other = word.another(&mut seat);
    assert!(rt; word.load(&mut other) == Some(9));
    word.offer(&mut seat, 12);
    assert!(rt; word.load(&mut other) == Some(9));
    word.offer(&mut seat, 4);
    assert!(rt; word.load(&mut other) == Some(4));
    word.offer(&mut other, 2);
    assert!(rt; word.load(&mut seat) == Some(2));
    word.absorb(&mut seat, other);
    assert!(rt; word.settle(seat) == Some(2));
    Ok(())
}

#[test]
fn the_greatest_cost_bounds_nothing(rt: HostRuntime) -> Result<(), Fail> {
    let (word, mut seat) = BoundWord::new(rt.alloc(), None)?;
    word.offer(&mut seat, NO_BOUND);
    assert!(rt; word.load(&mut seat) == None);
    word.offer(&mut seat, NO_BOUND - 1);
    assert!(rt; word.load(&mut seat) == Some(NO_BOUND - 1));
    assert!(rt; word.settle(seat) == Some(NO_BOUND - 1));
    Ok(())
}

#[test]
fn a_bound_that_nobody_lowers_stays(rt: HostRuntime) -> Result<(), Fail> {
    let (word, seat) = BoundWord::new(rt.alloc(), Some(0))?;
    assert!(rt; word.settle(seat) == Some(0));
    let (word, seat) = BoundWord::new(rt.alloc(), None)?;
    assert!(rt; word.settle(seat) == None);
    Ok(())
}
