//! One thread with two passes.
use crate::diary::{Diary, write};
use hd_desk::{ALL_PARTS, Lock};
use std::test::Fail;

#[test]
fn what_one_pass_writes_the_other_finds(rt: HostRuntime) -> Result<(), Fail> {
    let alloc = rt.alloc();
    let (lock, mut first) = Lock::open(&rt, alloc, Diary::of(alloc, 7)?)?;
    let mut second = lock.another(&mut first);
    write(&rt, &lock, &mut first, 10)?;
    write(&rt, &lock, &mut second, 20)?;
    let diary = lock.enter(&rt, &mut first);
    assert_eq!(rt; diary.sheets.log.as_slice(), [10u64, 20].as_slice());
    lock.leave(&rt, &mut first, diary);
    let diary = lock.gather(&rt, first, vec![in alloc; second]?);
    assert_eq!(rt; diary.sheets.of, 7);
    assert_eq!(rt; diary.sheets.log.as_slice(), [10u64, 20].as_slice());
    Ok(())
}

#[test]
fn a_lock_that_nobody_enters_gives_its_value_back(rt: HostRuntime) -> Result<(), Fail> {
    let alloc = rt.alloc();
    let (lock, first) = Lock::open(&rt, alloc, Diary::of(alloc, 3)?)?;
    let diary = lock.gather(&rt, first, Vec::new(alloc));
    assert_eq!(rt; diary.sheets.of, 3);
    assert_eq!(rt; diary.sheets.log.len(), 0);
    assert_eq!(rt; ALL_PARTS, 1024);
    Ok(())
}

#[test]
fn a_free_lock_is_entered_and_a_taken_one_is_not(rt: HostRuntime) -> Result<(), Fail> {
    let alloc = rt.alloc();
    let (lock, mut first) = Lock::open(&rt, alloc, Diary::of(alloc, 5)?)?;
    let mut second = lock.another(&mut first);
    let Some(diary) = lock.try_enter(&rt, &mut first) else {
        return Err(Fail::new("the lock is free"));
    };
    assert_eq!(rt; diary.sheets.of, 5);
    if let Some(_other) = lock.try_enter(&rt, &mut second) {
        return Err(Fail::new("the lock is taken"));
    }
    lock.leave(&rt, &mut first, diary);
    write(&rt, &lock, &mut second, 30)?;
    let diary = lock.gather(&rt, first, vec![in alloc; second]?);
    assert_eq!(rt; diary.sheets.log.as_slice(), [30u64].as_slice());
    Ok(())
}

#[test]
fn a_lock_is_told_to_be_taken_just_while_a_pass_is_inside(rt: HostRuntime) -> Result<(), Fail> {
    let alloc = rt.alloc();
    let (lock, mut first) = Lock::open(&rt, alloc, Diary::of(alloc, 9)?)?;
    assert!(rt; !lock.is_taken(&mut first));
    let mut second = lock.another(&mut first);
    assert!(rt; !lock.is_taken(&mut second));
    let diary = lock.enter(&rt, &mut first);
    assert!(rt; lock.is_taken(&mut second));
    lock.leave(&rt, &mut first, diary);
    assert!(rt; !lock.is_taken(&mut first));
    assert!(rt; !lock.is_taken(&mut second));
    let diary = lock.gather(&rt, first, vec![in alloc; second]?);
    assert_eq!(rt; diary.sheets.of, 9);
    Ok(())
}
