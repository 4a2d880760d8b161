//! What the tests lock: a diary of someone, one pointer wide, with a log of numbers.
ghost use Rattle.std.specs.Prelude.{◌≡◌, ◌<◌, IfOk, [], ◌∷◌, ◌++◌, OnErr};
ghost use Rattle.crossbeam_queue.specs.Passes.{view};
ghost use Rattle.hd_desk.specs.Passes.{IsOutside};
ghost use Rattle.hd_base.specs.Lists.{BeginsWith};

use hd_desk::{Lock, Locked, Pass};
use std::alloc::{AllocError, Global};
use std::sync::Wait;

#[derive(Drop)]
pub struct Sheets {
    pub of: u64,
    pub log: Vec<u64>,
}

#[derive(Drop)]
pub struct Diary {
    pub sheets: Box<Sheets>,
}

impl Locked for Diary {
    type Task = u64;

    type Item = u64;

    ghost task = { λ d. d.sheets.value.of };

    ghost log = { λ d. d.sheets.value.log.items };
}

impl Diary {
    /// Returns the empty diary of someone.
    pub fn of(alloc: Global, of: u64) -> Result<Diary, AllocError>
        ensures of { IfOk result (λ d. d.sheets.value.of ≡ of) }
        ensures log { IfOk result (λ d. d.sheets.value.log.items ≡ []) }
    {
        let log = Vec::new(alloc);
        let sheets = Box::new(alloc, Sheets { of, log })?;
        Ok(Diary { sheets })
    }

    /// Adds an entry. Lack of memory changes nothing.
    pub fn add(&mut self, entry: u64) -> Result<(), AllocError>
        ensures of { self.new.sheets.value.of ≡ self.old.sheets.value.of }
        ensures log { BeginsWith self.new.sheets.value.log.items self.old.sheets.value.log.items }
    {
        self.sheets.log.push(entry)?;
        Ok(())
    }
}

/// Enters, adds an entry and leaves.
pub fn write<R: Wait>(
    rt: &R,
    lock: &Lock<Diary>,
    pass: &mut Pass<Diary>,
    entry: u64,
) -> Result<(), AllocError>
    requires { IsOutside lock.now.place pass.old }
    ensures pass { IsOutside lock.now.place pass.new }
    ensures parts { (view pass.new).parts ≡ (view pass.old).parts }
{
    let mut diary = lock.enter(rt, pass);
    let done = diary.add(entry);
    lock.leave(rt, pass, diary);
    done
}
