//! A disk in memory, whose failures and stops are planned.
ghost use Rattle.std.specs.Prelude.{◌≡◌, ◌+◌, ◌-◌, ◌<◌, ◌^◌, [], IfOk, OnOk, OnErr, SomeIff};
ghost use Rattle.hd_store.specs.declared.ahead.Ahead.TheVariants.{Well, Fails, Stops};
ghost use Rattle.hd_store.specs.Device.{content_of};

use crate::ahead::Ahead;
use crate::error::{MOST_FAILURES, StoreError};
use crate::image::Image;
use crate::plan::FailurePlan;
use crate::store::Store;
use hd_base::NoMemory;
use std::alloc::Global;

/// The greatest length.
const MOST_BYTES: usize = 0x7fff_ffff_ffff_ffff;

/// A disk in memory.
///
/// A write, a cut or a sync that fails as planned is begun, and what a read gives stays as it was:
/// a stop after it may still leave any part of it. A write that ends within the length, a cut and
/// a sync do not allocate.
#[derive(Drop)]
pub struct MemoryDisk {
    image: Image,
    plan: FailurePlan,
}

/// Returns where `count` bytes from `at` on end, if that is at most `MOST_BYTES`.
pub(crate) fn end_of(at: usize, count: usize) -> Option<usize>
    ensures { SomeIff result (at + count < 2 ^ 63) (at + count) }
{
    match at.checked_add(count) {
        Some(end) if end <= MOST_BYTES => Some(end),
        _ => None,
    }
}

impl MemoryDisk {
    ghost use Rattle.hd_store.specs.MemoryDisk.{device_of, IsStarted, IsStoppedDevice};

    /// Returns an empty disk. It does not allocate.
    pub fn new(alloc: Global) -> MemoryDisk
        ensures { IsStarted result [] }
    {
        MemoryDisk {
            image: Image::new(alloc),
            plan: FailurePlan::none_ahead(0),
        }
    }

    /// Returns a disk that holds these bytes for sure.
    ///
    /// # Errors
    /// - Lack of memory.
    pub fn of(alloc: Global, bytes: Vec<u8>) -> Result<MemoryDisk, NoMemory>
        ensures { IfOk result (λ disk. IsStarted disk bytes.items) }
    {
        Ok(MemoryDisk {
            image: Image::of(alloc, bytes)?,
            plan: FailurePlan::none_ahead(0),
        })
    }

    /// Returns what a read gives.
    pub fn bytes(&self) -> &[u8]
        ensures { result.now ≡ content_of (device_of self.now) }
    {
        self.image.bytes()
    }

    /// Plans that the n-th write, cut or sync from now on fails, and no other.
    pub fn fail_at(&mut self, n: u64)
        requires { 0 < n }
        ensures { device_of self.new ≡ record (device_of self.old) { changes = Fails (n - 1) } }
    {
        self.plan.changes = Ahead::Fails(n - 1);
    }

    /// Plans that the n-th read from now on fails, and no other.
    pub fn fail_read(&mut self, n: u64)
        requires { 0 < n }
        ensures { device_of self.new ≡ record (device_of self.old) { reads = Fails (n - 1) } }
    {
        self.plan.reads = Ahead::Fails(n - 1);
    }

    /// Plans that the machine stops in the n-th write, cut or sync from now on: that is begun, and
    /// each call fails until `settle`.
    pub fn stop_at(&mut self, n: u64)
        requires { 0 < n }
        ensures { device_of self.new ≡ record (device_of self.old) { changes = Stops (n - 1) } }
    {
        self.plan.changes = Ahead::Stops(n - 1);
    }

    /// Plans that no call fails.
    pub fn go_on(&mut self)
        ensures { device_of self.new
            ≡ record (device_of self.old) { changes = Well; reads = Well } }
    {
        self.plan = FailurePlan::none_ahead(self.plan.failures);
    }

    /// Stops and starts again: bytes that are not sure read `fill`, and the length is the greatest.
    /// Nothing that was planned is left.
    ///
    /// # Errors
    /// - Lack of memory, and then nothing is changed.
    pub fn settle(&mut self, fill: u8) -> Result<(), NoMemory>
        ensures ok { OnOk result (IsStoppedDevice (device_of self.old) fill (device_of self.new)) }
        ensures err { OnErr result (device_of self.new ≡ device_of self.old) }
    {
        self.image.settle(fill)?;
        self.go_on();
        Ok(())
    }
}

impl Store for MemoryDisk {
    ghost use Rattle.hd_store.specs.MemoryDisk.{device_of};

    ghost device = { device_of };

    ghost small = { λ disk. disk.image.small };

    fn len(&mut self) -> Result<u64, StoreError> {
        if self.plan.failures == MOST_FAILURES || self.plan.reads.is_down() {
            self.plan.count();
            return Err(StoreError::Failed);
        }
        Ok(self.image.bytes().len() as u64)
    }

    fn read_at(&mut self, at: u64, into: &mut [u8]) -> Result<(), StoreError> {
        if self.plan.read() {
            return Err(StoreError::Failed);
        }
        let at = at as usize;
        into.copy_from_slice(&self.image.bytes()[at..at + into.len()]);
        Ok(())
    }

    fn write_at(&mut self, at: u64, bytes: &[u8]) -> Result<(), StoreError> {
        self.plan.begin()?;
        let at = at as usize;
        let Some(end) = end_of(at, bytes.len()) else {
            return Err(StoreError::NoMemory);
        };
        if self.plan.changes.is_next() {
            self.image.break_write(at, bytes.len());
            self.plan.break_off();
            return Err(StoreError::Failed);
        }
        self.image.make_room(end)?;
        self.image.write(at, bytes);
        self.plan.go_on();
        Ok(())
    }

    fn sync(&mut self) -> Result<(), StoreError> {
        self.plan.begin()?;
        if self.plan.changes.is_next() {
            self.image.break_sync();
            self.plan.break_off();
            return Err(StoreError::Failed);
        }
        self.image.sync();
        self.plan.go_on();
        Ok(())
    }

    fn cut(&mut self, len: u64) -> Result<(), StoreError> {
        self.plan.begin()?;
        let len = len as usize;
        if self.plan.changes.is_next() {
            self.image.break_cut(len);
            self.plan.break_off();
            return Err(StoreError::Failed);
        }
        self.image.cut(len);
        self.plan.go_on();
        Ok(())
    }

    fn failures(&self) -> u64 {
        self.plan.failures
    }
}
