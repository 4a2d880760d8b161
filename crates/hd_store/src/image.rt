//! What a disk holds, with its past.
ghost use Rattle.std.specs.Prelude.{◌≡◌, ◌+◌, ◌<◌, ◌≤◌, ◌^◌, [], length, take, slice_range, OnOk, OnErr, IfOk};
ghost use Rattle.hd_store.specs.declared.change.DiskChange.TheVariants.{Write, Cut, Sync, FailedSync};
ghost use Rattle.hd_store.specs.Bytes.{written_over};
ghost use Rattle.hd_store.specs.Past.{content_after};
ghost use Rattle.hd_store.specs.Holding.{Holds};

use crate::change::DiskChange;
use crate::history::History;
use crate::platter::Platter;
use hd_base::NoMemory;
use std::alloc::Global;

/// The bytes of a disk, and the steps that led to them.
#[derive(Drop)]
pub(crate) struct Image {
    held: Platter,
    history: History,
    ghost holds: { Holds history.start history.steps
        held.bytes.items held.len held.written.items held.least held.greatest },
    ghost small: { length (content_after history.start history.steps) < 2 ^ 63 },
}

impl Image {
    ghost use Rattle.hd_store.specs.Platter.{IsAllSure};
    ghost use Rattle.hd_store.specs.Image.{content, CanHold, IsLike, IsStarted, Steps};

    /// Returns an image of no bytes, with no past. It does not allocate.
    pub(crate) fn new(alloc: Global) -> Image
        ensures { IsStarted result [] }
    {
        Image::of_synced(Platter::new(alloc))
    }

    /// Returns these bytes, and no past.
    pub(crate) fn of(alloc: Global, bytes: Vec<u8>) -> Result<Image, NoMemory>
        ensures { IfOk result (λ image. IsStarted image bytes.items) }
    {
        Ok(Image::of_synced(Platter::of(alloc, bytes)?))
    }

    /// Returns an image of what is held, all of which is synced.
    fn of_synced(held: Platter) -> Image
        requires { IsAllSure held }
        ensures { IsStarted result held.bytes.items }
    {
        let history = History::of(&held);
        Image { held, history }
    }

    /// Returns what a read gives.
    pub(crate) fn bytes(&self) -> &[u8]
        ensures { result.now ≡ content self.now }
    {
        &self.held.bytes[..self.held.len]
    }

    /// Makes room for so many bytes, if there are not so many.
    pub(crate) fn make_room(&mut self, end: usize) -> Result<(), NoMemory>
        ensures same { IsLike self.old self.new }
        ensures room { OnOk result (CanHold self.new end) }
        ensures grows { OnErr result (length (content self.old) < end) }
    {
        self.held.make_room(end)
    }

    /// Writes `bytes` at `at`, for which there is room.
    pub(crate) fn write(&mut self, at: usize, bytes: &[u8])
        requires within { at ≤ length (content self.old) }
        requires small { at + length bytes.now < 2 ^ 63 }
        requires room { CanHold self.old (at + length bytes.now) }
        ensures { Steps self.old (Write at (length bytes.now))
            (written_over (content self.old) at bytes.now) self.new }
    {
        self.held.write(at, bytes);
        let change = DiskChange::Write(at as u64, bytes.len() as u64);
        self.history = History::with_step(&self.history, &change, &self.held);
    }

    /// Records a write of `count` bytes at `at` that was begun and failed; what is read stays.
    pub(crate) fn break_write(&mut self, at: usize, count: usize)
        requires within { at ≤ length (content self.old) }
        requires small { at + count < 2 ^ 63 }
        ensures { Steps self.old (Write at count) (content self.old) self.new }
    {
        self.held.touch(at, at + count);
        let change = DiskChange::Write(at as u64, count as u64);
        self.history = History::with_step(&self.history, &change, &self.held);
    }

    /// Cuts what is read to `len` bytes.
    pub(crate) fn cut(&mut self, len: usize)
        requires { len ≤ length (content self.old) }
        ensures { Steps self.old (Cut len) (take len (content self.old)) self.new }
    {
        self.held.cut(len);
        self.history = History::with_step(&self.history, &DiskChange::Cut(len as u64), &self.held);
    }

    /// Records a cut to `len` bytes that was begun and failed; what is read stays.
    pub(crate) fn break_cut(&mut self, len: usize)
        ensures { Steps self.old (Cut len) (content self.old) self.new }
    {
        self.held.shrink(len);
        self.history = History::with_step(&self.history, &DiskChange::Cut(len as u64), &self.held);
    }

    /// Syncs the image: all that is read is sure from now on.
    pub(crate) fn sync(&mut self)
        ensures { Steps self.old Sync (content self.old) self.new }
    {
        self.held.make_sure();
        self.history = History::with_step(&self.history, &DiskChange::Sync, &self.held);
    }

    /// Records a sync that failed.
    pub(crate) fn break_sync(&mut self)
        ensures { Steps self.old FailedSync (content self.old) self.new }
    {
        self.history = History::with_step(&self.history, &DiskChange::FailedSync, &self.held);
    }
}

impl Image {
    ghost use Rattle.hd_store.specs.Image.{IsFilledWith, IsLike};

    /// Stops and starts again: each byte that is not sure is `fill`, and the length the greatest.
    pub(crate) fn settle(&mut self, fill: u8) -> Result<(), NoMemory>
        ensures ok { OnOk result (IsFilledWith self.old fill self.new) }
        ensures err { OnErr result (IsLike self.old self.new) }
    {
        self.held.stop(fill)?;
        self.history = History::of(&self.held);
        Ok(())
    }
}
