//! The bytes of a disk in memory, and which of them a stop leaves alone.
ghost use Rattle.std.specs.Prelude.{◌≡◌, ◌+◌, ◌<◌, ◌≤◌, ◌^◌, ℕ, Bool, true, false, not, ◌&&◌, ◌||◌, nat_lt, nat_le, [], length, take, drop, max, min, slice_index, slice_index_or, IfOk, OnOk, OnErr, if◌then◌else◌};
ghost use Rattle.std.specs.Vec.{vec_capacity};
ghost use Rattle.hd_store.specs.Bytes.{written_over, is_in_range};

use hd_base::NoMemory;
use std::alloc::Global;

/// How many bytes there is room for at least, once there is any.
const LEAST_ROOM: usize = 64;

/// What is kept of a disk in memory.
#[derive(Drop)]
pub(crate) struct Platter {
    /// What is read, and after its length what a cut took off since the last sync.
    pub(crate) bytes: Vec<u8>,
    pub(crate) len: usize,
    /// Of each place below the length at the last sync, whether it was written since then.
    pub(crate) written: Vec<bool>,
    /// No place below it was written since then, and nothing was cut there.
    low: usize,
    /// The least and the greatest length since then.
    pub(crate) least: usize,
    pub(crate) greatest: usize,
    ghost within: { len ≤ length bytes.items },
    ghost covered: { length written.items ≤ length bytes.items },
    ghost small: { length bytes.items < 2 ^ 63 },
    ghost bounded: { greatest < 2 ^ 63 },
    ghost room: { len ≤ vec_capacity written },
    ghost low_within: { low ≤ len },
    ghost low_covered: { low ≤ length written.items },
    ghost untouched: { (place : ℕ) → place < low
        → slice_index_or written.items place false ≡ false },
}

/// Writes bytes over what is held, and past its end, if there is room for them.
fn write_over(held: &mut Vec<u8>, at: usize, bytes: &[u8])
    requires within { at ≤ length held.old.items }
    requires room { length held.old.items < at + length bytes.now
        → at + length bytes.now ≤ vec_capacity held.old }
    ensures { held.new.items ≡ written_over held.old.items at bytes.now }
{
    let inside = bytes.len().min(held.len() - at);
    if held.extend_from_slice(&bytes[inside..]).is_err() {
        unreachable!();
    }
    held[at..at + inside].copy_from_slice(&bytes[..inside]);
}

/// Marks the places from one on and below another.
fn mark(marks: &mut [bool], from: usize, to: usize)
    requires { to ≤ length marks.old }
    ensures { (place : ℕ) → place < length marks.old
        → slice_index_or marks.new place false
        ≡ (nat_le from place && nat_lt place to) || slice_index_or marks.old place false }
{
    for place in from..to {
        marks[place] = true;
    }
}

/// Fills the bytes that are marked.
fn fill_marked(bytes: &mut [u8], marks: &[bool], fill: u8)
    requires { length marks.now ≤ length bytes.old }
    ensures { (place : ℕ) → place < length bytes.old → slice_index bytes.new place
        ≡ (if slice_index_or marks.now place false then fill else slice_index bytes.old place) }
{
    for (place, marked) in marks.iter().enumerate() {
        if *marked {
            bytes[place] = fill;
        }
    }
}

impl Platter {
    ghost use Rattle.hd_store.specs.Platter.{content_of, HasByteRoom, IsAllSure, IsFilledUp, IsUnchanged};

    /// Returns a platter that holds nothing. It does not allocate.
    pub(crate) fn new(alloc: Global) -> Platter
        ensures sure { IsAllSure result }
        ensures bytes { result.bytes.items ≡ [] }
    {
        Platter {
            bytes: Vec::new(alloc),
            len: 0,
            written: Vec::new(alloc),
            low: 0,
            least: 0,
            greatest: 0,
        }
    }

    /// Returns these bytes, all of them sure.
    pub(crate) fn of(alloc: Global, bytes: Vec<u8>) -> Result<Platter, NoMemory>
        ensures sure { IfOk result IsAllSure }
        ensures bytes { IfOk result (λ platter. platter.bytes.items ≡ bytes.items) }
    {
        let len = bytes.len();
        let mut written = Vec::new(alloc);
        written.resize(len, false)?;
        Ok(Platter {
            bytes,
            len,
            written,
            low: len,
            least: len,
            greatest: len,
        })
    }

    /// Makes room for so many bytes, if there are not so many; what is held stays.
    pub(crate) fn make_room(&mut self, end: usize) -> Result<(), NoMemory>
        ensures same { IsUnchanged self.old self.new }
        ensures room { OnOk result (HasByteRoom self.new end) }
        ensures grows { OnErr result (self.old.len < end) }
    {
        if end <= self.len {
            return Ok(());
        }
        let wanted = end.max(LEAST_ROOM);
        self.bytes.reserve(wanted.saturating_sub(self.bytes.len()))?;
        self.written
            .reserve(wanted.saturating_sub(self.written.len()))
    }

    /// Records that the range from `at` to `end` was written, or may have been.
    pub(crate) fn touch(&mut self, at: usize, end: usize)
        requires order { at ≤ end }
        requires within { at ≤ self.old.len }
        requires small { end < 2 ^ 63 }
        ensures bytes { self.new.bytes.items ≡ self.old.bytes.items }
        ensures len { self.new.len ≡ self.old.len }
        ensures count { length self.new.written.items ≡ length self.old.written.items }
        ensures marks { (place : ℕ) → place < length self.old.written.items
            → slice_index_or self.new.written.items place false
            ≡ (nat_le at place && nat_lt place end)
            || slice_index_or self.old.written.items place false }
        ensures least { self.new.least ≡ self.old.least }
        ensures greatest { self.new.greatest ≡ max self.old.greatest end }
    {
        let past = end.min(self.written.len());
        mark(&mut self.written, at, past);
        self.low = self.low.min(at);
        self.greatest = self.greatest.max(end);
    }

    /// Writes bytes if there is room for them.
    pub(crate) fn write(&mut self, at: usize, bytes: &[u8])
        requires within { at ≤ self.old.len }
        requires small { at + length bytes.now < 2 ^ 63 }
        requires room { HasByteRoom self.old (at + length bytes.now) }
        ensures content { content_of self.new ≡ written_over (content_of self.old) at bytes.now }
        ensures others { (place : ℕ) → place < length self.old.bytes.items
            → is_in_range at (length bytes.now) place ≡ false
            → slice_index self.new.bytes.items place ≡ slice_index self.old.bytes.items place }
        ensures count { length self.new.written.items ≡ length self.old.written.items }
        ensures marks { (place : ℕ) → place < length self.old.written.items
            → slice_index_or self.new.written.items place false
            ≡ is_in_range at (length bytes.now) place
            || slice_index_or self.old.written.items place false }
        ensures least { self.new.least ≡ self.old.least }
        ensures greatest { self.new.greatest ≡ max self.old.greatest (at + length bytes.now) }
    {
        let end = at + bytes.len();
        write_over(&mut self.bytes, at, bytes);
        self.len = self.len.max(end);
        self.touch(at, end);
    }

    /// Cuts what is read to a length within it.
    pub(crate) fn cut(&mut self, len: usize)
        requires { len ≤ self.old.len }
        ensures bytes { self.new.bytes.items ≡ self.old.bytes.items }
        ensures marks { self.new.written.items ≡ self.old.written.items }
        ensures len { self.new.len ≡ len }
        ensures least { self.new.least ≡ min self.old.least len }
        ensures greatest { self.new.greatest ≡ self.old.greatest }
    {
        self.len = len;
        self.low = self.low.min(len);
        self.least = self.least.min(len);
    }

    /// Records that a cut to `len` may have been done, but is not read.
    pub(crate) fn shrink(&mut self, len: usize)
        ensures bytes { self.new.bytes.items ≡ self.old.bytes.items }
        ensures marks { self.new.written.items ≡ self.old.written.items }
        ensures len { self.new.len ≡ self.old.len }
        ensures least { self.new.least ≡ min self.old.least len }
        ensures greatest { self.new.greatest ≡ self.old.greatest }
    {
        self.least = self.least.min(len);
    }

    /// Makes what is read sure from now on.
    pub(crate) fn make_sure(&mut self)
        ensures sure { IsAllSure self.new }
        ensures content { self.new.bytes.items ≡ content_of self.old }
    {
        self.written.truncate(self.low);
        if self.written.resize(self.len, false).is_err() {
            unreachable!();
        }
        self.bytes.truncate(self.len);
        self.low = self.len;
        self.least = self.len;
        self.greatest = self.len;
    }

    /// Fills each byte that is not sure with `fill`, up to the greatest length; all of it is sure.
    fn fill_up(&mut self, fill: u8)
        requires room { HasByteRoom self.old self.old.greatest }
        ensures { IsFilledUp self.old fill self.new }
    {
        let sure = self.written.len();
        fill_marked(&mut self.bytes, &self.written, fill);
        self.bytes.truncate(sure);
        self.written.clear();
        if self.bytes.resize(self.greatest, fill).is_err()
            || self.written.resize(self.greatest, false).is_err()
        {
            unreachable!();
        }
        self.len = self.greatest;
        self.low = self.greatest;
        self.least = self.greatest;
    }

    /// Keeps what a stop leaves if each unsafe byte is `fill` then and the length is the greatest.
    /// All of it is safe.
    pub(crate) fn stop(&mut self, fill: u8) -> Result<(), NoMemory>
        ensures ok { OnOk result (IsFilledUp self.old fill self.new) }
        ensures err { OnErr result (IsUnchanged self.old self.new) }
    {
        self.make_room(self.greatest)?;
        self.fill_up(fill);
        Ok(())
    }
}
