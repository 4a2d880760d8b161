//! Bytes of which some are shared with others.
//!
//! Calls pass the segments one by one, also on the stack. So let there be few.
ghost use Rattle.std.specs.Prelude.{◌≡◌, ◌+◌, ◌<◌, ◌≤◌, ◌++◌, [], true, false, length, get_or, nat_eq, take, drop, IfOk, IfSome, IfNone};
ghost use Rattle.std.specs.Cmp.Lexicographic.{pointwise};
ghost use Rattle.hd_pack.specs.Splitting.{agrees, merged, own_bytes, own_width, AreInside, AreWithin};

use hd_base::NoMemory;
use std::alloc::Global;
use std::marker::Model;

/// A segment of a packing: bytes that it shares with a base, and then bytes that it has for itself.
#[derive(Clone, Copy, Debug)]
pub struct Segment {
    /// How many are shared.
    pub shared: usize,
    /// How many are its own.
    pub own: usize,
}

/// The bytes of a packing that has only some bytes of its own, and shares the others with a base.
/// Contracts see all of them, in their order.
///
/// After the last segment all bytes are the base's.
#[derive(Debug, Drop)]
pub struct SplitBytes<'r> {
    segments: &'r [Segment],
    base: &'r [u8],
    own: &'r [u8],
}

impl<'r> Model for SplitBytes<'r> {
    ghost use Rattle.std.specs.Prelude.{ℕ, List};
    ghost use Rattle.hd_pack.specs.Splitting.{merged, AreWithin};

    ghost Value = { List ℕ };

    ghost view = { λ b. merged b.segments.now b.base.now b.own.now };

    ghost invariant = { λ b. AreWithin b.segments.now b.base.now b.own.now };
}

/// Reports whether bytes are equal to split ones.
fn are_equal(segments: &[Segment], base: &[u8], own: &[u8], bytes: &[u8]) -> bool
    requires within { AreWithin segments.now base.now own.now }
    requires len { length bytes.now ≡ length base.now }
    ensures { result ≡ pointwise nat_eq (merged segments.now base.now own.now) bytes.now }
{
    match segments {
        [] => base == bytes,
        [segment, after @ ..] => {
            let (shared, rest) = base.split_at(segment.shared);
            let (_, base_after) = rest.split_at(segment.own);
            let (own_here, own_after) = own.split_at(segment.own);
            let (first, rest) = bytes.split_at(segment.shared);
            let (second, bytes_after) = rest.split_at(segment.own);
            if shared != first {
                return false;
            }
            if own_here != second {
                return false;
            }
            are_equal(after, base_after, own_after, bytes_after)
        }
    }
}

/// Reports whether `bytes` has the base's bytes at all shared places.
pub fn agree(segments: &[Segment], base: &[u8], bytes: &[u8]) -> bool
    requires inside { AreInside segments.now base.now }
    requires len { length bytes.now ≡ length base.now }
    ensures { result ≡ agrees segments.now base.now bytes.now }
{
    match segments {
        [] => base == bytes,
        [segment, after @ ..] => {
            let (shared, rest) = base.split_at(segment.shared);
            let (_, base_after) = rest.split_at(segment.own);
            let (first, rest) = bytes.split_at(segment.shared);
            let (_, bytes_after) = rest.split_at(segment.own);
            if shared != first {
                return false;
            }
            agree(after, base_after, bytes_after)
        }
    }
}

/// Returns the byte at a place.
fn byte_at(segments: &[Segment], base: &[u8], own: &[u8], place: usize) -> u8
    requires within { AreWithin segments.now base.now own.now }
    requires place { place < length base.now }
    ensures { result ≡ get_or (merged segments.now base.now own.now) place 0 }
{
    match segments {
        [] => base[place],
        [segment, after @ ..] => {
            if place < segment.shared {
                return base[place];
            }
            let end = segment.shared + segment.own;
            if place < end {
                return own[place - segment.shared];
            }
            byte_at(after, &base[end..], &own[segment.own..], place - end)
        }
    }
}

/// Returns the eight bytes from a place on.
fn eight_of(bytes: &[u8], place: usize) -> [u8; 8]
    requires { place + 8 ≤ length bytes.now }
    ensures { result ≡ take 8 (drop place bytes.now) }
{
    let mut eight = [0; 8];
    eight.copy_from_slice(&bytes[place..place + 8]);
    eight
}

/// Returns the eight bytes from a place on, if all of them are shared, or all of them own bytes of
/// one segment.
fn eight_together(segments: &[Segment], base: &[u8], own: &[u8], place: usize) -> Option<[u8; 8]>
    requires within { AreWithin segments.now base.now own.now }
    requires place { place + 8 ≤ length base.now }
    ensures { IfSome result
        (λ eight. eight ≡ take 8 (drop place (merged segments.now base.now own.now))) }
{
    match segments {
        [] => Some(eight_of(base, place)),
        [segment, after @ ..] => {
            // So that it is known that the sums fit.
            let _len = base.len();
            if place + 8 <= segment.shared {
                return Some(eight_of(base, place));
            }
            let end = segment.shared + segment.own;
            if place >= end {
                let (_, rest) = base.split_at(segment.shared);
                let (_, base_after) = rest.split_at(segment.own);
                let (_, own_after) = own.split_at(segment.own);
                return eight_together(after, base_after, own_after, place - end);
            }
            if segment.shared <= place && place + 8 <= end {
                return Some(eight_of(own, place - segment.shared));
            }
            None
        }
    }
}

/// Writes split bytes over others, which are as many.
fn write(segments: &[Segment], base: &[u8], own: &[u8], into: &mut [u8])
    requires within { AreWithin segments.now base.now own.now }
    requires len { length into.old ≡ length base.now }
    ensures { into.new ≡ merged segments.now base.now own.now }
{
    match segments {
        [] => into.copy_from_slice(base),
        [segment, after @ ..] => {
            let (shared, rest) = base.split_at(segment.shared);
            let (_, base_after) = rest.split_at(segment.own);
            let (own_here, own_after) = own.split_at(segment.own);
            let (first, rest) = into.split_at_mut(segment.shared);
            first.copy_from_slice(shared);
            let (second, into_after) = rest.split_at_mut(segment.own);
            second.copy_from_slice(own_here);
            write(after, base_after, own_after, into_after);
        }
    }
}

/// Adds the own bytes of the packing `bytes` to others.
fn add_own(segments: &[Segment], bytes: &[u8], into: &mut Vec<u8>) -> Result<(), NoMemory>
    requires inside { AreInside segments.now bytes.now }
    ensures { IfOk result (λ _. into.new.items ≡ into.old.items ++ own_bytes segments.now bytes.now) }
{
    match segments {
        [] => Ok(()),
        [segment, after @ ..] => {
            let (_, rest) = bytes.split_at(segment.shared);
            let (own, bytes_after) = rest.split_at(segment.own);
            into.extend_from_slice(own)?;
            add_own(after, bytes_after, into)
        }
    }
}

/// Adds the own bytes of the packing `bytes` to others, if its other bytes are the base's, and
/// reports whether they are. If not, nothing is added.
///
/// # Errors
/// - `NoMemory`: there is no room for them. Those of the first segments may have been added.
#[tactic(auto, using(crate::proofs::Splitting::inside_as))]
pub fn push_own(
    segments: &[Segment],
    base: &[u8],
    bytes: &[u8],
    into: &mut Vec<u8>,
) -> Result<bool, NoMemory>
    requires inside { AreInside segments.now base.now }
    requires len { length bytes.now ≡ length base.now }
    ensures agrees { IfOk result (λ same. same ≡ agrees segments.now base.now bytes.now) }
    ensures own { IfOk result (λ same. same ≡ true
        → into.new.items ≡ into.old.items ++ own_bytes segments.now bytes.now) }
    ensures none { IfOk result (λ same. same ≡ false → into.new.items ≡ into.old.items) }
{
    if agree(segments, base, bytes) {
        add_own(segments, bytes, into)?;
        Ok(true)
    } else {
        Ok(false)
    }
}

/// Returns how many bytes of its own a packing has; none where the base is too short for the segments.
pub fn own_width(segments: &[Segment], base: &[u8]) -> Option<usize>
    ensures inside { IfSome result (λ _. AreInside segments.now base.now) }
    ensures width { IfSome result (λ width. width ≡ own_width segments.now) }
    ensures few { IfSome result (λ width. width ≤ length base.now) }
    ensures none { IfNone result (AreInside segments.now base.now → ⊥) }
{
    match segments {
        [] => Some(0),
        [segment, after @ ..] => {
            let len = base.len();
            if len < segment.shared || len - segment.shared < segment.own {
                return None;
            }
            let (_, rest) = base.split_at(segment.shared);
            let (_, base_after) = rest.split_at(segment.own);
            let width = own_width(after, base_after)?;
            Some(segment.own + width)
        }
    }
}

impl<'r> SplitBytes<'r> {
    /// Returns bytes of which none is shared.
    pub fn whole(bytes: &'r [u8]) -> SplitBytes<'r>
        ensures { result ≡ bytes.now }
    {
        SplitBytes {
            segments: &[],
            base: bytes,
            own: &[],
        }
    }

    /// Returns the bytes of a base, but for the own ones of the segments.
    pub fn of(segments: &'r [Segment], base: &'r [u8], own: &'r [u8]) -> SplitBytes<'r>
        requires { AreWithin segments.now base.now own.now }
        ensures { result ≡ merged segments.now base.now own.now }
    {
        SplitBytes {
            segments,
            base,
            own,
        }
    }

    /// Returns the bytes, if none is shared.
    #[inline(always)]
    pub fn as_whole(&self) -> Option<&'r [u8]>
        ensures { IfSome result (λ bytes. bytes.now ≡ self.now) }
    {
        if self.segments.is_empty() {
            Some(self.base)
        } else {
            None
        }
    }

    /// Returns the base, which has as many bytes.
    pub(crate) fn base(&self) -> &'r [u8]
        ensures { length result.now ≡ length self.now }
    {
        self.base
    }

    /// Returns how many there are.
    #[inline(always)]
    pub fn len(&self) -> usize
        ensures { result ≡ length self.now }
    {
        self.base.len()
    }

    /// Returns the byte at a place.
    #[inline(always)]
    pub fn byte(&self, place: usize) -> u8
        requires { place < length self.now }
        ensures { result ≡ get_or self.now place 0 }
    {
        if self.segments.is_empty() {
            return self.base[place];
        }
        byte_at(self.segments, self.base, self.own, place)
    }

    /// Returns the eight bytes from a place on.
    #[inline(always)]
    pub fn eight(&self, place: usize) -> [u8; 8]
        requires { place + 8 ≤ length self.now }
        ensures { result ≡ take 8 (drop place self.now) }
    {
        if self.segments.is_empty() {
            return eight_of(self.base, place);
        }
        // So that it is known that the sums fit.
        let _len = self.len();
        if let Some(eight) = eight_together(self.segments, self.base, self.own, place) {
            return eight;
        }
        [
            self.byte(place),
            self.byte(place + 1),
            self.byte(place + 2),
            self.byte(place + 3),
            self.byte(place + 4),
            self.byte(place + 5),
            self.byte(place + 6),
            self.byte(place + 7),
        ]
    }

    /// Returns a list of them.
    ///
    /// # Errors
    /// - `NoMemory`: there is no room for it.
    pub fn to_vec(&self, alloc: Global) -> Result<Vec<u8>, NoMemory>
        ensures { IfOk result (λ v. v.items ≡ self.now) }
    {
        let mut bytes = Vec::from_slice(alloc, self.base)?;
        write(self.segments, self.base, self.own, bytes.as_mut_slice());
        Ok(bytes)
    }

    /// Reports whether they are equal to others.
    #[inline(always)]
    pub fn is(&self, bytes: &[u8]) -> bool
        ensures { result ≡ pointwise nat_eq self.now bytes.now }
    {
        if self.segments.is_empty() {
            return self.base == bytes;
        }
        if bytes.len() != self.base.len() {
            return false;
        }
        are_equal(self.segments, self.base, self.own, bytes)
    }

    /// Writes them over `into`, which has as many.
    #[inline(always)]
    pub fn write_to(&self, into: &mut [u8])
        requires { length into.old ≡ length self.now }
        ensures { into.new ≡ self.now }
    {
        if self.segments.is_empty() {
            into.copy_from_slice(self.base);
            return;
        }
        write(self.segments, self.base, self.own, into);
    }
}
