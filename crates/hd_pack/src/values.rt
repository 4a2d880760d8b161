//! Values in bytes.
ghost use Rattle.std.specs.Prelude.{◌≡◌, ◌≤◌, ◌+◌, ◌++◌, IfOk, length, slice_get, FitsSigned};
ghost use Rattle.std.specs.Int.{w64, cast_signed, from_le_bytes};
ghost use Rattle.std.specs.List.{flat_map, AllByRecursion};
ghost use Rattle.hd_pack.specs.Packing.{value_bytes, values_in, replaced};

use crate::bits::Bytes;
use hd_base::NoMemory;
use std::alloc::Global;

/// Returns the bytes of a value.
fn value_bytes(value: &i64) -> [u8; 8]
    ensures bytes { result ≡ value_bytes value.now }
    ensures fits { FitsSigned w64 value.now }
{
    value.cast_unsigned().to_le_bytes()
}

/// Appends the bytes of values, eight each.
pub(crate) fn push_values(bytes: &mut Bytes, values: &[i64]) -> Result<(), NoMemory>
    ensures bytes { IfOk result (λ _. bytes.new.items
        ≡ bytes.old.items ++ flat_map value_bytes values.now) }
    ensures fit { IfOk result (λ _. AllByRecursion (FitsSigned w64) values.now) }
{
    let mut rest = values;
    while let [first, after @ ..] = rest {
        bytes.extend_from_slice(&value_bytes(first))?;
        rest = after;
    }
    Ok(())
}

/// Returns the value that stands in eight bytes.
fn value_in(bytes: &[u8]) -> i64
    requires { length bytes.now ≡ 8 }
    ensures { result ≡ cast_signed w64 (from_le_bytes w64 bytes.now) }
{
    let mut eight = [0; 8];
    eight.copy_from_slice(bytes);
    u64::from_le_bytes(eight).cast_signed()
}

/// Returns the values that stand in bytes, in a vector with room for as many as said.
#[tactic(auto, using(crate::proofs::Trips::values_next, crate::proofs::Trips::values_none))]
pub(crate) fn values_in(alloc: Global, bytes: &[u8], room: usize) -> Result<Vec<i64>, NoMemory>
    ensures { IfOk result (λ v. v.items ≡ values_in bytes.now) }
{
    let mut values = Vec::with_capacity(alloc, room)?;
    let mut rest = bytes;
    while rest.len() >= 8 {
        let (first, after) = rest.split_at(8);
        values.push(value_in(first))?;
        rest = after;
    }
    Ok(values)
}

/// Returns the value of this number that stands in bytes, if there are so many.
pub(crate) fn value_at(bytes: &[u8], number: u32) -> Option<i64>
    ensures { result ≡ slice_get (values_in bytes.now) number }
{
    let place = 8 * number as usize;
    if bytes.len() < place + 8 {
        return None;
    }
    Some(value_in(&bytes[place..place + 8]))
}

/// Replaces the eight bytes from a place on by those of a value.
pub(crate) fn put_value(bytes: &mut [u8], place: usize, value: &i64)
    requires { place + 8 ≤ length bytes.old }
    ensures bytes { bytes.new ≡ replaced place bytes.old (value_bytes value.now) }
    ensures length { length bytes.new ≡ length bytes.old }
    ensures fits { FitsSigned w64 value.now }
{
    bytes[place..place + 8].copy_from_slice(&value_bytes(value));
}
