//! Atoms in bytes.
ghost use Rattle.std.specs.Prelude.{◌≡◌, ◌≤◌, ◌<◌, ◌++◌, ◌/◌, IfOk, length, map};
ghost use Rattle.std.specs.List.{range_with_len};
ghost use Rattle.hd_pack.specs.Packing.{byte_of, atom_bytes, atom_in, bytes_for, flipped};

use hd_base::NoMemory;
use smallvec::SmallVec;
use std::alloc::Global;

/// How many bytes of a packing may stand in the packing itself: five fluents and 64 atoms, say.
pub(crate) const IN_PLACE: usize = 48;

/// The bytes of a packing. A few of them stand in the packing itself: so a state of few atoms and
/// fluents takes no block of the allocator, which one thread would have to take and another to give
/// back where states go from worker to worker.
pub(crate) type Bytes = SmallVec<u8, IN_PLACE>;

/// Returns a copy of `bytes`. If they are too many to stand in place, they are copied into their
/// block alone.
///
/// # Errors
/// - `NoMemory`: there is no room for the block.
pub(crate) fn copy_of(alloc: Global, bytes: &[u8]) -> Result<Bytes, NoMemory>
    ensures { IfOk result (λ b. b.items ≡ bytes.now) }
{
    if bytes.len() <= IN_PLACE {
        return SmallVec::from_slice(alloc, bytes);
    }
    let mut block = Vec::with_capacity(alloc, bytes.len())?;
    block.extend_from_slice(bytes)?;
    Ok(SmallVec::from_vec(block))
}

/// Returns how many bytes so many atoms take.
pub(crate) fn bytes_for(atoms: usize) -> usize
    ensures { result ≡ bytes_for atoms }
{
    atoms.div_ceil(8)
}

/// Returns the byte of at most eight bits, the least first.
#[tactic(auto, using(crate::proofs::AtomBits::byte_fits))]
fn byte_of(bits: &[bool]) -> u8
    requires { length bits.now ≤ 8 }
    ensures { result ≡ byte_of bits.now }
{
    match bits {
        [] => 0,
        [first, after @ ..] => *first as u8 + 2 * byte_of(after),
    }
}

/// Appends the bytes of atoms, eight atoms a byte.
#[tactic(auto, using(crate::proofs::AtomBits::atoms_next, crate::proofs::AtomBits::atoms_last))]
pub(crate) fn push_atoms(bytes: &mut Bytes, atoms: &[bool]) -> Result<(), NoMemory>
    ensures { IfOk result (λ _. bytes.new.items ≡ bytes.old.items ++ atom_bytes atoms.now) }
{
    let mut rest = atoms;
    while rest.len() >= 8 {
        let (first, after) = rest.split_at(8);
        bytes.push(byte_of(first))?;
        rest = after;
    }
    if !rest.is_empty() {
        bytes.push(byte_of(rest))?;
    }
    Ok(())
}

/// Returns the atom of this number.
pub(crate) fn atom_in(bytes: &[u8], atom: usize) -> bool
    requires { atom / 8 < length bytes.now }
    ensures { result ≡ atom_in bytes.now atom }
{
    (bytes[atom / 8] >> (atom % 8)) % 2 == 1
}

/// Turns the atom of this number round.
pub(crate) fn flip_atom(bytes: &mut Bytes, atom: usize)
    requires { atom / 8 < length bytes.old.items }
    ensures { bytes.new.items ≡ flipped bytes.old.items atom }
{
    bytes.as_mut_slice()[atom / 8] ^= 1 << (atom % 8);
}

/// Returns the first atoms, as many as asked, in a vector with room for as many as said.
#[tactic(auto, using(crate::proofs::AtomBits::atoms_more))]
pub(crate) fn atoms_in(
    alloc: Global,
    bytes: &[u8],
    count: usize,
    room: usize,
) -> Result<Vec<bool>, NoMemory>
    requires { bytes_for count ≤ length bytes.now }
    ensures { IfOk result (λ v. v.items ≡ map (atom_in bytes.now) (range_with_len 0 count)) }
{
    let mut atoms = Vec::with_capacity(alloc, room)?;
    for atom in 0..count {
        atoms.push(atom_in(bytes, atom))?;
    }
    Ok(atoms)
}
