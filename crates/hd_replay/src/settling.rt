//! Disks that a stop left.
ghost use Rattle.std.specs.Prelude.{◌≡◌, ◌⊎◌, List, ℕ, IfOk};
ghost use Rattle.hd_store.specs.MemoryDisk.{device_of, IsStarted, IsStoppedDevice};
ghost use Rattle.hd_world.specs.Filling.{Filled};

use hd_base::NoMemory;
use hd_store::MemoryDisk;
use std::alloc::Global;

/// Returns what a stop leaves of a disk, where each byte that is not sure reads this one and the
/// length is the greatest: a disk that holds it for sure, and of which nothing else is known.
///
/// # Errors
/// - `NoMemory`.
pub(crate) fn settled(alloc: Global, disk: MemoryDisk, byte: u8) -> Result<MemoryDisk, NoMemory>
    ensures { IfOk result (λ left. (content : List ℕ) × Filled (device_of disk) byte content
        × IsStarted left content) }
{
    let mut disk = disk;
    disk.settle(byte)?;
    MemoryDisk::of(alloc, Vec::from_slice(alloc, disk.bytes())?)
}

/// Starts a disk again after a stop, where each byte that is not sure reads 0 and the length is the
/// greatest. Returns another disk that holds for sure what it then reads, and of which nothing else
/// is known.
///
/// # Errors
/// - `NoMemory`.
pub(crate) fn restarted(alloc: Global, disk: &mut MemoryDisk) -> Result<MemoryDisk, NoMemory>
    ensures left { IfOk result (λ left. (content : List ℕ)
        × Filled (device_of disk.old) 0 content × IsStarted left content) }
    ensures kept { (device_of disk.new ≡ device_of disk.old)
        ⊎ IsStoppedDevice (device_of disk.old) 0 (device_of disk.new) }
{
    disk.settle(0)?;
    MemoryDisk::of(alloc, Vec::from_slice(alloc, disk.bytes())?)
}
