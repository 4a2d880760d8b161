//! Blocks of packings that are not needed any more.
ghost use Rattle.std.specs.Prelude.{◌≡◌, IfOk};

use crate::bits::{Bytes, IN_PLACE, copy_of};
use crate::{Packed, SplitBytes};
use hd_base::NoMemory;
use smallvec::SmallVec;
use std::alloc::Global;

/// Blocks of packings that are not needed any more. A new packing takes one of them, and asks the
/// allocator only if there is none of its length. Packings that stand in place need no block.
#[derive(Debug, Drop)]
pub struct SpareBlocks {
    alloc: Global,
    /// How many blocks are kept at most.
    most: usize,
    blocks: Vec<Bytes>,
}

impl SpareBlocks {
    /// Returns no blocks, of which at most `most` will be kept. It does not allocate.
    pub fn none(alloc: Global, most: usize) -> SpareBlocks {
        SpareBlocks {
            alloc,
            most,
            blocks: Vec::new(alloc),
        }
    }

    /// Returns the allocator that is asked if no block fits.
    pub fn alloc(&self) -> Global {
        self.alloc
    }

    /// Keeps the block of a packing, if it has one, and not too many are kept. It does not
    /// allocate.
    pub fn keep(&mut self, packed: Packed) {
        let bytes = packed.into_bytes();
        if bytes.len() > IN_PLACE && self.blocks.len() < self.blocks.capacity() {
            match self.blocks.push(bytes) {
                Ok(()) => {}
                Err(_) => unreachable!(),
            }
        }
    }

    /// Returns a copy of `bytes`. If they are too many to stand in place, and no block of as many
    /// is kept, they take a block of their own.
    ///
    /// # Errors
    /// - `NoMemory`: there is no room for the block, or for the list of those that will be kept.
    #[inline(always)]
    pub(crate) fn copy_of(&mut self, bytes: &[u8]) -> Result<Bytes, NoMemory>
        ensures { IfOk result (λ b. b.items ≡ bytes.now) }
    {
        if bytes.len() <= IN_PLACE {
            return SmallVec::from_slice(self.alloc, bytes);
        }
        if let Some(mut block) = self.blocks.pop() {
            if block.len() == bytes.len() {
                block.as_mut_slice().copy_from_slice(bytes);
                return Ok(block);
            }
        }
        if self.blocks.capacity() < self.most {
            self.blocks.reserve_exact(self.most)?;
        }
        copy_of(self.alloc, bytes)
    }

    /// Returns a copy of all of split bytes, as [`SpareBlocks::copy_of`] returns one of others.
    ///
    /// # Errors
    /// - `NoMemory`: there is no room for the block, or for the list of those that will be kept.
    pub(crate) fn copy_of_split(&mut self, bytes: &SplitBytes<'_>) -> Result<Bytes, NoMemory>
        ensures { IfOk result (λ b. b.items ≡ bytes.now) }
    {
        if let Some(whole) = bytes.as_whole() {
            return self.copy_of(whole);
        }
        let mut copy = self.copy_of(bytes.base())?;
        bytes.write_to(copy.as_mut_slice());
        Ok(copy)
    }
}
