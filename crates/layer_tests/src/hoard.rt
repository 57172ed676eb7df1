//! Takes all memory that can be had, so that growths are refused.
//!
//! It rests on glibc's allocator, and on address space that is not backed before it is written. It
//! does not work under `rt try`, whose sanitizer needs memory of its own: such tests run by `rt test`.

use std::alloc::{AllocError, Global};

/// The most blocks that a hoard may take.
const MAX_BLOCKS: usize = 200_000;

/// The first size of block that is tried, in bytes: half the address space of a process.
const LARGEST: usize = 1 << 46;

/// How many sizes are tried from there on, each half the one before, down to 4,096 bytes.
const HALVINGS: usize = 35;

/// How many sizes are tried from the reserve's on, each half the one before, down to 3,125 bytes.
const REST_HALVINGS: usize = 9;

/// The smallest block of which any number is taken, in bytes: below it the allocator keeps blocks by
/// their size, so that each size is taken for itself.
const SMALL: usize = 2_048;

/// The most blocks of one small size.
const MAX_OF_A_SIZE: usize = 600;

/// The bytes that are kept apart while all else is taken. No more than these can be left spare.
const RESERVE: usize = 800_000;

/// The bytes by which the allocator's block is longer than what was asked of it, and what it keeps
/// of a block that it splits.
const SPLIT: usize = 48;

/// Memory that is taken. Dropping it gives it all back.
#[derive(Drop)]
pub struct Hoard {
    alloc: Global,
    /// All but the reserve.
    blocks: Vec<Vec<u8>>,
    /// What is taken of the reserve.
    last: Vec<u8>,
    /// About how many bytes of the reserve are left.
    spare: usize,
}

impl Hoard {
    /// Takes all memory but about `spare` bytes in one piece, at most 799,000.
    ///
    /// # Errors
    ///
    /// `AllocError` where there was no room for the list of the blocks.
    pub fn take(alloc: Global, spare: usize) -> Result<Hoard, AllocError> {
        // From now on the allocator takes a block of the reserve's size from the same place as small ones.
        drop(Vec::<u8>::with_capacity(alloc, 2 * RESERVE)?);
        let mut blocks = Vec::with_capacity(alloc, MAX_BLOCKS)?;
        let reserve = Vec::with_capacity(alloc, RESERVE)?;
        let mut size = LARGEST;
        for _ in 0..HALVINGS {
            fill(alloc, &mut blocks, size, MAX_BLOCKS)?;
            size /= 2;
        }
        fill_small(alloc, &mut blocks)?;
        let mut hoard = Hoard {
            alloc,
            blocks,
            last: reserve,
            spare: 0,
        };
        hoard.give(spare);
        Ok(hoard)
    }

    /// Takes what was given back and is not in use, and what was freed since: a call that comes next finds
    /// no memory for its first growth.
    ///
    /// # Errors
    ///
    /// `AllocError` where the list of the blocks is full.
    pub fn take_rest(&mut self) -> Result<(), AllocError> {
        let mut size = RESERVE;
        for _ in 0..REST_HALVINGS {
            fill(self.alloc, &mut self.blocks, size, MAX_BLOCKS)?;
            size /= 2;
        }
        fill_small(self.alloc, &mut self.blocks)
    }

    /// Gives back about so many bytes more. With few bytes at a time between tries of one call, each of
    /// its growths is refused in turn, but for those that memory suffices for which the call itself freed.
    pub fn give(&mut self, bytes: usize) {
        self.spare = self.spare.saturating_add(bytes);
        let rest = (RESERVE - SPLIT).saturating_sub(self.spare);
        self.last = Vec::new(self.alloc);
        if let Ok(block) = Vec::with_capacity(self.alloc, rest) {
            self.last = block;
        }
    }
}

/// Takes blocks of each small size.
fn fill_small(alloc: Global, blocks: &mut Vec<Vec<u8>>) -> Result<(), AllocError> {
    for step in 0..SMALL / 16 {
        fill(alloc, blocks, SMALL - step * 16, MAX_OF_A_SIZE)?;
    }
    Ok(())
}

/// Takes blocks of this size, until one is refused or there are `most` of them.
fn fill(
    alloc: Global,
    blocks: &mut Vec<Vec<u8>>,
    size: usize,
    most: usize,
) -> Result<(), AllocError> {
    for _ in 0..most {
        let Ok(block) = Vec::with_capacity(alloc, size) else {
            return Ok(());
        };
        blocks.push(block)?;
    }
    Ok(())
}
