//! Blocks of consecutive entries of a list, with the bits that all entries of a block have.

ghost use Rattle.std.specs.Prelude.{◌≡◌, ◌+◌, ◌*◌, ◌<◌, ◌≤◌, ◌^◌, ◌/◌, ◌↔◌, [], length, take, drop, IfSome, IsFalse, OnOk, OnErr};
ghost use Rattle.support_table.specs.Blocks.{block_size, AreBlocks, AreKept, IsBlockPushed, IsBlockWords, KeepsCommon};
ghost use Rattle.support_table.specs.Tables.{AreInUnion};

use out_of_memory::NoMemory;
use std::alloc::Global;
use support_bits::{Support, are_covered};

/// The number of entries of a block.
pub const BLOCK: usize = 32;

/// The `width` words of `words` from index `start` on.
pub fn part(words: &[u64], start: usize, width: usize) -> &[u64]
    requires { start + width ≤ length words.now }
    ensures { result.now ≡ take width (drop start words.now) }
{
    &words[start..start + width]
}

/// Clears each bit of `blocks` that is not set in `words`, from the word with index `start` on.
pub fn keep_common(blocks: &mut Vec<u64>, start: usize, words: &[u64])
    requires { start + length words.now ≤ length blocks.old.items }
    ensures { KeepsCommon start (length words.now) words.now blocks.old.items blocks.new.items }
{
    for (k, word) in words.iter().enumerate() {
        blocks[start + k] &= *word;
    }
}

/// Whether the bit of a column outside the union of `a` and `b` is set in `common`.
pub fn has_outside(common: &[u64], a: &Support, b: &Support) -> bool
    requires first { length common.now ≡ (length a.now + 63) / 64 }
    requires second { length common.now ≡ (length b.now + 63) / 64 }
    ensures { IsFalse result ↔ AreInUnion common.now a.now b.now }
{
    !are_covered(common, a.words(), b.words())
}

/// A block of entries: `words` has `width` words for each entry, and the first entry of the block has index `first`.
/// Invariant: `words` has all entries of the block.
#[derive(Clone, Copy)]
struct BlockOf<'a> {
    words: &'a [u64],
    width: usize,
    first: usize,
    ghost within: { (first + block_size) * width ≤ length words.now },
    ghost room: { first + block_size < 2 ^ 64 },
}

/// Appends to `blocks` the bits that are set in each entry of `block`. If memory runs out `blocks` is unchanged.
fn push_block(block: BlockOf, blocks: &mut Vec<u64>) -> Result<(), NoMemory>
    ensures pushed { OnOk result (IsBlockPushed block.entry.width block.entry.first block.entry.words.now
        blocks.old.items blocks.new.items) }
    ensures stays { OnErr result (blocks.new.items ≡ blocks.old.items) }
{
    let BlockOf {
        words,
        width,
        first,
    } = block;
    let start = blocks.len();
    blocks.extend_from_slice(part(words, first * width, width))?;
    for k in 1..BLOCK {
        keep_common(blocks, start, part(words, (first + k) * width, width));
    }
    Ok(())
}

/// The first `closed` blocks of a list whose entries have equally many words. `words` has as many for each block, with
/// bits that are set in each of its entries.
#[derive(Drop)]
pub struct ClosedBlocks {
    pub closed: usize,
    pub words: Vec<u64>,
}

impl ClosedBlocks {
    /// No blocks.
    pub fn new(alloc: Global) -> ClosedBlocks
        ensures closed { result.closed ≡ 0 }
        ensures words { result.words.items ≡ [] }
    {
        ClosedBlocks {
            closed: 0,
            words: Vec::new(alloc),
        }
    }

    /// Removes all blocks.
    pub fn clear(&mut self)
        ensures closed { self.new.closed ≡ 0 }
        ensures words { self.new.words.items ≡ [] }
    {
        self.closed = 0;
        self.words.clear();
    }

    /// Closes the next block of the list of `count` entries of `width` words each if the list has all entries of the
    /// block. If memory runs out the blocks are unchanged.
    pub fn close_next(&mut self, words: &[u64], width: usize, count: usize) -> Result<(), NoMemory>
        requires blocks { AreBlocks width count self.old.closed words.now self.old.words.items }
        requires total { length words.now ≡ count * width }
        ensures blocks { AreBlocks width count self.new.closed words.now self.new.words.items }
        ensures closed { self.old.closed ≤ self.new.closed }
        ensures words { AreKept self.old.words.items self.new.words.items }
    {
        let first = BLOCK * self.closed;
        if count - first >= BLOCK {
            let block = BlockOf {
                words,
                width,
                first,
            };
            push_block(block, &mut self.words)?;
            self.closed += 1;
        }
        Ok(())
    }

    /// The words of the block with index `block`, if it is closed.
    pub fn words_of(&self, block: usize, width: usize) -> Option<&[u64]>
        requires { length self.now.words.items ≡ self.now.closed * width }
        ensures { IfSome result (λ common. IsBlockWords width self.now.closed self.now.words.items block common.now) }
    {
        if block >= self.closed {
            return None;
        }
        Some(part(&self.words, block * width, width))
    }
}
