// A bound for each block of the heap, and above these one for each group of blocks, so that a look
// for a large bound passes a group at a time.

ghost use Rattle.std.specs.Prelude.{◌≡◌, ℕ, ◌*◌, ◌/◌, ◌<◌, ◌≤◌, if◌then◌else◌, IfOk, length};
ghost use Rattle.std.specs.Prelude.{slice_index, slice_set};
ghost use Rattle.page_words.specs.Seat.{block_words};
ghost use Rattle.gap_bounds.specs.Bounds.{group_blocks};
ghost use Rattle.gap_bounds.specs.Gaps.{is_between};

use gc_graph::NoMemory;
use page_words::BLOCK_WORDS;
use std::alloc::Global;
use std::marker::Model;

/// How many blocks a group has.
pub(crate) const GROUP_BLOCKS: u32 = 4;

/// How many words the blocks of a group have.
pub const GROUP_WORDS: u32 = 256;

/// For each block its bound, and for each group one that is no less than those of its blocks.
#[derive(Drop)]
pub struct Bounds {
    blocks: Vec<u32>,
    groups: Vec<u32>,
}

impl Model for Bounds {
    ghost use Rattle.std.specs.Prelude.{List, ℕ};
    ghost use Rattle.gap_bounds.specs.BoundsFields.{IsBounds};

    ghost Value = { List ℕ };

    ghost view = { λ b. b.blocks.items };

    ghost invariant = { IsBounds };
}

impl Bounds {
    /// So many bounds of whole groups, all 0. Want of memory is free.
    pub fn new(alloc: Global, groups: u32) -> Result<Bounds, NoMemory>
        requires { groups ≤ 65536 }
        ensures { IfOk result (λ b. length b ≡ group_blocks * groups) }
    {
        let blocks = vec![in alloc; 0u32; (GROUP_BLOCKS * groups) as usize]?;
        let groups = vec![in alloc; 0u32; groups as usize]?;
        Ok(Bounds { blocks, groups })
    }

    /// The lowest address from one up to another in a block whose bound is not less than the size,
    /// or the other.
    pub fn worth_from(&self, from: u32, end: u32, size: u32) -> u32
        requires order { from ≤ end }
        requires end { end ≤ block_words * length self.now }
        ensures from { from ≤ result }
        ensures end { result ≤ end }
        ensures passed { (a : ℕ) → from ≤ a → a < result
            → slice_index self.now (a / block_words) < size }
    {
        let mut at = from;
        while at < end {
            if self.groups[(at / GROUP_WORDS) as usize] < size {
                at = at / GROUP_WORDS * GROUP_WORDS + GROUP_WORDS;
            } else if self.blocks[(at / BLOCK_WORDS) as usize] < size {
                at = at / BLOCK_WORDS * BLOCK_WORDS + BLOCK_WORDS;
            } else {
                return at;
            }
        }
        end
    }

    /// Changes the bounds of the blocks from the one up to the other.
    pub fn set(&mut self, first: u32, end: u32, bound: u32)
        requires order { first ≤ end }
        requires end { end ≤ length self.old }
        ensures bounds { (block : ℕ) → slice_index self.new block
            ≡ (if is_between first end block then bound else slice_index self.old block) }
        ensures blocks { length self.new ≡ length self.old }
    {
        for block in first..end {
            self.set_one(block, bound);
        }
    }

    fn set_one(&mut self, block: u32, bound: u32)
        requires { block < length self.old }
        ensures { self.new ≡ slice_set self.old block bound }
    {
        self.blocks[block as usize] = bound;
        let group = block / GROUP_BLOCKS;
        let first = (group * GROUP_BLOCKS) as usize;
        self.groups[group as usize] = self.blocks[first]
            .max(self.blocks[first + 1])
            .max(self.blocks[first + 2])
            .max(self.blocks[first + 3]);
    }

    /// Raises the bounds of the blocks from the one up to the other, where they are less.
    pub fn raise(&mut self, first: u32, end: u32, bound: u32)
        requires order { first ≤ end }
        requires end { end ≤ length self.old }
        ensures kept { (block : ℕ) → slice_index self.old block ≤ slice_index self.new block }
        ensures raised { (block : ℕ) → first ≤ block → block < end
            → bound ≤ slice_index self.new block }
        ensures blocks { length self.new ≡ length self.old }
    {
        for block in first..end {
            self.raise_one(block, bound);
        }
    }

    fn raise_one(&mut self, block: u32, bound: u32)
        requires { block < length self.old }
        ensures kept { (n : ℕ) → slice_index self.old n ≤ slice_index self.new n }
        ensures raised { bound ≤ slice_index self.new block }
        ensures blocks { length self.new ≡ length self.old }
    {
        let at = block as usize;
        let group = (block / GROUP_BLOCKS) as usize;
        self.blocks[at] = self.blocks[at].max(bound);
        self.groups[group] = self.groups[group].max(bound);
    }

    /// A bound for those of the blocks in the groups from the one up to the other.
    pub fn largest(&self, first: u32, end: u32) -> u32
        requires order { first ≤ end }
        requires end { group_blocks * end ≤ length self.now }
        ensures { (block : ℕ) → group_blocks * first ≤ block → block < group_blocks * end
            → slice_index self.now block ≤ result }
    {
        let mut largest = 0u32;
        for group in first..end {
            largest = largest.max(self.groups[group as usize]);
        }
        largest
    }
}
