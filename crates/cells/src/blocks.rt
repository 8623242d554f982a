// Cells cut into blocks of one length, and those of them that aren't full, one after the other. Assumes nothing.
ghost use Rattle.std.specs.Prelude.{◌≡◌, ◌+◌, ◌-◌, ◌*◌, ◌/◌, ◌≤◌, ◌<◌, length};
ghost use Rattle.rules.specs.Cells.{Low, block};
ghost use Rattle.cells.specs.Props.{low-prop};
ghost use Rattle.cells.specs.Meaning.{RunFrom, run};

use crate::{past_run, run_blocks, sum_of};

// The first `count` blocks of `len` cells each, of cells with no level above the top one.
#[derive(Clone, Copy)]
pub struct Blocks<'a> {
    pub cells: &'a [u8],
    pub len: usize,
    pub count: usize,
    pub top: u8,
    pub ghost long: { 1 ≤ len },
    pub ghost brief: { len ≤ 65536 },
    pub ghost inside: { count * len ≤ length cells.now },
    pub ghost short: { length cells.now ≤ 65536 },
    pub ghost low: { Low top cells.now } by { low-prop top cells.now },
}

impl<'a> Blocks<'a> {
    // The weight of a full block.
    pub fn full(self) -> usize
        ensures { result ≡ self.entry.len * self.entry.top }
    {
        self.len * self.top as usize
    }

    // The cells of block j.
    pub fn block(self, j: usize) -> &'a [u8]
        requires { j < self.count }
        ensures { result.now ≡ block self.entry.len self.entry.cells.now j }
    {
        let start = j * self.len;
        &self.cells[start..start + self.len]
    }

    // The same cells cut into twice as many blocks, half as long.
    pub fn halved(self) -> Self
        requires { 2 ≤ self.len }
        ensures cells { result.cells.now ≡ self.entry.cells.now }
        ensures sizes { (result.len ≡ self.entry.len / 2) × (result.count ≡ 2 * self.entry.count) × (result.top ≡ self.entry.top) }
    {
        Blocks {
            cells: self.cells,
            len: self.len / 2,
            count: 2 * self.count,
            top: self.top,
        }
    }

    // Past runs of blocks at a level, `step` blocks at a time: the number of the block, from a number on, to look at next.
    pub fn past_run(self, step: usize, from: usize, level: u8) -> usize
        requires { (step ≡ run / self.len) × (from ≤ self.count) }
        ensures { (from ≤ result) × (result ≤ self.entry.count) × RunFrom self.entry.len level self.entry.cells.now from result }
    {
        past_run(self.cells, self.len, step, self.count, from, level)
    }

    // The blocks that aren't full, from the first on.
    pub fn live(self) -> LiveBlocks<'a>
        ensures { (result.blocks ≡ self.entry) × (result.at ≡ 0) }
    {
        LiveBlocks {
            blocks: self,
            step: run_blocks(self.len),
            at: 0,
        }
    }
}

// The blocks from number `at` on that aren't full, one after the other, each with its number and its weight; full ones are passed `step` at a time.
#[derive(Clone, Copy)]
pub struct LiveBlocks<'a> {
    pub blocks: Blocks<'a>,
    pub step: usize,
    pub at: usize,
    pub ghost stride: { step ≡ run / blocks.len },
    pub ghost inside: { at ≤ blocks.count },
}

impl<'a> LiveBlocks<'a> {
    ghost use Rattle.cells.specs.Live.{NextLive};

    // The next of them. It stands in the loop that asks for it, so that what is the same for all blocks is worked out once.
    #[inline(always)]
    fn next_live(self) -> Option<(usize, usize)>
        ensures { NextLive self.entry.blocks self.entry.at result }
    {
        let blocks = self.blocks;
        let mut next = self.at;
        while next < blocks.count {
            let j = next;
            let weight = sum_of(blocks.block(j));
            if weight != blocks.full() {
                return Some((j, weight));
            }
            next = blocks.past_run(self.step, j + 1, blocks.top);
        }
        None
    }
}

impl<'a> Iterator for LiveBlocks<'a> {
    ghost use Rattle.std.specs.Iterator.{at_most};
    ghost use Rattle.cells.specs.Live.{GivesLive};

    type Item = (usize, usize);

    ghost next_gives = { GivesLive };

    ghost remaining = { λ s. at_most (s.blocks.count - s.at) };

    #[inline(always)]
    fn next(&mut self) -> Option<(usize, usize)> {
        let (j, weight) = self.next_live()?;
        self.at = j + 1;
        Some((j, weight))
    }
}
