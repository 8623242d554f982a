// The index store: index blocks whose digits stand above a floor, each at most `step` levels; and the stage that a sheet's index cells are in. Assumes nothing.
#![tactic(auto)]

ghost use Rattle.std.specs.Prelude.{◌≡◌, suc, ◌+◌, ◌^◌, ◌≤◌, ◌<◌, length};
ghost use Rattle.plan.specs.Meaning.{Needs};
ghost use Rattle.laws.specs.Regions.{Steady};
ghost use Rattle.rules.specs.Cells.{Rises};
ghost use Rattle.rules.specs.Search.{as_found};
ghost use Rattle.index.specs.Props.{batch_fits-prop, regions_fit-prop};
ghost use Rattle.index.specs.Meaning.{BatchFits, Holds, NextIndex, RegionsFit, as_entry, before_last, cells_at, last_digit, said, stage_left, whole_region};

use plan::Need;

// What an index block says: its number, or that it is full.
#[derive(Clone, Copy)]
pub enum Index {
    Number(usize),
    Full,
}

impl Index {
    // The last digit, and what the digits before it say; each digit of a full block is the greatest.
    fn last_digit(self, step: u8) -> (u8, Index)
        ensures { (result.0 ≡ last_digit step (as_entry self)) × (as_entry result.1 ≡ before_last step (as_entry self)) }
    {
        match self {
            Index::Number(u) => {
                let base = step as usize + 1;
                ((u % base) as u8, Index::Number(u / base))
            }
            Index::Full => (step, Index::Full),
        }
    }
}

// The index blocks of one stage: their first cell, the cells of each, the lowest level that the stage uses, and how many levels above it.
#[derive(Clone, Copy)]
pub struct Region {
    pub cell: usize,
    pub width: usize,
    pub floor: u8,
    pub step: u8,
}

impl Region {
    // The index blocks of a stage that has every level up to the top one to itself.
    pub fn whole(cell: usize, width: usize, top: u8) -> Self
        ensures { result ≡ whole_region cell width top }
    {
        Region {
            cell,
            width,
            floor: 0,
            step: top,
        }
    }

    // What the cells of an index block say, most significant digit first; a full one has the greatest number of its width.
    pub fn index_of(self, b: &[u8]) -> Index
        requires { (suc self.step ^ length b.now ≤ 16777216) × Steady self.step self.floor b.now }
        ensures { as_entry result ≡ said self.floor self.step (length b.now) b.now }
    {
        let base = self.step as usize + 1;
        let mut number = 0;
        let mut power = 1;
        for &x in b {
            number = number * base + usize::from(x - self.floor);
            power *= base;
        }
        if number + 1 == power {
            return Index::Full;
        }
        Index::Number(number)
    }

    // An index block set to what it is to say, the last digit first.
    pub fn set_entry(self, b: &mut [u8], entry: Index)
        requires { (self.floor + self.step ≤ 255) × Holds self.step (length b.old) (as_entry entry) }
        ensures { b.new ≡ cells_at self.floor self.step (length b.old) (as_entry entry) }
    {
        let mut rest = entry;
        for i in (0..b.len()).rev() {
            let (digit, before) = rest.last_digit(self.step);
            b[i] = self.floor + digit;
            rest = before;
        }
    }

    // What it needs to write over an index block what it is to say, before anything is written, the last digit first.
    pub fn need_entry(self, b: &[u8], entry: Index) -> Need
        requires holds { (self.floor + self.step ≤ 255) × Holds self.step (length b.now) (as_entry entry) × (length b.now ≤ 65536) }
        requires rises { Rises b.now (cells_at self.floor self.step (length b.now) (as_entry entry)) }
        ensures { Needs b.now (cells_at self.floor self.step (length b.now) (as_entry entry)) result }
    {
        let mut cells: usize = 0;
        let mut levels: usize = 0;
        let mut rest = entry;
        for &x in b.iter().rev() {
            let (digit, before) = rest.last_digit(self.step);
            let level = self.floor + digit;
            cells += usize::from(x != level);
            levels += usize::from(level - x);
            rest = before;
        }
        Need { cells, levels }
    }

    // The first of q index blocks, from a number on, that isn't full, and its number; `batch` is the region's cells.
    pub fn next_index(self, batch: &[u8], q: usize, from: usize) -> Option<(usize, usize)>
        requires { BatchFits self q batch.now }
        ensures { NextIndex self batch.now q from result }
    {
        for x in from..q {
            let a = x * self.width;
            let e = a + self.width;
            if let Index::Number(u) = self.index_of(&batch[a..e]) {
                return Some((x, u));
            }
        }
        None
    }

    // The first `count` of its index blocks, of which those that aren't full are given; `batch` is the region's cells.
    pub fn open(self, batch: &[u8], count: usize) -> OpenIndexes<'_>
        requires { BatchFits self count batch.now }
        ensures { (result.region ≡ self) × (result.batch.now ≡ batch.now) × (result.count ≡ count) × (result.at ≡ 0) }
    {
        OpenIndexes {
            region: self,
            batch,
            count,
            at: 0,
        }
    }
}

// The regions of all stages: the cells from the first region on; each of the `regions` regions of `cells` cells serves `per` of the `stages` stages, with `step` levels each.
#[derive(Clone, Copy)]
pub struct Regions<'a> {
    pub index: &'a [u8],
    pub cells: usize,
    pub regions: usize,
    pub stages: usize,
    pub per: usize,
    pub step: u8,
    pub ghost fit: { RegionsFit cells regions stages per step index.now } by { regions_fit-prop cells regions stages per step index.now },
}

impl Regions<'_> {
    // The stage, told by how many stages are left there, or none at stage 0, region by region from the last one down:
    // the first that has a cell above 0 tells the stage by its greatest level.
    fn last_stage(self) -> Option<usize>
        ensures { as_found result ≡ stage_left self.entry.cells self.entry.stages self.entry.per self.entry.step self.entry.index.now }
    {
        for g in (0..self.regions).rev() {
            let a = g * self.cells;
            let e = a + self.cells;
            let h = cells::greatest(&self.index[a..e]);
            if 0 < h {
                let place = g * self.per + usize::from((h - 1) / self.step);
                if self.stages <= place {
                    return Some(0);
                }
                return Some(self.stages - 1 - place);
            }
        }
        None
    }

    // The stage, told by how many stages are left there, or none at stage 0.
    // Nearly all changes are made at stage 0, so one look at all regions comes first.
    pub fn stage_of(self) -> Option<usize>
        ensures { as_found result ≡ stage_left self.entry.cells self.entry.stages self.entry.per self.entry.step self.entry.index.now }
    {
        let e = self.regions * self.cells;
        if cells::all_zero(&self.index[..e]) {
            return None;
        }
        self.last_stage()
    }
}

// The index blocks of a region from number `at` on that aren't full, one after the other, each with its own number and the one that it says.
#[derive(Clone, Copy)]
pub struct OpenIndexes<'a> {
    pub region: Region,
    pub batch: &'a [u8],
    pub count: usize,
    pub at: usize,
    pub ghost fit: { BatchFits region count batch.now } by { batch_fits-prop region count batch.now },
}

impl Iterator for OpenIndexes<'_> {
    ghost use Rattle.std.specs.Prelude.{◌-◌};
    ghost use Rattle.std.specs.Iterator.{at_most};
    ghost use Rattle.index.specs.Open.{GivesOpen};

    type Item = (usize, usize);

    ghost next_gives = { GivesOpen };

    ghost remaining = { λ s. at_most (s.count - s.at) };

    fn next(&mut self) -> Option<(usize, usize)> {
        let (slot, number) = self.region.next_index(self.batch, self.count, self.at)?;
        self.at = slot + 1;
        Some((slot, number))
    }
}
