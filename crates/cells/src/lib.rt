// Runs of cells: sums, levels, and blocks that are passed over many at a time. Assumes nothing.
#![tactic(auto)]

pub mod blocks;

ghost use Rattle.std.specs.Prelude.{true, false, ◌≡◌, ◌+◌, ◌*◌, ◌/◌, ◌≤◌, length, take, replicate};
ghost use Rattle.rules.specs.Search.{as_found, pick};
ghost use Rattle.rules.specs.Cells.{sum, first_above, same?};
ghost use Rattle.cells.specs.Meaning.{Leads, RunAt, RunFrom, greatest_of, least_of, run};

// How many cells are compared at a time where blocks are passed over.
const RUN: usize = 64;

// The sum of the levels. Where they are so few that 16 bits hold it, it takes fewer steps.
pub fn sum_of(cells: &[u8]) -> usize
    requires { length cells.now ≤ 65536 }
    ensures { result ≡ sum cells.now }
{
    if cells.len() <= 256 {
        return cells.iter().map(|x| u16::from(*x)).sum::<u16>() as usize;
    }
    cells.iter().map(|x| u32::from(*x)).sum::<u32>() as usize
}

// The greatest level, 0 where there is no cell.
pub fn greatest(cells: &[u8]) -> u8
    ensures { result ≡ greatest_of cells.now }
{
    cells.iter().fold(0, |best, x| best.max(*x))
}

// The least level, 255 where there is no cell.
fn least(cells: &[u8]) -> u8
    ensures { result ≡ least_of cells.now }
{
    cells.iter().fold(255, |best, x| best.min(*x))
}

// How far the greatest level is below 255: a least number, so that a test for a run of zeros compares many cells together.
fn room_above(cells: &[u8]) -> u8
    ensures { result + greatest_of cells.now ≡ 255 }
{
    cells.iter().fold(255, |best, x| best.min(255 - *x))
}

// Every cell set to one level.
pub fn fill(cells: &mut [u8], level: u8)
    ensures { cells.new ≡ replicate (length cells.old) level }
{
    cells.fill(level);
}

// The first cell above the top level; its place is looked for only if the greatest level is above it.
pub fn first_above(cells: &[u8], top: u8) -> Option<usize>
    ensures { as_found result ≡ first_above top cells.now }
{
    if greatest(cells) <= top {
        return None;
    }
    cells.iter().position(|cell| top < *cell)
}

// Whether every cell is 0.
pub fn all_zero(cells: &[u8]) -> bool
    ensures { result ≡ pick (same? cells.now (replicate (length cells.now) 0)) true false }
{
    greatest(cells) == 0
}

// Whether cells pass for a run at a level: none is below it, and all are 0 if it is 0. So where no level is above the top one, all are 0, or all are at the top.
fn run_at(cells: &[u8; RUN], level: u8) -> bool
    ensures { result ≡ true → RunAt level cells.now }
{
    if level == 0 {
        return room_above(cells) == 255;
    }
    level <= least(cells)
}

// How many whole blocks of `len` cells are compared at a time.
pub fn run_blocks(len: usize) -> usize
    requires { 1 ≤ len }
    ensures { result ≡ run / len }
{
    RUN / len
}

// How many cells at the front are not below a level. No cell ends the loop early, so that many cells are looked at together.
fn lead(cells: &[u8; RUN], level: u8) -> usize
    ensures { (result ≤ run) × Leads level cells.now result }
{
    let mut best = RUN as u8;
    for (i, x) in cells.iter().enumerate() {
        let low = if *x < level { i as u8 } else { 255 };
        best = best.min(low);
    }
    best as usize
}

// How many whole blocks at the front of a run are full; short blocks alone are worth the look.
fn full_at_front(cells: &[u8; RUN], len: usize, step: usize, level: u8) -> usize
    requires { (1 ≤ len) × (step ≡ run / len) }
    ensures { (result ≤ step) × (result * len ≤ run) × RunAt level (take (result * len) cells.now) }
{
    if level == 0 || step < 8 {
        return 0;
    }
    lead(cells, level) / len
}

// Past runs of cells at a level, one run and `step` blocks at a time: the number of the block, from a number on, to look at next. How far it goes is a matter of speed alone.
pub fn past_run(
    cells: &[u8],
    len: usize,
    step: usize,
    count: usize,
    from: usize,
    level: u8,
) -> usize
    requires stride { (1 ≤ len) × (step ≡ run / len) }
    requires in_bounds { (count * len ≤ length cells.now) × (length cells.now ≤ 65536) × (from ≤ count) }
    ensures { (from ≤ result) × (result ≤ count) × RunFrom len level cells.now from result }
{
    if step == 0 {
        return from;
    }
    let mut j = from;
    while j + step <= count {
        let Some(front) = cells[j * len..].first_chunk::<RUN>() else {
            return j;
        };
        if !run_at(front, level) {
            return j + full_at_front(front, len, step, level);
        }
        j += step;
    }
    j
}
