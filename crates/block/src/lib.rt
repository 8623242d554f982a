// One block: its shape, its state and its next step. Assumes nothing.
#![tactic(auto)]

pub mod states;

ghost use Rattle.std.specs.Prelude.{◌≡◌, ◌+◌, ◌-◌, ◌*◌, ◌/◌, ◌%◌, ◌<◌, ◌≤◌, ◌++◌, length, take, drop};
ghost use Rattle.std.proofs.Math.Decide.{dec_lt};
ghost use Rattle.rules.specs.Accept.{most_bits};
ghost use Rattle.rules.specs.Search.{pick};
ghost use Rattle.rules.specs.Cells.{Low, block, store};
ghost use Rattle.rules.specs.Block.{cycle, state_of};
ghost use Rattle.block.specs.Meaning.{as_state, higher, shape_of};

// A block's state.
#[derive(Clone, Copy)]
pub enum BlockState {
    Empty,
    Full,
    Active { bit: usize, weight: usize },
    Broken,
}

// A block's shape: how many cells are higher than the one before them, and the sum of their numbers; how many are above 0, and how many at the top level; the sum of all levels.
// Each is a byte, so that many cells are looked at together; of the two sums it is what 256 leaves.
#[derive(Clone, Copy, Default)]
struct Shape {
    rises: u8,
    start: u8,
    nonzero: u8,
    tops: u8,
    total: u8,
}

// 1 where level x is higher than level a, else 0.
fn higher(a: u8, x: u8) -> u8
    ensures { (result ≤ 1) × (result ≡ higher a x) }
{
    u8::from(a < x)
}

// The number of a cell that is higher than the one before it, else 0.
fn rise_at(before: u8, x: u8, cell: u8) -> u8
    ensures { result ≡ pick (dec_lt before x) cell 0 }
{
    if before < x { cell } else { 0 }
}

// A block's shape, each cell fetched once and the first once more: the cell before is carried along, and at the end the first is held against the last.
// No cell ends the loop early, so that many cells are looked at together; the highest byte comes before cell 0, as no level is higher.
fn shape_of(b: &[u8], top: u8) -> Shape
    requires { (2 ≤ length b.now) × (length b.now ≤ most_bits) }
    ensures { result ≡ shape_of top b.now }
{
    let mut shape = Shape::default();
    let mut before = u8::MAX;
    for (i, &x) in b.iter().enumerate() {
        shape.rises += higher(before, x);
        shape.start = shape.start.wrapping_add(rise_at(before, x, i as u8));
        shape.nonzero += higher(0, x);
        shape.tops += 1 - higher(x, top);
        shape.total = shape.total.wrapping_add(x);
        before = x;
    }
    let first = b[0];
    shape.rises += higher(before, first);
    shape
}

// The weight of a block on a cycle: so many cells at the top level and less than 256 besides, which the byte that 256 leaves of the weight tells.
fn weight_of(tops: u8, top: u8, total: u8) -> usize
    requires { tops ≤ most_bits }
    ensures { (tops * top ≤ result) × (result < tops * top + 256) × (result % 256 ≡ total) }
{
    let whole = tops as usize * top as usize;
    whole + total.wrapping_sub((whole % 256) as u8) as usize
}

// The state of a block whose levels are at most the top level.
pub fn state_of(b: &[u8], top: u8) -> BlockState
    requires sized { (2 ≤ length b.now) × (length b.now ≤ most_bits) × (1 ≤ top) }
    requires low { Low top b.now }
    ensures { as_state result ≡ state_of (length b.now) top b.now }
{
    let shape = shape_of(b, top);
    if shape.nonzero == 0 {
        return BlockState::Empty;
    }
    if shape.tops as usize == b.len() {
        return BlockState::Full;
    }
    if shape.rises != 1 {
        return BlockState::Broken;
    }
    if shape.tops + 1 < shape.nonzero {
        return BlockState::Broken;
    }
    BlockState::Active {
        bit: shape.start as usize,
        weight: weight_of(shape.tops, top, shape.total),
    }
}

// The next step of a block on the cycle of a bit, in a part of the sheet that begins with the block: one cell is raised.
pub fn raise_step(part: &mut [u8], k: usize, top: u8, bit: usize, weight: usize)
    requires in_bounds { (2 ≤ k) × (k ≤ length part.old) × (bit < k) × (1 ≤ top) × (weight < k * top) }
    requires on_cycle { take k part.old ≡ cycle k top bit weight }
    ensures { part.new ≡ cycle k top bit (weight + 1) ++ drop k part.old }
{
    let cell = (bit + weight / top as usize) % k;
    part[cell] += 1;
}

// The next step of block j of the sheet: the part from j times k on is lent on.
pub fn raise_block(sheet: &mut [u8], k: usize, top: u8, j: usize, bit: usize, weight: usize)
    requires in_bounds { (2 ≤ k) × (j * k + k ≤ length sheet.old) × (bit < k) × (1 ≤ top) × (weight < k * top) }
    requires on_cycle { block k sheet.old j ≡ cycle k top bit weight }
    ensures { sheet.new ≡ store k sheet.old j (cycle k top bit (weight + 1)) }
{
    let a = j * k;
    raise_step(&mut sheet[a..], k, top, bit, weight);
}
