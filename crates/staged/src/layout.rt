// Staged settings and sheets, and where the parts of a sheet stand, from what the methods of its settings give. Assumes nothing; a stage is told by how many stages are left.
ghost use Rattle.std.specs.Prelude.{◌≡◌, ◌+◌, ◌-◌, ◌*◌, ◌^◌, ◌≤◌, ◌<◌};
ghost use Rattle.rules.specs.Accept.{Genuine};
ghost use Rattle.rules.specs.AcceptLaws.{StagedFacts};
ghost use Rattle.index.specs.Meaning.{whole_region};
ghost use Rattle.rules.specs.Batches.{batch_cells, index_cells};
ghost use Rattle.rules.specs.Staged.{parity_length, parity_count};
ghost use Rattle.plan.specs.Meaning.{Levelled};
ghost use Rattle.staged.specs.Meaning.{CutInto, ParityCut, region_at};
ghost use Rattle.staged.specs.Props.{levelled-prop};

use cells::blocks::Blocks;
use index::Region;
use rules::Settings;

// Accepted settings of kind 1, with the number of blocks and the width of an index block, which their methods gave once for the call.
#[derive(Clone, Copy)]
pub struct StagedSettings {
    pub settings: Settings,
    pub blocks: usize,
    pub width: usize,
    pub ghost genuine: { Genuine settings },
    pub ghost staged: { StagedFacts settings },
    pub ghost has_blocks: { blocks ≡ settings.m },
    pub ghost has_width: { width ≡ settings.w },
}

// A staged sheet that checks 1 to 5 have passed: it has n cells, and no level above L.
#[derive(Clone, Copy)]
pub struct StagedSheet<'a> {
    pub of: StagedSettings,
    pub cells: &'a [u8],
    pub ghost levelled: { Levelled of.settings cells.now } by { levelled-prop of.settings cells.now },
}

// A power of two.
fn power(e: usize) -> usize
    requires { e ≤ 16 }
    ensures { result ≡ 2 ^ e }
{
    1 << e
}

// The cells of a parity block of the stage with this many left.
pub fn parity_length(left: usize) -> usize
    requires { left ≤ 15 }
    ensures { result ≡ parity_length left }
{
    2 * power(left)
}

impl StagedSettings {
    // The cells of the m blocks.
    pub fn block_cells(self) -> usize
        ensures { result ≡ self.settings.m * 2 ^ self.settings.s }
    {
        self.blocks * self.settings.k
    }

    // The cells of one batch.
    pub fn batch_cells(self) -> usize
        ensures { result ≡ batch_cells self.settings.s self.settings.w }
    {
        2 * (self.settings.k - 1) * self.width
    }

    // The first spare cell.
    pub fn spare_at(self) -> usize
        ensures { result ≡ self.settings.m * 2 ^ self.settings.s + index_cells self.settings.s self.settings.w }
    {
        self.block_cells() + (self.settings.s - 1) * self.batch_cells()
    }

    // The first cell of the batch of the stage with this many left.
    fn batch_at(self, left: usize) -> usize
        requires { left < self.settings.s - 1 }
        ensures { result ≡ self.settings.m * 2 ^ self.settings.s + (self.settings.s - 2 - left) * batch_cells self.settings.s self.settings.w }
    {
        self.settings.batch_start(self.settings.s - 1 - left)
    }

    // How many parity blocks that stage has.
    fn parity_count(self, left: usize) -> usize
        requires { left ≤ self.settings.s - 1 }
        ensures { result ≡ parity_count self.settings.s self.settings.m left }
    {
        self.blocks * power(self.settings.s - 1 - left)
    }

    // Where that stage has its index blocks: every level of a batch of its own.
    pub fn region_of(self, left: usize) -> Region
        requires { left < self.settings.s - 1 }
        ensures { result ≡ region_at self.settings left }
    {
        self.index_region(self.batch_at(left))
    }

    // The index blocks from a cell on, in a region with every level to itself.
    pub fn index_region(self, cell: usize) -> Region
        ensures { result ≡ whole_region cell self.settings.w self.settings.top }
    {
        Region::whole(cell, self.width, self.settings.top as u8)
    }
}

impl StagedSheet<'_> {
    // The m blocks of k cells.
    pub fn m_blocks(&self) -> Blocks<'_>
        ensures { CutInto self.now.of.settings self.now.cells.now self.now.of.settings.k self.now.of.settings.m result }
    {
        self.cut(self.of.settings.k, self.of.blocks)
    }

    // The parity blocks of the stage with this many left.
    pub fn parity_blocks(&self, left: usize) -> Blocks<'_>
        requires { left ≤ self.now.of.settings.s - 1 }
        ensures { ParityCut self.now.of.settings self.now.cells.now left result }
    {
        self.cut(parity_length(left), self.of.parity_count(left))
    }

    // The cells of the m blocks, cut into `count` blocks of `len` cells.
    fn cut(&self, len: usize, count: usize) -> Blocks<'_>
        requires { (1 ≤ len) × (len ≤ self.now.of.settings.k) × (count * len ≡ self.now.of.settings.m * 2 ^ self.now.of.settings.s) }
        ensures { CutInto self.now.of.settings self.now.cells.now len count result }
    {
        Blocks {
            cells: &self.cells[..self.of.block_cells()],
            len,
            count,
            top: self.of.settings.top as u8,
        }
    }
}
