// What the plan of a change of a staged sheet needs, and the plan carried out. Assumes a plan that fits the sheet.
ghost use Rattle.std.specs.Prelude.{◌≡◌, ◌+◌, ◌≤◌, ◌<◌, length};
ghost use Rattle.index.specs.Meaning.{Holds, as_entry};
ghost use Rattle.laws.specs.Splice.{part, spliced};
ghost use Rattle.plan.specs.Meaning.{Fits, IndexFits, Levelled, MoveFits, NeedsMore, ParityFits, Staged, Within, block_raised, carried, index_set, moved_sheet, parity_raised, value_in};
ghost use Rattle.rules.specs.Batches.{entry_cells};
ghost use Rattle.rules.specs.Cells.{Rises, sum};
ghost use Rattle.rules.specs.Staged.{after};
ghost use Rattle.staged.specs.Meaning.{BlockReady, IndexIn, IndexReady, PlanNeeds};

use crate::layout::{StagedSettings, StagedSheet, parity_length};
use index::Index;
use moving::{commit_move, move_need, route_of};
use parity::raise_parity;
use plan::{Need, Place, Plan};
use rules::MOST_BITS;

impl StagedSheet<'_> {
    // What it needs to set the index block from cell a on, before anything is written, and with it `up` levels of a parity block, in as many cells.
    fn need_at(&self, a: usize, entry: Index, up: usize) -> Need
        requires fits { IndexFits self.now.of.settings a × Holds self.now.of.settings.top self.now.of.settings.w (as_entry entry) × (up ≤ 1) }
        requires rises { Rises (part a self.now.of.settings.w self.now.cells.now) (entry_cells self.now.of.settings.top self.now.of.settings.w (as_entry entry)) }
        ensures { NeedsMore up (part a self.now.of.settings.w self.now.cells.now) (entry_cells self.now.of.settings.top self.now.of.settings.w (as_entry entry)) result }
    {
        let e = a + self.of.width;
        let need = self.of.index_region(a).need_entry(&self.cells[a..e], entry);
        Need {
            cells: need.cells + up,
            levels: need.levels + up,
        }
    }

    // What a plan within the present stage needs: how many cells move, and how many levels are raised.
    pub fn need_within(&self, bit: usize, plan: Plan) -> Need
        requires { (bit < self.now.of.settings.k) × Within plan × IndexReady self.now.of.settings self.now.cells.now plan }
        ensures { PlanNeeds self.now.of.settings bit self.now.cells.now plan result }
    {
        match plan {
            Plan::Close(_, a) => self.need_at(a, Index::Full, 1),
            Plan::Take(_, a, up) => self.need_at(a, Index::Number(bit + 1), up),
            _ => Need {
                cells: 1,
                levels: 1,
            },
        }
    }
}

impl StagedSettings {
    // Parity block j raised by one, in the m blocks.
    fn raise_at(self, sheet: &mut [u8], left: usize, j: usize)
        requires { Levelled self.settings sheet.old × ParityFits self.settings sheet.old left j }
        ensures { sheet.new ≡ parity_raised self.settings sheet.old left j }
    {
        let cells = self.block_cells();
        let len = parity_length(left);
        raise_parity(&mut sheet[..cells], len, j, self.settings.top as u8);
    }

    // The index block from cell a on set to what it is to say.
    fn set_at(self, sheet: &mut [u8], a: usize, entry: Index)
        requires { (length sheet.old ≡ self.settings.n) × IndexFits self.settings a × Holds self.settings.top self.settings.w (as_entry entry) }
        ensures { sheet.new ≡ spliced a (entry_cells self.settings.top self.settings.w (as_entry entry)) sheet.old }
    {
        let e = a + self.width;
        self.index_region(a).set_entry(&mut sheet[a..e], entry);
    }

    // The parity block that a plan within the present stage raises.
    fn raise_planned(self, sheet: &mut [u8], left: usize, plan: Plan)
        requires { Levelled self.settings sheet.old × BlockReady self.settings sheet.old left plan }
        ensures { sheet.new ≡ block_raised self.settings left sheet.old plan }
    {
        match plan {
            Plan::Raise(j) | Plan::Close(j, _) => self.raise_at(sheet, left, j),
            Plan::Take(j, _, up) if up != 0 => self.raise_at(sheet, left, j),
            _ => {}
        }
    }

    // The index block that a plan within the present stage sets.
    fn set_planned(self, sheet: &mut [u8], bit: usize, plan: Plan)
        requires { (length sheet.old ≡ self.settings.n) × (bit < self.settings.k) × IndexIn self.settings plan }
        ensures { sheet.new ≡ index_set self.settings bit sheet.old plan }
    {
        match plan {
            Plan::Close(_, a) => self.set_at(sheet, a, Index::Full),
            Plan::Take(_, a, _) => self.set_at(sheet, a, Index::Number(bit + 1)),
            _ => {}
        }
    }

    // A plan within the present stage carried out: the parity block is raised, and then the index block set. Nothing else is written.
    pub fn carry_within(self, sheet: &mut [u8], bit: usize, left: usize, plan: Plan)
        requires { Levelled self.settings sheet.old × (bit < self.settings.k) × Within plan × Fits self.settings sheet.old bit left plan }
        ensures { sheet.new ≡ index_set self.settings bit (block_raised self.settings left sheet.old plan) plan }
    {
        self.raise_planned(sheet, left, plan);
        self.set_planned(sheet, bit, plan);
    }

    // The move to a later stage: its route, what it needs, and then the move. The answer is the levels raised.
    fn carry_move(
        self,
        sheet: &mut [u8],
        bit: usize,
        to: usize,
        bits: &[Option<Place>; MOST_BITS],
    ) -> usize
        requires { Levelled self.settings sheet.old × MoveFits self.settings sheet.old to }
        ensures sheet_after { sheet.new ≡ moved_sheet self.settings sheet.old to (after bit (value_in bits.now)) }
        ensures levels_raised { result + sum sheet.old ≡ sum sheet.new }
    {
        let before = StagedSheet {
            of: self,
            cells: sheet,
        };
        let route = route_of(before.parity_blocks(to), self.settings.k, bits, bit);
        let region = self.region_of(to);
        let need = move_need(sheet, region, &route);
        commit_move(sheet, region, &route);
        need.levels
    }

    // The plan of a change carried out, one that is no step of a block; how many levels it raises.
    pub fn carry_out(
        self,
        sheet: &mut [u8],
        bit: usize,
        left: usize,
        bits: &[Option<Place>; MOST_BITS],
        plan: Plan,
    ) -> usize
        requires { Levelled self.settings sheet.old × (bit < self.settings.k) × Staged plan × Fits self.settings sheet.old bit left plan }
        ensures sheet_after { sheet.new ≡ carried self.settings bit left (after bit (value_in bits.now)) sheet.old plan }
        ensures levels_raised { result + sum sheet.old ≡ sum sheet.new }
    {
        if let Plan::Move(to) = plan {
            return self.carry_move(sheet, bit, to, bits);
        }
        let before = StagedSheet {
            of: self,
            cells: sheet,
        };
        let need = before.need_within(bit, plan);
        self.carry_within(sheet, bit, left, plan);
        need.levels
    }
}
