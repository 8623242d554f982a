// Check 6 of a staged sheet: the stage that it is in, and a look at that. Assumes checks 1 to 5 passed.
ghost use Rattle.std.specs.Prelude.{◌≡◌};
ghost use Rattle.rules.specs.Search.{as_found, at, nowhere};
ghost use Rattle.staged.specs.Meaning.{AtStage, StagedLook, stage_found};

use crate::layout::StagedSheet;
use cells::all_zero;
use index::Regions;
use plain::scan_blocks;
use plan::Look;
use rules::Answer;
use stage::scan_stage;

impl StagedSheet<'_> {
    // The stage: the highest batch with a cell above 0.
    fn stage_left(&self) -> Option<usize>
        ensures { as_found result ≡ stage_found self.now.of.settings self.now.cells.now }
    {
        let settings = self.of.settings;
        let batches = Regions {
            index: &self.cells[self.of.block_cells()..],
            cells: self.of.batch_cells(),
            regions: settings.s - 1,
            stages: settings.s - 1,
            per: 1,
            step: settings.top as u8,
        };
        batches.stage_of()
    }

    // Stage 0: the plain rules on the m blocks.
    fn look_stage0(&self, look: &mut Look)
        requires { AtStage self.now.of.settings self.now.cells.now nowhere }
        ensures { StagedLook self.now.of.settings self.now.cells.now look.new }
    {
        scan_blocks(self.m_blocks(), look);
    }

    // A stage from 1 up, with this many left: its parity blocks and its batch.
    fn look_stage(&self, left: usize, look: &mut Look)
        requires { AtStage self.now.of.settings self.now.cells.now (at left) }
        ensures { StagedLook self.now.of.settings self.now.cells.now look.new }
    {
        let settings = self.of.settings;
        let region = self.of.region_of(left);
        let end = region.cell + self.of.batch_cells();
        scan_stage(
            settings.s - 1 - left,
            region,
            self.parity_blocks(left),
            &self.cells[region.cell..end],
            settings.k,
            look,
        );
    }

    // Check 6: the spare cells are 0, and the sheet keeps the rules of its stage.
    pub fn look(&self, look: &mut Look)
        ensures { StagedLook self.now.of.settings self.now.cells.now look.new }
    {
        let a = self.of.spare_at();
        if !all_zero(&self.cells[a..]) {
            return look.clear(Answer::BadSheet);
        }
        match self.stage_left() {
            Some(left) => self.look_stage(left, look),
            None => self.look_stage0(look),
        }
    }
}
