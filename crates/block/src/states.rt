// The blocks that cells are cut into, one after the other, each with its state. Assumes nothing.
ghost use Rattle.std.specs.Prelude.{◌≡◌, ◌+◌, ◌-◌, ◌*◌, ◌/◌, ◌≤◌, ◌<◌};
ghost use Rattle.rules.specs.Accept.{most_bits};
ghost use Rattle.cells.specs.Meaning.{run};

use crate::{BlockState, state_of};
use cells::blocks::Blocks;
use cells::run_blocks;

// The blocks from number `at` on with their states; full ones that follow a full one at once are passed `step` at a time.
#[derive(Clone, Copy)]
pub struct States<'a> {
    pub blocks: Blocks<'a>,
    pub step: usize,
    pub at: usize,
    pub ghost two: { 2 ≤ blocks.len },
    pub ghost few: { blocks.len ≤ most_bits },
    pub ghost levels: { 1 ≤ blocks.top },
    pub ghost stride: { step ≡ run / blocks.len },
    pub ghost inside: { at ≤ blocks.count },
}

impl<'a> States<'a> {
    ghost use Rattle.rules.specs.Plain.{states};
    ghost use Rattle.block.specs.Meaning.{as_state};
    ghost use Rattle.block.specs.States.{After};

    // The states of blocks, from the first on.
    pub fn of(blocks: Blocks<'a>) -> Self
        requires { (2 ≤ blocks.len) × (blocks.len ≤ most_bits) × (1 ≤ blocks.top) }
        ensures { (result.blocks ≡ blocks.entry) × (result.at ≡ 0) }
    {
        States {
            blocks,
            step: run_blocks(blocks.len),
            at: 0,
        }
    }

    // The state of the block at hand.
    fn state(self) -> BlockState
        requires { self.at < self.blocks.count }
        ensures { as_state result ≡ states self.entry.blocks.len self.entry.blocks.top self.entry.blocks.cells.now self.entry.at }
    {
        state_of(self.blocks.block(self.at), self.blocks.top)
    }

    // The number of the block to look at after the one at hand, which has this state.
    fn after(self, state: BlockState) -> usize
        requires { self.at < self.blocks.count }
        ensures { After self.entry.blocks (self.entry.at + 1) state result }
    {
        let next = self.at + 1;
        match state {
            BlockState::Full => self.blocks.past_run(self.step, next, self.blocks.top),
            BlockState::Empty | BlockState::Broken | BlockState::Active { .. } => next,
        }
    }
}

impl<'a> Iterator for States<'a> {
    ghost use Rattle.std.specs.Iterator.{at_most};
    ghost use Rattle.block.specs.States.{GivesState};

    type Item = (usize, BlockState);

    ghost next_gives = { GivesState };

    ghost remaining = { λ s. at_most (s.blocks.count - s.at) };

    fn next(&mut self) -> Option<(usize, BlockState)> {
        let j = self.at;
        if j == self.blocks.count {
            return None;
        }
        let state = self.state();
        self.at = self.after(state);
        Some((j, state))
    }
}
