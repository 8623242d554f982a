// The values that a call passes on: the look at a sheet, the plan of a change and what that needs. Assumes nothing.
#![tactic(auto)]

ghost use Rattle.std.specs.Prelude.{◌≡◌, ◌%◌};
ghost use Rattle.plan.specs.Meaning.{unseen, weight_in};

use rules::{Answer, MOST_BITS};

// A block: its number, its weight, and, at stages from 1 up, the number of its index block.
#[derive(Clone, Copy)]
pub struct Place {
    pub block: u16,
    pub slot: u8,
    pub weight: u16,
}

// What the checks of a sheet find: the first refusal, or Done with the stage that the sheet is in; the first cell of the stage's batch;
// for each bit the block that it has, and the first block that no bit has.
#[derive(Clone, Copy)]
pub struct Look {
    pub answer: Answer,
    pub batch: usize,
    pub bits: [Option<Place>; MOST_BITS],
    pub free: Option<Place>,
}

// What a change comes to, in numbers: a block of k cells takes its next step, from this weight; a parity block is raised by one;
// a parity block is raised by one, which fills it, and its index block, from this cell on, is raised to full; the bit takes a free parity block,
// whose index block begins at this cell, and which is raised by this many levels; the move to a later stage, told by how many stages are left there; no place.
#[derive(Clone, Copy)]
pub enum Plan {
    Step(usize, usize),
    Raise(usize),
    Close(usize, usize),
    Take(usize, usize, usize),
    Move(usize),
    Nowhere,
}

// What writing cells needs: how many cells move, and how many levels are raised in all.
#[derive(Clone, Copy)]
pub struct Need {
    pub cells: usize,
    pub levels: usize,
}

// A look at nothing, with this answer.
pub fn unseen(answer: Answer) -> Look
    ensures { result ≡ unseen answer }
{
    Look {
        answer,
        batch: 0,
        bits: [None; MOST_BITS],
        free: None,
    }
}

impl Look {
    // Nothing is seen any more, and this is the answer.
    pub fn clear(&mut self, answer: Answer)
        ensures { self.new ≡ unseen answer }
    {
        self.answer = answer;
        self.batch = 0;
        self.bits = [None; MOST_BITS];
        self.free = None;
    }
}

// A bit's value: the parity of its block's weight, 0 where it has none.
pub fn value_of(bit: Option<Place>) -> u8
    ensures { result ≡ weight_in bit % 2 }
{
    bit.map_or(0, |place| (place.weight % 2) as u8)
}
