// Plain sheets, and the m blocks of a staged one at stage 0: the look at the blocks, and the plan of a change. Assumes nothing.
#![tactic(auto)]

pub mod kind0;

ghost use Rattle.std.specs.Prelude.{true, false, ◌≡◌, ◌+◌, ◌*◌, ◌/◌, ◌≤◌, ◌<◌, ◌++◌, length, take, drop};
ghost use Rattle.rules.specs.Accept.{most_bits};
ghost use Rattle.rules.specs.Cells.{Low, sum};
ghost use Rattle.rules.specs.Plain.{states};
ghost use Rattle.cells.specs.Meaning.{run};
ghost use Rattle.block.specs.Meaning.{as_state};
ghost use Rattle.plain.specs.Meaning.{EmptyFrom, Scanned, block_at, closing, differing, parities, plan_in};

use block::BlockState;
use block::states::States;
use cells::all_zero;
use cells::blocks::Blocks;
use plan::{Look, Place, Plan, value_of};
use rules::{Answer, MOST_BITS};

// Whether the bits noted differ: each is held against every earlier one, and both loops are left at the first that an earlier one equals.
fn check_repeats(noted: &[u8]) -> Answer
    ensures { result ≡ differing noted.now }
{
    let mut answer = Answer::Done(0);
    'pairs: for (later, bit) in noted.iter().enumerate() {
        for earlier in &noted[..later] {
            if earlier == bit {
                answer = Answer::BadSheet;
                break 'pairs;
            }
        }
    }
    answer
}

// Whether every block from a number on is empty: past runs of zeros, the cells that are left are all 0. Where all is 0 these are few.
fn rest_empty(blocks: Blocks, step: usize, from: usize) -> bool
    requires { (step ≡ run / blocks.len) × (from ≤ blocks.count) }
    ensures { (result ≡ true → EmptyFrom blocks.entry.len blocks.entry.cells.now from blocks.entry.count) × (result ≡ false → ¬ (EmptyFrom blocks.entry.len blocks.entry.cells.now from blocks.entry.count)) }
{
    let j = blocks.past_run(step, from, 0);
    all_zero(&blocks.cells[j * blocks.len..blocks.count * blocks.len])
}

// The answer given, unless k bits are noted and the last block in use is full.
fn check_last(full: bool, n: usize, k: usize, given: Answer) -> Answer
    ensures { result ≡ closing full n k given }
{
    if full && n == k {
        return Answer::BadSheet;
    }
    given
}

// Block j, of this weight; at stage 0 no index block goes with it.
fn block_at(j: usize, weight: usize) -> Place
    requires { (j < 65536) × (weight < 65536) }
    ensures { result ≡ block_at j weight }
{
    Place {
        block: j as u16,
        slot: 0,
        weight: weight as u16,
    }
}

// One pass over the blocks: those in use with their states, and at the first empty one all that come after it; then the search for a repeat.
// k + 1 bits below k can't all differ, so no more are noted.
pub fn scan_blocks(blocks: Blocks, look: &mut Look)
    requires { (2 ≤ blocks.len) × (blocks.len ≤ most_bits) × (1 ≤ blocks.top) }
    ensures { Scanned blocks.entry.len blocks.entry.top blocks.entry.count blocks.entry.cells.now look.new }
{
    look.clear(Answer::Done(0));
    let states = States::of(blocks);
    let mut noted = [0u8; MOST_BITS + 1];
    let mut n: usize = 0;
    let mut full = false;
    for (j, state) in states {
        match state {
            BlockState::Full => full = true,
            BlockState::Empty => {
                if !rest_empty(blocks, states.step, j + 1) {
                    look.answer = Answer::BadSheet;
                    return;
                }
                look.free = Some(block_at(j, 0));
                break;
            }
            BlockState::Broken => {
                look.answer = Answer::BadSheet;
                return;
            }
            BlockState::Active { bit, weight } => {
                full = false;
                noted[n] = bit as u8;
                n += 1;
                look.bits[bit] = Some(block_at(j, weight));
                if blocks.len < n {
                    break;
                }
            }
        }
    }
    look.answer = check_last(full, n, blocks.len, check_repeats(&noted[..n]));
}

// The plan of a change among the blocks: the next step of the bit's block, or else of the lowest-numbered empty one; or no place.
pub fn plan_blocks(look: &Look, bit: usize) -> Plan
    requires { bit < most_bits }
    ensures { result ≡ plan_in look.now bit }
{
    match (look.bits[bit], look.free) {
        (Some(own), _) => Plan::Step(own.block as usize, own.weight as usize),
        (None, Some(empty)) => Plan::Step(empty.block as usize, 0),
        (None, None) => Plan::Nowhere,
    }
}

// The first k places set to the values of the bits; how many are 1.
pub fn write_bits(out: &mut [u8], k: usize, bits: &[Option<Place>; MOST_BITS]) -> usize
    requires { (k ≤ most_bits) × (k ≤ length out.old) }
    ensures ones { result ≡ sum (parities k bits.now) }
    ensures places { out.new ≡ parities k bits.now ++ drop k out.old }
{
    let mut ones: usize = 0;
    for (i, bit) in bits[..k].iter().enumerate() {
        let value = value_of(*bit);
        out[i] = value;
        ones += usize::from(value);
    }
    ones
}
