// Checks 1 to 5 and 7, each by its own function, and their order: Done where a check passes, else its refusal. Assumes nothing.
ghost use Rattle.std.specs.Prelude.{◌≡◌};
ghost use Rattle.std.proofs.Math.Decide.{ℕ_discrete, dec_le, dec_lt};
ghost use Rattle.rules.specs.Accept.{block_count};
ghost use Rattle.rules.specs.Calls.{ask, as_check, level_check};
ghost use Rattle.rules.specs.Cells.{first_above};
ghost use Rattle.rules.specs.declared.Answer.TheVariants.{BadShape, BadLength, ShortOutput, BadBit};
ghost use Rattle.sheet.specs.Meaning.{answer_if, check_asked, first_checks, place_check, size_checks};

use cells::first_above;
use plan::Plan;
use rules::{Answer, Settings};

// What a call asks for itself: places of the output, or a bit.
#[derive(Clone, Copy)]
pub enum Asked {
    Places(usize),
    Bit(usize),
}

// A test's answer: Done with what was found where it holds, else its refusal.
fn answer_of(holds: bool, found: usize, refusal: Answer) -> Answer
    ensures { result ≡ answer_if holds found refusal }
{
    if holds {
        return Answer::Done(found);
    }
    refusal
}

// Check 1: settings have blocks exactly if acceptance gives their record.
fn check_shape(blocks: usize) -> Answer
    ensures { as_check result ≡ ask (dec_lt 0 blocks) BadShape }
{
    answer_of(0 < blocks, blocks, Answer::BadShape)
}

// Check 2: the sheet's length is n.
fn check_length(cells: usize, n: usize) -> Answer
    ensures { as_check result ≡ ask (ℕ_discrete cells n) BadLength }
{
    answer_of(cells == n, cells, Answer::BadLength)
}

// Check 3: the output has k places.
fn check_output(places: usize, k: usize) -> Answer
    ensures { as_check result ≡ ask (dec_le k places) ShortOutput }
{
    answer_of(k <= places, places, Answer::ShortOutput)
}

// Check 4: the bit's number is below k.
fn check_bit(bit: usize, k: usize) -> Answer
    ensures { as_check result ≡ ask (dec_lt bit k) BadBit }
{
    answer_of(bit < k, bit, Answer::BadBit)
}

// Check 5: no cell is above the top level.
fn check_levels(sheet: &[u8], top: u8) -> Answer
    ensures { as_check result ≡ level_check (first_above top sheet.now) }
{
    match first_above(sheet, top) {
        Some(cell) => Answer::BadLevel(cell),
        None => Answer::Done(sheet.len()),
    }
}

// Check 3 or 4, by what the call asks for itself.
fn check_asked(asked: Asked, k: usize) -> Answer
    ensures { as_check result ≡ check_asked k asked }
{
    match asked {
        Asked::Places(places) => check_output(places, k),
        Asked::Bit(bit) => check_bit(bit, k),
    }
}

// Checks 1 and 2, which every call runs.
pub fn check_size(settings: Settings, blocks: usize, cells: usize) -> Answer
    requires { blocks ≡ block_count settings }
    ensures { as_check result ≡ size_checks settings cells }
{
    let shape = check_shape(blocks);
    let Answer::Done(_) = shape else {
        return shape;
    };
    check_length(cells, settings.n)
}

// Checks 1 to 5 of a call on a sheet, in number order.
pub fn check_call(settings: Settings, blocks: usize, sheet: &[u8], asked: Asked) -> Answer
    requires { blocks ≡ block_count settings }
    ensures { as_check result ≡ first_checks settings sheet.now asked }
{
    let size = check_size(settings, blocks, sheet.len());
    let Answer::Done(_) = size else {
        return size;
    };
    let own = check_asked(asked, settings.k);
    let Answer::Done(_) = own else {
        return own;
    };
    check_levels(sheet, settings.top as u8)
}

// Check 7: the encoding map finds a place for the change.
pub fn check_place(plan: Plan) -> Answer
    ensures { result ≡ place_check plan }
{
    if let Plan::Nowhere = plan {
        return Answer::Erase;
    }
    Answer::Done(0)
}
