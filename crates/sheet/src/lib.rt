// The library: erase, read and change a sheet of accepted settings. Every call answers for any settings, levels and bit. Assumes nothing.
#![tactic(auto)]

mod accepted;
mod checks;

ghost use Rattle.rules.specs.Answer.{number_of, value_of};
ghost use Rattle.rules.specs.Promises.{ErasePromise, ReadPromise, ChangePromise};

use accepted::Accepted;
use cells::fill;
use checks::{Asked, check_call, check_place, check_size};
use plain::write_bits;
use plan::unseen;
use rules::{Answer, Settings};

// Erase: all n cells are set to 0, and the guarantee is answered.
pub fn erase(settings: Settings, sheet: &mut [u8]) -> Answer
    ensures { ErasePromise settings sheet.old (number_of result) (value_of result) sheet.new }
{
    let size = check_size(settings, settings.blocks(), sheet.len());
    let Answer::Done(_) = size else {
        return size;
    };
    fill(sheet, 0);
    Answer::Done(settings.guarantee())
}

// Read: the k bits are written, 0 or 1, bit 0 first, and no place after them is touched.
pub fn read(settings: Settings, sheet: &[u8], out: &mut [u8]) -> Answer
    ensures { ReadPromise settings sheet.now out.old (number_of result) (value_of result) out.new }
{
    let blocks = settings.blocks();
    let checked = check_call(settings, blocks, sheet, Asked::Places(out.len()));
    let Answer::Done(_) = checked else {
        return checked;
    };
    let mut look = unseen(Answer::BadSheet);
    Accepted::of(settings, blocks).look(sheet, &mut look);
    let Answer::Done(_) = look.answer else {
        return look.answer;
    };
    Answer::Done(write_bits(out, settings.k, &look.bits))
}

// Change: the sheet of the encoding map for the bit named, and the levels raised; or Erase where it finds no place.
pub fn change(settings: Settings, sheet: &mut [u8], bit: usize) -> Answer
    ensures { ChangePromise settings sheet.old bit (number_of result) (value_of result) sheet.new }
{
    let blocks = settings.blocks();
    let checked = check_call(settings, blocks, sheet, Asked::Bit(bit));
    let Answer::Done(_) = checked else {
        return checked;
    };
    let accepted = Accepted::of(settings, blocks);
    let mut look = unseen(Answer::BadSheet);
    accepted.look(sheet, &mut look);
    let Answer::Done(stage) = look.answer else {
        return look.answer;
    };
    let plan = accepted.plan(sheet, bit, stage, &look);
    let placed = check_place(plan);
    let Answer::Done(_) = placed else {
        return placed;
    };
    Answer::Done(accepted.carry(sheet, bit, stage, &look.bits, plan))
}
