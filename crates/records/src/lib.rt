// One record of the drive program: what it asks for, and what the library makes of it. Assumes nothing.
#![tactic(auto)]

ghost use Rattle.std.specs.Prelude.{◌≡◌, ◌↔◌, List, ℕ, IsTrue};
ghost use Rattle.rules.specs.Answer.{number_of, value_of};
ghost use Rattle.rules.specs.Promises.{RecordPromise, SumPromise, BitsPromise};
ghost use Rattle.rules.specs.Records.{record_step, erase_step, change_step, read_step};
ghost use Rattle.records.specs.Meaning.{step_of, SameAsked, asked_step, Front};

use rules::{Answer, MOST_BITS, Settings, Setup};

// What a record asks for: the sheet of new settings erased, a bit of the sheet held changed, or that sheet read.
#[derive(Clone, Copy)]
enum Operation {
    Erase(Settings),
    Change(usize),
    Read,
}

// Is there a sheet held, of these settings?
fn is_held(held: Settings, kind: usize, k: usize, top: usize, n: usize) -> bool
    ensures { IsTrue result ↔ SameAsked kind k top n held }
{
    held.k > 0 && kind == held.kind && k == held.k && top == held.top && n == held.n
}

// The operation of a record; none where it is not whole, a byte is not what it must be, or the sheet held is not its own: the tests for BadRecord.
fn operation_of(bytes: &[u8], held: Settings) -> Option<Operation>
    ensures { (xs : List ℕ) → record_step bytes.now held xs ≡ asked_step result held xs }
{
    let &[operation, kind, k, top, low, high, bit, 0] = bytes else {
        return None;
    };
    let kind = kind as usize;
    let k = k as usize;
    let top = top as usize;
    let n = usize::from(u16::from_le_bytes([low, high]));
    let same = is_held(held, kind, k, top, n);
    match operation {
        1 if bit == 0 => Some(Operation::Erase(Settings::work_out(kind, k, top, n))),
        2 if same => Some(Operation::Change(bit as usize)),
        3 if bit == 0 && same => Some(Operation::Read),
        _ => None,
    }
}

// The cells that a sheet of n cells takes of these.
fn front(n: usize, cells: &[u8]) -> usize
    ensures { Front n cells.now result }
{
    n.min(cells.len())
}

// Operation 1: the sheet of the new settings is erased, and held if that is done.
fn erase(new: Settings, held: Settings, cells: &mut [u8]) -> Setup
    ensures { step_of result cells.new ≡ erase_step new held cells.old }
{
    let n = front(new.n, cells);
    let answer = sheet::erase(new, &mut cells[..n]);
    let settings = match answer {
        Answer::Done(_) => new,
        _ => held,
    };
    Setup { answer, settings }
}

// Operation 2: a bit of the sheet held is changed.
fn change(held: Settings, cells: &mut [u8], bit: usize) -> Setup
    ensures { step_of result cells.new ≡ change_step held cells.old bit }
{
    let n = front(held.n, cells);
    let answer = sheet::change(held, &mut cells[..n], bit);
    Setup {
        answer,
        settings: held,
    }
}

// Operation 3: the sheet held is read; the bits it has are shown after every record, so here its answer is enough.
fn read(held: Settings, cells: &[u8]) -> Setup
    ensures { step_of result cells.now ≡ read_step held cells.now }
{
    let n = front(held.n, cells);
    let answer = sheet::read(held, &cells[..n], &mut [0; MOST_BITS]);
    Setup {
        answer,
        settings: held,
    }
}

// One record: every test for BadRecord first, then the work of its operation.
pub fn obey(bytes: &[u8], held: Settings, cells: &mut [u8]) -> Setup
    ensures { RecordPromise bytes.now held cells.old (number_of result.answer) (value_of result.answer) result.settings cells.new }
{
    match operation_of(bytes, held) {
        Some(Operation::Erase(new)) => erase(new, held, cells),
        Some(Operation::Change(bit)) => change(held, cells, bit),
        Some(Operation::Read) => read(held, cells),
        None => Setup {
            answer: Answer::BadRecord,
            settings: held,
        },
    }
}

// The sum of the levels of the sheet held; 0 while there is none.
pub fn sum_held(held: Settings, cells: &[u8]) -> usize
    ensures { SumPromise held cells.now result }
{
    if !held.genuine() {
        return 0;
    }
    cells::sum_of(&cells[..front(held.n, cells)])
}

// The bits of the sheet held, into the first places of out, and no place after them touched; answers how many: none where the reading is refused, as while there is no sheet or too few places.
pub fn bits_held(held: Settings, cells: &[u8], out: &mut [u8]) -> usize
    ensures { BitsPromise held cells.now out.old result out.new }
{
    let n = front(held.n, cells);
    match sheet::read(held, &cells[..n], out) {
        Answer::Done(_) => held.k,
        _ => 0,
    }
}
