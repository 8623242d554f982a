// The C interface: the four calls over numbers and lent bytes. A settings record crosses as seven numbers that the caller owns. Assumes nothing.
#![tactic(auto)]

ghost use Rattle.std.specs.Prelude.{◌≡◌};
ghost use Rattle.rules.specs.Answer.{number_of, value_of};
ghost use Rattle.rules.specs.Interface.{record_of};
ghost use Rattle.rules.specs.Promises.{SettingsIntoPromise, EraseByPromise, ReadByPromise, ChangeByPromise, VersionPromise};

use rules::{Answer, Settings};

// The version of this interface.
const VERSION: usize = 3;

// The record that seven numbers stand for; any other count of numbers stands for the record of zeros.
fn record_of(numbers: &[usize]) -> Settings
    ensures { result ≡ record_of numbers.now }
{
    let &[kind, k, top, n, m, s, w] = numbers else {
        return rules::REFUSED;
    };
    Settings {
        kind,
        k,
        top,
        n,
        m,
        s,
        w,
    }
}

// What every call hands back of its answer: the number, with the value written.
fn hand_back(answer: Answer, value: &mut usize) -> usize
    ensures { (result ≡ number_of answer) × (value.new ≡ value_of answer) }
{
    *value = answer.value();
    answer.number()
}

// Settings: the record is written as seven numbers, of zeros where the settings are refused; other than seven places is BadShape, and none is written. Hands back the answer's number and writes its value.
#[unsafe(no_mangle)]
pub extern "C" fn harpginger_settings(
    kind: usize,
    k: usize,
    top: usize,
    n: usize,
    numbers: &mut [usize],
    value: &mut usize,
) -> usize
    ensures { SettingsIntoPromise kind k top n numbers.old result value.new numbers.new }
{
    if numbers.len() != 7 {
        return hand_back(Answer::BadShape, value);
    }
    let setup = Settings::accept(kind, k, top, n);
    let r = setup.settings;
    numbers.copy_from_slice(&[r.kind, r.k, r.top, r.n, r.m, r.s, r.w]);
    hand_back(setup.answer, value)
}

// Erase: all n cells are set to 0. Hands back the answer's number and writes its value.
#[unsafe(no_mangle)]
pub extern "C" fn harpginger_erase(numbers: &[usize], sheet: &mut [u8], value: &mut usize) -> usize
    ensures { EraseByPromise numbers.now sheet.old result value.new sheet.new }
{
    let answer = sheet::erase(record_of(numbers), sheet);
    hand_back(answer, value)
}

// Read: the k bits are written, 0 or 1, bit 0 first. Hands back the answer's number and writes its value.
#[unsafe(no_mangle)]
pub extern "C" fn harpginger_read(
    numbers: &[usize],
    sheet: &[u8],
    out: &mut [u8],
    value: &mut usize,
) -> usize
    ensures { ReadByPromise numbers.now sheet.now out.old result value.new out.new }
{
    let answer = sheet::read(record_of(numbers), sheet, out);
    hand_back(answer, value)
}

// Change of one bit: the sheet of the encoding map, or Erase where it finds no place. Hands back the answer's number and writes its value.
#[unsafe(no_mangle)]
pub extern "C" fn harpginger_change(
    numbers: &[usize],
    sheet: &mut [u8],
    bit: usize,
    value: &mut usize,
) -> usize
    ensures { ChangeByPromise numbers.now sheet.old bit result value.new sheet.new }
{
    let answer = sheet::change(record_of(numbers), sheet, bit);
    hand_back(answer, value)
}

// Hands back the version of this interface, which the caller compares with its header's.
#[unsafe(no_mangle)]
pub extern "C" fn harpginger_version() -> usize
    ensures { VersionPromise result }
{
    VERSION
}
