// The types that every crate shares: the settings of a sheet and the answer of a call. Assumes nothing.
#![tactic(auto)]

ghost use Rattle.rules.specs.Promises.{KindPromise, NumberPromise, ValuePromise};

mod acceptance;

// The most bits: the limit of k, and the length of every array that has a place for each bit.
pub const MOST_BITS: usize = 64;

// Settings as acceptance gives them: what was asked for, and m blocks, s stages and index width w worked out.
#[derive(Clone, Copy, PartialEq, Eq)]
pub struct Settings {
    pub kind: usize,
    pub k: usize,
    pub top: usize,
    pub n: usize,
    pub m: usize,
    pub s: usize,
    pub w: usize,
}

// The kinds of sheet. A record has the kind's number, as a caller may hand in any.
#[derive(Clone, Copy, PartialEq, Eq)]
pub enum Kind {
    Plain,
    Staged,
}

// A number that is no kind's.
#[derive(Clone, Copy)]
pub struct NoKind;

impl TryFrom<usize> for Kind {
    type Error = NoKind;

    ghost try_from_gives = { KindPromise };

    // The kind of a number.
    fn try_from(number: usize) -> Result<Kind, NoKind> {
        match number {
            0 => Ok(Kind::Plain),
            1 => Ok(Kind::Staged),
            _ => Err(NoKind),
        }
    }
}

// The record of zeros: what refused settings give.
pub const REFUSED: Settings = Settings {
    kind: 0,
    k: 0,
    top: 0,
    n: 0,
    m: 0,
    s: 0,
    w: 0,
};

// What a call answers, with its value where it has one.
#[derive(Clone, Copy)]
pub enum Answer {
    Done(usize),
    BadShape,
    BadLength,
    ShortOutput,
    BadBit,
    BadLevel(usize),
    BadSheet,
    Erase,
    BadRecord,
}

// What settings come to: the answer and the record, of zeros where they are refused.
#[derive(Clone, Copy)]
pub struct Setup {
    pub answer: Answer,
    pub settings: Settings,
}

impl Answer {
    // The answer's number.
    pub fn number(self) -> usize
        ensures { NumberPromise self result }
    {
        match self {
            Answer::Done(_) => 0,
            Answer::BadShape => 1,
            Answer::BadLength => 2,
            Answer::ShortOutput => 3,
            Answer::BadBit => 4,
            Answer::BadLevel(_) => 5,
            Answer::BadSheet => 6,
            Answer::Erase => 7,
            Answer::BadRecord => 8,
        }
    }

    // The answer's value: 0 unless a rule names another.
    pub fn value(self) -> usize
        ensures { ValuePromise self result }
    {
        match self {
            Answer::Done(value) | Answer::BadLevel(value) => value,
            _ => 0,
        }
    }
}
