// Settings: accepted once, carried as one record, and asked for what they come to. Assumes nothing.
ghost use Rattle.std.specs.Prelude.{◌≡◌, ◌+◌, ◌-◌, ◌*◌, ◌≤◌, ◌<◌, ◌↔◌, IsTrue};
ghost use Rattle.rules.specs.Search.{as_found};
ghost use Rattle.rules.specs.Batches.{batch_cells, index_cells};
ghost use Rattle.rules.specs.Accept.{most_bits, most_top, most_stages, accept_plain, place_of, stages_of, index_width, accept_staged, accept, Genuine, reported, guarantee};
ghost use Rattle.rules.specs.Asked.{InLimits, if_accepted};
ghost use Rattle.rules.specs.AcceptLaws.{PlainFacts, StagedFacts};
ghost use Rattle.rules.specs.Answer.{number_of, value_of};
ghost use Rattle.rules.specs.Promises.{SettingsPromise, WorkOutPromise, GenuinePromise, GuaranteePromise, BlocksPromise, WidthPromise, BatchStartPromise};

use crate::{Answer, Kind, MOST_BITS, REFUSED, Settings, Setup};

// The s of that many bits.
const MOST_STAGES: usize = 6;

// The highest top level.
const MOST_TOP: usize = 255;

// The most cells.
const MOST_CELLS: usize = 16384;

impl Settings {
    // The call: the guarantee and the record, or BadShape and the record of zeros.
    pub fn accept(kind: usize, k: usize, top: usize, n: usize) -> Setup
        ensures { SettingsPromise kind k top n (number_of result.answer) (value_of result.answer) result.settings }
    {
        let Some(settings) = Settings::accepted(kind, k, top, n) else {
            return Setup {
                answer: Answer::BadShape,
                settings: REFUSED,
            };
        };
        Setup {
            answer: Answer::Done(settings.formula()),
            settings,
        }
    }

    // The record for any four numbers; of zeros where they are refused.
    pub fn work_out(kind: usize, k: usize, top: usize, n: usize) -> Settings
        ensures { WorkOutPromise kind k top n result }
    {
        Settings::accepted(kind, k, top, n).unwrap_or(REFUSED)
    }

    // The record for any four numbers; none where they are refused.
    fn accepted(kind: usize, k: usize, top: usize, n: usize) -> Option<Settings>
        ensures { result ≡ if_accepted (accept kind k top n) }
    {
        match Kind::try_from(kind).ok()? {
            Kind::Plain => accept_plain(k, top, n),
            Kind::Staged => accept_staged(k, top, n),
        }
    }

    // Is this a record that acceptance gives? It is worked out again and compared.
    pub fn genuine(self) -> bool
        ensures { GenuinePromise self result }
    {
        Settings::accepted(self.kind, self.k, self.top, self.n) == Some(self)
    }

    // The guarantee; 0 for a record that acceptance never gives.
    pub fn guarantee(self) -> usize
        ensures { GuaranteePromise self result }
    {
        if self.genuine() { self.formula() } else { 0 }
    }

    // The guarantee of an accepted record.
    fn formula(self) -> usize
        requires { Genuine self }
        ensures { result ≡ guarantee self }
    {
        if self.kind == Kind::Plain as usize {
            self.plain_formula()
        } else {
            self.staged_formula()
        }
    }

    // Demand 3's formula for kind 0.
    fn plain_formula(self) -> usize
        requires { PlainFacts self }
        ensures { result ≡ guarantee self }
    {
        (self.m - self.k + 1) * self.k * self.top + self.k - 1
    }

    // Demand 3's formula for kind 1.
    fn staged_formula(self) -> usize
        requires { StagedFacts self }
        ensures { result ≡ guarantee self }
    {
        self.m * self.k * self.top - (self.k - 1) * (2 * self.top + self.s - 1)
    }

    // The number of blocks of k cells; 0 for a record that acceptance never gives.
    pub fn blocks(self) -> usize
        ensures { BlocksPromise self result }
    {
        self.reported(self.m)
    }

    // The cells of an index block; 0 for a plain sheet, and for a record that acceptance never gives.
    pub fn width(self) -> usize
        ensures { WidthPromise self result }
    {
        self.reported(self.w)
    }

    // A number of an accepted record; 0 for a record that acceptance never gives.
    fn reported(self, number: usize) -> usize
        ensures { result ≡ reported self number }
    {
        if self.genuine() { number } else { 0 }
    }

    // The first cell of a batch from 1 to s - 1; 0 for any other, and for a record that acceptance never gives.
    pub fn batch_start(self, batch: usize) -> usize
        ensures { BatchStartPromise self batch result }
    {
        if (1..self.s).contains(&batch) && self.genuine() {
            self.first_cell(batch)
        } else {
            0
        }
    }

    // Batches stand after the m blocks, one after the other.
    fn first_cell(self, batch: usize) -> usize
        requires { StagedFacts self × (1 ≤ batch) × (batch < self.s) }
        ensures { result ≡ self.m * self.k + (batch - 1) * batch_cells self.s self.w }
    {
        self.m * self.k + (batch - 1) * batch_cells(self.s, self.w)
    }
}

// Are k, top and n within the limits of every kind? It is asked before any product.
fn in_limits(k: usize, top: usize, n: usize) -> bool
    ensures { IsTrue result ↔ InLimits k top n }
{
    (2..=MOST_BITS).contains(&k) && (1..=MOST_TOP).contains(&top) && n <= MOST_CELLS
}

// Kind 0: kL is even, and there are at least k blocks.
fn accept_plain(k: usize, top: usize, n: usize) -> Option<Settings>
    ensures { result ≡ if_accepted (accept_plain k top n) }
{
    if !in_limits(k, top, n) || k * top % 2 != 0 {
        return None;
    }
    let m = n / k;
    (k <= m).then_some(Settings {
        kind: Kind::Plain as usize,
        k,
        top,
        n,
        m,
        s: 0,
        w: 0,
    })
}

// Kind 1: an s of at least 2 is found, I is at most n, and there are at least k blocks.
fn accept_staged(k: usize, top: usize, n: usize) -> Option<Settings>
    ensures { result ≡ if_accepted (accept_staged k top n) }
{
    let s = stages_of(k)?;
    if s < 2 || !in_limits(k, top, n) {
        return None;
    }
    let w = index_width(top, k);
    let m = n.checked_sub(index_cells(s, w))? / k;
    (k <= m).then_some(Settings {
        kind: Kind::Staged as usize,
        k,
        top,
        n,
        m,
        s,
        w,
    })
}

// The s from 0 to 6 with 2 ^ s = k: the zeros below the only digit of k.
fn stages_of(k: usize) -> Option<usize>
    ensures { place_of (as_found result) ≡ stages_of k }
{
    let s = k.trailing_zeros() as usize;
    (s <= MOST_STAGES && 1 << s == k).then_some(s)
}

// The least w with (top + 1) ^ w at least k + 2. By products, as the divisions of a logarithm take longer.
fn index_width(top: usize, k: usize) -> usize
    requires { (1 ≤ top) × (top ≤ most_top) × (k ≤ most_bits) }
    ensures { result ≡ index_width top k }
{
    let mut w: usize = 0;
    let mut p: usize = 1;
    while p < k + 2 {
        p *= top + 1;
        w += 1;
    }
    w
}

// I, the cells of the batches from 1 to s - 1.
fn index_cells(s: usize, w: usize) -> usize
    requires { (1 ≤ s) × (s ≤ most_stages) × (w ≤ most_bits + 2) }
    ensures { result ≡ index_cells s w }
{
    (s - 1) * batch_cells(s, w)
}

// The cells of a batch: 2(k - 1) index blocks of w, with k = 2 ^ s.
fn batch_cells(s: usize, w: usize) -> usize
    requires { (s ≤ most_stages) × (w ≤ most_bits + 2) }
    ensures { result ≡ batch_cells s w }
{
    2 * ((1 << s) - 1) * w
}
