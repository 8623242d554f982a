// The route of a move: the blocks that record the values of the bits, and what the index blocks say then. Assumes nothing.
ghost use Rattle.std.specs.Prelude.{◌≡◌, ◌-◌, ◌*◌, ◌≤◌, take};
ghost use Rattle.rules.specs.Accept.{most_bits};

use index::Index;
use rules::MOST_BITS;

// The parity blocks of a stage: how many cells one has, and how many there are.
#[derive(Clone, Copy)]
pub struct ParityBlocks {
    pub len: usize,
    pub count: usize,
}

// What a move does to a live parity block that records a value: it stays, as its parity is the value; it is raised by one; or it is raised by one and is full then.
#[derive(Clone, Copy, PartialEq, Eq)]
pub enum Mark {
    Stays,
    Raised,
    Filled,
}

impl Mark {
    ghost use Rattle.moving.specs.Meaning.{mark, raises};

    // The mark of a live block of this weight that records a value; a full block has the weight `full`.
    #[tactic(auto, unfolding(crate::specs::Meaning::mark))]
    pub fn of(weight: usize, full: usize, value: usize) -> Mark
        requires { weight ≤ 65536 * 255 }
        ensures { result ≡ mark full weight value }
    {
        if weight % 2 == value {
            Mark::Stays
        } else if weight + 1 == full {
            Mark::Filled
        } else {
            Mark::Raised
        }
    }

    // Whether the block is raised.
    pub fn raises(self) -> bool
        ensures { result ≡ raises self }
    {
        self != Mark::Stays
    }
}

// A parity block that records the value of a bit: its number among the parity blocks, and its mark.
#[derive(Clone, Copy)]
pub struct Recorder {
    pub block: u16,
    pub mark: Mark,
}

// The route of a move of k bits to a stage with these parity blocks, of cells with this top level: how many of them aren't full,
// and the first of these, which record the values of the bits in turn.
#[derive(Clone, Copy)]
pub struct Route {
    pub parity: ParityBlocks,
    pub top: u8,
    pub k: usize,
    pub live: usize,
    pub recorders: [Recorder; MOST_BITS],
    pub ghost few: { k ≤ most_bits },
}

impl Route {
    ghost use Rattle.index.specs.Meaning.{as_entry};
    ghost use Rattle.moving.specs.Meaning.{marks_in, risen, slot_entry};

    // The blocks that record the values, in turn.
    pub fn recorders(&self) -> &[Recorder]
        ensures { result.now ≡ take self.now.k self.now.recorders }
    {
        &self.recorders[..self.k]
    }

    // How many of them are raised.
    pub fn raised(&self) -> usize
        ensures { (result ≡ risen (marks_in (take self.now.k self.now.recorders))) × (result ≤ self.now.k) }
    {
        self.recorders()
            .iter()
            .filter(|recorder| recorder.mark.raises())
            .count()
    }

    // How many index blocks the stage has.
    pub fn slots(&self) -> usize
        requires { 1 ≤ self.now.k }
        ensures { result ≡ 2 * (self.now.k - 1) }
    {
        2 * (self.k - 1)
    }

    // What index block x says after the move: the number of its bit, or full where the value fills the block; 0 past the bits; full past the live blocks.
    #[tactic(auto, unfolding(crate::specs::Meaning::slot_entry))]
    pub fn entry(&self, x: usize) -> Index
        ensures { as_entry result ≡ slot_entry self.now.k self.now.live self.now.recorders x }
    {
        if x < self.k {
            if self.recorders[x].mark == Mark::Filled {
                Index::Full
            } else {
                Index::Number(x + 1)
            }
        } else if x < self.live {
            Index::Number(0)
        } else {
            Index::Full
        }
    }
}
