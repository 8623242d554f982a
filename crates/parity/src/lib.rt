// Parity blocks: one raised, how many are live, and the first later stage with room. Assumes nothing.
#![tactic(auto)]

ghost use Rattle.std.specs.Prelude.{◌≡◌, ◌+◌, ◌*◌, ◌≤◌, length};
ghost use Rattle.rules.specs.Cells.{block, store, chop};
ghost use Rattle.rules.specs.Stage.{raise, live_weights};
ghost use Rattle.rules.specs.Staged.{parity_length};
ghost use Rattle.rules.specs.Search.{as_found};
ghost use Rattle.parity.specs.Meaning.{later_from};

use cells::blocks::Blocks;

// A parity block raised by one: its lowest-numbered cell below the top level is.
pub fn raise_one(b: &mut [u8], top: u8)
    ensures { b.new ≡ raise top b.old }
{
    for i in 0..b.len() {
        let level = b[i];
        if level < top {
            b[i] = level + 1;
            return;
        }
    }
}

// Parity block j of `len` cells raised by one: the block is lent on.
pub fn raise_parity(cells: &mut [u8], len: usize, j: usize, top: u8)
    requires { j * len + len ≤ length cells.old }
    ensures { cells.new ≡ store len cells.old j (raise top (block len cells.old j)) }
{
    let a = j * len;
    let e = a + len;
    raise_one(&mut cells[a..e], top);
}

// How many of the blocks are live.
pub fn count_live(blocks: Blocks) -> usize
    ensures { result ≡ length (live_weights (blocks.entry.len * blocks.entry.top) (chop blocks.entry.len blocks.entry.count blocks.entry.cells.now)) }
{
    blocks.live().count()
}

// The first later stage in which at least k parity blocks are live, told by how many stages are left there, or none: blocks half as long are tried each time.
pub fn later_stage(blocks: Blocks, left: usize, k: usize) -> Option<usize>
    requires { blocks.len ≡ parity_length left }
    ensures { as_found result ≡ later_from k blocks.entry.top blocks.entry.count left blocks.entry.cells.now }
{
    if blocks.len < 4 {
        return None;
    }
    let halved = blocks.halved();
    if k <= count_live(halved) {
        return Some(left - 1);
    }
    later_stage(halved, left - 1, k)
}
