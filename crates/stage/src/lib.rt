// One stage from 1 up: its check and every bit's block, in one pass over its parity blocks; and the plan of a change in it. Assumes nothing.
#![tactic(auto)]

ghost use Rattle.std.specs.Prelude.{◌≡◌, ◌+◌, ◌-◌, ◌*◌, ◌≤◌, ◌<◌, length};
ghost use Rattle.rules.specs.Accept.{most_bits};
ghost use Rattle.rules.specs.Cells.{chop};
ghost use Rattle.stage.specs.Meaning.{entries_in, Near, ScanFits, StageScanned, plan_in};

use cells::blocks::Blocks;
use index::Region;
use plan::{Look, Place, Plan};
use rules::Answer;

// The check of a stage, whose index blocks stand in a region of the sheet, and every bit's block: the j-th parity block that isn't full belongs to the j-th index block that isn't full.
pub fn scan_stage(
    stage: usize,
    region: Region,
    blocks: Blocks,
    batch: &[u8],
    k: usize,
    look: &mut Look,
)
    requires { ScanFits blocks region k batch.now }
    ensures { StageScanned stage region.cell k (blocks.entry.len * blocks.entry.top) (chop blocks.entry.len blocks.entry.count blocks.entry.cells.now) (entries_in region (2 * (k - 1)) batch.now) look.new }
{
    look.clear(Answer::Done(stage));
    look.batch = region.cell;
    let mut indexes = region.open(batch, 2 * (k - 1));
    for (j, weight) in blocks.live() {
        let Some((slot, u)) = indexes.next() else {
            return look.clear(Answer::BadSheet);
        };
        let place = Some(Place {
            block: j as u16,
            slot: slot as u8,
            weight: weight as u16,
        });
        if u == 0 {
            look.free = look.free.or(place);
            continue;
        }
        let bit = u - 1;
        if k < u || look.bits[bit].is_some() {
            return look.clear(Answer::BadSheet);
        }
        look.bits[bit] = place;
    }
    if let Some(_) = indexes.next() {
        look.clear(Answer::BadSheet);
    }
}

// The first cell of a block's index block, in a batch.
fn index_at(batch: usize, place: Place, width: usize) -> usize
    requires { (batch ≤ 65536) × (width ≤ 65536) }
    ensures { result ≡ batch + place.slot * width }
{
    batch + place.slot as usize * width
}

// The plan of a change within the stage: the bit's own block is raised, and its index block to full if that fills it; else the bit takes the first free block,
// raised only if its weight is even; or the stage has no place. `full` is the weight of a full block.
pub fn plan_in(look: &Look, bit: usize, width: usize, full: usize) -> Plan
    requires { (bit < most_bits) × Near look.now width }
    ensures { result ≡ plan_in look.now bit width full }
{
    if let Some(own) = look.bits[bit] {
        let block = own.block as usize;
        if own.weight as usize + 1 != full {
            return Plan::Raise(block);
        }
        return Plan::Close(block, index_at(look.batch, own, width));
    }
    if let Some(free) = look.free {
        let index = index_at(look.batch, free, width);
        return Plan::Take(free.block as usize, index, 1 - free.weight as usize % 2);
    }
    Plan::Nowhere
}
