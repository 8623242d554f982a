// The move to a stage: the live parity blocks record the values of the bits after the change, and the stage's index blocks are set.
// A route is worked out first, by a pass that only reads; what the move needs, and the move itself, follow the route. Assumes nothing.
#![tactic(auto)]

ghost use Rattle.std.specs.Prelude.{◌≡◌, ◌-◌, ◌*◌, ◌≤◌, ◌<◌, length};
ghost use Rattle.plan.specs.Meaning.{Needs, value_in};
ghost use Rattle.rules.specs.Accept.{most_bits};
ghost use Rattle.rules.specs.Cells.{Low, tabulate};
ghost use Rattle.rules.specs.Staged.{after};
ghost use Rattle.moving.specs.Meaning.{HasRoute, Placed, RegionFits, RouteFits, RouteMoves, RouteNeeds, RouteOf, RowFits, marked_cells, row_cells, slot_entries};

use cells::blocks::Blocks;
use index::Region;
use parity::raise_parity;
use plan::{Need, Place, value_of};
use route::{Mark, ParityBlocks, Recorder, Route};
use rules::MOST_BITS;

pub mod route;

// The value of bit i by the blocks that the bits have, once the named bit is changed.
fn value_after(bits: &[Option<Place>; MOST_BITS], i: usize, bit: usize) -> usize
    requires { i < most_bits }
    ensures { result ≡ after bit (value_in bits.now) i }
{
    let value = usize::from(value_of(bits[i]));
    if i == bit { 1 - value } else { value }
}

// The route of the move of k bits that records the values after the change of a bit, from the bits' blocks: each parity block that isn't full is summed once.
pub fn route_of(blocks: Blocks, k: usize, bits: &[Option<Place>; MOST_BITS], bit: usize) -> Route
    requires { RouteFits blocks.len blocks.count k blocks.top blocks.cells.now }
    ensures { RouteOf blocks.entry k (tabulate k (after bit (value_in bits.now))) result }
{
    let mut live = 0;
    let mut recorders = [Recorder {
        block: 0,
        mark: Mark::Stays,
    }; MOST_BITS];
    for (block, weight) in blocks.live() {
        if live < k {
            let value = value_after(bits, live, bit);
            recorders[live] = Recorder {
                block: block as u16,
                mark: Mark::of(weight, blocks.full(), value),
            };
        }
        live += 1;
    }
    Route {
        parity: ParityBlocks {
            len: blocks.len,
            count: blocks.count,
        },
        top: blocks.top,
        k,
        live,
        recorders,
    }
}

// The parity blocks that a route marks, each raised by one.
fn raise_marked(cells: &mut [u8], route: &Route)
    requires { Placed route.now.parity.len route.now.k route.now.recorders cells.old }
    ensures { cells.new ≡ marked_cells route.now.parity.len route.now.top route.now.k route.now.recorders cells.old }
{
    for recorder in route.recorders() {
        if recorder.mark.raises() {
            raise_parity(cells, route.parity.len, recorder.block as usize, route.top);
        }
    }
}

// The batch written, index block by index block.
fn write_batch(batch: &mut [u8], region: Region, route: &Route)
    requires { RowFits region.width region.floor region.step route.now.k batch.old }
    ensures { batch.new ≡ row_cells region.floor region.step region.width (slot_entries route.now.k route.now.live route.now.recorders (2 * (route.now.k - 1))) }
{
    for x in 0..route.slots() {
        let a = x * region.width;
        region.set_entry(&mut batch[a..a + region.width], route.entry(x));
    }
}

// The move by a route: the marked parity blocks are raised, and then the batch is written.
pub fn commit_move(sheet: &mut [u8], region: Region, route: &Route)
    requires region_fits { RegionFits region route.now.k sheet.old }
    requires has_route { HasRoute region route.now sheet.old }
    ensures { RouteMoves region route.now sheet.old sheet.new }
{
    let cells = route.parity.count * route.parity.len;
    raise_marked(&mut sheet[..cells], route);
    let at = region.cell;
    let end = at + route.slots() * region.width;
    write_batch(&mut sheet[at..end], region, route);
}

// What it needs to write the batch, as the batch stands.
fn need_batch(batch: &[u8], region: Region, route: &Route) -> Need
    requires { RowFits region.width region.floor region.step route.now.k batch.now × Low region.floor batch.now }
    ensures needs { Needs batch.now (row_cells region.floor region.step region.width (slot_entries route.now.k route.now.live route.now.recorders (2 * (route.now.k - 1)))) result }
    ensures small { (result.cells ≤ 65536) × (result.levels ≤ 65536 * 255) }
{
    let mut cells = 0;
    let mut levels = 0;
    for x in 0..route.slots() {
        let a = x * region.width;
        let need = region.need_entry(&batch[a..a + region.width], route.entry(x));
        cells += need.cells;
        levels += need.levels;
    }
    Need { cells, levels }
}

// What the move by a route needs, as the sheet stands, before anything is written.
pub fn move_need(sheet: &[u8], region: Region, route: &Route) -> Need
    requires { RegionFits region route.now.k sheet.now }
    ensures { RouteNeeds region route.now sheet.now result }
{
    let raised = route.raised();
    let at = region.cell;
    let end = at + route.slots() * region.width;
    let batch = need_batch(&sheet[at..end], region, route);
    Need {
        cells: raised + batch.cells,
        levels: raised + batch.levels,
    }
}
