// Measuring: the map of one group by ranking. The map holds the best offer so far to each cell that
// is not ranked yet, with a pad that is not 0, and only an offer that improves on it is queued.
#![tactic(auto)]

ghost use Rattle.std.specs.Prelude.{◌≡◌, ◌≤◌, length, drop};
ghost use Rattle.board.specs.Sizes.{area};
ghost use Rattle.measuring.specs.Boards.{on};
ghost use Rattle.measuring.specs.Maps.{Fills, entries_needed};
ghost use Rattle.measuring.specs.Paths.{measuring};

mod measurement;
mod offers;
mod ranks;
mod starts;

use board::{Cell, MapRecord, Size};
use gauges::Gauge;
use lengths::Length;
use measurement::Measurement;
use queue::{Offer, Queue};

/// The row in which tables hold the lengths of a gauge.
pub type RowOf<G> = <<G as Gauge>::Length as Length>::Row;

/// How many queue entries measuring needs for each cell: one for its own start, and one for an
/// offer from each of its eight neighbours.
pub const ENTRIES_PER_CELL: usize = 9;

/// What is counted while a group is measured.
#[derive(Clone, Copy, Debug, PartialEq, Eq)]
pub struct Counts {
    /// How many cells were reached: at most as many as there are, 65,536.
    pub reached: usize,
    /// How many steps were put to the gauge: at most eight for each reached cell.
    pub steps: usize,
}

/// Measures the map of one group of a plate by a gauge, and counts. The cells and the map's records
/// stand in the order of their numbers. In the tables a pad above 64 counts as none, and a group byte
/// above 2, or a missing one, as 0. The group is a number and no `Group`: its map is promised whatever
/// the number is, and where no pad has that group, no cell is reached.
///
/// Nothing is refused: the contract asks for cells and map records for the whole plate, and for
/// `ENTRIES_PER_CELL` queue entries for each cell. What the map and the entries held before does not
/// matter; what they hold beyond these parts stays.
pub fn measure_group<G: Gauge>(
    gauge: &G,
    size: Size,
    cells: &[Cell],
    groups: &[u8],
    group: u8,
    map: &mut [MapRecord<RowOf<G>>],
    entries: &mut [Offer<RowOf<G>>],
) -> Counts
    requires cells { area size ≤ length cells.now }
    requires map { area size ≤ length map.old }
    requires entries { entries_needed size ≤ length entries.old }
    ensures bound { result.reached ≤ area size }
    ensures map_beyond { drop (area size) map.new ≡ drop (area size) map.old }
    ensures entries_beyond { drop (entries_needed size) entries.new ≡ drop (entries_needed size) entries.old }
    ensures fills { Fills
        (measuring G.Length.kind (G.crossing gauge.now) (on size cells.now groups.now) group)
        map.old map.new entries.old entries.new result }
{
    let job = Measurement {
        gauge,
        size,
        cells,
        groups,
        group,
    };
    let area = size.area();
    let map = &mut map[0..area];
    let mut queue = Queue::new(&mut entries[0..ENTRIES_PER_CELL * area]);
    job.rank_all(map, &mut queue)
}
