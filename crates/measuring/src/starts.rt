// How a map starts: each source has the offer zero.
ghost use Rattle.std.specs.Prelude.{◌≡◌, ◌+◌, ◌<◌, ◌≤◌, length};
ghost use Rattle.board.specs.Sizes.{area};
ghost use Rattle.board.specs.Tables.{source_pad};
ghost use Rattle.measuring.specs.Measurements.{meant};
ghost use Rattle.measuring.specs.Tracking.{Started, StartsOne};
ghost use Rattle.queue.specs.Queues.{queued};

use crate::RowOf;
use crate::measurement::Measurement;
use board::{Cell, MapRecord, group_of, known_pad};
use gauges::Gauge;
use lengths::Length;
use queue::{Offer, OfferQueue};

// Starts one record: a source, whose pad is not 0, links to itself and has the offer zero; another
// cell has no offer.
fn start_cell<'q, K: Length>(
    number: usize,
    pad: u8,
    map: &mut [MapRecord<K::Row>],
    queue: &mut OfferQueue<'q, K>,
)
    requires within { number < length map.old }
    requires number { number < 65536 }
    requires room { queue.old.len < length queue.old.entries.now }
    ensures few { queue.new.len ≤ queue.old.len + 1 }
    ensures room { length queue.new.entries.now ≡ length queue.old.entries.now }
    ensures tracks { StartsOne
        K.kind number pad map.old (queued queue.old) map.new (queued queue.new) }
{
    let zero = K::zero().encode();
    if pad == 0 {
        map[number] = MapRecord::unreached(zero);
        return;
    }
    map[number] = MapRecord::offered(zero, pad, number as u16);
    let _ = queue.push(Offer {
        length: zero,
        cell: number,
    });
}

impl<'a, G: Gauge> Measurement<'a, G> {
    // The pad of a source of the group, or 0, the tables' word for no pad, where the cell is none:
    // a source is an open cell whose pad is in the group.
    fn source_pad(&self, cell: Cell) -> u8
        ensures { result ≡ source_pad cell self.now.groups.now self.now.group }
    {
        let pad = known_pad(cell.pad);
        if cell.barred || group_of(self.groups, pad) != self.group {
            0
        } else {
            pad
        }
    }

    // Starts the map.
    pub(crate) fn start<'q>(
        &self,
        map: &mut [MapRecord<RowOf<G>>],
        queue: &mut OfferQueue<'q, G::Length>,
    )
        requires within { area self.now.size ≤ length map.old }
        requires empty { queue.old.len ≡ 0 }
        requires room { area self.now.size ≤ length queue.old.entries.now }
        ensures few { queue.new.len ≤ area self.now.size }
        ensures room { length queue.new.entries.now ≡ length queue.old.entries.now }
        ensures tracks { Started
            (meant G.Length.kind G.crossing self.now) map.new (queued queue.new) }
    {
        for (number, cell) in self.cells[0..self.size.area()].iter().enumerate() {
            let pad = self.source_pad(*cell);
            start_cell::<G::Length>(number, pad, map, queue);
        }
    }
}
