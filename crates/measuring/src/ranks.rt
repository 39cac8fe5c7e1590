// How cells are ranked, one after the other.
ghost use Rattle.std.specs.Prelude.{◌≡◌, ℕ, ◌+◌, ◌<◌, ◌≤◌, length, IfSome, MatchOption};
ghost use Rattle.board.specs.Sizes.{area};
ghost use Rattle.measuring.specs.Boards.{open_neighbours};
ghost use Rattle.measuring.specs.Maps.{entries_needed, measured_map, reached_count, step_count};
ghost use Rattle.measuring.specs.Measurements.{board_of, meant};
ghost use Rattle.measuring.specs.Tracking.{RanksOne, Turns};
ghost use Rattle.queue.specs.Queues.{queued};

use crate::measurement::Measurement;
use crate::offers::Offerer;
use crate::{Counts, RowOf};
use board::MapRecord;
use gauges::{Gauge, Point};
use lengths::Length;
use queue::{Offer, OfferQueue};

impl<'a, G: Gauge> Measurement<'a, G> {
    // Ranks the cell of the shortest offer, lets it make its own offers, and counts them.
    fn rank_cell<'q>(
        &self,
        offer: Offer<RowOf<G>>,
        rank: u16,
        map: &mut [MapRecord<RowOf<G>>],
        queue: &mut OfferQueue<'q, G::Length>,
    ) -> usize
        requires within { area self.now.size ≤ length map.old }
        requires cell { offer.cell < area self.now.size }
        requires room { queue.old.len + 8 ≤ length queue.old.entries.now }
        ensures few { queue.new.len ≤ queue.old.len + 8 }
        ensures eight { result ≤ 8 }
        ensures room { length queue.new.entries.now ≡ length queue.old.entries.now }
        ensures counts { result ≡ open_neighbours (board_of self.now) offer.cell }
        ensures tracks { RanksOne
            (meant G.Length.kind G.crossing self.now) rank offer
            map.old (queued queue.old) map.new (queued queue.new) }
    {
        let number = offer.cell;
        let mut record = map[number];
        record.reached = true;
        record.rank = rank;
        map[number] = record;
        let from = Offerer {
            at: Point {
                row: number as u16 / self.size.columns,
                column: number as u16 % self.size.columns,
                height: self.cells[number].height,
            },
            number: number as u16,
            length: <G::Length as Length>::decode(offer.length),
            pad: record.pad,
        };
        self.offer_around(from, map, queue)
    }

    // Takes up an offer that came out of the queue: its cell is ranked with this rank, and the
    // steps that it puts to the gauge are counted. An offer to a ranked cell is dropped.
    fn take_up<'q>(
        &self,
        offer: Offer<RowOf<G>>,
        rank: u16,
        map: &mut [MapRecord<RowOf<G>>],
        queue: &mut OfferQueue<'q, G::Length>,
    ) -> Option<usize>
        requires within { area self.now.size ≤ length map.old }
        requires cell { offer.cell < area self.now.size }
        requires room { queue.old.len + 8 ≤ length queue.old.entries.now }
        ensures few { MatchOption result (queue.new.len ≤ queue.old.len)
            (λ _. queue.new.len ≤ queue.old.len + 8) }
        ensures eight { IfSome result (λ steps. steps ≤ 8) }
        ensures room { length queue.new.entries.now ≡ length queue.old.entries.now }
        ensures turns { (steps : ℕ) → Turns
            (meant G.Length.kind G.crossing self.now) rank steps offer result
            map.old (queued queue.old) map.new (queued queue.new) }
    {
        if map[offer.cell].reached {
            return None;
        }
        Some(self.rank_cell(offer, rank, map, queue))
    }

    // Starts the map and ranks cells until all are ranked or no offer is left. An offer to a ranked
    // cell is dropped.
    pub(crate) fn rank_all<'q>(
        &self,
        map: &mut [MapRecord<RowOf<G>>],
        queue: &mut OfferQueue<'q, G::Length>,
    ) -> Counts
        requires within { length map.old ≡ area self.now.size }
        requires empty { queue.old.len ≡ 0 }
        requires room { entries_needed self.now.size ≤ length queue.old.entries.now }
        ensures bound { result.reached ≤ area self.now.size }
        ensures map { map.new ≡ measured_map (meant G.Length.kind G.crossing self.now) }
        ensures reached { result.reached ≡ reached_count (meant G.Length.kind G.crossing self.now) }
        ensures steps { result.steps ≡ step_count (meant G.Length.kind G.crossing self.now) }
    {
        self.start(map, queue);
        let area = self.size.area();
        let mut reached = 0;
        let mut steps = 0;
        // Nothing is walked here: the queue grows while it is emptied.
        while reached < area {
            let Some(offer) = queue.pop() else {
                break;
            };
            if let Some(more) = self.take_up(offer, reached as u16, map, queue) {
                steps += more;
                reached += 1;
            }
        }
        Counts { reached, steps }
    }
}
