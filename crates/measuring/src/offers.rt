// How a ranked cell makes its offers.
ghost use Rattle.std.specs.Prelude.{◌≡◌, ◌+◌, ◌-◌, ◌<◌, ◌≤◌, min, ◌||◌, length, ◌==◌};
ghost use Rattle.board.specs.Sizes.{area};
ghost use Rattle.measuring.specs.Boards.{open_neighbours, point};
ghost use Rattle.measuring.specs.Measurements.{board_of, meant};
ghost use Rattle.measuring.specs.Tracking.{Beside, OffersAcross, OffersAround, Walked, keeps as keeping, itself, offerer};
ghost use Rattle.queue.specs.Queues.{queued};

use crate::RowOf;
use crate::measurement::Measurement;
use board::{Cell, MapRecord};
use gauges::{Gauge, Point, Step};
use lengths::Length;
use queue::{Offer, OfferQueue};

// A ranked cell as it makes its offers.
#[derive(Clone, Copy)]
pub(crate) struct Offerer<L> {
    pub(crate) at: Point,
    pub(crate) number: u16,
    pub(crate) length: L,
    pub(crate) pad: u8,
}

// Whether a record is kept where a length is offered: its cell is ranked, or has an offer as short.
fn keeps<K: Length>(known: MapRecord<K::Row>, offered: K) -> bool
    ensures { result ≡ keeping K.kind known offered }
{
    known.reached || known.pad != 0 && K::decode(known.length).at_most(offered)
}

// Whether a cell gets no offer: it is the offerer itself, or barred. One test of numbers where rows
// and columns would take two: that is a tenth of a flat board's time.
fn passed_over(offerer: u16, number: usize, cell: Cell) -> bool
    ensures { result ≡ (number == offerer || cell.barred) }
{
    number == offerer as usize || cell.barred
}

// The rows or columns beside a place, itself included, of which there are so many: the first, and
// the one past the last.
fn beside(at: u16, count: u16) -> (u16, u16)
    ensures first { result.0 ≡ at - 1 }
    ensures end { result.1 ≡ min (at + 2) count }
{
    (at.saturating_sub(1), at.saturating_add(2).min(count))
}

impl<'a, G: Gauge> Measurement<'a, G> {
    // Offers a cell's length across one step, unless the step is barred or the other cell has an
    // offer that is as short.
    fn offer_across<'q>(
        &self,
        from: Offerer<G::Length>,
        to: Point,
        number: usize,
        map: &mut [MapRecord<RowOf<G>>],
        queue: &mut OfferQueue<'q, G::Length>,
    )
        requires within { number < length map.old }
        requires room { queue.old.len < length queue.old.entries.now }
        ensures few { queue.new.len ≤ queue.old.len + 1 }
        ensures room { length queue.new.entries.now ≡ length queue.old.entries.now }
        ensures tracks { OffersAcross
            G.Length.kind (G.crossing self.now.gauge.now) from to number
            map.old (queued queue.old) map.new (queued queue.new) }
    {
        let step = Step { from: from.at, to };
        let Some(carried) = self.gauge.carry(step, from.length) else {
            return;
        };
        if keeps(map[number], carried) {
            return;
        }
        let row = carried.encode();
        map[number] = MapRecord::offered(row, from.pad, from.number);
        let _ = queue.push(Offer {
            length: row,
            cell: number,
        });
    }

    // Offers a cell's length to the cell at a place beside it, if that is an open neighbour, and
    // counts it.
    fn offer_at<'q>(
        &self,
        from: Offerer<G::Length>,
        row: u16,
        column: u16,
        map: &mut [MapRecord<RowOf<G>>],
        queue: &mut OfferQueue<'q, G::Length>,
    ) -> usize
        requires placed { from.at ≡ point (board_of self.now) from.number }
        requires within { area self.now.size ≤ length map.old }
        requires row { row < self.now.size.rows }
        requires column { column < self.now.size.columns }
        requires beside { Beside from.at row column }
        requires room { queue.old.len < length queue.old.entries.now + itself from row column }
        ensures few { queue.new.len + itself from row column ≤ queue.old.len + 1 }
        ensures one { result + itself from row column ≤ 1 }
        ensures room { length queue.new.entries.now ≡ length queue.old.entries.now }
        ensures walked { Walked
            (meant G.Length.kind G.crossing self.now) from row column row (column + 1) result
            map.old (queued queue.old) map.new (queued queue.new) }
    {
        let number = self.size.number(row, column);
        let cell = self.cells[number];
        if passed_over(from.number, number, cell) {
            return 0;
        }
        let to = Point {
            row,
            column,
            height: cell.height,
        };
        self.offer_across(from, to, number, map, queue);
        1
    }

    // Offers a cell's length to its open neighbours in one row, and counts them. As a chain over
    // the columns its closure would write to the map and to the queue: no plainer, here and in
    // `offer_around`.
    fn offer_in_row<'q>(
        &self,
        from: Offerer<G::Length>,
        row: u16,
        map: &mut [MapRecord<RowOf<G>>],
        queue: &mut OfferQueue<'q, G::Length>,
    ) -> usize
        requires placed { from.at ≡ point (board_of self.now) from.number }
        requires within { area self.now.size ≤ length map.old }
        requires row { row < self.now.size.rows }
        requires column { from.at.column < self.now.size.columns }
        requires above { row ≤ from.at.row + 1 }
        requires below { from.at.row ≤ row + 1 }
        requires room { queue.old.len + 3 ≤ length queue.old.entries.now + itself from row from.at.column }
        ensures few { queue.new.len + itself from row from.at.column ≤ queue.old.len + 3 }
        ensures three { result + itself from row from.at.column ≤ 3 }
        ensures room { length queue.new.entries.now ≡ length queue.old.entries.now }
        ensures walked { Walked
            (meant G.Length.kind G.crossing self.now) from row 0 (row + 1) 0 result
            map.old (queued queue.old) map.new (queued queue.new) }
    {
        let mut steps = 0;
        let (first, end) = beside(from.at.column, self.size.columns);
        for column in first..end {
            steps += self.offer_at(from, row, column, map, queue);
        }
        steps
    }

    // Offers a cell's length to all its open neighbours, and counts them: eight at most.
    pub(crate) fn offer_around<'q>(
        &self,
        from: Offerer<G::Length>,
        map: &mut [MapRecord<RowOf<G>>],
        queue: &mut OfferQueue<'q, G::Length>,
    ) -> usize
        requires placed { from.at ≡ point (board_of self.now) from.number }
        requires within { area self.now.size ≤ length map.old }
        requires row { from.at.row < self.now.size.rows }
        requires column { from.at.column < self.now.size.columns }
        requires room { queue.old.len + 8 ≤ length queue.old.entries.now }
        ensures few { queue.new.len ≤ queue.old.len + 8 }
        ensures eight { result ≤ 8 }
        ensures room { length queue.new.entries.now ≡ length queue.old.entries.now }
        ensures counts { result ≡ open_neighbours (board_of self.now) from.number }
        ensures tracks { OffersAround
            (meant G.Length.kind G.crossing self.now) (offerer from)
            map.old (queued queue.old) map.new (queued queue.new) }
    {
        let mut steps = 0;
        let (first, end) = beside(from.at.row, self.size.rows);
        for row in first..end {
            steps += self.offer_in_row(from, row, map, queue);
        }
        steps
    }
}
