// Tests of the priority queue: offers of a fixed generator come out in order, at both kinds of length.
#![tactic(auto)]

use lengths::{Counted, CountedRow, Length, Whole};
use queue::{ByLength, Offer, OfferQueue, Order, Queue};

/// How many offers a trial makes.
pub const OFFERS: usize = 300;

/// What came out of a queue.
#[derive(Clone, Copy, Debug, PartialEq, Eq)]
pub struct Drained {
    /// How many offers.
    pub count: usize,
    /// The sum of their cell numbers.
    pub cells: u64,
    /// Whether each was at most the next.
    pub ascending: bool,
}

/// The next number of a fixed generator; any number may be the first.
pub fn next_number(number: u64) -> u64 {
    number
        .wrapping_mul(6364136223846793005)
        .wrapping_add(1442695040888963407)
}

// Pushes offers of lengths made of the generator's numbers, many of them equal, and says how many were accepted.
fn push_all<'q, K: Length>(rows: &[K::Row], queue: &mut OfferQueue<'q, K>) -> usize {
    let mut accepted: usize = 0;
    let mut number = 1;
    for row in rows {
        number = next_number(number);
        let offer = Offer {
            length: *row,
            cell: ((number >> 40) & 0xff) as usize,
        };
        if queue.push(offer) {
            accepted = accepted.saturating_add(1);
        }
    }
    accepted
}

// Pops until nothing is left.
fn pop_all<'q, K: Length>(queue: &mut OfferQueue<'q, K>) -> Drained {
    let mut drained = Drained {
        count: 0,
        cells: 0,
        ascending: true,
    };
    let mut last: Option<Offer<K::Row>> = None;
    while let Some(offer) = queue.pop() {
        if let Some(before) = last {
            drained.ascending = drained.ascending && <ByLength<K> as Order>::at_most(before, offer);
        }
        drained.count = drained.count.saturating_add(1);
        drained.cells = drained.cells.saturating_add(offer.cell as u64);
        last = Some(offer);
    }
    drained
}

fn is_sent_and_shared<T: Send + Sync>(value: &T) {}

/// A queue goes to another thread, and is shared, where its entries are, whatever its order's type is. The compiler is what tests this.
pub fn queues_are_sent_and_shared<E: Copy + Send + Sync, O: Order<Entry = E>>(
    queue: &Queue<'_, E, O>,
) {
    is_sent_and_shared(queue);
}

/// The sum of the cell numbers, from 0 to 255, of so many first offers.
pub fn cells_offered(offers: usize) -> u64 {
    let mut cells: u64 = 0;
    let mut number = 1;
    for _ in 0..offers {
        number = next_number(number);
        cells = cells.saturating_add((number >> 40) & 0xff);
    }
    cells
}

/// Pushes one offer for each row, in a queue over the slice, and pops them all: how many were accepted, which are as many as the
/// slice holds where the rows are more, and what came out.
pub fn through_queue<K: Length>(rows: &[K::Row], slice: &mut [Offer<K::Row>]) -> (usize, Drained) {
    let mut queue = OfferQueue::<K>::new(slice);
    let accepted = push_all(rows, &mut queue);
    (accepted, pop_all(&mut queue))
}

#[cfg(test)]
mod tests {
    use super::*;

    fn in_order(count: usize) -> (usize, Drained) {
        let drained = Drained {
            count,
            cells: cells_offered(count),
            ascending: true,
        };
        (count, drained)
    }

    #[test]
    fn whole_offers_come_out_in_order(rt: HostRuntime) {
        let mut rows = [0u64; OFFERS];
        let mut number = 7;
        for row in rows.iter_mut() {
            number = next_number(number);
            *row = (number >> 33) % 40;
        }
        let mut slice = [Offer { length: 0, cell: 0 }; OFFERS];
        assert_eq!(rt; through_queue::<Whole>(&rows, &mut slice), in_order(OFFERS));
        assert_eq!(rt;
            through_queue::<Whole>(&rows, &mut slice[0..9]),
            in_order(9),
            "a full queue refuses"
        );
        assert_eq!(rt;
            through_queue::<Whole>(&rows, &mut slice[0..0]),
            in_order(0),
            "no room at all"
        );
    }

    #[test]
    fn counted_offers_come_out_in_order(rt: HostRuntime) {
        let none = CountedRow { units: 0, steps: 0 };
        let mut rows = [none; OFFERS];
        let mut number = 11;
        for row in rows.iter_mut() {
            number = next_number(number);
            row.units = (number >> 33) % 9;
            row.steps = (number >> 50) % 12;
        }
        let mut slice = [Offer {
            length: none,
            cell: 0,
        }; OFFERS];
        assert_eq!(rt;
            through_queue::<Counted>(&rows, &mut slice),
            in_order(OFFERS)
        );
    }
}
