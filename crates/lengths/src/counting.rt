// Counted lengths as a kind.
ghost use Rattle.std.specs.Prelude.{◌≡◌};
ghost use Rattle.lengths.specs.Counteds.{counted, counted_kind, counted_sum};
ghost use Rattle.lengths.specs.CountedLaws.{counted_laws};

use crate::{Counted, CountedRow, Length};

impl Counted {
    /// So many units, from 0 to 2^64 − 1, in so many steps; steps beyond the units are cut.
    pub fn new(units: u64, steps: u64) -> Counted
        ensures { result ≡ counted units steps }
    {
        Counted {
            units,
            steps: steps.min(units),
        }
    }

    /// The sum of both parts; both become 2^64 − 1 where the units would be beyond that.
    pub fn saturating_add(self, other: Counted) -> Counted
        ensures { result ≡ counted_sum self other }
    {
        match self.units.checked_add(other.units) {
            Some(units) => Counted::new(units, self.steps + other.steps),
            None => Counted::new(u64::MAX, u64::MAX),
        }
    }
}

impl Length for Counted {
    type Row = CountedRow;

    ghost kind = { counted_kind };

    ghost lawful = { counted_laws };

    fn zero() -> Counted {
        Counted::new(0, 0)
    }

    fn at_most(self, other: Counted) -> bool {
        self <= other
    }

    fn encode(self) -> CountedRow {
        CountedRow {
            units: self.units,
            steps: self.steps,
        }
    }

    fn decode(row: CountedRow) -> Counted {
        if row.steps <= row.units {
            Counted::new(row.units, row.steps)
        } else {
            Counted::zero()
        }
    }
}
