// Whole lengths as a kind.
ghost use Rattle.std.specs.Prelude.{◌≡◌};
ghost use Rattle.lengths.specs.Wholes.{whole, whole_kind, whole_sum};
ghost use Rattle.lengths.specs.WholeLaws.{whole_laws};

use crate::{Length, Whole};

impl Whole {
    /// The length of so many units.
    pub fn new(units: u64) -> Whole
        ensures { result ≡ whole units }
    {
        Whole { units }
    }

    /// The sum, or 2^64 − 1 units where the sum is beyond that.
    pub fn saturating_add(self, other: Whole) -> Whole
        ensures { result ≡ whole_sum self other }
    {
        Whole::new(self.units.saturating_add(other.units))
    }
}

impl Length for Whole {
    type Row = u64;

    ghost kind = { whole_kind };

    ghost lawful = { whole_laws };

    fn zero() -> Whole {
        Whole::new(0)
    }

    fn at_most(self, other: Whole) -> bool {
        self <= other
    }

    fn encode(self) -> u64 {
        self.units
    }

    fn decode(row: u64) -> Whole {
        Whole::new(row)
    }
}
