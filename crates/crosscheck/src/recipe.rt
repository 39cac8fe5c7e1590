// Rulers of the second implementation: a formula, how often a step counts, and what is fenced.
use crate::land::Spot;
use gauges::Rectangle;

// A length: its units, and its steps where they are counted.
#[derive(Clone, Copy, PartialEq, Eq, PartialOrd, Ord)]
pub struct Far {
    pub units: u64,
    pub steps: u64,
}

impl Far {
    pub const ZERO: Far = Far { units: 0, steps: 0 };

    // The sum; where the units would be beyond the greatest number they become it, and counted steps too.
    pub fn plus(self, other: Far, counted: bool) -> Far {
        match self.units.checked_add(other.units) {
            Some(units) => Far {
                units,
                steps: self.steps.saturating_add(other.steps),
            },
            None => Far {
                units: u64::MAX,
                steps: if counted { u64::MAX } else { 0 },
            },
        }
    }
}

#[derive(Clone, Copy, PartialEq, Eq)]
pub enum Base {
    Chessboard,
    ThreeFour(u16),
    Euclid,
    Counted,
}

// All weightings together are one factor, and of all fences together each rectangle bars.
#[derive(Clone, Copy)]
pub struct Recipe {
    pub base: Base,
    pub factor: u64,
    pub fenced: [Option<Rectangle>; 2],
}

// Where a spot is.
#[derive(Clone, Copy)]
pub struct Site {
    pub row: usize,
    pub column: usize,
    pub spot: Spot,
}

// The greatest number whose square is at most this one, bit by bit.
fn root(square: u64) -> u64 {
    let mut root = 0u64;
    let mut bit = 1u64 << 26;
    for _ in 0..27 {
        let more = root.saturating_add(bit);
        if more.saturating_mul(more) <= square {
            root = more;
        }
        bit /= 2;
    }
    root
}

impl Base {
    // The length of a step between two heights, along an edge or across a corner.
    fn step(self, rise: u64, corner: bool) -> Far {
        let units = match self {
            Base::Chessboard | Base::Counted => rise.saturating_add(1),
            Base::ThreeFour(w) => {
                let flat = if corner { 4 } else { 3 };
                u64::from(w).saturating_mul(rise).saturating_add(flat)
            }
            Base::Euclid => {
                let flat = if corner { 2 } else { 1 };
                let square = rise.saturating_mul(rise).saturating_add(flat);
                root(square.saturating_mul(65536))
            }
        };
        let steps = if self == Base::Counted { 1 } else { 0 };
        Far { units, steps }
    }
}

fn within(rectangle: Rectangle, site: Site) -> bool {
    let rows = usize::from(rectangle.first_row)..=usize::from(rectangle.last_row);
    let columns = usize::from(rectangle.first_column)..=usize::from(rectangle.last_column);
    rows.contains(&site.row) && columns.contains(&site.column)
}

impl Recipe {
    pub fn counted(&self) -> bool {
        self.base == Base::Counted
    }

    pub fn plain(base: Base) -> Recipe {
        Recipe {
            base,
            factor: 1,
            fenced: [None, None],
        }
    }

    // The length of a step, or none where it is fenced.
    pub fn step(&self, from: Site, to: Site) -> Option<Far> {
        for rectangle in self.fenced.iter().flatten() {
            if within(*rectangle, from) || within(*rectangle, to) {
                return None;
            }
        }
        let rise = u64::from(from.spot.height.abs_diff(to.spot.height));
        let corner = from.row != to.row && from.column != to.column;
        let own = self.base.step(rise, corner);
        Some(Far {
            units: own.units.saturating_mul(self.factor),
            steps: own.steps.saturating_mul(self.factor),
        })
    }
}
