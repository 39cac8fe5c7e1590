// The formulas of the rulers over whole lengths.
ghost use Rattle.std.specs.Prelude.{◌≡◌, ◌+◌, ◌*◌, ◌^◌, ◌<◌, ◌≤◌, cond, Some, None, MatchResult};
ghost use Rattle.gauges.specs.Rulers.{Root, chessboard_units, euclid_square, euclid_units, three_four_refusal, three_four_units};
ghost use Rattle.gauges.specs.Steps.{edge, rise};
ghost use Rattle.gauges.specs.Reverses.{rise_back, edge_back};

use crate::{Formula, Refusal, Step, ThreeFour};

impl Step {
    /// The difference of the heights, from 0 to 65,535.
    pub fn rise(self) -> u64
        ensures value { result ≡ rise self }
        ensures bound { result < 65536 }
    {
        u64::from(self.from.height.abs_diff(self.to.height))
    }

    /// One number on an edge step, which stays in its row or its column, and another on a corner step.
    pub fn edge_or_corner(self, on_edge: u64, on_corner: u64) -> u64
        ensures { result ≡ cond (edge self) on_edge on_corner }
    {
        if self.from.row == self.to.row || self.from.column == self.to.column {
            on_edge
        } else {
            on_corner
        }
    }
}

/// A step is one more than the difference of its heights.
#[derive(Clone, Copy)]
pub struct Chessboard;

impl Formula for Chessboard {
    ghost units = { λ _ s. chessboard_units s };

    ghost alike = { λ _ s _. rw (rise_back s) };

    fn units_of(&self, step: Step) -> u64 {
        step.rise() + 1
    }
}

impl ThreeFour {
    /// The formula of a weight from 0 to 64. A greater one is refused with 9.
    pub fn new(weight: u16) -> Result<ThreeFour, Refusal>
        ensures { let refused = three_four_refusal weight in
            MatchResult result
            (λ f. (refused ≡ None) × (f.weight ≡ weight))
            (λ e. refused ≡ Some e) }
    {
        if weight > 64 {
            return Err(Refusal::Setting);
        }
        Ok(ThreeFour { weight })
    }
}

impl Formula for ThreeFour {
    ghost units = { λ f s. three_four_units f.weight s };

    ghost alike = { λ _ s _. rw (rise_back s, edge_back s) };

    fn units_of(&self, step: Step) -> u64 {
        u64::from(self.weight) * step.rise() + step.edge_or_corner(3, 4)
    }
}

// From this rise on the width of a cell adds less than a 256th to the length.
const STEEP: u64 = 256;

/// The length in 256ths of a cell, rounded down.
#[derive(Clone, Copy)]
pub struct Euclid;

// The root of a square, rounded down, by halving the width in which it lies from `low` on. `isqrt`, which begins with a
// width of 2^32, takes four times as long.
fn root_within(low: u64, width: u64, square: u64) -> u64
    requires low { low * low ≤ square }
    requires high { square < (low + width) * (low + width) }
    requires small { low + width < 2 ^ 32 }
    ensures { Root square result }
{
    let mut root = low;
    let mut width = width;
    while width > 1 {
        let half = width / 2;
        let middle = root + half;
        if middle * middle <= square {
            root = middle;
            width -= half;
        } else {
            width = half;
        }
    }
    root
}

impl Euclid {
    /// The greatest number whose square is at most that of the step's length in 256ths of a cell.
    pub fn root_of(self, step: Step) -> u64
        ensures greatest { Root (euclid_square step) result }
        ensures value { result ≡ euclid_units step }
    {
        let rise = step.rise();
        if rise >= STEEP {
            return 256 * rise;
        }
        root_within(
            256 * rise,
            512,
            65536 * (rise * rise + step.edge_or_corner(1, 2)),
        )
    }
}

impl Formula for Euclid {
    ghost units = { λ _ s. euclid_units s };

    ghost alike = { λ _ s _. rw (rise_back s, edge_back s) };

    fn units_of(&self, step: Step) -> u64 {
        self.root_of(step)
    }
}
