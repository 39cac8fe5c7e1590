// Tests of the rulers and layers, and gauges and rulers as a client would write them.
#![tactic(auto)]

ghost use Rattle.std.specs.Prelude.{◌≡◌, true, false};
ghost use Rattle.gauge_trials.specs.Terraces.{terrace};
ghost use Rattle.gauges.specs.Meanings.{adding};
ghost use Rattle.std.proofs.Common.{rules};
ghost use Rattle.lengths.specs.WholeLaws.{whole_laws};
ghost use Rattle.gauges.specs.RulerLaw.{ruler_lawful, by_adding};
ghost use Rattle.gauge_trials.specs.TerraceLaw.{terrace_ruled};
ghost use Rattle.gauge_trials.specs.Ledges.{LawsHoldNoFurther, ledge, ledge_crossing, possible, taken};
ghost use Rattle.gauge_trials.specs.LedgeLaw.{ledge_lawful, ledge_ruled, ledge_adds};
ghost use Rattle.gauge_trials.specs.Descents.{descent, descent_lawful};

use board::LONGEST_SIDE;
use gauges::{Gauge, Point, Ruler, Step};
use lengths::{Length as _, Whole};

/// A gauge that bars every step.
#[derive(Clone, Copy)]
pub struct Wall;

impl Gauge for Wall {
    type Length = Whole;

    ghost crossing = { λ _. record { barred = λ _. true; carried = λ _ a. a } };

    ghost lawful = { Prim.search rules };

    fn carry(&self, step: Step, length: Whole) -> Option<Whole> {
        None
    }
}

/// A gauge that adds nothing on any step.
#[derive(Clone, Copy)]
pub struct Level;

impl Gauge for Level {
    type Length = Whole;

    ghost crossing = { λ _. record { barred = λ _. false; carried = λ _ a. a } };

    ghost lawful = { Prim.search rules };

    fn carry(&self, step: Step, length: Whole) -> Option<Whole> {
        Some(length)
    }
}

/// A ruler that bars every step between different heights, and takes any other for 1.
#[derive(Clone, Copy)]
pub struct Terrace;

impl Gauge for Terrace {
    type Length = Whole;

    ghost crossing = { λ _. adding terrace };

    ghost lawful = { λ _. ruler_lawful whole_laws terrace_ruled };

    fn carry(&self, step: Step, length: Whole) -> Option<Whole> {
        self.span(step).map(|own| self.sum(length, own))
    }
}

impl Ruler for Terrace {
    ghost ruling = { λ _. terrace };

    ghost ruled = { λ _. terrace_ruled };

    ghost adds = { λ _. by_adding terrace };

    fn span(&self, step: Step) -> Option<Whole> {
        if step.rise() > 0 {
            return None;
        }
        Some(Whole::new(1))
    }

    fn sum(&self, a: Whole, b: Whole) -> Whole {
        a.saturating_add(b)
    }
}

/// A gauge of steps down and level steps only, each for 1: the way down is no way up.
#[derive(Clone, Copy)]
pub struct Descent;

impl Gauge for Descent {
    type Length = Whole;

    ghost crossing = { λ _. descent };

    ghost lawful = { λ _. descent_lawful };

    fn carry(&self, step: Step, length: Whole) -> Option<Whole> {
        if step.to.height > step.from.height {
            return None;
        }
        Some(length.saturating_add(Whole::new(1)))
    }
}

// Whether a plate can have the cell.
fn is_possible(point: Point) -> bool
    ensures { result ≡ possible point }
{
    point.row < LONGEST_SIDE && point.column < LONGEST_SIDE
}

// Whether a plate can have the step.
fn is_taken(step: Step) -> bool
    ensures { result ≡ taken step }
{
    let Step { from, to } = step;
    let near = from.row.abs_diff(to.row) <= 1 && from.column.abs_diff(to.column) <= 1;
    let same = from.row == to.row && from.column == to.column;
    is_possible(from) && is_possible(to) && near && !same
}

/// A ruler over level steps that keeps the laws on genuine, unbarred steps, as it owes. Were a law owed of barred steps, of cells
/// that are no neighbours, or of cells that no plate has, it could not be proved of this one.
#[derive(Clone, Copy)]
pub struct Ledge;

impl Gauge for Ledge {
    type Length = Whole;

    ghost crossing = { λ _. ledge_crossing };

    ghost lawful = { λ _. ledge_lawful };

    fn carry(&self, step: Step, length: Whole) -> Option<Whole> {
        if !is_taken(step) {
            return Some(Whole::new(1000u64.saturating_sub(length.units)));
        }
        self.span(step).map(|own| self.sum(length, own))
    }
}

impl Ruler for Ledge {
    ghost ruling = { λ _. ledge };

    ghost ruled = { λ _. ledge_ruled };

    ghost adds = { λ _. ledge_adds };

    fn span(&self, step: Step) -> Option<Whole> {
        let Step { from, to } = step;
        let barred = if is_taken(step) {
            from.height != to.height
        } else {
            from.row < to.row
        };
        if barred {
            return None;
        }
        Some(Whole::new(u64::from(from.height) + 1))
    }

    fn sum(&self, a: Whole, b: Whole) -> Whole {
        a.saturating_add(b)
    }
}

/// So it is: each of the laws that speak of steps fails of steps on which it is not owed.
pub fn ledge_laws_hold_no_further()
    ensures { LawsHoldNoFurther }
{}

/// A step that rises by `rise`, from 0 to 65,535, to the right along its row or to the lower right corner.
pub fn rising(rise: u16, along_row: bool) -> Step {
    let from = Point {
        row: 3,
        column: 4,
        height: 0,
    };
    let to = Point {
        row: if along_row { 3 } else { 4 },
        column: 5,
        height: rise,
    };
    Step { from, to }
}

/// The units of a step by a ruler over whole lengths, or none where it is barred.
pub fn units_by<R: Ruler<Length = Whole>>(ruler: &R, step: Step) -> Option<u64> {
    ruler.span(step).map(|length| length.units)
}

/// The units that a gauge over whole lengths carries across a step from so many, or none where the step is barred.
pub fn carried_by<G: Gauge<Length = Whole>>(gauge: &G, step: Step, units: u64) -> Option<u64> {
    gauge
        .carry(step, Whole::new(units))
        .map(|length| length.units)
}

#[cfg(test)]
mod tests {
    use super::*;
    use gauges::{
        Chessboard, CountedChessboard, Euclid, Fence, Rectangle, Rectangles, Refusal, ThreeFour,
        Weighting, WholeRuler,
    };
    use lengths::{Counted, CountedRow, Length};
    use std::test::Fail;

    fn rectangle(first_row: u16, last_row: u16, last_column: u16) -> Rectangle {
        Rectangle {
            first_row,
            first_column: 0,
            last_row,
            last_column,
        }
    }

    // The first column is above the last.
    const TURNED: Rectangle = Rectangle {
        first_row: 0,
        first_column: 5,
        last_row: 9,
        last_column: 4,
    };

    // A level step.
    fn level(from: (u16, u16), to: (u16, u16)) -> Step {
        let from = Point {
            row: from.0,
            column: from.1,
            height: 0,
        };
        let to = Point {
            row: to.0,
            column: to.1,
            height: 0,
        };
        Step { from, to }
    }

    // A step below row 3.
    fn lower(rise: u16) -> Step {
        let mut step = rising(rise, true);
        step.from.row = 8;
        step.to.row = 8;
        step
    }

    #[test]
    fn rulers_have_their_formulas(rt: HostRuntime) {
        let chessboard = WholeRuler::new(Chessboard);
        assert_eq!(rt; units_by(&chessboard, rising(0, false)), Some(1));
        assert_eq!(rt; units_by(&chessboard, rising(65535, true)), Some(65536));
        let euclid = WholeRuler::new(Euclid);
        assert_eq!(rt; units_by(&euclid, rising(0, true)), Some(256));
        assert_eq!(rt; units_by(&euclid, rising(0, false)), Some(362));
        assert_eq!(rt; units_by(&euclid, rising(5, true)), Some(1305));
        assert_eq!(rt; units_by(&euclid, rising(255, false)), Some(65281));
        assert_eq!(rt; units_by(&euclid, rising(256, false)), Some(65536));
        assert_eq!(rt; units_by(&euclid, rising(65535, false)), Some(16776960));
        assert_eq!(rt;
            CountedChessboard.carry(rising(5, true), Counted::new(6, 1)),
            Some(Counted::new(12, 2))
        );
    }

    #[test]
    fn three_four_has_its_weights(rt: HostRuntime) {
        for weight in 0..66 {
            match ThreeFour::new(weight) {
                Ok(formula) => {
                    let ruler = WholeRuler::new(formula);
                    assert!(rt; weight <= 64);
                    assert_eq!(rt;
                        units_by(&ruler, rising(10, true)),
                        Some(10 * u64::from(weight) + 3)
                    );
                    assert_eq!(rt;
                        units_by(&ruler, rising(10, false)),
                        Some(10 * u64::from(weight) + 4)
                    );
                }
                Err(refusal) => {
                    assert!(rt; weight == 65);
                    assert_eq!(rt; refusal, Refusal::Setting);
                }
            }
        }
    }

    #[test]
    fn settings_are_sent_back(rt: HostRuntime) -> Result<(), Fail> {
        let mut fence = Rectangles::new();
        assert_eq!(rt; fence.add(rectangle(5, 4, 0)), Err(Refusal::Setting));
        assert_eq!(rt; fence.add(TURNED), Err(Refusal::Setting));
        assert_eq!(rt; fence.add(rectangle(0, 256, 0)), Err(Refusal::Setting));
        assert_eq!(rt; fence.add(rectangle(0, 0, 256)), Err(Refusal::Setting));
        for turn in 0..16 {
            assert_eq!(rt; fence.add(rectangle(turn, 255, 255)), Ok(()));
        }
        assert_eq!(rt; fence.add(rectangle(0, 0, 0)), Err(Refusal::Fence));
        assert_eq!(rt; fence.add(rectangle(1, 0, 0)), Err(Refusal::Setting));
        assert_eq!(rt; fence.add(TURNED), Err(Refusal::Setting));
        for factor in [0, 17] {
            match Weighting::new(Level, factor) {
                Ok(_) => return Err(Fail::new("a weight out of range")),
                Err(back) => assert_eq!(rt; back.refusal, Refusal::Setting),
            }
        }
        Ok(())
    }

    // The first and last rows and columns are in the fence, and those beside them are not.
    #[test]
    fn fences_have_four_sides(rt: HostRuntime) {
        let mut rectangles = Rectangles::new();
        let middle = Rectangle {
            first_row: 3,
            first_column: 4,
            last_row: 6,
            last_column: 8,
        };
        assert_eq!(rt; rectangles.add(middle), Ok(()));
        let fence = Fence::new(WholeRuler::new(Chessboard), rectangles);
        for (step, units) in [
            (level((2, 5), (2, 6)), Some(1)),
            (level((3, 5), (3, 6)), None),
            (level((6, 5), (6, 6)), None),
            (level((7, 5), (7, 6)), Some(1)),
            (level((4, 3), (5, 3)), Some(1)),
            (level((4, 4), (5, 4)), None),
            (level((4, 8), (5, 8)), None),
            (level((4, 9), (5, 9)), Some(1)),
        ] {
            assert_eq!(rt; units_by(&fence, step), units);
        }
    }

    // A weighting over a fence over a gauge.
    #[test]
    fn layers_stack(rt: HostRuntime) -> Result<(), Fail> {
        let mut upper = Rectangles::new();
        assert_eq!(rt; upper.add(rectangle(0, 3, 255)), Ok(()));
        let open = Fence::new(WholeRuler::new(Chessboard), Rectangles::new());
        let weighted = Weighting::new(open, 16).map_err(|back| back.refusal)?;
        assert_eq!(rt; units_by(&weighted, rising(5, true)), Some(96));
        assert_eq!(rt; carried_by(&weighted, rising(5, true), 4), Some(100));
        let barred = Weighting::new(Fence::new(WholeRuler::new(Chessboard), upper), 2).map_err(
            |back| back.refusal,
        )?;
        assert_eq!(rt;
            units_by(&barred, rising(5, false)),
            None,
            "one end in the fence"
        );
        let wall = Weighting::new(Fence::new(Wall, Rectangles::new()), 3).map_err(
            |back| back.refusal,
        )?;
        assert_eq!(rt; carried_by(&wall, rising(0, true), 7), None);
        let level = Weighting::new(Fence::new(Level, upper), 3).map_err(|back| back.refusal)?;
        assert_eq!(rt; carried_by(&level, lower(9), 7), Some(7));
        let terrace = Weighting::new(Fence::new(Terrace, upper), 4).map_err(|back| back.refusal)?;
        assert_eq!(rt; units_by(&terrace, lower(0)), Some(4));
        assert_eq!(rt; units_by(&terrace, lower(1)), None);
        assert_eq!(rt; units_by(&terrace, rising(0, true)), None, "in the fence");
        Ok(())
    }

    #[test]
    fn sums_stop_at_the_greatest(rt: HostRuntime) {
        let top = u64::MAX;
        let greatest = Whole::new(top);
        assert_eq!(rt; Whole::new(top - 1).saturating_add(Whole::new(1)), greatest);
        assert_eq!(rt; greatest.saturating_add(Whole::new(2)), greatest);
        let below = Counted::new(top - 1, 3);
        assert_eq!(rt;
            below.saturating_add(Counted::new(1, 1)),
            Counted::new(top, 4)
        );
        assert_eq!(rt;
            below.saturating_add(Counted::new(2, 1)),
            Counted::new(top, top)
        );
        let bad = CountedRow { units: 3, steps: 4 };
        assert_eq!(rt; Counted::decode(bad), Counted::new(0, 0));
    }
}
