// The four rulers. None of them bars a step.
// Each carries by one and the same line: a function over any ruler would lead back to its own gauge, and such a cycle gets no proof.
ghost use Rattle.std.specs.Prelude.{◌≡◌, ℕ};
ghost use Rattle.gauges.specs.Meanings.{Lawful, Ruling, RulerLaws, adding};
ghost use Rattle.gauges.specs.Rulers.{counted_chessboard, whole_ruling};
ghost use Rattle.gauges.specs.Steps.{Genuine, reversed};
ghost use Rattle.gauges.specs.declared.step.Step.{Step as TheStep};
ghost use Rattle.gauges.specs.RulerLaw.{whole_gauge, whole_ruler, by_adding, counted_gauge, counted_ruler};

use crate::{Chessboard, Gauge, Ruler, Step};
use lengths::{Counted, Length, Whole};

/// A formula gives each step its length in whole units.
pub trait Formula {
    ghost units: { Self → TheStep → ℕ };

    /// The length of a step in whole units.
    fn units_of(&self, step: Step) -> u64
        ensures { result ≡ units self.now step };

    ghost alike: { (f : Self) (s : TheStep) → Genuine s → units f (reversed s) ≡ units f s };
}

/// The ruler that adds what a formula gives. The formula stays as it was given: what one group was measured by, the other is too.
#[derive(Clone, Copy)]
pub struct WholeRuler<F> {
    formula: F,
}

impl<F> WholeRuler<F> {
    /// The ruler of this formula.
    pub fn new(formula: F) -> WholeRuler<F>
        ensures { result.formula ≡ formula }
    {
        WholeRuler { formula }
    }
}

impl<F: Formula> Gauge for WholeRuler<F> {
    type Length = Whole;

    ghost crossing = { λ g. adding (whole_ruling (F.Formula.units g.formula)) };

    ghost lawful = { λ x. whole_gauge (F.Formula.units x.formula) (F.Formula.alike x.formula) };

    fn carry(&self, step: Step, length: Whole) -> Option<Whole> {
        self.span(step).map(|own| self.sum(length, own))
    }
}

impl<F: Formula> Ruler for WholeRuler<F> {
    ghost ruling = { λ g. whole_ruling (F.Formula.units g.formula) };

    ghost ruled = { λ x. whole_ruler (F.Formula.units x.formula) (F.Formula.alike x.formula) };

    ghost adds = { λ x. by_adding (whole_ruling (F.Formula.units x.formula)) };

    fn span(&self, step: Step) -> Option<Whole> {
        Some(Whole::new(self.formula.units_of(step)))
    }

    fn sum(&self, a: Whole, b: Whole) -> Whole {
        a.saturating_add(b)
    }
}

/// Every lawful ruler over a kind of length serves as a lawful gauge by adding, a client's own too.
pub fn rulers_serve_as_gauges<K: Length>()
    ensures { (r : Ruling K) → RulerLaws K.kind r → Lawful K.kind (adding r) }
{}

/// A step is as long as by chessboard, and counts as one step.
#[derive(Clone, Copy)]
pub struct CountedChessboard;

impl Gauge for CountedChessboard {
    type Length = Counted;

    ghost crossing = { λ _. adding counted_chessboard };

    ghost lawful = { λ _. counted_gauge };

    fn carry(&self, step: Step, length: Counted) -> Option<Counted> {
        self.span(step).map(|own| self.sum(length, own))
    }
}

impl Ruler for CountedChessboard {
    ghost ruling = { λ _. counted_chessboard };

    ghost ruled = { λ _. counted_ruler };

    ghost adds = { λ _. by_adding counted_chessboard };

    fn span(&self, step: Step) -> Option<Counted> {
        Some(Counted::new(Chessboard.units_of(step), 1))
    }

    fn sum(&self, a: Counted, b: Counted) -> Counted {
        a.saturating_add(b)
    }
}
