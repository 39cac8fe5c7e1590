// The two layers: either over any gauge is a gauge, and over any ruler a ruler.
ghost use Rattle.std.specs.Prelude.{◌≡◌, ◌<◌, [], ◌∷◌, ◌++◌, Some, None, MatchResult, OnErr};
ghost use Rattle.board.specs.Outcomes.{after, answering};
ghost use Rattle.gauges.specs.Layers.{added, bad_rectangle, fenced, fenced_crossing, fenced_ruling, inside, rectangle_refusal, touches, weighted_crossing, weighted_ruling, weighting_refusal};
ghost use Rattle.gauges.specs.LayerLaw.{weighted_lawful, weighted_ruled, weighted_adds, fenced_lawful, fenced_ruled, fenced_adds};

use crate::{Gauge, Point, Rectangle, Rectangles, Refusal, Ruler, Step, Weighting};
use lengths::Length;

/// A gauge that a layer could not be laid over, and why.
#[derive(Drop)]
pub struct SentBack<G> {
    pub gauge: G,
    pub refusal: Refusal,
}

impl<G> Weighting<G> {
    /// Lays a weighting over a gauge, by a factor from 1 to 16; another is refused with 9 and gives the gauge back.
    pub fn new(gauge: G, factor: u16) -> Result<Weighting<G>, SentBack<G>>
        ensures { let refused = weighting_refusal factor in
            MatchResult result
            (λ w. (refused ≡ None) × (w.gauge ≡ gauge) × (w.factor ≡ factor))
            (λ e. (refused ≡ Some e.refusal) × (e.gauge ≡ gauge)) }
    {
        if factor == 0 || factor > 16 {
            return Err(SentBack {
                gauge,
                refusal: Refusal::Setting,
            });
        }
        Ok(Weighting { gauge, factor })
    }
}

impl<G: Gauge> Gauge for Weighting<G> {
    type Length = G::Length;

    ghost crossing = { λ w. weighted_crossing w.factor (G.crossing w.gauge) };

    ghost lawful = { λ w. weighted_lawful G.Length.Length.lawful w.factor (G.crossing w.gauge)
        (G.Gauge.lawful w.gauge) };

    fn carry(&self, step: Step, length: G::Length) -> Option<G::Length> {
        // With `try_fold` the proof did not close, nor with `fold` in `span`.
        let mut carried = length;
        for _ in 0..self.factor {
            carried = self.gauge.carry(step, carried)?;
        }
        Some(carried)
    }
}

impl<R: Ruler> Ruler for Weighting<R> {
    ghost ruling = { λ w. weighted_ruling R.Length.kind w.factor (R.ruling w.gauge) };

    ghost ruled = { λ w. weighted_ruled R.Length.kind w.factor (R.ruling w.gauge)
        (R.Ruler.ruled w.gauge) };

    ghost adds = { λ w. weighted_adds R.Length.kind w.factor (R.ruling w.gauge)
        (R.crossing w.gauge) (R.Ruler.ruled w.gauge) (R.Ruler.adds w.gauge) };

    fn span(&self, step: Step) -> Option<R::Length> {
        let own = self.gauge.span(step)?;
        let mut sum = <R::Length as Length>::zero();
        for _ in 0..self.factor {
            sum = self.gauge.sum(sum, own);
        }
        Some(sum)
    }

    fn sum(&self, a: R::Length, b: R::Length) -> R::Length {
        self.gauge.sum(a, b)
    }
}

impl Rectangle {
    // Whether the point lies in the rectangle.
    fn holds(self, point: Point) -> bool
        ensures { result ≡ inside self point }
    {
        (self.first_row..=self.last_row).contains(&point.row)
            && (self.first_column..=self.last_column).contains(&point.column)
    }

    // A first above its last, or a figure above 255.
    fn is_faulty(self) -> bool
        ensures { result ≡ bad_rectangle self }
    {
        let turned = self.first_row > self.last_row || self.first_column > self.last_column;
        turned || self.last_row > 255 || self.last_column > 255
    }

    // Whether the step has an end in the rectangle.
    fn bars(self, step: Step) -> bool
        ensures { result ≡ touches self step }
    {
        self.holds(step.from) || self.holds(step.to)
    }
}

impl Rectangles {
    /// No rectangle yet.
    pub fn new() -> Rectangles
        ensures { added result ≡ [] }
    {
        Rectangles {
            list: [Rectangle::default(); 16],
            count: 0,
        }
    }

    fn may_add(&self, rectangle: Rectangle) -> Result<(), Refusal>
        ensures { let refused = rectangle_refusal self.now rectangle in
            MatchResult result
            (λ _. (refused ≡ None) × (self.now.count < 16))
            (λ e. refused ≡ Some e) }
    {
        if rectangle.is_faulty() {
            return Err(Refusal::Setting);
        }
        if self.count >= 16 {
            return Err(Refusal::Fence);
        }
        Ok(())
    }

    /// One rectangle more, of at most 16. Refused, with 9 where a first is above its last or a figure above 255, and with 10 where
    /// there are 16, it changes nothing.
    pub fn add(&mut self, rectangle: Rectangle) -> Result<(), Refusal>
        ensures answer { result ≡ answering (rectangle_refusal self.old rectangle) tt }
        ensures list { added self.new ≡ after (rectangle_refusal self.old rectangle) (added self.old)
            (added self.old ++ (rectangle ∷ [])) }
        ensures refused { OnErr result (self.new ≡ self.old) }
    {
        self.may_add(rectangle)?;
        self.list[self.count] = rectangle;
        self.count += 1;
        Ok(())
    }

    // Whether a step has an end in any of them.
    fn bar(&self, step: Step) -> bool
        ensures { result ≡ fenced (added self.now) step }
    {
        self.list[..self.count].iter().any(|r| r.bars(step))
    }
}

/// Bars each step with an end in one of its rectangles, which do not change any more.
#[derive(Drop)]
pub struct Fence<G> {
    gauge: G,
    rectangles: Rectangles,
}

impl<G> Fence<G> {
    /// Lays a fence of these rectangles over a gauge.
    pub fn new(gauge: G, rectangles: Rectangles) -> Fence<G>
        ensures { (result.gauge ≡ gauge) × (result.rectangles ≡ rectangles) }
    {
        Fence { gauge, rectangles }
    }
}

impl<G: Gauge> Gauge for Fence<G> {
    type Length = G::Length;

    ghost crossing = { λ f. fenced_crossing (added f.rectangles) (G.crossing f.gauge) };

    ghost lawful = { λ f. fenced_lawful (added f.rectangles) (G.crossing f.gauge)
        (G.Gauge.lawful f.gauge) };

    fn carry(&self, step: Step, length: G::Length) -> Option<G::Length> {
        if self.rectangles.bar(step) {
            return None;
        }
        self.gauge.carry(step, length)
    }
}

impl<R: Ruler> Ruler for Fence<R> {
    ghost ruling = { λ f. fenced_ruling (added f.rectangles) (R.ruling f.gauge) };

    ghost ruled = { λ f. fenced_ruled (added f.rectangles) (R.ruling f.gauge)
        (R.Ruler.ruled f.gauge) };

    ghost adds = { λ f. fenced_adds (added f.rectangles) (R.ruling f.gauge)
        (R.crossing f.gauge) (R.Ruler.adds f.gauge) };

    fn span(&self, step: Step) -> Option<R::Length> {
        if self.rectangles.bar(step) {
            return None;
        }
        self.gauge.span(step)
    }

    fn sum(&self, a: R::Length, b: R::Length) -> R::Length {
        self.gauge.sum(a, b)
    }
}
