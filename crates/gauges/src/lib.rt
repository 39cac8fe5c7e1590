// Gauges carry lengths across steps, rulers by adding each step's own length.
#![tactic(auto)]

ghost use Rattle.std.specs.Prelude.{◌≡◌};
ghost use Rattle.gauges.specs.Meanings.{ByAdding, Crossing, Lawful, Ruling, RulerLaws, crossed, own};

use lengths::Length;

pub mod formulas;
pub mod layers;
pub mod rectangle;
pub mod rectangles;
pub mod refusal;
pub mod rulers;
pub mod step;
pub mod three_four;
pub mod weighting;

pub use formulas::{Chessboard, Euclid};
pub use layers::{Fence, SentBack};
pub use rectangle::Rectangle;
pub use rectangles::Rectangles;
pub use refusal::Refusal;
pub use rulers::{CountedChessboard, Formula, WholeRuler, rulers_serve_as_gauges};
pub use step::{Point, Step};
pub use three_four::ThreeFour;
pub use weighting::Weighting;

/// A gauge answers by its meaning alone: whether a step is barred, and the length carried across it.
pub trait Gauge {
    type Length: Length;

    ghost crossing: { Self → Crossing Self.Length };

    /// The length carried across the step, or none where the step is barred.
    fn carry(&self, step: Step, length: Self::Length) -> Option<Self::Length>
        ensures { result ≡ crossed (crossing self.now) step length };

    ghost lawful: { (g : Self) → Lawful Self.Length.Length.kind (crossing g) };
}

/// A ruler is a gauge that carries by adding.
pub trait Ruler: Gauge {
    ghost ruling: { Self → Ruling Self.Length };

    /// The step's own length, or none where the step is barred.
    fn span(&self, step: Step) -> Option<Self::Length>
        ensures { result ≡ own (ruling self.now) step };

    /// The sum of two lengths.
    fn sum(&self, a: Self::Length, b: Self::Length) -> Self::Length
        ensures { result ≡ (ruling self.now).sum a b };

    ghost ruled: { (g : Self) → RulerLaws Self.Length.Length.kind (ruling g) };

    ghost adds: { (g : Self) → ByAdding (ruling g) (Self.Gauge.crossing g) };
}
