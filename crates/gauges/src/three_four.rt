// The setting of the three-four ruler.
ghost use Rattle.std.specs.Prelude.{◌≤◌};

/// A step is `weight` times the difference of its heights, and 3 more on an edge step or 4 on a corner step.
#[derive(Clone, Copy)]
pub struct ThreeFour {
    pub(crate) weight: u16,
    ghost small: { weight ≤ 64 },
}
