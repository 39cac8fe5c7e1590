// Counted lengths: a length with its number of steps.
ghost use Rattle.std.specs.Prelude.{◌^◌, ◌<◌, ◌≤◌};

/// A length has at most as many steps as units.
#[derive(Clone, Copy, Debug, PartialEq, Eq, PartialOrd, Ord)]
pub struct Counted {
    pub units: u64,
    pub steps: u64,
    ghost fits: { units < 2 ^ 64 },
    ghost few: { steps ≤ units },
}
