// Whole lengths of 64 bits.
ghost use Rattle.std.specs.Prelude.{◌^◌, ◌<◌};

/// A length in whole units, from 0 to 2^64 − 1.
#[derive(Clone, Copy, Debug, PartialEq, Eq, PartialOrd, Ord)]
pub struct Whole {
    pub units: u64,
    ghost fits: { units < 2 ^ 64 },
}
