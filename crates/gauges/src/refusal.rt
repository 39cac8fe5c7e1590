// Refusals of settings.
ghost use Rattle.std.specs.Prelude.{◌≡◌};
ghost use Rattle.gauges.specs.Refusals.{number};

/// Why a ruler or a layer is not made as asked: a setting out of its range, or a rectangle more than a fence holds.
#[derive(Clone, Copy, Debug, PartialEq, Eq)]
pub enum Refusal {
    Setting = 9,
    Fence = 10,
}

impl Refusal {
    /// The number that programs print, 9 or 10.
    pub fn number(self) -> u8
        ensures { result ≡ number self }
    {
        self as u8
    }
}
