// Why calls on a plate are sent back.
ghost use Rattle.std.specs.Prelude.{◌≡◌};
ghost use Rattle.plate.specs.Refusals.{number};

/// Why a call was sent back. Of several that apply the one of the smallest number is answered.
#[derive(Clone, Copy, Debug, PartialEq, Eq)]
pub enum Refusal {
    /// Rows or columns outside 1 to 256.
    Size = 1,
    /// A table, or the marks of a route, too short.
    Tables = 2,
    /// A row or a column that is not on the plate.
    Off = 3,
    /// A pad above 64, or pad 0 enrolled.
    Pad = 4,
    /// A group above 2, or 0 in another call than an enrolment.
    Group = 5,
    /// A map that is needed is not measured, or older than the last edit.
    Outdated = 6,
    /// The way has more cells than its list holds.
    Short = 7,
    /// The links of a map that was tampered with leave the plate, meet an unreached cell, or come to no cell that is linked to itself.
    Torn = 8,
}

impl Refusal {
    /// The number that programs print, 1 to 8.
    pub fn number(self) -> u8
        ensures { result ≡ number self }
    {
        self as u8
    }
}
