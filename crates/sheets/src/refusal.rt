// Why sheets are sent back.
ghost use Rattle.std.specs.Prelude.{◌≡◌};
ghost use Rattle.sheets.specs.Refusals.{number};

/// Why a sheet is sent back. Of several that apply to a line the one that is found first is answered: 11, then 13, then 12 from left to
/// right, then the plate's own; 14 is weighed before the first line.
#[derive(Clone, Copy, Debug, PartialEq, Eq)]
pub enum Refusal {
    /// The plate sent the line's call back: 1 to 8, of which a sheet's lines meet 1 to 5.
    Plate(plate::Refusal),
    /// A word that no line begins with, more or fewer fields than the word asks for, or a line without its end: 11.
    Line,
    /// A figure that is no decimal number from 0 to 65,535, or has a 0 before another digit: 12.
    Figure,
    /// A sheet that begins with another line than a plate's, or has a second one: 13.
    Order,
    /// A sheet of more than 32,768 bytes: 14.
    Long,
}

impl Refusal {
    /// The number that programs print: 1 to 8 of a plate, and 11 to 14 of a sheet.
    pub fn number(self) -> u8
        ensures { result ≡ number self }
    {
        match self {
            Refusal::Plate(refusal) => refusal.number(),
            Refusal::Line => 11,
            Refusal::Figure => 12,
            Refusal::Order => 13,
            Refusal::Long => 14,
        }
    }
}
