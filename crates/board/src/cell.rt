// Cells.
ghost use Rattle.std.specs.Prelude.{◌≡◌};
ghost use Rattle.board.specs.Tables.{known_pad};

use crate::PADS;

/// A cell of the board: its height, its pad (0 is bare), and whether it is barred or open. No enum and no `Option`: a table may hold
/// any numbers here, and all have a meaning, pad 65 of a barred cell too.
#[derive(Clone, Copy, Debug, PartialEq, Eq)]
pub struct Cell {
    /// From 0 to 65,535.
    pub height: u16,
    /// From 0 to 64, where tables are not tampered with.
    pub pad: u8,
    pub barred: bool,
}

impl Cell {
    /// An open cell of height 0 with no pad.
    pub const BARE: Cell = Cell {
        height: 0,
        pad: 0,
        barred: false,
    };

    /// A barred cell, with height and pad 0.
    pub const BARRED: Cell = Cell {
        height: 0,
        pad: 0,
        barred: true,
    };

    /// The pad's number; one above 64, which only tampering leaves, counts as 0.
    pub fn known_pad(self) -> u8
        ensures { result ≡ known_pad self.pad }
    {
        known_pad(self.pad)
    }
}

/// A pad's number as it stands in a table; one above 64, which only tampering leaves, counts as 0.
pub fn known_pad(pad: u8) -> u8
    ensures { result ≡ known_pad pad }
{
    if usize::from(pad) > PADS { 0 } else { pad }
}
