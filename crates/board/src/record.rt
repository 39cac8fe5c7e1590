// Map records.
ghost use Rattle.std.specs.Prelude.{◌≡◌, true, false, MatchOption};
ghost use Rattle.board.specs.Records.{offered_record, unreached_record};

/// What a map says of one cell. The length stands as its row, of whichever kind the gauge measures in. A flag beside the rest and
/// no `Option`: a record that is not reached holds its cell's best offer while a map is measured, and a table may hold anything.
#[derive(Clone, Copy, Debug, PartialEq, Eq)]
pub struct MapRecord<R> {
    pub length: R,
    pub reached: bool,
    /// The pad of the source of its path, from 1 to 64.
    pub pad: u8,
    /// The number of the cell that it is linked to; a source links to itself.
    pub link: u16,
    /// How many cells were ranked before it.
    pub rank: u16,
}

impl<R: Copy> MapRecord<R> {
    /// The record of an unreached cell, over the row of the kind's zero.
    pub fn unreached(zero: R) -> MapRecord<R>
        ensures { result ≡ unreached_record zero }
    {
        MapRecord {
            length: zero,
            reached: false,
            pad: 0,
            link: 0,
            rank: 0,
        }
    }

    /// The record of a cell that has an offer and is not ranked yet.
    pub fn offered(length: R, pad: u8, link: u16) -> MapRecord<R>
        ensures { result ≡ offered_record length pad link }
    {
        MapRecord {
            pad,
            link,
            ..MapRecord::unreached(length)
        }
    }

    /// The record of a reached cell, or none where the cell is unreached.
    pub fn if_reached(self) -> Option<MapRecord<R>>
        ensures { MatchOption result
            (self.reached ≡ false)
            (λ here. (self.reached ≡ true) × (here ≡ self)) }
    {
        self.reached.then_some(self)
    }
}
