// A plate in either state, and the tables that are lent to a run.
ghost use Rattle.std.specs.Prelude.{◌≡◌};
ghost use Rattle.board.specs.Sizes.{area};
ghost use Rattle.runs.specs.Plates.{header_of};

use board::{Cell, MapRecord};
use plate::{Draft, HeaderRef, Readings, Sealed};
use queue::Offer;

/// An open plate in either state. A draft allows every call but break, and a sealed plate only the
/// readings and break.
#[derive(Drop)]
pub enum Plate {
    Draft(Draft),
    Sealed(Sealed),
}

impl Readings for Plate {
    ghost header = { header_of };

    fn header(&self) -> HeaderRef<'_> {
        match self {
            Plate::Draft(draft) => draft.header(),
            Plate::Sealed(sealed) => sealed.header(),
        }
    }
}

/// The tables that are lent to a run, of any lengths and any content. A call for which one is too
/// short is sent back, with 2.
#[derive(Drop)]
pub struct Tables<'a, Row> {
    /// Row by row, one for each cell of the plate.
    pub cells: &'a mut [Cell],
    /// The groups of pads 1 to 64.
    pub groups: &'a mut [u8],
    /// The map of group 1, one record for each cell of the plate.
    pub first: &'a mut [MapRecord<Row>],
    /// The map of group 2, likewise.
    pub second: &'a mut [MapRecord<Row>],
    /// The queue of measuring, `measuring::ENTRIES_PER_CELL` entries for each cell of the plate.
    pub entries: &'a mut [Offer<Row>],
}

impl Plate {
    // How many cells there are.
    pub(crate) fn area(&self) -> usize
        ensures { result ≡ area (header_of self.now).size }
    {
        match self {
            Plate::Draft(draft) => draft.size().area(),
            Plate::Sealed(sealed) => sealed.size().area(),
        }
    }
}
