// The library's answers on a board, as marks.
use crate::land::Land;
use crate::recipe::Far;
use crate::second::Mark;
use board::{Cell, Dimensions, MapRecord};
use lengths::{Counted, CountedRow, Length, Whole};
use plate::{Draft, Refusal};

// How a kind's rows look to the second implementation.
pub trait Shown: Length {
    fn far(row: Self::Row) -> Far;

    fn row(far: Far) -> Self::Row;
}

impl Shown for Whole {
    fn far(row: u64) -> Far {
        Far {
            units: row,
            steps: 0,
        }
    }

    fn row(far: Far) -> u64 {
        far.units
    }
}

impl Shown for Counted {
    fn far(row: CountedRow) -> Far {
        Far {
            units: row.units,
            steps: row.steps,
        }
    }

    fn row(far: Far) -> CountedRow {
        CountedRow {
            units: far.units,
            steps: far.steps,
        }
    }
}

pub fn mark_of<K: Shown>(record: MapRecord<K::Row>) -> Mark {
    Mark {
        far: K::far(record.length),
        reached: record.reached,
        pad: record.pad,
        link: record.link,
        rank: record.rank,
    }
}

pub fn record_of<K: Shown>(mark: Mark) -> MapRecord<K::Row> {
    MapRecord {
        length: K::row(mark.far),
        reached: mark.reached,
        pad: mark.pad,
        link: mark.link,
        rank: mark.rank,
    }
}

// Sets or bars one cell.
fn enter_cell(
    draft: &mut Draft,
    cells: &mut [Cell],
    land: &Land,
    place: usize,
) -> Result<(), Refusal> {
    let columns = land.columns.max(1);
    let (row, column) = (
        (place / columns & 0xffff) as u16,
        (place % columns & 0xffff) as u16,
    );
    match land.spots.get(place) {
        Some(spot) if spot.open => draft.set(cells, row, column, spot.height, u16::from(spot.pad)),
        Some(_) => draft.bar(cells, row, column),
        None => Ok(()),
    }
}

// Opens a plate and enters the board.
pub fn enter(land: &Land, cells: &mut [Cell], groups: &mut [u8]) -> Result<Draft, Refusal> {
    let dimensions = Dimensions {
        rows: (land.rows & 0xffff) as u16,
        columns: (land.columns & 0xffff) as u16,
    };
    let mut draft = Draft::open(dimensions, cells, groups)?;
    for place in 0..land.spots.len() {
        enter_cell(&mut draft, cells, land, place)?;
    }
    for pad in 1..65u16 {
        let group = land
            .groups
            .get(usize::from(pad))
            .map_or(0, |group| u16::from(*group));
        draft.enrol(groups, pad, group)?;
    }
    Ok(draft)
}
