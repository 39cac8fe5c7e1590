// Reading a sheet into the tables of a plate.
ghost use Rattle.std.specs.Prelude.{◌≡◌, ◌≤◌, length, IfOk};
ghost use Rattle.board.specs.Outcomes.{after};
ghost use Rattle.board.specs.Sizes.{area};
ghost use Rattle.plate.specs.Headers.{outdated, standing};
ghost use Rattle.sheets.specs.Reading.{IsUnmeasured, after_edit, come_to, done_or, edit_fault, edit_field, entered_on, field_off, open_field, opening, plate_answer, reading, size_or_fault};

use crate::{Fault, Refusal, SheetReader};
use board::{Cell, Dimensions, LONGEST_SIDE, Size};
use plate::{Draft, Edit};

/// Opens the plate of a sheet's first line, in tables that have to hold its cells and 64 groups. The fault of such a call has line 1:
/// field 1 where the rows are bad, 2 where the columns are, and 0 where a table is too short.
pub fn open_plate(
    dimensions: Dimensions,
    cells: &mut [Cell],
    groups: &mut [u8],
) -> Result<Draft, Fault>
    ensures opening { come_to (size_or_fault result) cells.new groups.new ≡
        opening dimensions cells.old groups.old }
    ensures unmeasured { IfOk result IsUnmeasured }
    ensures fits { IfOk result (λ d. area d.header.size ≤ length cells.old) }
{
    Draft::open(dimensions, cells, groups).map_err(|refusal| Fault {
        line: 1,
        field: open_field(dimensions, refusal),
        refusal: Refusal::Plate(refusal),
    })
}

// The field of the rows where these are bad, else of the columns; too short a table has none.
fn open_field(dimensions: Dimensions, refusal: plate::Refusal) -> u8
    ensures { result ≡ open_field dimensions refusal }
{
    match refusal {
        plate::Refusal::Size if dimensions.rows < 1 || dimensions.rows > LONGEST_SIDE => 1,
        plate::Refusal::Size => 2,
        _ => 0,
    }
}

// The field of the row where that is off the plate, else of the column.
fn field_off(size: Size, row: u16) -> u8
    ensures { result ≡ field_off size row }
{
    if row >= size.rows { 1 } else { 2 }
}

// The first field that a refusal of an edit speaks of, on a plate of this size.
fn field_at_fault(edit: Edit, size: Size, refusal: plate::Refusal) -> u8
    ensures { result ≡ edit_field edit size refusal }
{
    match (edit, refusal) {
        (Edit::Set { row, .. } | Edit::Bar { row, .. }, plate::Refusal::Off) => {
            field_off(size, row)
        }
        (Edit::Set { .. }, plate::Refusal::Pad) => 4,
        (Edit::Enrol { .. }, plate::Refusal::Pad) => 1,
        (Edit::Enrol { .. }, plate::Refusal::Group) => 2,
        _ => 0,
    }
}

/// Makes the edit that a line of this number asks for. An edit that is sent back, with 2 to 5, leaves plate and tables as they were.
pub fn make_edit(
    edit: Edit,
    line: usize,
    draft: &mut Draft,
    cells: &mut [Cell],
    groups: &mut [u8],
) -> Result<(), Fault>
    ensures answer { result ≡
        done_or (edit_fault line edit (entered_on draft.old cells.old groups.old)) }
    ensures after { entered_on draft.new cells.new groups.new ≡
        after_edit edit (entered_on draft.old cells.old groups.old) }
    ensures maps { let refused = plate_answer edit (entered_on draft.old cells.old groups.old) in
        standing draft.new.header ≡
        after refused (standing draft.old.header) (outdated (standing draft.old.header)) }
    ensures size { draft.new.header.size ≡ draft.old.header.size }
{
    let size = draft.size();
    draft.edit(cells, groups, edit).map_err(|refusal| Fault {
        line,
        field: field_at_fault(edit, size, refusal),
        refusal: Refusal::Plate(refusal),
    })
}

/// Reads a sheet into the tables, as its reader, `open_plate` and `make_edit` do line by line. The lines before a fault have done their
/// work, but no plate comes back.
pub fn read_sheet(sheet: &[u8], cells: &mut [Cell], groups: &mut [u8]) -> Result<Draft, Fault>
    ensures reading { come_to (size_or_fault result) cells.new groups.new ≡
        reading sheet.now cells.old groups.old }
    ensures unmeasured { IfOk result IsUnmeasured }
    ensures fits { IfOk result (λ d. area d.header.size ≤ length cells.old) }
{
    let mut reader = SheetReader::new(sheet);
    let dimensions = reader.plate_line()?;
    let mut draft = open_plate(dimensions, cells, groups)?;
    while let Some(edit) = reader.next_edit()? {
        make_edit(edit, reader.line(), &mut draft, cells, groups)?;
    }
    Ok(draft)
}
