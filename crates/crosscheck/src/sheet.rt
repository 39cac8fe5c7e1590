// Sheets a second time: lines and fields by splitting, and the first fault by trying each rule in turn.
use crate::compare::differ;
use crate::dice::Dice;
use board::Cell;
use sheets::{Fault, read_sheet};
use std::alloc::{AllocError, Global};

// The cells that a sheet's board may have here.
const ROOM: usize = 12;

// A fault by its line, field and number.
#[derive(Clone, Copy, PartialEq, Eq)]
struct Wrong {
    line: usize,
    field: u8,
    number: u8,
}

// The number of a figure, or none where it is none.
fn figure(bytes: &[u8]) -> Option<u16> {
    let mut value = 0u32;
    for byte in bytes {
        if !byte.is_ascii_digit() || value > 65535 {
            return None;
        }
        value = value * 10 + u32::from(*byte - 48);
    }
    let leading = bytes.len() > 1 && bytes.first() == Some(&48);
    if bytes.is_empty() || leading {
        return None;
    }
    u16::try_from(value).ok()
}

// What a line asks for: its word's place among the four, and its figures.
#[derive(Clone, Copy)]
struct Asked {
    word: usize,
    figures: [u16; 4],
}

// The place of a line's word among the four, if there is one.
fn word_of(word: &[u8]) -> Option<usize> {
    let words: [&[u8]; 4] = [b"plate", b"cell", b"bar", b"enrol"];
    words.iter().position(|known| *known == word)
}

// Judges a line's form: 11, then 13, then 12.
fn judge(line: &[u8], ended: bool, number: usize) -> Result<Asked, Wrong> {
    let fault = |field: u8, of: u8| Wrong {
        line: number,
        field,
        number: of,
    };
    let tabs = line.iter().filter(|byte| **byte == 9).count();
    let mut fields = line.split(|byte| *byte == 9);
    let word = fields.next().and_then(|field| word_of(field));
    let Some(word) = word.filter(|word| ended && tabs == if *word == 1 { 4 } else { 2 }) else {
        return Err(fault(0, 11));
    };
    if (word == 0) != (number == 1) {
        return Err(fault(0, 13));
    }
    let mut figures = [0u16; 4];
    for (at, (slot, field)) in figures.iter_mut().zip(fields).enumerate() {
        *slot = figure(field).ok_or(fault((at & 0xff) as u8 + 1, 12))?;
    }
    Ok(Asked { word, figures })
}

// The tables that a sheet fills, with spare entries, and the plate's size once it is open.
#[derive(Clone, Copy, PartialEq, Eq)]
struct Tables {
    rows: u16,
    columns: u16,
    cells: [Cell; ROOM],
    groups: [u8; 66],
}

impl Tables {
    // Something in every entry.
    fn new() -> Tables {
        let cell = Cell {
            height: 7,
            pad: 9,
            barred: true,
        };
        Tables {
            rows: 0,
            columns: 0,
            cells: [cell; ROOM],
            groups: [1; 66],
        }
    }

    // Opens the plate over so many cells; the field and the number where that is refused.
    fn open(&mut self, rows: u16, columns: u16, lent: usize) -> Result<(), (u8, u8)> {
        if rows == 0 || rows > 256 {
            return Err((1, 1));
        }
        if columns == 0 || columns > 256 {
            return Err((2, 1));
        }
        let area = usize::from(rows).saturating_mul(usize::from(columns));
        if area > lent {
            return Err((0, 2));
        }
        (self.rows, self.columns) = (rows, columns);
        self.cells
            .iter_mut()
            .take(area)
            .for_each(|cell| *cell = Cell::BARE);
        self.groups.iter_mut().take(64).for_each(|group| *group = 0);
        Ok(())
    }

    fn put(&mut self, row: u16, column: u16, cell: Cell) -> Result<(), (u8, u8)> {
        if row >= self.rows {
            return Err((1, 3));
        }
        if column >= self.columns {
            return Err((2, 3));
        }
        if cell.pad > 64 {
            return Err((4, 4));
        }
        let place = usize::from(row).saturating_mul(usize::from(self.columns));
        if let Some(old) = self
            .cells
            .get_mut(place.saturating_add(usize::from(column)))
        {
            *old = cell;
        }
        Ok(())
    }

    fn enrol(&mut self, pad: u16, group: u16) -> Result<(), (u8, u8)> {
        if pad == 0 || pad > 64 {
            return Err((1, 4));
        }
        if group > 2 {
            return Err((2, 5));
        }
        if let Some(byte) = self.groups.get_mut(usize::from(pad) - 1) {
            *byte = (group & 0xff) as u8;
        }
        Ok(())
    }

    // Carries out a line; the field and the number where that is refused.
    fn carry(&mut self, asked: &Asked, lent: usize) -> Result<(), (u8, u8)> {
        let [a, b, c, d] = asked.figures;
        let pad = u8::try_from(d).unwrap_or(255);
        match asked.word {
            0 => self.open(a, b, lent),
            1 => self.put(
                a,
                b,
                Cell {
                    height: c,
                    pad,
                    barred: false,
                },
            ),
            2 => self.put(a, b, Cell::BARRED),
            _ => self.enrol(a, b),
        }
    }

    // Reads a whole sheet; its first fault where it has one.
    fn read(&mut self, sheet: &[u8], lent: usize) -> Result<(), Wrong> {
        let whole = |number: u8, line: usize| Wrong {
            line,
            field: 0,
            number,
        };
        if sheet.len() > 32768 {
            return Err(whole(14, 0));
        }
        if sheet.is_empty() {
            return Err(whole(13, 1));
        }
        let ends = sheet.iter().filter(|byte| **byte == 10).count();
        for (at, line) in sheet.split(|byte| *byte == 10).enumerate() {
            if at == ends && line.is_empty() {
                break;
            }
            let number = at.saturating_add(1);
            let asked = judge(line, at < ends, number)?;
            self.carry(&asked, lent).map_err(|(field, of)| Wrong {
                line: number,
                field,
                number: of,
            })?;
        }
        Ok(())
    }
}

// The layer of a fault, by its number.
fn layer_of(number: u8) -> &'static str {
    match number {
        1..=5 => "plate",
        12 => "figure",
        _ => "sheet",
    }
}

fn is_same(fault: Fault, wrong: Wrong) -> bool {
    let number = fault.refusal.number();
    let place = fault.line == wrong.line && fault.field == wrong.field && number == wrong.number;
    place && fault.layer().name() == layer_of(number)
}

// One sheet by both.
fn compare(sheet: &[u8], lent: usize) -> u64 {
    compare_two(sheet, sheet, lent)
}

// A sheet by the reader, and one by the second implementation; the plate's size and the tables count too.
fn compare_two(sheet: &[u8], other: &[u8], lent: usize) -> u64 {
    let lent = lent.min(ROOM);
    let mut expected = Tables::new();
    let wrong = expected.read(other, lent);
    let mut found = Tables::new();
    let mut cells = found.cells;
    let mut groups = found.groups;
    let outcome = read_sheet(sheet, &mut cells[..lent], &mut groups);
    found.cells = cells;
    found.groups = groups;
    let same = match (outcome, wrong) {
        (Ok(draft), Ok(())) => {
            found.rows = draft.size().rows;
            found.columns = draft.size().columns;
            found == expected
        }
        (Err(fault), Err(wrong)) => {
            is_same(fault, wrong)
                && found.cells == expected.cells
                && found.groups == expected.groups
        }
        _ => false,
    };
    differ(same)
}

// What is found where the second implementation reads another sheet: it differs in a cell, in a group, or in its fault.
pub fn mistaken() -> u64 {
    let sheet = b"plate\t1\t1\ncell\t0\t0\t1\t0\n";
    let cell = compare_two(sheet, b"plate\t1\t1\ncell\t0\t0\t2\t0\n", ROOM);
    let group = compare_two(sheet, b"plate\t1\t1\nenrol\t1\t1\n", ROOM);
    let fault = compare_two(b"bar\n", b"bar\t1\t1\n", ROOM);
    cell.min(group).min(fault)
}

// A line of some word and some figures, most of them good ones.
fn push_line(
    heap: Global,
    dice: &mut Dice,
    sheet: &mut Vec<u8>,
    word: u64,
) -> Result<(), AllocError> {
    let (word, many): (&[u8], u64) = match word {
        0 => (b"plate", 2),
        1..=3 => (b"cell", 4),
        4 => (b"bar", 2),
        5 => (b"enrol", 2),
        _ => (b"pad", 2),
    };
    sheet.extend_from_slice(word)?;
    let many = if dice.once_in(20) {
        dice.below(6)
    } else {
        many
    };
    for _ in 0..many {
        let figure = match dice.below(40) {
            0 => 65535,
            1 => 65,
            2 => 257,
            _ => dice.below(4),
        };
        sheet.push(9)?;
        sheet.extend_from_slice(format!(in heap; "{figure}")?.as_bytes())?;
    }
    sheet.push(10)?;
    Ok(())
}

// Changes a byte or two, or the end.
fn spoil(dice: &mut Dice, sheet: &mut Vec<u8>) {
    let bytes = [9u8, 10, 13, 48, 57, 54, 32, 0, 200, 112];
    let place = dice.below(sheet.len() as u64) as usize;
    let byte = bytes.get(dice.below(10) as usize).copied().unwrap_or(0);
    if let Some(old) = sheet.get_mut(place) {
        *old = byte;
    }
    if dice.once_in(6) {
        sheet.pop();
    }
}

// A sheet of a few lines, every other one spoilt.
fn some_sheet(heap: Global, dice: &mut Dice) -> Result<Vec<u8>, AllocError> {
    let mut sheet = Vec::new(heap);
    let lines = dice.below(8);
    for at in 0..lines {
        let word = if at == 0 && !dice.once_in(12) {
            0
        } else {
            dice.below(8)
        };
        push_line(heap, dice, &mut sheet, word)?;
    }
    if dice.once_in(2) {
        spoil(dice, &mut sheet);
    }
    Ok(sheet)
}

// So many sheets.
pub fn sheets(heap: Global, dice: &mut Dice, sheets: u64) -> Result<u64, AllocError> {
    let mut differences = 0u64;
    for _ in 0..sheets {
        let sheet = some_sheet(heap, dice)?;
        let lent = if dice.once_in(3) {
            dice.from_to(0, 12)
        } else {
            12
        };
        differences = differences.saturating_add(compare(&sheet, usize::from(lent)));
    }
    Ok(differences)
}

// Sheets at the greatest length: one byte less, just as long, and one byte more.
pub fn long_sheets(heap: Global) -> Result<u64, AllocError> {
    let mut sheet = Vec::new(heap);
    sheet.extend_from_slice(b"plate\t1\t1\n")?;
    for _ in 0..3267 {
        sheet.extend_from_slice(b"enrol\t1\t1\n")?;
    }
    for _ in 0..7 {
        sheet.extend_from_slice(b"enrol\t64\t1\n")?;
    }
    let mut differences = 0u64;
    for end in [&b"enrol\t1\t2\n"[..], b"enrol\t64\t2\n", b"enrol\t64\t22\n"] {
        let long = sheet.len();
        sheet.extend_from_slice(end)?;
        differences = differences.saturating_add(compare(&sheet, ROOM));
        sheet.truncate(long);
    }
    Ok(differences)
}
