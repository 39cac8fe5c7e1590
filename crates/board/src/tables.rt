// Reading and filling the tables of a plate.
ghost use Rattle.std.specs.Prelude.{◌≡◌, ◌<◌, ◌≤◌, true, false, ◌++◌, length, drop, replicate, IfSome, MatchOption};
ghost use Rattle.board.specs.Sizes.{Sized, area, bad_size, cell_at, cell_number};
ghost use Rattle.board.specs.Tables.{group_of};

use crate::{Dimensions, Size};

/// The most rows that a plate has, and the most columns.
pub const LONGEST_SIDE: u16 = 256;

/// How many pads a plate has: their groups take so many bytes, pad 1 first.
pub const PADS: usize = 64;

impl Size {
    /// The size of these dimensions, or none where rows or columns are outside 1 to 256.
    pub fn new(dimensions: Dimensions) -> Option<Size>
        ensures { MatchOption result (bad_size dimensions ≡ true)
            (λ size. (bad_size dimensions ≡ false) × Sized size dimensions) }
    {
        let Dimensions { rows, columns } = dimensions;
        if !(1..=LONGEST_SIDE).contains(&rows) || !(1..=LONGEST_SIDE).contains(&columns) {
            return None;
        }
        Some(Size { rows, columns })
    }

    /// How many cells there are, from 1 to 65,536.
    pub fn area(self) -> usize
        ensures value { result ≡ area self }
        ensures bound { result ≤ 65536 }
    {
        self.rows as usize * self.columns as usize
    }

    /// The number of the cell at a row and a column, which cells are given row by row.
    pub fn number(self, row: u16, column: u16) -> usize
        ensures { result ≡ cell_at self row column }
    {
        row as usize * self.columns as usize + column as usize
    }

    /// The number of the cell at a row and a column, or none off the plate.
    pub fn cell(self, row: u16, column: u16) -> Option<usize>
        ensures number { result ≡ cell_number self row column }
        ensures within { IfSome result (λ n. n < area self) }
    {
        if row >= self.rows || column >= self.columns {
            return None;
        }
        Some(self.number(row, column))
    }
}

/// The group of a pad by the bytes of pads 1 to 64; any other pad, and a byte above 2, give 0.
pub fn group_of(groups: &[u8], pad: u8) -> u8
    ensures { result ≡ group_of groups.now pad }
{
    if pad == 0 || usize::from(pad) > PADS {
        return 0;
    }
    match groups.get(pad as usize - 1) {
        Some(&group) if group <= 2 => group,
        _ => 0,
    }
}

/// Writes the value into the first `count` entries.
pub fn fill_front<T: Copy>(table: &mut [T], count: usize, value: T)
    requires { count ≤ length table.old }
    ensures { table.new ≡ replicate count value ++ drop count table.old }
{
    // `fill` clones, and that a copy's clone cannot fail is not known of every `T`.
    table[..count].fill_with(|| value);
}
