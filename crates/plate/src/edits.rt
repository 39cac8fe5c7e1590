// Opening a plate, and the edits.
ghost use Rattle.std.specs.Prelude.{◌≡◌, ◌<◌, false, length, Some, None, MatchResult};
ghost use Rattle.board.specs.Sizes.{cell_at};
ghost use Rattle.plate.specs.Edits.{Edits, EditsBoth, OpensOver, cells_edited, groups_edited};
ghost use Rattle.plate.specs.Headers.{outdated, standing};
ghost use Rattle.plate.specs.Refusals.{bar_refusal, edit_refusal, enrol_refusal, set_refusal};
ghost use Rattle.plate.specs.declared.edit.Edit.TheVariants as edit;

use crate::{Draft, Edit, Header, Refusal};
use board::{Cell, Dimensions, PADS, Size, fill_front};

impl Draft {
    /// A new plate: heights 0, all cells open and bare, all pads in group 0, no map measured. Sent back: 1 and 2.
    pub fn open(
        dimensions: Dimensions,
        cells: &mut [Cell],
        groups: &mut [u8],
    ) -> Result<Draft, Refusal>
        ensures { OpensOver dimensions cells.old cells.new groups.old groups.new result }
    {
        let size = Size::new(dimensions).ok_or(Refusal::Size)?;
        if cells.len() < size.area() || groups.len() < PADS {
            return Err(Refusal::Tables);
        }
        fill_front(cells, size.area(), Cell::BARE);
        fill_front(groups, PADS, 0);
        Ok(Draft {
            header: Header {
                size,
                first: false,
                second: false,
            },
        })
    }

    // Where a cell stands in the table.
    fn cell_index(&self, cells: &[Cell], row: u16, column: u16) -> Result<usize, Refusal>
        ensures { let refused = bar_refusal self.now.header.size (length cells.now) row column in
            MatchResult result
            (λ at.
            (refused ≡ None) ×
            (at ≡ cell_at self.now.header.size row column) ×
            (at < length cells.now))
            (λ e. refused ≡ Some e) }
    {
        let size = self.header.size;
        if cells.len() < size.area() {
            return Err(Refusal::Tables);
        }
        size.cell(row, column).ok_or(Refusal::Off)
    }

    fn outdate(&mut self)
        ensures { standing self.new.header ≡ outdated (standing self.old.header) }
    {
        self.header.first = false;
        self.header.second = false;
    }

    /// Gives a cell its height, from 0 to 65,535, and its pad, from 0 to 64, and opens it. Sent back: 2, 3 and 4.
    pub fn set(
        &mut self,
        cells: &mut [Cell],
        row: u16,
        column: u16,
        height: u16,
        pad: u16,
    ) -> Result<(), Refusal>
        ensures { let size = self.old.header.size in
            Edits (set_refusal size (length cells.old) row column pad) self.old.header self.new.header
            cells.old (cells_edited size (edit.Set row column height pad) cells.old) cells.new result }
    {
        let at = self.cell_index(cells, row, column)?;
        if usize::from(pad) > PADS {
            return Err(Refusal::Pad);
        }
        cells[at] = Cell {
            height,
            pad: pad as u8,
            barred: false,
        };
        self.outdate();
        Ok(())
    }

    /// Bars a cell, with height and pad 0. Sent back: 2 and 3.
    pub fn bar(&mut self, cells: &mut [Cell], row: u16, column: u16) -> Result<(), Refusal>
        ensures { let size = self.old.header.size in
            Edits (bar_refusal size (length cells.old) row column) self.old.header self.new.header
            cells.old (cells_edited size (edit.Bar row column) cells.old) cells.new result }
    {
        let at = self.cell_index(cells, row, column)?;
        cells[at] = Cell::BARRED;
        self.outdate();
        Ok(())
    }

    /// Puts a pad, from 1 to 64, into a group, from 0 to 2. Sent back: 2, 4 and 5.
    pub fn enrol(&mut self, groups: &mut [u8], pad: u16, group: u16) -> Result<(), Refusal>
        ensures { Edits (enrol_refusal (length groups.old) pad group) self.old.header self.new.header
            groups.old (groups_edited (edit.Enrol pad group) groups.old) groups.new result }
    {
        if groups.len() < PADS {
            return Err(Refusal::Tables);
        }
        if pad == 0 || usize::from(pad) > PADS {
            return Err(Refusal::Pad);
        }
        // 0 is allowed here, so this is no `Group`.
        if group > 2 {
            return Err(Refusal::Group);
        }
        groups[pad as usize - 1] = group as u8;
        self.outdate();
        Ok(())
    }

    /// Makes an edit, as the call of its name does.
    pub fn edit(&mut self, cells: &mut [Cell], groups: &mut [u8], edit: Edit) -> Result<(), Refusal>
        ensures { EditsBoth
            (edit_refusal self.old.header.size (length cells.old) (length groups.old) edit)
            edit self.old.header self.new.header cells.old cells.new groups.old groups.new result }
    {
        match edit {
            Edit::Set {
                row,
                column,
                height,
                pad,
            } => self.set(cells, row, column, height, pad),
            Edit::Bar { row, column } => self.bar(cells, row, column),
            Edit::Enrol { pad, group } => self.enrol(groups, pad, group),
        }
    }
}
