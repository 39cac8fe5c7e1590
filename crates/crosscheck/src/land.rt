// Boards of the second implementation, which shares nothing with the library.
use std::alloc::{AllocError, Global};

#[derive(Clone, Copy, PartialEq, Eq)]
pub struct Spot {
    pub height: u16,
    pub pad: u8,
    pub open: bool,
}

// Spots row by row, and the group of each pad by its number.
#[derive(Drop)]
pub struct Land {
    pub rows: usize,
    pub columns: usize,
    pub spots: Vec<Spot>,
    pub groups: [u8; 65],
}

impl Land {
    // Open and bare spots of height 0, and all pads in no group.
    pub fn new(heap: Global, rows: usize, columns: usize) -> Result<Land, AllocError> {
        let bare = Spot {
            height: 0,
            pad: 0,
            open: true,
        };
        Ok(Land {
            rows,
            columns,
            spots: vec![in heap; bare; rows.saturating_mul(columns)]?,
            groups: [0; 65],
        })
    }

    pub fn place(&self, row: usize, column: usize) -> usize {
        row.saturating_mul(self.columns).saturating_add(column)
    }

    pub fn put(&mut self, row: usize, column: usize, spot: Spot) {
        let place = self.place(row, column);
        if let Some(old) = self.spots.get_mut(place) {
            *old = spot;
        }
    }

    // An open spot on the board.
    pub fn open_spot(&self, row: usize, column: usize) -> Option<Spot> {
        if row >= self.rows || column >= self.columns {
            return None;
        }
        let spot = *self.spots.get(self.place(row, column))?;
        if spot.open { Some(spot) } else { None }
    }

    // The pad of a source of the group, and 0 for any other spot.
    pub fn source(&self, row: usize, column: usize, group: u8) -> u8 {
        let Some(spot) = self.open_spot(row, column) else {
            return 0;
        };
        if spot.pad == 0 {
            return 0;
        }
        match self.groups.get(usize::from(spot.pad)) {
            Some(other) if *other == group => spot.pad,
            _ => 0,
        }
    }
}
