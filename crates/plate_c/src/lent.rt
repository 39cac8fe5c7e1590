// The tables that C lends. Each is a pointer and a length, since the library's records are generic structs, to which no
// reference passes from C. That so many values lie there is the caller's part.
ghost use Rattle.std.specs.Prelude.{◌≡◌, ℕ, List, length};
ghost use Rattle.std.specs.Borrow.{sem, u64};
ghost use Rattle.board.specs.contracts.cell.Cell.{the_row as cell_row};
ghost use Rattle.board.specs.contracts.record.MapRecord.{the_row as record_row};
ghost use Rattle.board.specs.declared.cell.Cell.{Cell};
ghost use Rattle.board.specs.declared.record.MapRecord.{MapRecord};
ghost use Rattle.queue.specs.contracts.offer.Offer.{the_row as offer_row};
ghost use Rattle.queue.specs.declared.offer.Offer.{Offer};
ghost use Rattle.plate_c.specs.Lent.{lent};

use board::{Cell, MapRecord};
use queue::Offer;
use std::marker::Model;

/// Room for so many cells, which are the caller's: a plate needs one for each of its own, from 1 to 65,536.
#[repr(C)]
#[derive(Drop)]
pub struct LentCells {
    pub at: *mut Cell,
    pub len: usize,
    pub ghost cells: { List Cell },
}

/// Room for so many records of a map, which are the caller's: a plate needs one for each cell.
#[repr(C)]
#[derive(Drop)]
pub struct LentMap {
    pub at: *mut MapRecord<u64>,
    pub len: usize,
    pub ghost map: { List (MapRecord ℕ) },
}

/// Room for so many entries of a queue, which are the caller's: measuring needs nine for each cell.
#[repr(C)]
#[derive(Drop)]
pub struct LentEntries {
    pub at: *mut Offer<u64>,
    pub len: usize,
    pub ghost entries: { List (Offer ℕ) },
}

/// What a call measures in.
#[repr(C)]
#[derive(Drop)]
pub struct Tables {
    pub cells: LentCells,
    pub map: LentMap,
    pub entries: LentEntries,
}

impl Model for LentCells {
    ghost also_owns = { λ t. lent cell_row t.at t.len t.cells };
}

impl Model for LentMap {
    ghost also_owns = { λ t. lent (record_row u64) t.at t.len t.map };
}

impl Model for LentEntries {
    ghost also_owns = { λ t. lent (offer_row u64) t.at t.len t.entries };
}

impl LentCells {
    ghost use Rattle.plate_c.specs.Loans.{LendsCells};

    /// Of cells that no one else will see again: what a caller in Rattle lends.
    pub fn of(cells: &'static mut [Cell]) -> LentCells
        ensures len { result.len ≡ length cells.old }
        ensures values { result.cells ≡ cells.old }
    {
        LentCells {
            at: cells.as_mut_ptr(),
            len: cells.len(),
        }
    }

    /// The cells; those that the slice ends with are the table's then.
    pub fn slice(&mut self) -> &mut [Cell]
        ensures* writes_back { sem 𝓛 (LendsCells self.entry result) }
        ensures value { result.now ≡ self.old.cells }
        ensures len { length result.now ≡ self.old.len }
    {
        unsafe { std::slice::from_raw_parts_mut(self.at, self.len) }
    }
}

impl LentMap {
    ghost use Rattle.plate_c.specs.Loans.{LendsMap};

    /// Of records that no one else will see again: what a caller in Rattle lends.
    pub fn of(map: &'static mut [MapRecord<u64>]) -> LentMap
        ensures len { result.len ≡ length map.old }
        ensures values { result.map ≡ map.old }
    {
        LentMap {
            at: map.as_mut_ptr(),
            len: map.len(),
        }
    }

    /// The records; those that the slice ends with are the table's then.
    pub fn slice(&mut self) -> &mut [MapRecord<u64>]
        ensures* writes_back { sem 𝓛 (LendsMap self.entry result) }
        ensures value { result.now ≡ self.old.map }
        ensures len { length result.now ≡ self.old.len }
    {
        unsafe { std::slice::from_raw_parts_mut(self.at, self.len) }
    }
}

impl LentEntries {
    ghost use Rattle.plate_c.specs.Loans.{LendsEntries};

    /// Of entries that no one else will see again: what a caller in Rattle lends.
    pub fn of(entries: &'static mut [Offer<u64>]) -> LentEntries
        ensures len { result.len ≡ length entries.old }
        ensures values { result.entries ≡ entries.old }
    {
        LentEntries {
            at: entries.as_mut_ptr(),
            len: entries.len(),
        }
    }

    /// The entries; those that the slice ends with are the table's then.
    pub fn slice(&mut self) -> &mut [Offer<u64>]
        ensures* writes_back { sem 𝓛 (LendsEntries self.entry result) }
        ensures value { result.now ≡ self.old.entries }
        ensures len { length result.now ≡ self.old.len }
    {
        unsafe { std::slice::from_raw_parts_mut(self.at, self.len) }
    }
}
