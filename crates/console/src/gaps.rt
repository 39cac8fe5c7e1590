// The gap of a sheet's plate, measured by chessboard.
ghost use Rattle.std.specs.Prelude.{◌≡◌, ◌≤◌, length, Ok};
ghost use Rattle.board.specs.Sizes.{area};
ghost use Rattle.board.specs.Tables.{pads};
ghost use Rattle.console.specs.GapSums.{GivesLeastGap, TellsLeastGap};
ghost use Rattle.console.specs.Gaps.{board_gap, gap_text, sheet_gap};
ghost use Rattle.measuring.specs.Boards.{on};
ghost use Rattle.measuring.specs.ByChessboard.{by_chessboard};
ghost use Rattle.measuring.specs.Maps.{filled};
ghost use Rattle.plate.specs.Headers.{renewed, standing};

use crate::Line;
use crate::lines::{line_of_fault, push_part};
use board::{Cell, MapRecord, PADS};
use gauges::{Chessboard, WholeRuler};
use itoa::Buffer;
use lengths::Whole;
use plate::{Draft, Readings};
use queue::Offer;
use sheets::{Fault, read_sheet};

// How many cells the tables hold, and how many entries the queue.
const CELLS: usize = 256;

const ENTRIES: usize = 2304;

// Measures a group of a plate that fits the tables, which is never sent back.
fn measure(draft: &mut Draft, cells: &[Cell], groups: &[u8], group: u16, map: &mut [MapRecord<u64>])
    requires few { area draft.old.header.size ≤ 256 }
    requires cells { area draft.old.header.size ≤ length cells.now }
    requires groups { pads ≤ length groups.now }
    requires group { 1 ≤ group }
    requires known { group ≤ 2 }
    requires map { area draft.old.header.size ≤ length map.old }
    ensures map { map.new ≡
        filled (by_chessboard (on draft.old.header.size cells.now groups.now) group) map.old }
    ensures draft { standing draft.new.header ≡ renewed group (standing draft.old.header) }
{
    let mut entries = [Offer { length: 0, cell: 0 }; ENTRIES];
    let ruler = WholeRuler::new(Chessboard);
    draft
        .measure(&ruler, cells, groups, group, map, &mut entries)
        .unwrap();
}

// The gap of a plate that fits the tables.
fn plate_gap(draft: &mut Draft, cells: &[Cell], groups: &[u8]) -> Option<Whole>
    requires few { area draft.old.header.size ≤ 256 }
    requires cells { area draft.old.header.size ≤ length cells.now }
    requires groups { pads ≤ length groups.now }
    ensures { result ≡ board_gap (on draft.old.header.size cells.now groups.now) }
{
    let mut first = [MapRecord::unreached(0); CELLS];
    let mut second = [MapRecord::unreached(0); CELLS];
    measure(draft, cells, groups, 1, &mut first);
    measure(draft, cells, groups, 2, &mut second);
    let ruler = WholeRuler::new(Chessboard);
    draft.gap(&ruler, &first, &second).unwrap()
}

/// The gap of the plate that a sheet gives in tables for 256 cells, in steps by chessboard, or none; else the sheet's fault.
#[tactic(auto, using(crate::proofs::GapSums::gap_given))]
pub fn sheet_gap(sheet: &[u8]) -> Result<Option<Whole>, Fault>
    ensures gap { result ≡ sheet_gap sheet.now }
    ensures least { GivesLeastGap sheet.now result }
{
    let mut cells = [Cell::BARE; CELLS];
    let mut groups = [0; PADS];
    let mut draft = read_sheet(sheet, &mut cells, &mut groups)?;
    Ok(plate_gap(&mut draft, &cells, &groups))
}

// The line of a gap, or of none.
fn line_of_gap(gap: Option<Whole>) -> Line
    ensures { result.bytes ≡ gap_text (Ok gap) }
{
    let mut digits = Buffer::new();
    let mut line = Line::new();
    line.push_str("gap");
    match gap {
        Some(gap) => push_part(&mut line, digits.format(gap.units)),
        None => push_part(&mut line, "none"),
    }
    line.push_str("\n");
    line
}

/// The line that `gap` prints of a sheet. A number that it has is the least sum of steps between the groups, and not only what
/// the maps give.
#[tactic(auto, using(crate::proofs::GapSums::gap_told))]
pub fn gap_line(sheet: &[u8]) -> Line
    ensures text { result.bytes ≡ gap_text (sheet_gap sheet.now) }
    ensures least { TellsLeastGap sheet.now result.bytes }
{
    match sheet_gap(sheet) {
        Ok(gap) => line_of_gap(gap),
        Err(fault) => line_of_fault(fault),
    }
}
