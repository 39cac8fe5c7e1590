// Measuring for programs that are not written in Rattle, over numbers, slices and lent tables: what bench/ times. Nothing
// is allocated, so a call always answers; and a call may measure many times, so that entering the board can be taken off.
// That C's slices, references and tables are what they say is the caller's part.
#![tactic(auto)]

mod lent;

ghost use Rattle.std.specs.Prelude.{◌≡◌, ◌*◌, ◌≤◌, false, ◌++◌, Some, None, map, length, drop, IfSome, MatchResult, OnErr};
ghost use Rattle.board.specs.Sizes.{Sized, area, area_asked, bad_size};
ghost use Rattle.board.specs.Tables.{pads};
ghost use Rattle.measuring.specs.Boards.{on};
ghost use Rattle.measuring.specs.ByChessboard.{by_chessboard};
ghost use Rattle.measuring.specs.Maps.{counts_of, entries_needed, entries_per_cell, measured_map};
ghost use Rattle.plate_c.specs.Answers.{HandsOver, Measured, answer_number, asked, by_sides, counted, only_pad_1, plate_refusal, record_of, room_in, short_of, spot_cell, unknown_pad};
ghost use Rattle.plate_c.specs.Tables.{Stay, room_of};

use board::{Cell, Dimensions, MapRecord, PADS, Size};
use gauges::{Chessboard, WholeRuler};
pub use lent::{LentCells, LentEntries, LentMap, Tables};
use measuring::{Counts, ENTRIES_PER_CELL};
use plate::{Draft, Refusal};
use queue::Offer;

// What a call answers that has measured.
const MEASURED: u8 = 0;

/// What a map says of one cell, by chessboard; of an unreached cell all is 0.
#[repr(C)]
#[derive(Clone, Copy, Debug, PartialEq, Eq)]
pub struct Record {
    /// The length of its path, in units of the chessboard ruler.
    pub length: u64,
    /// The number of the cell before it on its path; a source has its own.
    pub link: u16,
    /// How many cells were reached before it.
    pub rank: u16,
    /// The pad of its path's source, from 1 to 64.
    pub pad: u8,
    /// 1 where the cell is reached, else 0.
    pub reached: u8,
}

/// An open cell.
#[repr(C)]
#[derive(Clone, Copy)]
pub struct Spot {
    /// Any height, from 0 to 65,535.
    pub height: u16,
    /// From 0, which is no pad, to 64; a greater one is sent back.
    pub pad: u8,
}

impl From<MapRecord<u64>> for Record {
    ghost from_gives = { λ found told. told ≡ record_of found };

    fn from(found: MapRecord<u64>) -> Record {
        Record {
            length: found.length,
            link: found.link,
            rank: found.rank,
            pad: found.pad,
            reached: found.reached as u8,
        }
    }
}

impl From<Spot> for Cell {
    ghost from_gives = { λ spot cell. cell ≡ spot_cell spot };

    fn from(spot: Spot) -> Cell {
        Cell {
            height: spot.height,
            pad: spot.pad,
            barred: false,
        }
    }
}

/// How much there is room for.
#[derive(Clone, Copy)]
pub struct Room {
    /// Cells.
    pub cells: usize,
    /// Records of a map.
    pub map: usize,
    /// Entries of a queue.
    pub entries: usize,
    /// Records for C.
    pub records: usize,
}

impl Room {
    // Whether a board of so many cells has no room in one of them.
    fn is_short_of(self, area: usize) -> bool
        requires { area ≤ 65536 }
        ensures { result ≡ short_of self area }
    {
        let entries = ENTRIES_PER_CELL * area;
        self.cells < area || self.map < area || self.entries < entries || self.records < area
    }
}

// Whether a spot's pad is above 64.
fn has_unknown_pad(spots: &[Spot]) -> bool
    ensures { result ≡ unknown_pad spots.now }
{
    spots.iter().any(|spot| usize::from(spot.pad) > PADS)
}

// The plate's size, where nothing stands against measuring it in this room.
fn size_of(dimensions: Dimensions, spots: &[Spot], room: Room) -> Result<Size, Refusal>
    ensures { let refused = plate_refusal (asked dimensions spots.now) room in
        MatchResult result
        (λ size. (refused ≡ None) × Sized size dimensions)
        (λ e. refused ≡ Some e) }
{
    let size = Size::new(dimensions).ok_or(Refusal::Size)?;
    if spots.len() != size.area() || room.is_short_of(size.area()) {
        return Err(Refusal::Tables);
    }
    if has_unknown_pad(spots) {
        return Err(Refusal::Pad);
    }
    Ok(size)
}

// Writes the spots as open cells.
fn write_cells(cells: &mut [Cell], spots: &[Spot])
    requires { length cells.old ≡ length spots.now }
    ensures { cells.new ≡ map spot_cell spots.now }
{
    for (number, spot) in spots.iter().enumerate() {
        cells[number] = Cell::from(*spot);
    }
}

// Opens a plate of the spots, with pad 1 in group 1.
fn entered(dimensions: Dimensions, spots: &[Spot], cells: &mut [Cell], groups: &mut [u8]) -> Draft
    requires size { bad_size dimensions ≡ false }
    requires spots { length spots.now ≡ area_asked dimensions }
    requires cells { length cells.old ≡ area_asked dimensions }
    requires groups { length groups.old ≡ pads }
    ensures size { Sized result.header.size dimensions }
    ensures cells { cells.new ≡ map spot_cell spots.now }
    ensures groups { groups.new ≡ only_pad_1 }
{
    let mut draft = Draft::open(dimensions, cells, groups).unwrap();
    write_cells(cells, spots);
    draft.enrol(groups, 1, 1).unwrap();
    draft
}

// Measures group 1 so many times, and once where that is 0; each time gives the same.
fn measure(
    draft: &mut Draft,
    cells: &[Cell],
    groups: &[u8],
    times: usize,
    map: &mut [MapRecord<u64>],
    entries: &mut [Offer<u64>],
) -> Counts
    requires cells { length cells.now ≡ area draft.old.header.size }
    requires groups { length groups.now ≡ pads }
    requires map { length map.old ≡ area draft.old.header.size }
    requires entries { length entries.old ≡ entries_needed draft.old.header.size }
    ensures counts { result ≡
        counts_of (by_chessboard (on draft.old.header.size cells.now groups.now) 1) }
    ensures map { map.new ≡
        measured_map (by_chessboard (on draft.old.header.size cells.now groups.now) 1) }
{
    let ruler = WholeRuler::new(Chessboard);
    let mut counts = draft
        .measure(&ruler, cells, groups, 1, map, entries)
        .unwrap();
    for _ in 1..times {
        counts = draft
            .measure(&ruler, cells, groups, 1, map, entries)
            .unwrap();
    }
    counts
}

// Writes the map into the table's first part.
fn write_records(out: &mut [Record], found: &[MapRecord<u64>])
    requires { length found.now ≤ length out.old }
    ensures { out.new ≡ map record_of found.now ++ drop (length found.now) out.old }
{
    for (number, record) in found.iter().enumerate() {
        out[number] = Record::from(*record);
    }
}

// Measures the plate of the spots in the tables, and writes the map. What stops it comes before anything is written.
fn measured(
    dimensions: Dimensions,
    spots: &[Spot],
    times: usize,
    cells: &mut [Cell],
    map: &mut [MapRecord<u64>],
    entries: &mut [Offer<u64>],
    out: &mut [Record],
) -> Result<Counts, Refusal>
    ensures outcome { let plate = asked dimensions spots.now in
        let refused = plate_refusal plate (room_in cells.old map.old entries.old out.old) in
        MatchResult result
        (λ counts. (refused ≡ None) × Measured plate out.old out.new counts)
        (λ e. refused ≡ Some e) }
    ensures refused_out { OnErr result (out.new ≡ out.old) }
    ensures refused_cells { OnErr result (cells.new ≡ cells.old) }
    ensures refused_map { OnErr result (map.new ≡ map.old) }
    ensures refused_entries { OnErr result (entries.new ≡ entries.old) }
    ensures cells { let n = area_asked dimensions in drop n cells.new ≡ drop n cells.old }
    ensures map { let n = area_asked dimensions in drop n map.new ≡ drop n map.old }
    ensures entries { let n = entries_per_cell * area_asked dimensions in
        drop n entries.new ≡ drop n entries.old }
{
    let room = Room {
        cells: cells.len(),
        map: map.len(),
        entries: entries.len(),
        records: out.len(),
    };
    let size = size_of(dimensions, spots, room)?;
    let area = size.area();
    let cells = &mut cells[..area];
    let map = &mut map[..area];
    let entries = &mut entries[..ENTRIES_PER_CELL * area];
    let mut groups = [0; PADS];
    let mut draft = entered(dimensions, spots, cells, &mut groups);
    let counts = measure(&mut draft, cells, &groups, times, map, entries);
    write_records(out, map);
    Ok(counts)
}

/// Measures group 1 of a plate of 1 to 256 rows and 1 to 256 columns by chessboard so many times, and once where that is 0.
/// The plate has a spot for each cell, row by row, and pad 1 alone is in group 1. Answers 0, and the map's records, how many
/// cells were reached and how many steps were put to the ruler are written; or a refusal's number, and nothing is. Sent back
/// with 1: rows or columns out of range. With 2: spots that are not one for each cell, or a table, or `out`, with no room
/// for one entry for each cell, and for a queue's nine. With 4: a pad above 64.
#[unsafe(no_mangle)]
pub extern "C" fn plate_measured(
    rows: u16,
    columns: u16,
    spots: &[Spot],
    times: usize,
    tables: &mut Tables,
    out: &mut [Record],
    reached: &mut usize,
    steps: &mut usize,
) -> u8
    ensures answer { let plate = asked (by_sides rows columns) spots.now in
        result ≡ answer_number (plate_refusal plate (room_of tables.old (length out.old))) }
    ensures hands_over { let plate = asked (by_sides rows columns) spots.now in
        HandsOver (plate_refusal plate (room_of tables.old (length out.old))) plate out.old out.new
        (counted reached.old steps.old) (counted reached.new steps.new) }
    ensures refused { let plate = asked (by_sides rows columns) spots.now in
        IfSome (plate_refusal plate (room_of tables.old (length out.old)))
        (λ _. tables.new ≡ tables.old) }
    ensures tables { Stay (rows * columns) tables.old tables.new }
{
    let cells = tables.cells.slice();
    let map = tables.map.slice();
    let entries = tables.entries.slice();
    let dimensions = Dimensions { rows, columns };
    match measured(dimensions, spots, times, cells, map, entries, out) {
        Ok(counts) => {
            *reached = counts.reached;
            *steps = counts.steps;
            MEASURED
        }
        Err(refusal) => refusal.number(),
    }
}

#[cfg(test)]
mod tests {
    use super::*;
    use std::alloc::{AllocError, Global};
    use std::process::Abort;
    use std::test::Fail;

    const UNTOUCHED: Record = Record {
        length: 7,
        link: 7,
        rank: 7,
        pad: 7,
        reached: 7,
    };

    const HILL: [Spot; 3] = [
        Spot { height: 0, pad: 1 },
        Spot { height: 5, pad: 0 },
        Spot { height: 0, pad: 2 },
    ];

    const BARE: Spot = Spot { height: 0, pad: 0 };

    const UNKNOWN: Spot = Spot { height: 0, pad: 65 };

    // Room for a board of three cells, and no more.
    const THREE: Room = Room {
        cells: 3,
        map: 3,
        entries: 27,
        records: 3,
    };

    // Tables of these lengths. What they take is not given back.
    fn tables(alloc: Global, room: Room) -> Result<Tables, AllocError> {
        let cells = Vec::from_elem(alloc, Cell::BARE, room.cells)?;
        let map = Vec::from_elem(alloc, MapRecord::unreached(0), room.map)?;
        let entries = Vec::from_elem(alloc, Offer { length: 0, cell: 0 }, room.entries)?;
        Ok(Tables {
            cells: LentCells::of(cells.leak()),
            map: LentMap::of(map.leak()),
            entries: LentEntries::of(entries.leak()),
        })
    }

    fn record(length: u64, link: u16, rank: u16) -> Record {
        Record {
            length,
            link,
            rank,
            pad: 1,
            reached: 1,
        }
    }

    #[test]
    fn a_hill_is_measured(rt: HostRuntime) -> Result<(), Fail> {
        let mut tables = tables(rt.alloc(), THREE)?;
        for times in 0..3 {
            let mut out = [UNTOUCHED; 4];
            let (mut reached, mut steps) = (7, 7);
            let answer = plate_measured(
                1,
                3,
                &HILL,
                times,
                &mut tables,
                &mut out,
                &mut reached,
                &mut steps,
            );
            assert_eq!(rt; answer, 0);
            assert_eq!(rt; (reached, steps), (3, 4));
            assert_eq!(rt;
                out,
                [
                    record(0, 0, 0),
                    record(6, 0, 1),
                    record(12, 1, 2),
                    UNTOUCHED
                ]
            );
        }
        Ok(())
    }

    // A call in this room is sent back with this number, and writes nothing.
    fn check_sent_back(
        rt: &(impl Abort + AllocGlobal),
        rows: u16,
        columns: u16,
        spots: &[Spot],
        room: Room,
        number: u8,
    ) -> Result<(), Fail> {
        let mut tables = tables(rt.alloc(), room)?;
        let mut out = [UNTOUCHED; 257];
        let (mut reached, mut steps) = (7, 7);
        let answer = plate_measured(
            rows,
            columns,
            spots,
            1,
            &mut tables,
            &mut out[..room.records.min(257)],
            &mut reached,
            &mut steps,
        );
        assert_eq!(rt; answer, number);
        assert_eq!(rt; (reached, steps), (7, 7));
        assert!(rt; out == [UNTOUCHED; 257]);
        Ok(())
    }

    #[test]
    fn faulty_calls_are_sent_back(rt: HostRuntime) -> Result<(), Fail> {
        let unknown = [BARE, BARE, UNKNOWN];
        check_sent_back(&rt, 1, 2, &HILL, THREE, 2)?;
        check_sent_back(&rt, 1, 3, &HILL[1..], THREE, 2)?;
        check_sent_back(&rt, 1, 3, &HILL, Room { cells: 2, ..THREE }, 2)?;
        check_sent_back(&rt, 1, 3, &HILL, Room { map: 2, ..THREE }, 2)?;
        check_sent_back(
            &rt,
            1,
            3,
            &HILL,
            Room {
                entries: 26,
                ..THREE
            },
            2,
        )?;
        check_sent_back(
            &rt,
            1,
            3,
            &HILL,
            Room {
                records: 2,
                ..THREE
            },
            2,
        )?;
        check_sent_back(&rt, 1, 3, &unknown, THREE, 4)
    }

    // The least number is answered where several things stand against a call.
    #[test]
    fn the_first_fault_is_answered(rt: HostRuntime) -> Result<(), Fail> {
        let unknown = [BARE, BARE, UNKNOWN];
        let many = [UNKNOWN; 257];
        let roomy = Room {
            cells: 257,
            map: 257,
            entries: 2313,
            records: 257,
        };
        check_sent_back(&rt, 0, 3, &HILL, THREE, 1)?;
        check_sent_back(&rt, 257, 1, &many, roomy, 1)?;
        check_sent_back(&rt, 1, 2, &unknown, THREE, 2)?;
        check_sent_back(&rt, 1, 3, &unknown, Room { map: 2, ..THREE }, 2)?;
        check_sent_back(
            &rt,
            1,
            3,
            &unknown,
            Room {
                records: 2,
                ..THREE
            },
            2,
        )
    }

    // A flat board with its source in the first cell is measured: all cells are reached, each is a step from its neighbours, and the
    // last one is as far away as the longer side is long.
    fn check_flat(
        rt: &(impl Abort + AllocGlobal),
        rows: u16,
        columns: u16,
        counts: Counts,
        last: u64,
    ) -> Result<(), Fail> {
        let area = usize::from(rows) * usize::from(columns);
        let mut spots = Vec::from_elem(rt.alloc(), BARE, area)?;
        if let Some(first) = spots.first_mut() {
            first.pad = 1;
        }
        let mut out = Vec::from_elem(rt.alloc(), UNTOUCHED, area)?;
        let exact = Room {
            cells: area,
            map: area,
            entries: ENTRIES_PER_CELL * area,
            records: area,
        };
        let mut tables = tables(rt.alloc(), exact)?;
        let (mut reached, mut steps) = (7, 7);
        let answer = plate_measured(
            rows,
            columns,
            &spots,
            1,
            &mut tables,
            &mut out,
            &mut reached,
            &mut steps,
        );
        assert_eq!(rt; answer, 0);
        assert_eq!(rt; Counts { reached, steps }, counts);
        assert_eq!(rt; out.last().map(|record| record.length), Some(last));
        Ok(())
    }

    // Steps: 8 from each cell within, 5 from each of an edge, 3 from each corner.
    #[test]
    fn large_boards_are_measured(rt: HostRuntime) -> Result<(), Fail> {
        let all = Counts {
            reached: 65536,
            steps: 521220,
        };
        let some = Counts {
            reached: 20000,
            steps: 158204,
        };
        check_flat(&rt, 256, 256, all, 255)?;
        check_flat(&rt, 100, 200, some, 199)
    }
}
