// Measures one board by each ruler and by stacks of layers over them, and prints a line for each: how many cells of
// group 1's map are reached, the steps put to the gauge, the length of each cell, and the gap.
#![tactic(auto)]

use board::{Cell, Dimensions, MapRecord, PADS};
use ending::{Stop, finish};
use gauges::{
    Chessboard, CountedChessboard, Euclid, Fence, Rectangle, Rectangles, Ruler, ThreeFour,
    Weighting, WholeRuler,
};
use lengths::{Counted, Length, Whole};
use measuring::{ENTRIES_PER_CELL, RowOf};
use plate::{Draft, Readings};
use queue::Offer;
use std::{fmt, io};

// The board's 3 rows of 4 cells.
const BOARD: Dimensions = Dimensions {
    rows: 3,
    columns: 4,
};

// How many cells that is.
const CELLS: usize = 12;

// A length as it is printed: its units, and its steps where they are counted.
#[derive(Clone, Copy)]
struct Printed<L>(L);

impl fmt::Display for Printed<Whole> {
    fn fmt<W: fmt::Write>(&self, f: &mut fmt::Formatter<W>) -> fmt::Result {
        write!(f, "{}", self.0.units)
    }
}

impl fmt::Display for Printed<Counted> {
    fn fmt<W: fmt::Write>(&self, f: &mut fmt::Formatter<W>) -> fmt::Result {
        write!(f, "{}/{}", self.0.units, self.0.steps)
    }
}

// Enters the board: pads 1 and 2 are in group 1, pad 3 is in group 2.
fn enter_board(cells: &mut [Cell], groups: &mut [u8]) -> Result<Draft, plate::Refusal> {
    let mut draft = Draft::open(BOARD, cells, groups)?;
    draft.set(cells, 0, 0, 1, 1)?;
    draft.set(cells, 0, 1, 5, 0)?;
    draft.set(cells, 0, 2, 3, 0)?;
    draft.set(cells, 0, 3, 1, 0)?;
    draft.bar(cells, 1, 1)?;
    draft.set(cells, 1, 2, 5, 0)?;
    draft.set(cells, 1, 3, 5, 3)?;
    draft.set(cells, 2, 0, 3, 0)?;
    draft.set(cells, 2, 1, 0, 2)?;
    draft.bar(cells, 2, 2)?;
    draft.set(cells, 2, 3, 3, 0)?;
    draft.enrol(groups, 1, 1)?;
    draft.enrol(groups, 2, 1)?;
    draft.enrol(groups, 3, 2)?;
    Ok(draft)
}

// Prints the lengths of a map, and `-` for an unreached cell.
fn print_map<L: Length>(rt: &impl Print, map: &[MapRecord<L::Row>]) -> io::Result<()>
where
    Printed<L>: fmt::Display,
{
    for record in map {
        if record.reached {
            print!(rt; "\t{}", Printed(L::decode(record.length)))?;
        } else {
            print!(rt; "\t-")?;
        }
    }
    Ok(())
}

// Measures both groups by a ruler, and prints its line.
fn measure_by<R: Ruler>(rt: &(impl Print + AllocGlobal), name: &str, ruler: &R) -> Result<(), Stop>
where
    Printed<R::Length>: fmt::Display,
    RowOf<R>: Clone,
{
    let mut cells = [Cell::BARE; CELLS];
    let mut groups = [0u8; PADS];
    let mut draft = enter_board(&mut cells, &mut groups)?;
    let zero = <R::Length as Length>::zero().encode();
    let heap = rt.alloc();
    let mut first = vec![in heap; MapRecord::unreached(zero); CELLS]?;
    let mut second = vec![in heap; MapRecord::unreached(zero); CELLS]?;
    let mut entries = vec![in heap; Offer {
        length: zero,
        cell: 0
    }; ENTRIES_PER_CELL * CELLS]?;
    let counts = draft.measure(ruler, &cells, &groups, 1, &mut first, &mut entries)?;
    draft.measure(ruler, &cells, &groups, 2, &mut second, &mut entries)?;
    print!(rt; "{name}\t{}\t{}", counts.reached, counts.steps)?;
    print_map::<R::Length>(rt, &first)?;
    match draft.gap(ruler, &first, &second)? {
        Some(gap) => println!(rt; "\t{}", Printed(gap))?,
        None => println!(rt; "\tnone")?,
    }
    Ok(())
}

// The rectangle between two cells, each by its row and column.
fn rectangle(first: (u16, u16), last: (u16, u16)) -> Rectangle {
    Rectangle {
        first_row: first.0,
        first_column: first.1,
        last_row: last.0,
        last_column: last.1,
    }
}

// The cell of pad 1, and the upper right corner.
fn corners() -> Result<Rectangles, gauges::Refusal> {
    let mut rectangles = Rectangles::new();
    rectangles.add(rectangle((0, 0), (0, 0)))?;
    rectangles.add(rectangle((0, 3), (0, 3)))?;
    Ok(rectangles)
}

// The third column, which parts the groups.
fn third_column() -> Result<Rectangles, gauges::Refusal> {
    let mut rectangles = Rectangles::new();
    rectangles.add(rectangle((0, 2), (255, 2)))?;
    Ok(rectangles)
}

fn measure_by_rulers(rt: &(impl Print + AllocGlobal)) -> Result<(), Stop> {
    measure_by(rt, "chessboard", &WholeRuler::new(Chessboard))?;
    measure_by(rt, "three-four 2", &WholeRuler::new(ThreeFour::new(2)?))?;
    measure_by(rt, "euclid", &WholeRuler::new(Euclid))?;
    measure_by(rt, "counted", &CountedChessboard)
}

fn measure_by_stacks(rt: &(impl Print + AllocGlobal)) -> Result<(), Stop> {
    let weighted = Weighting::new(WholeRuler::new(Chessboard), 3)?;
    measure_by(rt, "weighting 3 over chessboard", &weighted)?;
    let fenced = Fence::new(WholeRuler::new(ThreeFour::new(2)?), corners()?);
    measure_by(rt, "fence over three-four 2", &fenced)?;
    let parted = Weighting::new(Fence::new(WholeRuler::new(Euclid), third_column()?), 2)?;
    measure_by(rt, "weighting 2 over fence over euclid", &parted)?;
    let counted = Fence::new(Weighting::new(CountedChessboard, 16)?, corners()?);
    measure_by(rt, "fence over weighting 16 over counted", &counted)
}

fn measure_all(rt: &(impl Print + AllocGlobal)) -> Result<(), Stop> {
    measure_by_rulers(rt)?;
    measure_by_stacks(rt)
}

fn main(rt: HostRuntime) -> io::Result<()> {
    finish(&mut io::writer(&rt), measure_all(&rt))
}
