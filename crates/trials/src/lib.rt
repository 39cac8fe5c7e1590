// Small boards, read from sheets and measured by chessboard, with the answers that they should have.
#![tactic(auto)]

use board::{Cell, MapRecord, PADS};
use gauges::{Chessboard, WholeRuler};
use measuring::{Counts, ENTRIES_PER_CELL};
use plate::{Draft, Readings};
use queue::Offer;
use sheets::{Fault, Refusal, read_sheet};

/// How many cells the tables of a trial hold.
pub const CELLS: usize = 9;

/// An open cell of height 0 with no pad.
pub const BARE: Cell = Cell::BARE;

/// What measuring both groups of a board came to.
#[derive(Clone, Copy, Debug, PartialEq, Eq)]
pub struct Outcome {
    /// The counts of group 1.
    pub first: Counts,
    /// The counts of group 2.
    pub second: Counts,
    /// The gap in units of the chessboard ruler, or none where no cell has both distances.
    pub gap: Option<u64>,
}

/// Measures both groups of an open plate of up to nine cells. Sent back: 2, also where the plate has more.
pub fn measure_both(
    draft: &mut Draft,
    cells: &[Cell],
    groups: &[u8],
) -> Result<Outcome, plate::Refusal> {
    let mut first = [MapRecord::unreached(0); CELLS];
    let mut second = [MapRecord::unreached(0); CELLS];
    let mut entries = [Offer { length: 0, cell: 0 }; ENTRIES_PER_CELL * CELLS];
    let ruler = WholeRuler::new(Chessboard);
    let mut measure = |group: u16, map: &mut [MapRecord<u64>]| {
        draft.measure(&ruler, cells, groups, group, map, &mut entries)
    };
    let one = measure(1, &mut first)?;
    let two = measure(2, &mut second)?;
    let gap = draft.gap(&ruler, &first, &second)?;
    Ok(Outcome {
        first: one,
        second: two,
        gap: gap.map(|length| length.units),
    })
}

/// Reads a sheet of up to nine cells and measures its board; a fault of measuring has line 0.
pub fn measure_sheet(sheet: &[u8]) -> Result<Outcome, Fault> {
    let mut cells = [BARE; CELLS];
    let mut groups = [0; PADS];
    let mut draft = read_sheet(sheet, &mut cells, &mut groups)?;
    measure_both(&mut draft, &cells, &groups).map_err(|refusal| Fault {
        line: 0,
        field: 0,
        refusal: Refusal::Plate(refusal),
    })
}

#[cfg(test)]
mod tests {
    use super::*;
    use board::Dimensions;
    use std::test::Fail;

    const NONE: Counts = Counts {
        reached: 0,
        steps: 0,
    };

    fn fault(line: usize, field: u8, refusal: Refusal) -> Result<Outcome, Fault> {
        Err(Fault {
            line,
            field,
            refusal,
        })
    }

    fn outcome(reached: usize, steps: usize, gap: Option<u64>) -> Result<Outcome, Fault> {
        let counts = Counts { reached, steps };
        Ok(Outcome {
            first: counts,
            second: counts,
            gap,
        })
    }

    // Boards on which both groups have like counts.
    #[test]
    fn boards_have_their_gaps(rt: HostRuntime) {
        let hill =
            b"plate\t1\t3\ncell\t0\t0\t0\t1\ncell\t0\t1\t5\t0\ncell\t0\t2\t0\t2\nenrol\t1\t1\nenrol\t2\t2\n";
        assert_eq!(rt;
            measure_sheet(hill),
            outcome(3, 4, Some(12)),
            "a hill between the pads"
        );
        let wall =
            b"plate\t1\t3\ncell\t0\t0\t0\t1\nbar\t0\t1\ncell\t0\t2\t0\t2\nenrol\t1\t1\nenrol\t2\t2\n";
        assert_eq!(rt;
            measure_sheet(wall),
            outcome(1, 0, None),
            "a wall between the pads"
        );
        let round =
            b"plate\t2\t3\ncell\t0\t0\t0\t1\ncell\t0\t1\t9\t0\ncell\t0\t2\t0\t2\nenrol\t1\t1\nenrol\t2\t2\n";
        assert_eq!(rt;
            measure_sheet(round),
            outcome(6, 22, Some(2)),
            "a way round the hill"
        );
        let alone = b"plate\t1\t1\ncell\t0\t0\t7\t1\nenrol\t1\t1\n";
        let one = Counts {
            reached: 1,
            steps: 0,
        };
        let lone = Outcome {
            first: one,
            second: NONE,
            gap: None,
        };
        assert_eq!(rt; measure_sheet(alone), Ok(lone), "one cell");
    }

    #[test]
    fn faults_have_their_places(rt: HostRuntime) {
        assert_eq!(rt;
            measure_sheet(b""),
            fault(1, 0, Refusal::Order),
            "empty sheet"
        );
        assert_eq!(rt;
            measure_sheet(b"bar\t0\t0\n"),
            fault(1, 0, Refusal::Order),
            "no plate line"
        );
        assert_eq!(rt;
            measure_sheet(b"plate\t2\t3"),
            fault(1, 0, Refusal::Line),
            "no line end"
        );
        assert_eq!(rt;
            measure_sheet(b"plate\t2\n"),
            fault(1, 0, Refusal::Line),
            "a field missing"
        );
        assert_eq!(rt;
            measure_sheet(b"plate\t2\t03\n"),
            fault(1, 2, Refusal::Figure),
            "a 0 before a digit"
        );
        assert_eq!(rt;
            measure_sheet(b"plate\t257\t0\n"),
            fault(1, 1, Refusal::Plate(plate::Refusal::Size)),
            "257 rows"
        );
        assert_eq!(rt;
            measure_sheet(b"plate\t2\t0\n"),
            fault(1, 2, Refusal::Plate(plate::Refusal::Size)),
            "no columns"
        );
        assert_eq!(rt;
            measure_sheet(b"plate\t2\t5\n"),
            fault(1, 0, Refusal::Plate(plate::Refusal::Tables)),
            "ten cells in nine"
        );
        assert_eq!(rt;
            measure_sheet(b"plate\t2\t3\ncell\t0\t3\t0\t1\n"),
            fault(2, 2, Refusal::Plate(plate::Refusal::Off)),
            "a column off the plate"
        );
        assert_eq!(rt;
            measure_sheet(b"plate\t2\t3\ncell\t0\t2\t0\t65\n"),
            fault(2, 4, Refusal::Plate(plate::Refusal::Pad)),
            "pad 65"
        );
        assert_eq!(rt;
            measure_sheet(b"plate\t2\t3\n\n"),
            fault(2, 0, Refusal::Line),
            "an empty line"
        );
        assert_eq!(rt;
            measure_sheet(b"plate\t2\t3\nplate\tx\t3\n"),
            fault(2, 0, Refusal::Order),
            "a second plate line"
        );
        assert_eq!(rt;
            measure_sheet(b"plate\t2\t3\nenrol\t1\t3\n"),
            fault(2, 2, Refusal::Plate(plate::Refusal::Group)),
            "group 3"
        );
    }

    // Calls made without a sheet, and what they leave in the tables.
    #[test]
    fn calls_are_sent_back(rt: HostRuntime) -> Result<(), Fail> {
        let mut cells = [BARE; CELLS];
        let mut groups = [0; PADS];
        let tall = Dimensions {
            rows: 257,
            columns: 1,
        };
        assert!(rt; Draft::open(tall, &mut cells, &mut groups).is_err());
        let flat = Dimensions {
            rows: 2,
            columns: 3,
        };
        let mut draft = Draft::open(flat, &mut cells, &mut groups)?;
        assert_eq!(rt; draft.set(&mut cells, 2, 0, 0, 0), Err(plate::Refusal::Off));
        assert_eq!(rt;
            draft.set(&mut cells, 0, 0, 0, 65),
            Err(plate::Refusal::Pad)
        );
        assert_eq!(rt;
            draft.set(&mut cells[0..5], 9, 9, 9, 99),
            Err(plate::Refusal::Tables)
        );
        assert_eq!(rt; draft.bar(&mut cells, 0, 3), Err(plate::Refusal::Off));
        assert_eq!(rt; draft.enrol(&mut groups, 0, 3), Err(plate::Refusal::Pad));
        assert_eq!(rt; draft.enrol(&mut groups, 1, 3), Err(plate::Refusal::Group));
        assert_eq!(rt;
            draft.enrol(&mut groups[0..63], 1, 1),
            Err(plate::Refusal::Tables)
        );
        let map = [MapRecord::unreached(0); CELLS];
        assert!(rt;
            draft.gap(&WholeRuler::new(Chessboard), &map, &map).is_err(),
            "nothing is measured yet"
        );
        assert_eq!(rt; draft.set(&mut cells, 1, 2, 4, 64), Ok(()));
        assert!(rt;
            cells[5].height == 4 && cells[5].pad == 64,
            "the sixth cell"
        );
        Ok(())
    }
}
