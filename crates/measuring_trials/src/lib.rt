// Tests of measuring: whole maps and both counts on small boards, at the edges of what a board can be.
#![tactic(auto)]

// The expected maps are worked out from the rules, by hand and by a program that relaxes lengths until none changes,
// and not taken from what the library answers. A helper's `what` is said where one of its assertions fails.
#[cfg(test)]
mod tests {
    use board::{Cell, Dimensions, MapRecord, PADS};
    use gauge_trials::{Descent, Level, Wall};
    use gauges::{Chessboard, Gauge, WholeRuler};
    use lengths::Whole;
    use measuring::{Counts, ENTRIES_PER_CELL};
    use plate::Draft;
    use queue::Offer;
    use std::process::Abort;
    use std::test::Fail;

    const UNREACHED: MapRecord<u64> = MapRecord {
        length: 0,
        reached: false,
        pad: 0,
        link: 0,
        rank: 0,
    };

    // What stands in the tables before measuring, and beyond the needed part after it.
    const OLD: MapRecord<u64> = MapRecord {
        length: 77,
        reached: true,
        pad: 7,
        link: 777,
        rank: 7777,
    };

    const OLD_OFFER: Offer<u64> = Offer {
        length: 77,
        cell: 777,
    };

    fn by_chessboard() -> WholeRuler<Chessboard> {
        WholeRuler::new(Chessboard)
    }

    fn of_size(rows: u16, columns: u16) -> Dimensions {
        Dimensions { rows, columns }
    }

    // A cell of height 0 with a pad.
    fn pad(pad: u8) -> Cell {
        Cell { pad, ..Cell::BARE }
    }

    // A bare cell with a height.
    fn height(height: u16) -> Cell {
        Cell {
            height,
            ..Cell::BARE
        }
    }

    // The record of a reached cell.
    fn ranked(length: u64, pad: u8, link: u16, rank: u16) -> MapRecord<u64> {
        MapRecord {
            length,
            reached: true,
            pad,
            link,
            rank,
        }
    }

    fn counts(reached: usize, steps: usize) -> Counts {
        Counts { reached, steps }
    }

    // Pads 1 and 2 are in group 1, pad 3 is in group 2; of the bytes of pad 4 and beyond pad 64 none is to count.
    fn pad_groups() -> [u8; PADS + 1] {
        let mut groups = [0; PADS + 1];
        groups[0] = 1;
        groups[1] = 1;
        groups[2] = 2;
        groups[3] = 3;
        groups[PADS] = 1;
        groups
    }

    // A board, and what measuring its group 1 comes to.
    #[derive(Clone, Copy)]
    struct Trial<'w, 'c, 'r> {
        what: &'w str,
        dimensions: Dimensions,
        cells: &'c [Cell],
        counts: Counts,
        records: &'r [MapRecord<u64>],
    }

    // Measures group 1 of a board in tables that are longer than needed, and checks both counts and all entries of
    // the map, and that the queue beyond the needed part is as it was. The plate is opened over spare tables, since
    // opening clears them.
    fn check_map<G: Gauge<Length = Whole>>(
        rt: &impl Abort,
        gauge: &G,
        trial: &Trial<'_, '_, '_>,
    ) -> Result<(), Fail> {
        let what = trial.what;
        let mut draft = Draft::open(trial.dimensions, &mut [Cell::BARE; 256], &mut [0; PADS])?;
        let mut map = [OLD; 257];
        let mut entries = [OLD_OFFER; ENTRIES_PER_CELL * 256 + 1];
        let found = draft.measure(gauge, trial.cells, &pad_groups(), 1, &mut map, &mut entries)?;
        assert_eq!(rt; found, trial.counts, "{what}");
        let area = draft.size().area();
        assert!(rt; trial.records.len() == area, "{what}");
        for (number, record) in map.iter().enumerate() {
            assert_eq!(rt;
                *record,
                trial.records.get(number).copied().unwrap_or(OLD),
                "{what}"
            );
        }
        for offer in entries.iter().skip(ENTRIES_PER_CELL * area) {
            assert_eq!(rt; *offer, OLD_OFFER, "{what}");
        }
        Ok(())
    }

    #[test]
    fn few_cells_or_none_are_reached(rt: HostRuntime) -> Result<(), Fail> {
        let one = of_size(1, 1);
        let four = of_size(2, 2);
        check_map(
            &rt,
            &by_chessboard(),
            &Trial {
                what: "few cells or none are reached",
                dimensions: one,
                cells: &[pad(1)],
                counts: counts(1, 0),
                records: &[ranked(0, 1, 0, 0)],
            },
        )?;
        check_map(
            &rt,
            &by_chessboard(),
            &Trial {
                what: "few cells or none are reached",
                dimensions: one,
                cells: &[Cell::BARE],
                counts: counts(0, 0),
                records: &[UNREACHED],
            },
        )?;
        check_map(
            &rt,
            &by_chessboard(),
            &Trial {
                what: "all barred",
                dimensions: four,
                cells: &[Cell::BARRED; 4],
                counts: counts(0, 0),
                records: &[UNREACHED; 4],
            },
        )?;
        let other = [pad(3), Cell::BARE, Cell::BARE, pad(3)];
        check_map(
            &rt,
            &by_chessboard(),
            &Trial {
                what: "pads of group 2 only",
                dimensions: four,
                cells: &other,
                counts: counts(0, 0),
                records: &[UNREACHED; 4],
            },
        )
    }

    #[test]
    fn every_cell_is_a_source(rt: HostRuntime) -> Result<(), Fail> {
        let cells = [pad(1), pad(2), pad(1), pad(2), pad(2), pad(1)];
        let records = [
            ranked(0, 1, 0, 0),
            ranked(0, 2, 1, 1),
            ranked(0, 1, 2, 2),
            ranked(0, 2, 3, 3),
            ranked(0, 2, 4, 4),
            ranked(0, 1, 5, 5),
        ];
        check_map(
            &rt,
            &by_chessboard(),
            &Trial {
                what: "every cell is a source",
                dimensions: of_size(2, 3),
                cells: &cells,
                counts: counts(6, 22),
                records: &records,
            },
        )
    }

    // The map of a strip of 256 cells with pad 1 on its first: each other cell links to the one before it.
    fn from_first() -> [MapRecord<u64>; 256] {
        let mut records = [UNREACHED; 256];
        for far in 0..256u16 {
            records[far as usize] = ranked(u64::from(far), 1, far.saturating_sub(1), far);
        }
        records
    }

    // The same with pad 2 on its last: each other cell links to the one behind it.
    fn from_last() -> [MapRecord<u64>; 256] {
        let mut records = [UNREACHED; 256];
        for far in 0..256u16 {
            let link = 255 - far.saturating_sub(1);
            records[255 - far as usize] = ranked(u64::from(far), 2, link, far);
        }
        records
    }

    fn check_strip(rt: &impl Abort, what: &str, dimensions: Dimensions) -> Result<(), Fail> {
        let mut first = [Cell::BARE; 256];
        first[0] = pad(1);
        check_map(
            rt,
            &by_chessboard(),
            &Trial {
                what,
                dimensions,
                cells: &first,
                counts: counts(256, 510),
                records: &from_first(),
            },
        )?;
        let mut last = [Cell::BARE; 256];
        last[255] = pad(2);
        check_map(
            rt,
            &by_chessboard(),
            &Trial {
                what,
                dimensions,
                cells: &last,
                counts: counts(256, 510),
                records: &from_last(),
            },
        )
    }

    #[test]
    fn strips_are_measured_to_the_end(rt: HostRuntime) -> Result<(), Fail> {
        check_strip(&rt, "a row", of_size(1, 256))?;
        check_strip(&rt, "a column", of_size(256, 1))
    }

    // Of equal offers the one of the lowest-ranked cell counts, whatever the pads' numbers.
    #[test]
    fn equal_offers_go_by_rank(rt: HostRuntime) -> Result<(), Fail> {
        let ends = [pad(1), Cell::BARE, pad(2)];
        let records = [ranked(0, 1, 0, 0), ranked(1, 1, 0, 2), ranked(0, 2, 2, 1)];
        check_map(
            &rt,
            &by_chessboard(),
            &Trial {
                what: "equal offers go by rank",
                dimensions: of_size(1, 3),
                cells: &ends,
                counts: counts(3, 4),
                records: &records,
            },
        )?;
        let swapped = [pad(2), Cell::BARE, pad(1)];
        let records = [ranked(0, 2, 0, 0), ranked(1, 2, 0, 2), ranked(0, 1, 2, 1)];
        check_map(
            &rt,
            &by_chessboard(),
            &Trial {
                what: "equal offers go by rank",
                dimensions: of_size(1, 3),
                cells: &swapped,
                counts: counts(3, 4),
                records: &records,
            },
        )?;
        let slopes = [pad(1), height(1), height(1), Cell::BARE, pad(2)];
        let records = [
            ranked(0, 1, 0, 0),
            ranked(2, 1, 0, 3),
            ranked(3, 2, 3, 4),
            ranked(1, 2, 4, 2),
            ranked(0, 2, 4, 1),
        ];
        check_map(
            &rt,
            &by_chessboard(),
            &Trial {
                what: "the middle links to the cell of the higher number, which was ranked first",
                dimensions: of_size(1, 5),
                cells: &slopes,
                counts: counts(5, 8),
                records: &records,
            },
        )
    }

    // Cells of equal length are ranked by their numbers.
    #[test]
    fn equal_lengths_go_by_cell_number(rt: HostRuntime) -> Result<(), Fail> {
        let cells = [
            pad(2),
            Cell::BARE,
            pad(1),
            Cell::BARE,
            Cell::BARE,
            Cell::BARE,
            pad(1),
            Cell::BARE,
            Cell::BARE,
        ];
        let records = [
            ranked(0, 2, 0, 0),
            ranked(1, 2, 0, 3),
            ranked(0, 1, 2, 1),
            ranked(1, 2, 0, 4),
            ranked(1, 2, 0, 5),
            ranked(1, 1, 2, 6),
            ranked(0, 1, 6, 2),
            ranked(1, 1, 6, 7),
            ranked(2, 2, 4, 8),
        ];
        check_map(
            &rt,
            &by_chessboard(),
            &Trial {
                what: "equal lengths go by cell number",
                dimensions: of_size(3, 3),
                cells: &cells,
                counts: counts(9, 40),
                records: &records,
            },
        )
    }

    // Two ways of length 4 lead round the barred middle to the upper left cell.
    #[test]
    fn equal_ways_go_by_rank(rt: HostRuntime) -> Result<(), Fail> {
        let cells = [
            height(1),
            height(1),
            Cell::BARE,
            Cell::BARE,
            Cell::BARRED,
            Cell::BARE,
            Cell::BARE,
            Cell::BARE,
            pad(1),
        ];
        let records = [
            ranked(4, 1, 3, 7),
            ranked(3, 1, 5, 6),
            ranked(2, 1, 5, 3),
            ranked(2, 1, 7, 4),
            UNREACHED,
            ranked(1, 1, 8, 1),
            ranked(2, 1, 7, 5),
            ranked(1, 1, 8, 2),
            ranked(0, 1, 8, 0),
        ];
        check_map(
            &rt,
            &by_chessboard(),
            &Trial {
                what: "equal ways go by rank",
                dimensions: of_size(3, 3),
                cells: &cells,
                counts: counts(8, 24),
                records: &records,
            },
        )
    }

    // Where steps add nothing, a bare cell is ranked before a source of a higher number, which keeps its own pad.
    #[test]
    fn steps_may_add_nothing(rt: HostRuntime) -> Result<(), Fail> {
        let cells = [Cell::BARE, pad(1), Cell::BARE, pad(2)];
        let records = [
            ranked(0, 1, 1, 1),
            ranked(0, 1, 1, 0),
            ranked(0, 1, 1, 2),
            ranked(0, 2, 3, 3),
        ];
        check_map(
            &rt,
            &Level,
            &Trial {
                what: "steps may add nothing",
                dimensions: of_size(1, 4),
                cells: &cells,
                counts: counts(4, 6),
                records: &records,
            },
        )?;
        let corner = [Cell::BARE, Cell::BARE, Cell::BARE, pad(1)];
        let records = [
            ranked(0, 1, 3, 1),
            ranked(0, 1, 3, 2),
            ranked(0, 1, 3, 3),
            ranked(0, 1, 3, 0),
        ];
        check_map(
            &rt,
            &Level,
            &Trial {
                what: "all link to the cell of rank 0",
                dimensions: of_size(2, 2),
                cells: &corner,
                counts: counts(4, 12),
                records: &records,
            },
        )
    }

    // Where every step is barred, the sources alone are reached, and their steps are counted.
    #[test]
    fn steps_may_all_be_barred(rt: HostRuntime) -> Result<(), Fail> {
        let cells = [
            pad(1),
            Cell::BARRED,
            Cell::BARE,
            Cell::BARE,
            pad(2),
            Cell::BARE,
        ];
        let records = [
            ranked(0, 1, 0, 0),
            UNREACHED,
            UNREACHED,
            UNREACHED,
            ranked(0, 2, 4, 1),
            UNREACHED,
        ];
        check_map(
            &rt,
            &Wall,
            &Trial {
                what: "steps may all be barred",
                dimensions: of_size(2, 3),
                cells: &cells,
                counts: counts(2, 6),
                records: &records,
            },
        )
    }

    // A step is put to the gauge from the ranked cell to its neighbour: of a slope with its source in the middle the lower end
    // is reached, and the upper is not.
    #[test]
    fn steps_lead_away_from_ranked_cells(rt: HostRuntime) -> Result<(), Fail> {
        let middle = Cell {
            height: 1,
            ..pad(1)
        };
        let records = [UNREACHED, ranked(0, 1, 1, 0), ranked(1, 1, 1, 1)];
        check_map(
            &rt,
            &Descent,
            &Trial {
                what: "steps lead away from ranked cells",
                dimensions: of_size(1, 3),
                cells: &[height(2), middle, Cell::BARE],
                counts: counts(2, 3),
                records: &records,
            },
        )
    }

    // Pad 65 and the pad in group 3 count as 0, a barred cell is no source, and cells beyond the board are not looked at.
    #[test]
    fn tampered_tables_are_measured(rt: HostRuntime) -> Result<(), Fail> {
        let records = [
            ranked(3, 1, 1, 3),
            ranked(2, 1, 2, 2),
            ranked(1, 1, 3, 1),
            ranked(0, 1, 3, 0),
            UNREACHED,
        ];
        let walled = Cell {
            pad: 1,
            ..Cell::BARRED
        };
        let cells = [pad(65), pad(4), Cell::BARE, pad(1), walled, pad(1)];
        check_map(
            &rt,
            &by_chessboard(),
            &Trial {
                what: "tampered tables are measured",
                dimensions: of_size(1, 5),
                cells: &cells,
                counts: counts(4, 6),
                records: &records,
            },
        )
    }
}
