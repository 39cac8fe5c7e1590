// Tests of the readings: distance, nearest, way, gap and route on small boards, on tampered maps, and sent back.
#![tactic(auto)]

// The expected answers are worked out from the rules, and not taken from what the library answers.
// A helper's `what` is said where one of its assertions fails.
#[cfg(test)]
mod tests {
    use board::{Cell, Dimensions, MapRecord, PADS};
    use gauges::{Chessboard, CountedChessboard, Euclid, Ruler, ThreeFour, WholeRuler};
    use lengths::{CountedRow, Length, Whole};
    use measuring::{ENTRIES_PER_CELL, RowOf};
    use plate::{Draft, Readings, Refusal};
    use queue::Offer;
    use std::fmt::Debug;
    use std::process::Abort;
    use std::test::Fail;

    const STRIP: Dimensions = Dimensions {
        rows: 1,
        columns: 3,
    };

    // What stands in a map before measuring, and beyond the board after it: a reached cell linked to itself.
    const OLD: MapRecord<u64> = MapRecord {
        length: 7,
        reached: true,
        pad: 7,
        link: 3,
        rank: 7,
    };

    // The numbers by which a way is sent back.
    const SHORT: u8 = 7;

    const TORN: u8 = 8;

    // What stands in a list before a way is written.
    const BLANK: u16 = 99;

    fn by_chessboard() -> WholeRuler<Chessboard> {
        WholeRuler::new(Chessboard)
    }

    fn of_size(rows: u16, columns: u16) -> Dimensions {
        Dimensions { rows, columns }
    }

    // A cell of height 0 with a pad.
    fn pad(pad: u8) -> Cell {
        Cell { pad, ..Cell::BARE }
    }

    // A bare cell with a height.
    fn height(height: u16) -> Cell {
        Cell {
            height,
            ..Cell::BARE
        }
    }

    // The groups of pads 1 and 2.
    fn pad_groups(one: u8, two: u8) -> [u8; PADS] {
        let mut groups = [0; PADS];
        groups[0] = one;
        groups[1] = two;
        groups
    }

    // Opens a plate over spare tables, since opening clears them.
    fn open(dimensions: Dimensions) -> Result<Draft, Refusal> {
        Draft::open(dimensions, &mut [Cell::BARE; 9], &mut [0; PADS])
    }

    // Measures a group by chessboard.
    fn measure(
        draft: &mut Draft,
        cells: &[Cell],
        groups: &[u8],
        group: u16,
    ) -> Result<[MapRecord<u64>; 4], Refusal> {
        let mut map = [OLD; 4];
        let mut entries = [Offer { length: 0, cell: 0 }; ENTRIES_PER_CELL * 4];
        draft.measure(
            &by_chessboard(),
            cells,
            groups,
            group,
            &mut map,
            &mut entries,
        )?;
        Ok(map)
    }

    // A board of up to 9 cells, with pad 1 in group 1 and pad 2 in group 2.
    #[derive(Clone, Copy)]
    struct Board<'a> {
        dimensions: Dimensions,
        cells: &'a [Cell],
    }

    // What the gap and the route of a board have to be; the gap stands as its row.
    #[derive(Clone, Copy)]
    struct Route<'a, Row> {
        gap: Option<Row>,
        count: usize,
        marks: &'a [u8],
    }

    // Checks what route answers and writes over marks that all held `old`, and that the marks beyond the board stay.
    fn check_marks<R: Ruler>(
        rt: &impl Abort,
        what: &str,
        draft: &Draft,
        ruler: &R,
        maps: (&[MapRecord<RowOf<R>>], &[MapRecord<RowOf<R>>]),
        old: u8,
        route: &Route<'_, RowOf<R>>,
    ) {
        let mut marks = [old; 10];
        assert_eq!(rt;
            draft.route(ruler, maps.0, maps.1, &mut marks),
            Ok(route.count),
            "{what}"
        );
        for (number, mark) in marks.iter().enumerate() {
            assert_eq!(rt;
                *mark,
                route.marks.get(number).copied().unwrap_or(old),
                "{what}"
            );
        }
    }

    // The tables that measuring writes.
    #[derive(Drop)]
    struct Tables<'a, Row> {
        first: &'a mut [MapRecord<Row>],
        second: &'a mut [MapRecord<Row>],
        entries: &'a mut [Offer<Row>],
    }

    // Checks the gap and the route of a board by a ruler.
    fn check_route<R: Ruler>(
        rt: &impl Abort,
        what: &str,
        ruler: &R,
        board: Board<'_>,
        tables: Tables<'_, RowOf<R>>,
        route: &Route<'_, RowOf<R>>,
    ) -> Result<(), Fail>
    where
        RowOf<R>: PartialEq + Debug,
    {
        let Tables {
            first,
            second,
            entries,
        } = tables;
        let mut draft = open(board.dimensions)?;
        let groups = pad_groups(1, 2);
        draft.measure(ruler, board.cells, &groups, 1, first, entries)?;
        draft.measure(ruler, board.cells, &groups, 2, second, entries)?;
        let gap = draft.gap(ruler, first, second)?;
        assert_eq!(rt; gap.map(|gap| gap.encode()), route.gap, "{what}");
        check_marks(rt, what, &draft, ruler, (first, second), 1, route);
        check_marks(rt, what, &draft, ruler, (first, second), 7, route);
        Ok(())
    }

    // The same in tables of whole lengths. An array of a row that is not known yet has no known size.
    fn check_whole<R: Ruler<Length = Whole>>(
        rt: &impl Abort,
        what: &str,
        ruler: &R,
        board: Board<'_>,
        route: Route<'_, u64>,
    ) -> Result<(), Fail> {
        let tables = Tables {
            first: &mut [OLD; 10],
            second: &mut [OLD; 10],
            entries: &mut [Offer { length: 0, cell: 0 }; ENTRIES_PER_CELL * 10],
        };
        check_route(rt, what, ruler, board, tables, &route)
    }

    // The same by counted chessboard.
    fn check_counted(
        rt: &impl Abort,
        what: &str,
        board: Board<'_>,
        route: Route<'_, CountedRow>,
    ) -> Result<(), Fail> {
        let zero = CountedRow { units: 0, steps: 0 };
        let tables = Tables {
            first: &mut [MapRecord::unreached(zero); 10],
            second: &mut [MapRecord::unreached(zero); 10],
            entries: &mut [Offer {
                length: zero,
                cell: 0,
            }; ENTRIES_PER_CELL * 10],
        };
        check_route(rt, what, &CountedChessboard, board, tables, &route)
    }

    // A cell's distance in units.
    fn distance(
        draft: &Draft,
        map: &[MapRecord<u64>],
        column: u16,
        group: u16,
    ) -> Result<Option<u64>, Refusal> {
        let length = draft.distance::<Whole>(map, 0, column, group)?;
        Ok(length.map(|length| length.units))
    }

    // The readings of one map's cells of row 0, under what is said of them.
    #[derive(Drop)]
    struct RowReadings<'a, A> {
        rt: &'a A,
        what: &'a str,
        draft: &'a Draft,
        map: &'a [MapRecord<u64>],
    }

    impl<'a, A: Abort> RowReadings<'a, A> {
        fn new(
            rt: &'a A,
            what: &'a str,
            draft: &'a Draft,
            map: &'a [MapRecord<u64>],
        ) -> RowReadings<'a, A> {
            RowReadings {
                rt,
                what,
                draft,
                map,
            }
        }

        // Checks the way in group 1's map: its answer or its number, its cells, and that the list behind them stays.
        fn check_way(
            &self,
            column: u16,
            list: &mut [u16],
            answer: Result<usize, u8>,
            cells: &[u16],
        ) {
            let what = self.what;
            let way = self.draft.way::<Whole>(self.map, 0, column, 1, list);
            assert_eq!(self.rt; way.map_err(|refusal| refusal.number()), answer, "{what}");
            for (number, cell) in list.iter().enumerate() {
                assert_eq!(self.rt;
                    *cell,
                    cells.get(number).copied().unwrap_or(BLANK),
                    "{what}"
                );
            }
        }

        // Checks that the way is torn, on a list that is long enough and on one that is too short.
        fn check_torn(&self, column: u16) {
            self.check_way(column, &mut [BLANK; 4], Err(TORN), &[]);
            self.check_way(column, &mut [], Err(TORN), &[]);
        }

        // Checks that all readings are sent back.
        fn check_refused(&self, column: u16, group: u16, refusal: Refusal) {
            let what = self.what;
            assert_eq!(self.rt;
                distance(self.draft, self.map, column, group),
                Err(refusal),
                "{what}"
            );
            assert_eq!(self.rt;
                self.draft.nearest::<Whole>(self.map, 0, column, group),
                Err(refusal),
                "{what}"
            );
            let mut list = [BLANK; 1];
            assert_eq!(self.rt;
                self.draft
                    .way::<Whole>(self.map, 0, column, group, &mut list),
                Err(refusal),
                "{what}"
            );
            assert_eq!(self.rt; list, [BLANK; 1], "{what}");
        }
    }

    // Checks that gap and route are sent back, and that no mark is written.
    fn check_apart(
        rt: &impl Abort,
        what: &str,
        draft: &Draft,
        first: &[MapRecord<u64>],
        second: &[MapRecord<u64>],
        refusal: Refusal,
    ) {
        let gap = draft.gap(&by_chessboard(), first, second);
        assert_eq!(rt; gap.map(|gap| gap.is_some()), Err(refusal), "{what}");
        let mut marks = [7; 3];
        assert_eq!(rt;
            draft.route(&by_chessboard(), first, second, &mut marks),
            Err(refusal),
            "{what}"
        );
        assert_eq!(rt; marks, [7; 3], "{what}");
    }

    #[test]
    fn routes_lead_round(rt: HostRuntime) -> Result<(), Fail> {
        let what = "routes lead round";
        let cells = [
            pad(1),
            height(9),
            pad(2),
            Cell::BARE,
            Cell::BARE,
            Cell::BARE,
        ];
        let hill = Board {
            dimensions: of_size(2, 3),
            cells: &cells,
        };
        let round = Route {
            gap: Some(2),
            count: 3,
            marks: &[1, 0, 1, 0, 1, 0],
        };
        check_whole(&rt, what, &by_chessboard(), hill, round)?;
        let mut cells = [Cell::BARE; 9];
        cells[0] = pad(1);
        cells[1] = height(1);
        cells[2] = pad(2);
        cells[4] = Cell::BARRED;
        let ring = Board {
            dimensions: of_size(3, 3),
            cells: &cells,
        };
        let both = Route {
            gap: Some(4),
            count: 6,
            marks: &[1, 1, 1, 1, 0, 1, 0, 1, 0],
        };
        check_whole(&rt, what, &by_chessboard(), ring, both)?;
        let row = Route {
            gap: Some(CountedRow { units: 4, steps: 2 }),
            count: 3,
            marks: &[1, 1, 1, 0, 0, 0, 0, 0, 0],
        };
        let what = "the way of fewer steps";
        check_counted(&rt, what, ring, row)
    }

    #[test]
    fn hills_are_crossed(rt: HostRuntime) -> Result<(), Fail> {
        let what = "hills are crossed";
        let cells = [pad(1), height(5), pad(2)];
        let hill = Board {
            dimensions: STRIP,
            cells: &cells,
        };
        let across = Route {
            gap: Some(12),
            count: 3,
            marks: &[1, 1, 1],
        };
        check_whole(&rt, what, &by_chessboard(), hill, across)?;
        let three_four = WholeRuler::new(ThreeFour::new(1)?);
        let by_three_four = Route {
            gap: Some(16),
            ..across
        };
        check_whole(&rt, "three-four", &three_four, hill, by_three_four)?;
        let by_euclid = Route {
            gap: Some(2610),
            ..across
        };
        check_whole(&rt, "Euclid", &WholeRuler::new(Euclid), hill, by_euclid)?;
        let counted = Route {
            gap: Some(CountedRow {
                units: 12,
                steps: 2,
            }),
            count: 3,
            marks: &[1, 1, 1],
        };
        check_counted(&rt, "counted", hill, counted)?;
        let mut draft = open(STRIP)?;
        let map = measure(&mut draft, &cells, &pad_groups(1, 2), 1)?;
        let row = RowReadings::new(&rt, what, &draft, &map);
        row.check_way(2, &mut [BLANK; 5], Ok(3), &[2, 1, 0]);
        assert_eq!(rt; distance(&draft, &map, 2, 1), Ok(Some(12)));
        Ok(())
    }

    #[test]
    fn walls_part(rt: HostRuntime) -> Result<(), Fail> {
        let what = "walls part";
        let cells = [pad(1), Cell::BARRED, pad(2)];
        let wall = Board {
            dimensions: STRIP,
            cells: &cells,
        };
        let none = Route {
            gap: None,
            count: 0,
            marks: &[0, 0, 0],
        };
        check_whole(&rt, what, &by_chessboard(), wall, none)?;
        let mut draft = open(STRIP)?;
        let map = measure(&mut draft, &cells, &pad_groups(1, 2), 1)?;
        let row = RowReadings::new(&rt, what, &draft, &map);
        row.check_way(2, &mut [BLANK; 4], Ok(0), &[]);
        row.check_way(2, &mut [], Ok(0), &[]);
        assert_eq!(rt; draft.nearest::<Whole>(&map, 0, 2, 1), Ok(None));
        assert_eq!(rt; distance(&draft, &map, 2, 1), Ok(None));
        Ok(())
    }

    // Both end pads are in group 1, and the middle is as near to either.
    #[test]
    fn ways_need_their_lists(rt: HostRuntime) -> Result<(), Fail> {
        let mut draft = open(STRIP)?;
        let cells = [pad(1), Cell::BARE, pad(2)];
        let map = measure(&mut draft, &cells, &pad_groups(1, 1), 1)?;
        assert_eq!(rt; draft.nearest::<Whole>(&map, 0, 1, 1), Ok(Some(1)));
        assert_eq!(rt; distance(&draft, &map, 1, 1), Ok(Some(1)));
        let row = RowReadings::new(&rt, "ways need their lists", &draft, &map);
        row.check_way(1, &mut [BLANK; 2], Ok(2), &[1, 0]);
        row.check_way(1, &mut [BLANK; 1], Err(SHORT), &[]);
        let source = RowReadings::new(&rt, "a source", &draft, &map);
        source.check_way(2, &mut [BLANK; 1], Ok(1), &[2]);
        Ok(())
    }

    // The maps are changed after measuring. Cell 3 is not on the plate, though the map has a record for it.
    #[test]
    fn tampered_maps_are_torn(rt: HostRuntime) -> Result<(), Fail> {
        let mut draft = open(STRIP)?;
        let cells = [pad(1), Cell::BARE, Cell::BARE];
        let measured = measure(&mut draft, &cells, &pad_groups(1, 2), 1)?;
        let mut map = measured;
        map[1].link = 3;
        RowReadings::new(&rt, "a link off the plate", &draft, &map).check_torn(2);
        map[1].link = 65535;
        RowReadings::new(&rt, "a link off the map", &draft, &map).check_torn(1);
        map = measured;
        map[0].link = 2;
        RowReadings::new(&rt, "a ring of links", &draft, &map).check_torn(1);
        map = measured;
        map[0].reached = false;
        RowReadings::new(&rt, "a link to an unreached cell", &draft, &map).check_torn(2);
        RowReadings::new(&rt, "tampered maps are torn", &draft, &map).check_way(
            0,
            &mut [BLANK; 4],
            Ok(0),
            &[],
        );
        map = measured;
        map[2].pad = 65;
        assert_eq!(rt; draft.nearest::<Whole>(&map, 0, 2, 1), Ok(Some(0)));
        map[2].pad = 64;
        assert_eq!(rt; draft.nearest::<Whole>(&map, 0, 2, 1), Ok(Some(64)));
        Ok(())
    }

    #[test]
    fn readings_are_sent_back(rt: HostRuntime) -> Result<(), Fail> {
        let what = "readings are sent back";
        let mut cells = [Cell::BARE; 3];
        let mut groups = [0; PADS];
        let mut draft = Draft::open(STRIP, &mut cells, &mut groups)?;
        draft.set(&mut cells, 0, 0, 0, 1)?;
        draft.enrol(&mut groups, 1, 1)?;
        RowReadings::new(&rt, "not yet measured", &draft, &[OLD; 3]).check_refused(
            0,
            1,
            Refusal::Outdated,
        );
        let first = measure(&mut draft, &cells, &groups, 1)?;
        assert_eq!(rt; distance(&draft, &first[0..3], 2, 1), Ok(Some(2)));
        RowReadings::new(&rt, "the other group", &draft, &first).check_refused(
            0,
            2,
            Refusal::Outdated,
        );
        check_apart(
            &rt,
            "one group alone",
            &draft,
            &first,
            &first,
            Refusal::Outdated,
        );
        RowReadings::new(&rt, what, &draft, &first[0..2]).check_refused(3, 0, Refusal::Tables);
        RowReadings::new(&rt, what, &draft, &first).check_refused(3, 0, Refusal::Off);
        RowReadings::new(&rt, what, &draft, &first).check_refused(2, 0, Refusal::Group);
        RowReadings::new(&rt, what, &draft, &first).check_refused(2, 3, Refusal::Group);
        let second = measure(&mut draft, &cells, &groups, 2)?;
        check_apart(&rt, what, &draft, &first[0..2], &second, Refusal::Tables);
        check_apart(&rt, what, &draft, &first, &second[0..2], Refusal::Tables);
        let mut marks = [7; 2];
        assert_eq!(rt;
            draft.route(&by_chessboard(), &first, &second, &mut marks),
            Err(Refusal::Tables)
        );
        assert_eq!(rt; marks, [7; 2]);
        draft.bar(&mut cells, 0, 1)?;
        RowReadings::new(&rt, "an edit", &draft, &first).check_refused(2, 1, Refusal::Outdated);
        check_apart(&rt, what, &draft, &first, &second, Refusal::Outdated);
        Ok(())
    }
}
