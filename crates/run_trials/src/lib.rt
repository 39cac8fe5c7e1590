// Tests of whole runs: what each call of a list answers, as it is printed.
#![tactic(auto)]

ghost use Rattle.run_trials.specs.Examples.{Examples};

// The words of histories compute, and come to what the rules say.
pub fn histories_compute()
    ensures { Examples }
{}

// The expected answers are worked out from the rules, and not taken from what the library answers.
#[cfg(test)]
mod tests {
    use board::{Cell, Dimensions, MapRecord};
    use gauges::{Chessboard, WholeRuler};
    use lengths::Whole;
    use plate::{Draft, Edit, Refusal};
    use queue::Offer;
    use runs::{
        Answer, Call, Plate, Reply, RulerCall, Space, Tables, carry_out_by_ruler, run, run_by_ruler,
    };
    use std::alloc::{AllocError, Global};
    use std::process::Abort;
    use std::test::Fail;

    fn by_chessboard() -> WholeRuler<Chessboard> {
        WholeRuler::new(Chessboard)
    }

    // The plate of most tests, 1 × 3.
    const STRIP: Dimensions = Dimensions {
        rows: 1,
        columns: 3,
    };

    // What stands in the maps before a run.
    const OLD: MapRecord<u64> = MapRecord {
        length: 7,
        reached: true,
        pad: 7,
        link: 3,
        rank: 7,
    };

    // What stands in the cells before a run.
    const HIGH: Cell = Cell {
        height: 9,
        pad: 9,
        barred: true,
    };

    const NO_OFFER: Offer<u64> = Offer { length: 0, cell: 0 };

    // A ruler's run on a plate of 1 × 3, over tables that hold something else.
    fn run_strip(alloc: Global, calls: &[RulerCall]) -> Result<Vec<Answer<Whole>>, Fail> {
        let space = Space::reserve(alloc, STRIP, calls)?;
        let tables = Tables {
            cells: &mut [HIGH; 4],
            groups: &mut [2; 64],
            first: &mut [OLD; 3],
            second: &mut [OLD; 5],
            entries: &mut [NO_OFFER; 27],
        };
        Ok(run_by_ruler(&by_chessboard(), space, tables)?)
    }

    // Checks that each answer is printed as wanted, and that there are no others.
    fn check_answers(
        rt: &(impl Abort + AllocGlobal),
        answers: &[Answer<Whole>],
        wanted: &[&str],
    ) -> Result<(), AllocError> {
        assert_eq!(rt; answers.len(), wanted.len());
        for (answer, want) in answers.iter().zip(wanted) {
            let printed = format!(in rt.alloc(); "{answer:?}")?;
            assert_eq!(rt; printed.as_str(), *want);
        }
        Ok(())
    }

    // Heights 0 5 0, pad 1 at the left in group 1 and pad 2 at the right in group 2.
    const BUILT: [RulerCall; 5] = [
        RulerCall::Plain(Call::Edit(Edit::Set {
            row: 0,
            column: 0,
            height: 0,
            pad: 1,
        })),
        RulerCall::Plain(Call::Edit(Edit::Set {
            row: 0,
            column: 1,
            height: 5,
            pad: 0,
        })),
        RulerCall::Plain(Call::Edit(Edit::Set {
            row: 0,
            column: 2,
            height: 0,
            pad: 2,
        })),
        RulerCall::Plain(Call::Edit(Edit::Enrol { pad: 1, group: 1 })),
        RulerCall::Plain(Call::Edit(Edit::Enrol { pad: 2, group: 2 })),
    ];

    const MEASURE_1: RulerCall = RulerCall::Plain(Call::Measure { group: 1 });

    const MEASURE_2: RulerCall = RulerCall::Plain(Call::Measure { group: 2 });

    const DISTANCE: RulerCall = RulerCall::Plain(Call::Distance {
        row: 0,
        column: 2,
        group: 1,
    });

    const NEAREST: RulerCall = RulerCall::Plain(Call::Nearest {
        row: 0,
        column: 2,
        group: 1,
    });

    const BAR: RulerCall = RulerCall::Plain(Call::Edit(Edit::Bar { row: 0, column: 1 }));

    fn way(room: usize) -> RulerCall {
        RulerCall::Plain(Call::Way {
            row: 0,
            column: 2,
            group: 1,
            room,
        })
    }

    // The strip, and then these calls.
    fn check_strip(
        rt: &(impl Abort + AllocGlobal),
        calls: &[RulerCall],
        wanted: &[&str],
    ) -> Result<(), Fail> {
        let mut all = Vec::new(rt.alloc());
        all.extend_from_slice(&BUILT)?;
        all.extend_from_slice(calls)?;
        let answers = run_strip(rt.alloc(), &all)?;
        assert!(rt; answers.len() >= 5);
        check_answers(rt, &answers[5..], wanted)?;
        Ok(())
    }

    #[test]
    fn measured_strip_is_read(rt: HostRuntime) -> Result<(), Fail> {
        check_strip(
            &rt,
            &[
                RulerCall::Gap,
                MEASURE_1,
                DISTANCE,
                NEAREST,
                way(3),
                way(2),
                RulerCall::Gap,
                MEASURE_2,
                RulerCall::Gap,
                RulerCall::Route { room: 4 },
                RulerCall::Route { room: 2 },
            ],
            &[
                "Refused(Outdated)",
                "Measured(Counts { reached: 3, steps: 4 })",
                "Distance(Some(Whole { units: 12 }))",
                "Nearest(Some(1))",
                "Way([2, 1, 0])",
                "Refused(Short)",
                "Refused(Outdated)",
                "Measured(Counts { reached: 3, steps: 4 })",
                "Gap(Some(Whole { units: 12 }))",
                "Route { marks: [1, 1, 1], count: 3 }",
                "Refused(Tables)",
            ],
        )
    }

    #[test]
    fn edits_outdate(rt: HostRuntime) -> Result<(), Fail> {
        check_strip(
            &rt,
            &[
                MEASURE_1,
                MEASURE_2,
                BAR,
                DISTANCE,
                MEASURE_1,
                DISTANCE,
                NEAREST,
                way(0),
                RulerCall::Gap,
                MEASURE_2,
                RulerCall::Gap,
                RulerCall::Route { room: 3 },
            ],
            &[
                "Measured(Counts { reached: 3, steps: 4 })",
                "Measured(Counts { reached: 3, steps: 4 })",
                "Done",
                "Refused(Outdated)",
                "Measured(Counts { reached: 1, steps: 0 })",
                "Distance(None)",
                "Nearest(None)",
                "Way([])",
                "Refused(Outdated)",
                "Measured(Counts { reached: 1, steps: 0 })",
                "Gap(None)",
                "Route { marks: [0, 0, 0], count: 0 }",
            ],
        )
    }

    #[test]
    fn sealed_plates_are_read_only(rt: HostRuntime) -> Result<(), Fail> {
        check_strip(
            &rt,
            &[
                MEASURE_1,
                RulerCall::Plain(Call::Seal),
                RulerCall::Plain(Call::Break),
                MEASURE_2,
                RulerCall::Plain(Call::Seal),
                BAR,
                MEASURE_1,
                RulerCall::Plain(Call::Seal),
                DISTANCE,
                RulerCall::Plain(Call::Break),
                RulerCall::Gap,
            ],
            &[
                "Measured(Counts { reached: 3, steps: 4 })",
                "Refused(Outdated)",
                "NotAllowed",
                "Measured(Counts { reached: 3, steps: 4 })",
                "Done",
                "NotAllowed",
                "NotAllowed",
                "NotAllowed",
                "Distance(Some(Whole { units: 12 }))",
                "Done",
                "Gap(Some(Whole { units: 12 }))",
            ],
        )
    }

    #[test]
    fn nothing_is_current_at_first(rt: HostRuntime) -> Result<(), Fail> {
        check_strip(
            &rt,
            &[
                RulerCall::Plain(Call::Seal),
                RulerCall::Gap,
                RulerCall::Route { room: 3 },
                DISTANCE,
            ],
            &["Refused(Outdated)"; 4],
        )
    }

    #[test]
    fn calls_sent_back_change_nothing(rt: HostRuntime) -> Result<(), Fail> {
        check_strip(
            &rt,
            &[
                MEASURE_1,
                RulerCall::Plain(Call::Edit(Edit::Set {
                    row: 0,
                    column: 1,
                    height: 0,
                    pad: 65,
                })),
                RulerCall::Plain(Call::Edit(Edit::Bar { row: 1, column: 0 })),
                RulerCall::Plain(Call::Edit(Edit::Enrol { pad: 0, group: 1 })),
                RulerCall::Plain(Call::Edit(Edit::Enrol { pad: 1, group: 3 })),
                RulerCall::Plain(Call::Measure { group: 3 }),
                DISTANCE,
            ],
            &[
                "Measured(Counts { reached: 3, steps: 4 })",
                "Refused(Pad)",
                "Refused(Off)",
                "Refused(Pad)",
                "Refused(Group)",
                "Refused(Group)",
                "Distance(Some(Whole { units: 12 }))",
            ],
        )
    }

    // A way and a route ask for as much memory as the plate needs, however much room they name, and
    // for none where they are sent back.
    #[test]
    fn rooms_are_enormous(rt: HostRuntime) -> Result<(), Fail> {
        let route = RulerCall::Route { room: usize::MAX };
        check_strip(
            &rt,
            &[
                way(usize::MAX),
                route,
                MEASURE_1,
                way(usize::MAX),
                route,
                MEASURE_2,
                route,
                BAR,
                way(usize::MAX),
                route,
            ],
            &[
                "Refused(Outdated)",
                "Refused(Outdated)",
                "Measured(Counts { reached: 3, steps: 4 })",
                "Way([2, 1, 0])",
                "Refused(Outdated)",
                "Measured(Counts { reached: 3, steps: 4 })",
                "Route { marks: [1, 1, 1], count: 3 }",
                "Done",
                "Refused(Outdated)",
                "Refused(Outdated)",
            ],
        )
    }

    // Where memory is short no run is made, and the tables hold what they held; else every call is
    // answered. Nothing else here asks for memory, so that the gate can let each allocation fail in
    // turn.
    #[test]
    fn short_memory_leaves_the_tables(rt: HostRuntime) -> Result<(), Fail> {
        let (mut cells, mut groups) = ([HIGH; 3], [2; 64]);
        let (mut first, mut second) = ([OLD; 3], [OLD; 3]);
        let mut entries = [NO_OFFER; 27];
        let route = RulerCall::Route { room: usize::MAX };
        let calls = [way(usize::MAX), MEASURE_1, route, MEASURE_2, way(2), route];
        let mut answered = 0;
        if let Ok(space) = Space::reserve(rt.alloc(), STRIP, &calls) {
            let tables = Tables {
                cells: &mut cells,
                groups: &mut groups,
                first: &mut first,
                second: &mut second,
                entries: &mut entries,
            };
            answered = run_by_ruler(&by_chessboard(), space, tables)?.len();
        }
        let made = answered == calls.len();
        assert!(rt; made || answered == 0);
        assert_eq!(rt; cells, [if made { Cell::BARE } else { HIGH }; 3]);
        assert_eq!(rt; groups, [if made { 0 } else { 2 }; 64]);
        let held = if made { MapRecord::unreached(0) } else { OLD };
        assert_eq!(rt; first, [held; 3]);
        assert_eq!(rt; second, [held; 3]);
        assert!(rt; made || entries == [NO_OFFER; 27]);
        Ok(())
    }

    // A gauge's run over tables for one cell.
    fn run_cell(
        alloc: Global,
        rows: u16,
        calls: &[Call],
    ) -> Result<Result<Vec<Answer<Whole>>, Refusal>, AllocError> {
        let space = Space::reserve(alloc, Dimensions { rows, columns: 1 }, calls)?;
        let tables = Tables {
            cells: &mut [HIGH; 1],
            groups: &mut [2; 64],
            first: &mut [OLD; 1],
            second: &mut [OLD; 0],
            entries: &mut [NO_OFFER; 9],
        };
        Ok(run(&by_chessboard(), space, tables))
    }

    #[test]
    fn runs_by_a_gauge(rt: HostRuntime) -> Result<(), Fail> {
        let none = run_cell(rt.alloc(), 1, &[])?;
        assert_eq!(rt; none.map(|answers| answers.len()), Ok(0));
        let answers = run_cell(
            rt.alloc(),
            1,
            &[Call::Measure { group: 1 }, Call::Measure { group: 2 }],
        )?;
        check_answers(
            &rt,
            &answers?,
            &[
                "Measured(Counts { reached: 0, steps: 0 })",
                "Refused(Tables)",
            ],
        )?;
        let calls = [Call::Way {
            row: 0,
            column: 0,
            group: 1,
            room: usize::MAX,
        }];
        assert_eq!(rt; run_cell(rt.alloc(), 0, &calls)?.err(), Some(Refusal::Size));
        assert_eq!(rt; run_cell(rt.alloc(), 2, &[])?.err(), Some(Refusal::Tables));
        Ok(())
    }

    // What the last of the calls on the strip replies that a client makes one by one, over a list
    // and marks of its own.
    fn last_reply(
        calls: &[RulerCall],
        list: &mut [u16],
        marks: &mut [u8],
    ) -> Result<Reply<Whole>, Refusal> {
        let (mut cells, mut groups) = ([HIGH; 4], [2; 64]);
        let (mut first, mut second) = ([OLD; 3], [OLD; 5]);
        let mut entries = [NO_OFFER; 27];
        let mut plate = Plate::Draft(Draft::open(STRIP, &mut cells, &mut groups)?);
        let mut last = Reply::Done;
        for call in BUILT.iter().chain(calls) {
            let (after, reply) = carry_out_by_ruler(
                &by_chessboard(),
                plate,
                &mut cells,
                &mut groups,
                &mut first,
                &mut second,
                &mut entries,
                list,
                marks,
                *call,
            );
            plate = after;
            last = reply;
        }
        Ok(last)
    }

    #[test]
    fn calls_one_by_one(rt: HostRuntime) -> Result<(), Fail> {
        let (mut list, mut marks) = ([77; 5], [7; 4]);
        let route = RulerCall::Route { room: 3 };
        let calls = [MEASURE_1, MEASURE_2, way(5), route];
        let reply = last_reply(&calls, &mut list, &mut marks)?;
        assert_eq!(rt; reply, Reply::Route(3));
        assert_eq!(rt; list, [2, 1, 0, 77, 77]);
        assert_eq!(rt; marks, [1, 1, 1, 7]);
        Ok(())
    }

    // A way into a list just long enough, into one that is too short however much room the call
    // names, and of an unreached cell.
    #[test]
    fn ways_count_their_cells(rt: HostRuntime) -> Result<(), Fail> {
        let mut list = [77; 3];
        let reply = last_reply(&[MEASURE_1, way(usize::MAX)], &mut list, &mut [])?;
        assert_eq!(rt; reply, Reply::Way(3));
        assert_eq!(rt; list, [2, 1, 0]);
        let mut list = [77; 2];
        let reply = last_reply(&[MEASURE_1, way(usize::MAX)], &mut list, &mut [])?;
        assert_eq!(rt; reply, Reply::Refused(Refusal::Short));
        assert_eq!(rt; list, [77; 2]);
        let reply = last_reply(&[BAR, MEASURE_1, way(9)], &mut [], &mut [])?;
        assert_eq!(rt; reply, Reply::Way(0));
        Ok(())
    }
}
