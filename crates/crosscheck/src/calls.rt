// Calls with figures near their limits, on tables of many lengths: which number sends each back, that it writes nothing then, and what
// an accepted edit writes.
use crate::compare::differ;
use crate::dice::Dice;
use board::{Cell, Dimensions, MapRecord};
use ending::Stop;
use gauges::{Chessboard, Rectangle, Rectangles, ThreeFour, Weighting, WholeRuler};
use lengths::Whole;
use plate::{Draft, Readings, Refusal};
use queue::Offer;

// The tables have room for 12 cells and some more, which lets them be lent short or long.
const ROOM: usize = 14;

// The number of a refusal, or 0.
fn answer<T: Drop>(outcome: Result<T, Refusal>) -> u8 {
    match outcome {
        Ok(_) => 0,
        Err(refusal) => refusal.number(),
    }
}

// Likewise of a setting.
fn set<T: Drop>(outcome: Result<T, gauges::Refusal>) -> u8 {
    match outcome {
        Ok(_) => 0,
        Err(refusal) => refusal.number(),
    }
}

// The smallest number whose test holds, or 0.
fn smallest(tests: &[(bool, u8)]) -> u8 {
    let mut least = 0;
    for (holds, number) in tests {
        if *holds && (least == 0 || *number < least) {
            least = *number;
        }
    }
    least
}

// The calls that are tried. The readings of one map are one kind, and so are gap and route.
#[derive(Clone, Copy)]
enum Kind {
    Set,
    Bar,
    Enrol,
    Measure,
    Readings,
    Route,
}

// A plate with its tables, and what the second implementation knows of it.
#[derive(Drop)]
struct Plate {
    draft: Draft,
    rows: u16,
    columns: u16,
    current: [bool; 2],
    cells: [Cell; ROOM],
    groups: [u8; 66],
    first: [MapRecord<u64>; ROOM],
    second: [MapRecord<u64>; ROOM],
    entries: [Offer<u64>; 128],
}

// A figure at or near a limit.
fn near(dice: &mut Dice, limit: u16) -> u16 {
    match dice.below(12) {
        0 => limit,
        1 => limit.saturating_add(1),
        2 => 65535,
        _ => dice.from_to(0, limit.saturating_sub(1)),
    }
}

fn some_group(dice: &mut Dice) -> u16 {
    match dice.below(8) {
        0 => 0,
        1 => 3,
        2 => 257,
        _ => dice.from_to(1, 2),
    }
}

// How much of a table is lent where so much is needed: all that there is, just enough, or one too few.
fn lent(dice: &mut Dice, needed: usize, room: usize) -> usize {
    let length = match dice.below(10) {
        0 => needed.saturating_sub(1),
        1 => needed,
        _ => room,
    };
    length.min(room)
}

impl Plate {
    // A plate just opened.
    fn new(draft: Draft, rows: u16, columns: u16, cells: [Cell; ROOM], groups: [u8; 66]) -> Plate {
        let empty = MapRecord::unreached(0);
        Plate {
            draft,
            rows,
            columns,
            current: [false, false],
            cells,
            groups,
            first: [empty; ROOM],
            second: [empty; ROOM],
            entries: [Offer { length: 3, cell: 3 }; 128],
        }
    }

    fn area(&self) -> usize {
        usize::from(self.rows).saturating_mul(usize::from(self.columns))
    }

    fn is_off(&self, row: u16, column: u16) -> bool {
        row >= self.rows || column >= self.columns
    }

    fn is_current(&self, group: u16) -> bool {
        match group {
            1 => self.current[0],
            2 => self.current[1],
            _ => false,
        }
    }

    // The cells with one of them as an edit would leave it.
    fn with(&self, row: u16, column: u16, cell: Cell) -> [Cell; ROOM] {
        let mut cells = self.cells;
        let place = usize::from(row)
            .saturating_mul(usize::from(self.columns))
            .saturating_add(usize::from(column));
        if let Some(old) = cells.get_mut(place) {
            *old = cell;
        }
        cells
    }

    fn try_set(&mut self, dice: &mut Dice) -> u64 {
        let lent = lent(dice, self.area(), ROOM);
        let (row, column) = (near(dice, self.rows), near(dice, self.columns));
        let (height, pad) = (dice.from_to(0, 65535), near(dice, 65));
        let expected = smallest(&[
            (lent < self.area(), 2),
            (self.is_off(row, column), 3),
            (pad > 64, 4),
        ]);
        let cell = Cell {
            height,
            pad: (pad & 0xff) as u8,
            barred: false,
        };
        let after = if expected == 0 {
            self.with(row, column, cell)
        } else {
            self.cells
        };
        let mut cells = self.cells;
        let table = &mut cells[..lent.min(ROOM)];
        let found = answer(self.draft.set(table, row, column, height, pad));
        self.cells = cells;
        self.edited(expected);
        differ(found == expected && self.cells == after)
    }

    fn try_bar(&mut self, dice: &mut Dice) -> u64 {
        let lent = lent(dice, self.area(), ROOM);
        let (row, column) = (near(dice, self.rows), near(dice, self.columns));
        let expected = smallest(&[(lent < self.area(), 2), (self.is_off(row, column), 3)]);
        let cell = Cell {
            height: 0,
            pad: 0,
            barred: true,
        };
        let after = if expected == 0 {
            self.with(row, column, cell)
        } else {
            self.cells
        };
        let mut cells = self.cells;
        let table = &mut cells[..lent.min(ROOM)];
        let found = answer(self.draft.bar(table, row, column));
        self.cells = cells;
        self.edited(expected);
        differ(found == expected && self.cells == after)
    }

    fn try_enrol(&mut self, dice: &mut Dice) -> u64 {
        let lent = lent(dice, 64, 66);
        let (pad, group) = (near(dice, 65), near(dice, 3));
        let expected = smallest(&[(lent < 64, 2), (pad == 0 || pad > 64, 4), (group > 2, 5)]);
        let mut after = self.groups;
        if expected == 0
            && let Some(byte) = after.get_mut(usize::from(pad).saturating_sub(1))
        {
            *byte = (group & 0xff) as u8;
        }
        let mut groups = self.groups;
        let table = &mut groups[..lent.min(66)];
        let found = answer(self.draft.enrol(table, pad, group));
        self.groups = groups;
        self.edited(expected);
        differ(found == expected && self.groups == after)
    }

    fn edited(&mut self, number: u8) {
        if number == 0 {
            self.current = [false, false];
        }
    }

    fn try_measure(&mut self, dice: &mut Dice) -> u64 {
        let area = self.area();
        let (cells, groups) = (lent(dice, area, ROOM), lent(dice, 64, 66));
        let (map, entries) = (
            lent(dice, area, ROOM),
            lent(dice, area.saturating_mul(9), 128),
        );
        let group = some_group(dice);
        let short = cells < area || groups < 64 || map < area || entries < area.saturating_mul(9);
        let expected = smallest(&[(short, 2), (group == 0 || group > 2, 5)]);
        let ruler = WholeRuler::new(Chessboard);
        let (known, bytes) = (self.cells, self.groups);
        let mut table = if group == 2 { self.second } else { self.first };
        let mut queue = self.entries;
        let (before, queued) = (table, queue);
        let found = answer(
            self.draft.measure(
                &ruler,
                &known[..cells.min(ROOM)],
                &bytes[..groups.min(66)],
                group,
                &mut table[..map.min(ROOM)],
                &mut queue[..entries.min(128)],
            ),
        );
        self.measured(expected, group, table);
        self.entries = queue;
        let kept = expected == 0 || table == before && queue == queued;
        differ(found == expected && kept)
    }

    // Keeps a map that was measured.
    fn measured(&mut self, number: u8, group: u16, table: [MapRecord<u64>; ROOM]) {
        if number != 0 {
            return;
        }
        if group == 2 {
            self.second = table;
            self.current[1] = true;
        } else {
            self.first = table;
            self.current[0] = true;
        }
    }

    // The number that a reading of one group's map answers.
    fn reading(&self, map: usize, row: u16, column: u16, group: u16) -> u8 {
        smallest(&[
            (map < self.area(), 2),
            (self.is_off(row, column), 3),
            (group == 0 || group > 2, 5),
            (!self.is_current(group), 6),
        ])
    }

    fn try_readings(&self, dice: &mut Dice) -> u64 {
        let map = lent(dice, self.area(), ROOM).min(ROOM);
        let (row, column, group) = (
            near(dice, self.rows),
            near(dice, self.columns),
            some_group(dice),
        );
        let table = if group == 2 {
            &self.second[..map]
        } else {
            &self.first[..map]
        };
        let expected = self.reading(map, row, column, group);
        let distance = answer(self.draft.distance::<Whole>(table, row, column, group));
        let nearest = answer(self.draft.nearest::<Whole>(table, row, column, group));
        let mut list = [55u16; ROOM];
        let way = answer(
            self.draft
                .way::<Whole>(table, row, column, group, &mut list),
        );
        let kept = expected == 0 || list == [55; ROOM];
        differ(distance == expected && nearest == expected && way == expected && kept)
    }

    fn try_route(&self, dice: &mut Dice) -> u64 {
        let area = self.area();
        let (first, second) = (
            lent(dice, area, ROOM).min(ROOM),
            lent(dice, area, ROOM).min(ROOM),
        );
        let marks = lent(dice, area, ROOM).min(ROOM);
        let outdated = !self.current[0] || !self.current[1];
        let short = first < area || second < area;
        let expected = smallest(&[(short, 2), (outdated, 6)]);
        let ruler = WholeRuler::new(Chessboard);
        let gap = answer(
            self.draft
                .gap(&ruler, &self.first[..first], &self.second[..second]),
        );
        let mut table = [55u8; ROOM];
        let route = answer(
            self.draft.route(
                &ruler,
                &self.first[..first],
                &self.second[..second],
                &mut table[..marks],
            ),
        );
        let wanted = smallest(&[(short || marks < area, 2), (outdated, 6)]);
        let kept = wanted == 0 || table == [55; ROOM];
        differ(gap == expected && route == wanted && kept)
    }

    fn try_kind(&mut self, dice: &mut Dice, kind: Kind) -> u64 {
        match kind {
            Kind::Set => self.try_set(dice),
            Kind::Bar => self.try_bar(dice),
            Kind::Enrol => self.try_enrol(dice),
            Kind::Measure => self.try_measure(dice),
            Kind::Readings => self.try_readings(dice),
            Kind::Route => self.try_route(dice),
        }
    }

    // One call of some kind.
    fn try_call(&mut self, dice: &mut Dice) -> u64 {
        let kind = match dice.below(12) {
            0 => Kind::Set,
            1 => Kind::Bar,
            2 => Kind::Enrol,
            3..=6 => Kind::Measure,
            7..=9 => Kind::Readings,
            _ => Kind::Route,
        };
        self.try_kind(dice, kind)
    }
}

// Tables with something in every entry.
fn tables() -> ([Cell; ROOM], [u8; 66]) {
    let cell = Cell {
        height: 7,
        pad: 9,
        barred: true,
    };
    ([cell; ROOM], [1; 66])
}

// A size at or near its limits, most often a small one.
fn side(dice: &mut Dice, most: u16) -> u16 {
    match dice.below(16) {
        0 => 0,
        1 => 256,
        2 => 257,
        3 => 65535,
        _ => dice.from_to(1, most),
    }
}

// Opens a plate, and makes so many calls on it where it is accepted.
fn run_plate(dice: &mut Dice, calls: u64) -> u64 {
    let (rows, columns) = (side(dice, 3), side(dice, 4));
    let (mut cells, mut groups) = tables();
    let area = usize::from(rows).saturating_mul(usize::from(columns));
    let (room, bytes) = (lent(dice, area, ROOM).min(ROOM), lent(dice, 64, 66).min(66));
    let bad = rows == 0 || rows > 256 || columns == 0 || columns > 256;
    let expected = smallest(&[(bad, 1), (room < area || bytes < 64, 2)]);
    let found = Draft::open(
        Dimensions { rows, columns },
        &mut cells[..room],
        &mut groups[..bytes],
    );
    let Ok(draft) = found else {
        return differ(answer(found) == expected && (cells, groups) == tables());
    };
    let mut plate = Plate::new(draft, rows, columns, cells, groups);
    let mut differences = differ(expected == 0);
    for _ in 0..calls {
        differences = differences.saturating_add(plate.try_call(dice));
    }
    differences
}

// What is found in calls of a kind where the second implementation takes a plate for larger than it is, and its maps for current.
fn mistaken_in(kind: Kind) -> u64 {
    let mut dice = Dice::new(1);
    let (mut cells, mut groups) = tables();
    let one = Dimensions {
        rows: 1,
        columns: 1,
    };
    let Ok(draft) = Draft::open(one, &mut cells, &mut groups) else {
        return 0;
    };
    let mut plate = Plate::new(draft, 2, 1, cells, groups);
    let mut differences = 0u64;
    for _ in 0..30 {
        plate.current = [true, true];
        differences = differences.saturating_add(plate.try_kind(&mut dice, kind));
    }
    differences
}

// What is found in calls of each kind but enrolments, which know nothing of the plate.
pub fn mistaken() -> [u64; 5] {
    [
        mistaken_in(Kind::Set),
        mistaken_in(Kind::Bar),
        mistaken_in(Kind::Measure),
        mistaken_in(Kind::Readings),
        mistaken_in(Kind::Route),
    ]
}

// So many plates with so many calls on each.
pub fn plates(dice: &mut Dice, plates: u64, calls: u64) -> u64 {
    let mut differences = 0u64;
    for _ in 0..plates {
        differences = differences.saturating_add(run_plate(dice, calls));
    }
    differences
}

// A rectangle that is faulty where its first is above its last or a figure is above 255.
fn try_rectangle(rectangles: &mut Rectangles, added: usize, figures: [u16; 4]) -> u64 {
    let [first_row, first_column, last_row, last_column] = figures;
    let turned = first_row > last_row || first_column > last_column;
    let faulty = turned || figures.iter().any(|figure| *figure > 255);
    let found = set(rectangles.add(Rectangle {
        first_row,
        first_column,
        last_row,
        last_column,
    }));
    differ(found == smallest(&[(faulty, 9), (added >= 16, 10)]))
}

// The settings of rulers and layers at their limits.
pub fn settings() -> Result<u64, Stop> {
    let mut differences = 0u64;
    for figure in [0u16, 1, 16, 17, 64, 65, 65535] {
        let w = set(ThreeFour::new(figure));
        let k = match Weighting::new(WholeRuler::new(Chessboard), figure) {
            Ok(_) => 0,
            Err(back) => back.refusal.number(),
        };
        let same = w == smallest(&[(figure > 64, 9)])
            && k == smallest(&[(figure == 0 || figure > 16, 9)]);
        differences = differences.saturating_add(differ(same));
    }
    let mut rectangles = Rectangles::new();
    for added in 0..16usize {
        let more = try_rectangle(&mut rectangles, added, [0, 0, 255, 255]);
        differences = differences.saturating_add(more);
        let turned = try_rectangle(&mut rectangles, added, [1, 0, 0, 256]);
        differences = differences.saturating_add(turned);
        let turned = try_rectangle(&mut rectangles, added, [0, 5, 9, 4]);
        differences = differences.saturating_add(turned);
    }
    let full = try_rectangle(&mut rectangles, 16, [0, 0, 255, 255]);
    let faulty = try_rectangle(&mut rectangles, 16, [0, 0, 0, 256]);
    Ok(differences.saturating_add(full).saturating_add(faulty))
}
