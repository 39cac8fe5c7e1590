// One board by one ruler: the library beside the second implementation. Each answer counts how many things differ.
use crate::dice::Dice;
use crate::land::Land;
use crate::library::{Shown, enter, mark_of, record_of};
use crate::look::{Walk, gap, marked, walk_from};
use crate::recipe::{Far, Recipe};
use crate::second::{Mark, Second};
use board::{Cell, MapRecord};
use ending::Stop;
use gauges::Ruler;
use lengths::Length;
use measuring::{Counts, RowOf};
use plate::{Draft, Readings, Refusal};
use queue::Offer;
use std::alloc::Global;

// 1 where two things differ.
pub fn differ(same: bool) -> u64 {
    if same { 0 } else { 1 }
}

// Both maps of a plate, as the library and as the second implementation have them.
#[derive(Drop)]
struct Both<R> {
    draft: Draft,
    first: Vec<MapRecord<R>>,
    second: Vec<MapRecord<R>>,
    one: Vec<Mark>,
    two: Vec<Mark>,
}

fn shown<K: Length>(length: Option<K>) -> Option<K::Row> {
    length.map(|length| length.encode())
}

fn far_of<K: Shown>(length: Option<K>) -> Option<Far> {
    shown(length).map(|row| K::far(row))
}

// A map beside its marks, and the two counts.
fn compare_map<K: Shown>(map: &[MapRecord<K::Row>], counts: Counts, second: &Second) -> u64 {
    let mut differences = differ(counts.reached == second.reached && counts.steps == second.steps);
    for (record, mark) in map.iter().zip(second.marks.iter()) {
        differences = differences.saturating_add(differ(mark_of::<K>(*record) == *mark));
    }
    differences
}

// A way into a list of so many cells, beside the cells that are expected.
fn compare_way<K: Shown>(
    heap: Global,
    draft: &Draft,
    map: &[MapRecord<K::Row>],
    at: (u16, u16, u16),
    room: usize,
    expected: &Walk,
) -> Result<u64, Stop> {
    let mut list = vec![in heap; 77u16; room]?;
    let answer = draft.way::<K>(map, at.0, at.1, at.2, &mut list);
    let cells: &[u16] = match expected {
        Walk::Cells(cells) if cells.len() <= room => cells,
        _ => &[],
    };
    let wanted = match expected {
        Walk::Unreached => Ok(0),
        Walk::Torn => Err(Refusal::Torn),
        Walk::Cells(cells) if cells.len() > room => Err(Refusal::Short),
        Walk::Cells(cells) => Ok(cells.len()),
    };
    let mut same = answer == wanted;
    for (at, found) in list.iter().enumerate() {
        same = same && *found == cells.get(at).copied().unwrap_or(77);
    }
    Ok(differ(same))
}

// The three readings of one cell in one map.
fn compare_cell<K: Shown>(
    heap: Global,
    draft: &Draft,
    map: &[MapRecord<K::Row>],
    marks: &[Mark],
    at: (u16, u16, u16),
    place: usize,
    counted: bool,
) -> Result<u64, Stop> {
    let mark = marks.get(place).copied().unwrap_or(Mark::UNREACHED);
    let distance = draft.distance::<K>(map, at.0, at.1, at.2)?;
    let nearest = draft.nearest::<K>(map, at.0, at.1, at.2)?;
    let mut differences = differ(far_of(distance) == mark.length(counted));
    differences = differences.saturating_add(differ(nearest == mark.nearest()));
    let expected = walk_from(heap, marks, place)?;
    let many = match &expected {
        Walk::Cells(cells) => cells.len(),
        _ => 0,
    };
    for room in [marks.len(), many, many.saturating_sub(1)] {
        let more = compare_way::<K>(heap, draft, map, at, room, &expected)?;
        differences = differences.saturating_add(more);
    }
    Ok(differences)
}

// The readings of every cell in the map of one group.
fn compare_cells<K: Shown>(
    heap: Global,
    land: &Land,
    draft: &Draft,
    map: &[MapRecord<K::Row>],
    marks: &[Mark],
    group: u16,
    counted: bool,
) -> Result<u64, Stop> {
    let columns = land.columns.max(1);
    let mut differences = 0u64;
    for place in 0..land.spots.len() {
        let row = (place / columns & 0xffff) as u16;
        let column = (place % columns & 0xffff) as u16;
        let at = (row, column, group);
        let more = compare_cell::<K>(heap, draft, map, marks, at, place, counted)?;
        differences = differences.saturating_add(more);
    }
    Ok(differences)
}

// The gap and the route.
fn compare_route<R: Ruler>(
    heap: Global,
    ruler: &R,
    counted: bool,
    both: &Both<RowOf<R>>,
) -> Result<u64, Stop>
where
    R::Length: Shown,
{
    let least = gap(&both.one, &both.two, counted);
    let found = both.draft.gap(ruler, &both.first, &both.second)?;
    let mut marks = vec![in heap; 9u8; both.one.len() + 1]?;
    let count = both
        .draft
        .route(ruler, &both.first, &both.second, &mut marks)?;
    let mut expected = 0usize;
    let mut same = far_of(found) == least && marks.last() == Some(&9);
    for (place, mark) in marks.iter().enumerate().take(both.one.len()) {
        let on_route = marked(&both.one, &both.two, place, counted, least);
        same = same && *mark == u8::from(on_route);
        expected = expected.saturating_add(usize::from(on_route));
    }
    Ok(differ(same && count == expected))
}

// All readings of both maps.
fn compare_readings<R: Ruler>(
    heap: Global,
    land: &Land,
    ruler: &R,
    counted: bool,
    both: &Both<RowOf<R>>,
) -> Result<u64, Stop>
where
    R::Length: Shown,
{
    let one = compare_cells::<R::Length>(
        heap,
        land,
        &both.draft,
        &both.first,
        &both.one,
        1,
        counted,
    )?;
    let two = compare_cells::<R::Length>(
        heap,
        land,
        &both.draft,
        &both.second,
        &both.two,
        2,
        counted,
    )?;
    let route = compare_route(heap, ruler, counted, both)?;
    Ok(one.saturating_add(two).saturating_add(route))
}

// Measures both groups by the library, and counts what differs in the maps.
fn measure_both<R: Ruler>(
    heap: Global,
    land: &Land,
    ruler: &R,
    recipe: &Recipe,
) -> Result<(u64, Both<RowOf<R>>), Stop>
where
    R::Length: Shown,
{
    let area = land.spots.len();
    let zero = <R::Length as Length>::zero().encode();
    let mut cells = vec![in heap; Cell::BARE; area]?;
    let mut groups = [0u8; 64];
    let mut first = vec![in heap; MapRecord::unreached(zero); area]?;
    let mut second = vec![in heap; MapRecord::unreached(zero); area]?;
    let mut entries = vec![in heap; Offer {
        length: zero,
        cell: 0
    }; area.saturating_mul(9)]?;
    let mut draft = enter(land, &mut cells, &mut groups)?;
    let counts = draft.measure(ruler, &cells, &groups, 1, &mut first, &mut entries)?;
    let one = land.measured(heap, recipe, 1)?;
    let mut differences = compare_map::<R::Length>(&first, counts, &one);
    let counts = draft.measure(ruler, &cells, &groups, 2, &mut second, &mut entries)?;
    let two = land.measured(heap, recipe, 2)?;
    differences = differences.saturating_add(compare_map::<R::Length>(&second, counts, &two));
    let both = Both {
        draft,
        first,
        second,
        one: one.marks,
        two: two.marks,
    };
    Ok((differences, both))
}

// One board by one ruler: maps, counts and all readings.
pub fn compare_board<R: Ruler>(
    heap: Global,
    land: &Land,
    ruler: &R,
    recipe: &Recipe,
) -> Result<u64, Stop>
where
    R::Length: Shown,
{
    let (maps, both) = measure_both(heap, land, ruler, recipe)?;
    let readings = compare_readings(heap, land, ruler, recipe.counted(), &both)?;
    Ok(maps.saturating_add(readings))
}

// What is wrong in the last mark of a map, or in all its lengths.
#[derive(Clone, Copy, PartialEq, Eq)]
pub enum Forgery {
    Length,
    Pad,
    Link,
    AllLengths,
}

// A mark of this place that no map has.
fn forged(mark: Mark, place: usize, forgery: Forgery) -> Mark {
    let mut mark = mark;
    match forgery {
        Forgery::Length | Forgery::AllLengths => {
            mark.far.units = mark.far.units.saturating_add(1);
        }
        Forgery::Pad => mark.pad ^= 1,
        Forgery::Link => mark.link = (place & 0xffff) as u16,
    }
    mark
}

// The maps and their counts alone.
pub fn compare_maps<R: Ruler>(
    heap: Global,
    land: &Land,
    ruler: &R,
    recipe: &Recipe,
) -> Result<u64, Stop>
where
    R::Length: Shown,
{
    Ok(measure_both(heap, land, ruler, recipe)?.0)
}

// One board by one ruler, with marks of one map forged before the readings of cells, or before gap and route.
pub fn compare_forged<R: Ruler>(
    heap: Global,
    land: &Land,
    ruler: &R,
    recipe: &Recipe,
    forgery: Forgery,
) -> Result<u64, Stop>
where
    R::Length: Shown,
{
    let (_, mut both) = measure_both(heap, land, ruler, recipe)?;
    let counted = recipe.counted();
    let last = both.one.len().saturating_sub(1);
    for (place, mark) in both.one.iter_mut().enumerate() {
        if place == last || forgery == Forgery::AllLengths {
            *mark = forged(*mark, place, forgery);
        }
    }
    if forgery == Forgery::AllLengths {
        return compare_route(heap, ruler, counted, &both);
    }
    compare_readings(heap, land, ruler, counted, &both)
}

// A record that tampering left.
fn tampered(dice: &mut Dice, mark: Mark, area: u64, counted: bool) -> Mark {
    let mut mark = mark;
    match dice.below(5) {
        0 => mark.link = (dice.below(area.saturating_add(2)) & 0xffff) as u16,
        1 => mark.reached = !mark.reached,
        2 => mark.pad = (dice.below(256) & 0xff) as u8,
        3 => mark.far.units = u64::MAX - dice.below(3),
        _ => mark.far.steps = if counted { dice.below(9) } else { 0 },
    }
    mark
}

// Changes one record in both of the maps' shapes.
fn tamper<K: Shown>(
    dice: &mut Dice,
    map: &mut [MapRecord<K::Row>],
    marks: &mut [Mark],
    counted: bool,
) {
    let area = marks.len() as u64;
    let place = dice.below(area) as usize;
    if let (Some(record), Some(mark)) = (map.get_mut(place), marks.get_mut(place)) {
        *mark = tampered(dice, *mark, area, counted);
        *record = record_of::<K>(*mark);
    }
}

// One board by one ruler, with some records changed before the readings.
pub fn compare_tampered<R: Ruler>(
    heap: Global,
    dice: &mut Dice,
    land: &Land,
    ruler: &R,
    recipe: &Recipe,
) -> Result<u64, Stop>
where
    R::Length: Shown,
{
    let (maps, mut both) = measure_both(heap, land, ruler, recipe)?;
    let counted = recipe.counted();
    for _ in 0..3 {
        tamper::<R::Length>(dice, &mut both.first, &mut both.one, counted);
        tamper::<R::Length>(dice, &mut both.second, &mut both.two, counted);
    }
    let readings = compare_readings(heap, land, ruler, counted, &both)?;
    Ok(maps.saturating_add(readings))
}
