// A list of calls on a plate just opened, in memory that was taken for them.
ghost use Rattle.std.specs.Prelude.{◌≡◌, map, take};
ghost use Rattle.board.specs.Sizes.{area};
ghost use Rattle.runs.specs.Measurers.{by_gauge, by_ruler};
ghost use Rattle.runs.specs.Places.{PlacesFor, list_of, marks_of, within_place};
ghost use Rattle.runs.specs.Plates.{header_of, state};
ghost use Rattle.runs.specs.Replies.{told};
ghost use Rattle.runs.specs.Runs.{LeadsTo, Ran, RanTo, held, holding, left, said_all};
ghost use Rattle.runs.specs.Said.{said};
ghost use Rattle.runs.specs.Steps.{Steps};
ghost use Rattle.runs.specs.declared.call.RulerCall.TheVariants.{Plain};

use crate::callers::Caller;
use crate::ruler_steps::ByRuler;
use crate::steps::ByGauge;
use crate::{Answer, Call, Plate, Reply, RulerCall, Space, Tables};
use board::{Cell, MapRecord};
use gauges::{Gauge, Ruler};
use lengths::Length;
use measuring::RowOf;
use plate::{Draft, Refusal};
use queue::Offer;
use std::alloc::Global;
use std::mem::replace;

// The list and the marks that lie in a place.
fn emptied<K: Length>(alloc: Global, place: Answer<K>) -> (Vec<u16>, Vec<u8>)
    ensures list { result.0.items ≡ list_of place }
    ensures marks { result.1.items ≡ marks_of place }
{
    match place {
        Answer::Way(list) => (list, Vec::new(alloc)),
        Answer::Route { marks, .. } => (Vec::new(alloc), marks),
        _ => (Vec::new(alloc), Vec::new(alloc)),
    }
}

// A reply as an answer, with the cells or the marks that were written, of which a route has one for
// each cell of the plate.
fn answer_of<K: Length>(area: usize, reply: Reply<K>, list: Vec<u16>, marks: Vec<u8>) -> Answer<K>
    ensures { said result ≡ told reply list.items (take area marks.items) }
{
    match reply {
        Reply::Done => Answer::Done,
        Reply::Measured(counts) => Answer::Measured(counts),
        Reply::Distance(found) => Answer::Distance(found),
        Reply::Nearest(found) => Answer::Nearest(found),
        Reply::Way(count) => {
            let mut list = list;
            list.truncate(count);
            Answer::Way(list)
        }
        Reply::Gap(found) => Answer::Gap(found),
        Reply::Route(count) => {
            let mut marks = marks;
            marks.truncate(area);
            Answer::Route { marks, count }
        }
        Reply::Refused(refusal) => Answer::Refused(refusal),
        Reply::NotAllowed => Answer::NotAllowed,
    }
}

// One call with what its place holds.
fn answer_one<C: Caller>(
    alloc: Global,
    caller: &C,
    plate: Plate,
    cells: &mut [Cell],
    groups: &mut [u8],
    first: &mut [MapRecord<<C::Length as Length>::Row>],
    second: &mut [MapRecord<<C::Length as Length>::Row>],
    entries: &mut [Offer<<C::Length as Length>::Row>],
    call: C::Call,
    place: Answer<C::Length>,
) -> (Plate, Answer<C::Length>)
    ensures { Steps (C.measurer caller.now) (within_place place (C.Call.as_call call))
        (said result.1) (state plate cells.old groups.old first.old second.old entries.old)
        (state result.0 cells.new groups.new first.new second.new entries.new) }
{
    let area = plate.area();
    let (mut list, mut marks) = emptied(alloc, place);
    let (after, reply) = caller.carry_out(
        plate, cells, groups, first, second, entries, &mut list, &mut marks, call,
    );
    (after, answer_of(area, reply, list, marks))
}

// One call after another, each in its place.
fn answer_all<C: Caller>(
    alloc: Global,
    caller: &C,
    plate: Plate,
    cells: &mut [Cell],
    groups: &mut [u8],
    first: &mut [MapRecord<<C::Length as Length>::Row>],
    second: &mut [MapRecord<<C::Length as Length>::Row>],
    entries: &mut [Offer<<C::Length as Length>::Row>],
    calls: &[C::Call],
    places: &mut [Answer<C::Length>],
)
    requires { PlacesFor C.Call.as_call (area (header_of plate).size) calls.now places.old }
    ensures { LeadsTo (C.measurer caller.now)
        (state plate cells.old groups.old first.old second.old entries.old)
        (map C.Call.as_call calls.now) (map said places.new)
        (holding cells.new groups.new first.new second.new entries.new) }
{
    let mut plate = plate;
    for i in 0..calls.len() {
        let place = replace(&mut places[i], Answer::NotAllowed);
        let (after, answer) = answer_one(
            alloc, caller, plate, cells, groups, first, second, entries, calls[i], place,
        );
        plate = after;
        places[i] = answer;
    }
}

// Opens a plate and makes the calls of a space in their places, by what carries them out.
fn run_in_space<C: Caller>(
    caller: &C,
    space: Space<'_, C::Call, C::Length>,
    cells: &mut [Cell],
    groups: &mut [u8],
    first: &mut [MapRecord<<C::Length as Length>::Row>],
    second: &mut [MapRecord<<C::Length as Length>::Row>],
    entries: &mut [Offer<<C::Length as Length>::Row>],
) -> Result<Vec<Answer<C::Length>>, Refusal>
    ensures { RanTo space.entry.dimensions (C.measurer caller.now)
        (map C.Call.as_call space.entry.calls.now)
        (holding cells.old groups.old first.old second.old entries.old)
        (holding cells.new groups.new first.new second.new entries.new) (said_all result) }
{
    let Space {
        dimensions,
        calls,
        alloc,
        places,
    } = space;
    let draft = Draft::open(dimensions, cells, groups)?;
    let mut answers = places;
    answer_all(
        alloc,
        caller,
        Plate::Draft(draft),
        cells,
        groups,
        first,
        second,
        entries,
        calls,
        &mut answers,
    );
    Ok(answers)
}

/// Opens a plate over tables of any lengths and any content, and makes the calls of a space one
/// after another by a gauge. Each answer is true of the plate at that moment, and the refusal to
/// open the plate, 1 or 2, is the one thing that keeps answers back. The tables hold afterwards
/// what the calls made of them, and what they held where the plate is not opened. Nothing is
/// allocated.
pub fn run<G: Gauge>(
    gauge: &G,
    space: Space<'_, Call, G::Length>,
    tables: Tables<'_, RowOf<G>>,
) -> Result<Vec<Answer<G::Length>>, Refusal>
    ensures { Ran space.entry.dimensions (by_gauge G.Length.kind (G.crossing gauge.now))
        (map Plain space.entry.calls.now) (held tables.entry) (left tables.exit)
        (said_all result) }
{
    let Tables {
        cells,
        groups,
        first,
        second,
        entries,
    } = tables;
    run_in_space(
        &ByGauge { gauge },
        space,
        cells,
        groups,
        first,
        second,
        entries,
    )
}

/// The same by a ruler, with the gap and the route among the calls.
pub fn run_by_ruler<R: Ruler>(
    ruler: &R,
    space: Space<'_, RulerCall, R::Length>,
    tables: Tables<'_, RowOf<R>>,
) -> Result<Vec<Answer<R::Length>>, Refusal>
    ensures { Ran space.entry.dimensions
        (by_ruler R.Length.kind (R.crossing ruler.now) (R.ruling ruler.now).sum)
        space.entry.calls.now (held tables.entry) (left tables.exit) (said_all result) }
{
    let Tables {
        cells,
        groups,
        first,
        second,
        entries,
    } = tables;
    run_in_space(
        &ByRuler { ruler },
        space,
        cells,
        groups,
        first,
        second,
        entries,
    )
}
