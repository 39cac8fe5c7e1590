// One call on a plate and its tables, by the plate's own call.
ghost use Rattle.std.specs.Prelude.{◌≡◌, ℕ, List, [], cond, ◌==◌, length, min};
ghost use Rattle.board.specs.declared.record.MapRecord.{MapRecord as TheRecord};
ghost use Rattle.runs.specs.Measurers.{by_gauge};
ghost use Rattle.runs.specs.Plates.{OnBoard, OnMaps, OnTables};
ghost use Rattle.runs.specs.Replies.{CarriedOut, ListLeft, told};
ghost use Rattle.runs.specs.Said.Said.{measured};
ghost use Rattle.runs.specs.Steps.{telling};
ghost use Rattle.runs.specs.declared.call.Call.TheVariants as call;
ghost use Rattle.runs.specs.declared.call.RulerCall.TheVariants.{Plain};

use crate::callers::Caller;
use crate::{Call, Plate, Reply};
use board::{Cell, MapRecord};
use gauges::Gauge;
use lengths::Length;
use measuring::{Counts, RowOf};
use plate::{Edit, Readings, Refusal};
use queue::Offer;

// The map that is lent for a group: the first for group 1, and the second for any other number.
fn map_of<'a, Row>(
    first: &'a [MapRecord<Row>],
    second: &'a [MapRecord<Row>],
    group: u16,
) -> &'a [MapRecord<Row>]
    ensures { result.now ≡ cond (group == 1) first.now second.now }
{
    if group == 1 { first } else { second }
}

fn edit<K: Length>(plate: &mut Plate, cells: &mut [Cell], groups: &mut [u8], edit: Edit) -> Reply<K>
    ensures { (list marks : List ℕ) → OnBoard K.kind (call.Edit edit) (told result list marks)
        plate.old plate.new cells.old cells.new groups.old groups.new }
{
    match plate {
        Plate::Draft(draft) => match draft.edit(cells, groups, edit) {
            Ok(()) => Reply::Done,
            Err(refusal) => Reply::Refused(refusal),
        },
        Plate::Sealed(_) => Reply::NotAllowed,
    }
}

fn reply_counts<K>(outcome: Result<Counts, Refusal>) -> Reply<K>
    ensures { (list marks : List ℕ) → told result list marks ≡ telling measured outcome }
{
    match outcome {
        Ok(counts) => Reply::Measured(counts),
        Err(refusal) => Reply::Refused(refusal),
    }
}

fn measure<G: Gauge>(
    gauge: &G,
    plate: &mut Plate,
    cells: &[Cell],
    groups: &[u8],
    first: &mut [MapRecord<RowOf<G>>],
    second: &mut [MapRecord<RowOf<G>>],
    entries: &mut [Offer<RowOf<G>>],
    group: u16,
) -> Reply<G::Length>
    ensures { (list marks : List ℕ) → OnTables G.Length.kind (G.crossing gauge.now)
        (call.Measure group) (told result list marks) plate.old plate.new cells.now groups.now
        first.old first.new second.old second.new entries.old entries.new }
{
    let Plate::Draft(draft) = plate else {
        return Reply::NotAllowed;
    };
    if group == 1 {
        return reply_counts(draft.measure(gauge, cells, groups, group, first, entries));
    }
    reply_counts(draft.measure(gauge, cells, groups, group, second, entries))
}

fn distance<K: Length>(
    plate: &Plate,
    first: &[MapRecord<K::Row>],
    second: &[MapRecord<K::Row>],
    row: u16,
    column: u16,
    group: u16,
) -> Reply<K>
    ensures { (list marks : List ℕ) → OnMaps K.kind (call.Distance row column group)
        (told result list marks) plate.now plate.now first.now second.now }
{
    match plate.distance::<K>(map_of(first, second, group), row, column, group) {
        Ok(found) => Reply::Distance(found),
        Err(refusal) => Reply::Refused(refusal),
    }
}

fn nearest<K: Length>(
    plate: &Plate,
    first: &[MapRecord<K::Row>],
    second: &[MapRecord<K::Row>],
    row: u16,
    column: u16,
    group: u16,
) -> Reply<K>
    ensures { (list marks : List ℕ) → OnMaps K.kind (call.Nearest row column group)
        (told result list marks) plate.now plate.now first.now second.now }
{
    match plate.nearest::<K>(map_of(first, second, group), row, column, group) {
        Ok(found) => Reply::Nearest(found),
        Err(refusal) => Reply::Refused(refusal),
    }
}

// The cells go into the front of the list, as far as its length and the call's room allow.
fn way<K: Length>(
    plate: &Plate,
    first: &[MapRecord<K::Row>],
    second: &[MapRecord<K::Row>],
    list: &mut [u16],
    row: u16,
    column: u16,
    group: u16,
    room: usize,
) -> Reply<K>
    ensures step { (marks : List ℕ) → OnMaps K.kind
        (call.Way row column group (min room (length list.old)))
        (told result list.new marks) plate.now plate.now first.now second.now }
    ensures list { ListLeft result list.old list.new }
{
    let lent = room.min(list.len());
    let map = map_of(first, second, group);
    match plate.way::<K>(map, row, column, group, &mut list[..lent]) {
        Ok(count) => Reply::Way(count),
        Err(refusal) => Reply::Refused(refusal),
    }
}

fn seal<K: Length>(plate: Plate) -> (Plate, Reply<K>)
    ensures { (list marks : List ℕ) (first second : List (TheRecord K.Row)) →
        OnMaps K.kind call.Seal (told result.1 list marks) plate result.0 first second }
{
    match plate {
        Plate::Draft(draft) => match draft.seal() {
            Ok(sealed) => (Plate::Sealed(sealed), Reply::Done),
            Err(back) => (Plate::Draft(back.draft), Reply::Refused(back.refusal)),
        },
        Plate::Sealed(sealed) => (Plate::Sealed(sealed), Reply::NotAllowed),
    }
}

fn break_seal<K: Length>(plate: Plate) -> (Plate, Reply<K>)
    ensures { (list marks : List ℕ) (first second : List (TheRecord K.Row)) →
        OnMaps K.kind call.Break (told result.1 list marks) plate result.0 first second }
{
    match plate {
        Plate::Sealed(sealed) => (Plate::Draft(sealed.break_seal()), Reply::Done),
        Plate::Draft(draft) => (Plate::Draft(draft), Reply::NotAllowed),
    }
}

/// One call on a plate in either state, over lent tables of any lengths and any content, and a list
/// that is lent to a way: its step, which says what it answers and leaves. A way has as many cells
/// of the list as the call's room says, or all where those are fewer. Nothing is allocated, and
/// every call is answered: with its result, its refusal, or that the plate's state does not allow
/// it.
pub fn carry_out<G: Gauge>(
    gauge: &G,
    plate: Plate,
    cells: &mut [Cell],
    groups: &mut [u8],
    first: &mut [MapRecord<RowOf<G>>],
    second: &mut [MapRecord<RowOf<G>>],
    entries: &mut [Offer<RowOf<G>>],
    list: &mut [u16],
    call: Call,
) -> (Plate, Reply<G::Length>)
    ensures { CarriedOut (by_gauge G.Length.kind (G.crossing gauge.now)) (Plain call)
        plate result cells.old cells.new groups.old groups.new first.old first.new
        second.old second.new entries.old entries.new list.old list.new [] [] }
{
    let mut plate = plate;
    let reply = match call {
        Call::Edit(asked) => edit(&mut plate, cells, groups, asked),
        Call::Measure { group } => measure(
            gauge, &mut plate, cells, groups, first, second, entries, group,
        ),
        Call::Distance { row, column, group } => {
            distance(&plate, first, second, row, column, group)
        }
        Call::Nearest { row, column, group } => {
            nearest(&plate, first, second, row, column, group)
        }
        Call::Way {
            row,
            column,
            group,
            room,
        } => way(&plate, first, second, list, row, column, group, room),
        Call::Seal => return seal(plate),
        Call::Break => return break_seal(plate),
    };
    (plate, reply)
}

// The calls of a run over a gauge.
#[derive(Drop)]
pub(crate) struct ByGauge<'a, G> {
    pub(crate) gauge: &'a G,
}

impl<G: Gauge> Caller for ByGauge<'_, G> {
    type Length = G::Length;

    type Call = Call;

    ghost measurer = { λ by. by_gauge G.Length.kind (G.crossing by.gauge.now) };

    fn carry_out(
        &self,
        plate: Plate,
        cells: &mut [Cell],
        groups: &mut [u8],
        first: &mut [MapRecord<RowOf<G>>],
        second: &mut [MapRecord<RowOf<G>>],
        entries: &mut [Offer<RowOf<G>>],
        list: &mut [u16],
        _marks: &mut [u8],
        call: Call,
    ) -> (Plate, Reply<G::Length>) {
        carry_out(
            self.gauge, plate, cells, groups, first, second, entries, list, call,
        )
    }
}
