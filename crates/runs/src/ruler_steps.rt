// One call on a plate and its tables over a ruler, by which a plate has the gap and the route too.
ghost use Rattle.std.specs.Prelude.{◌≡◌, ℕ, List, length, min};
ghost use Rattle.runs.specs.Measurers.{by_ruler};
ghost use Rattle.runs.specs.Plates.{RulerStep};
ghost use Rattle.runs.specs.Replies.{CarriedOut, in_front, marks_told, told, told_of};
ghost use Rattle.runs.specs.declared.call.RulerCall.TheVariants as call;

use crate::callers::Caller;
use crate::{Plate, Reply, RulerCall, carry_out};
use board::{Cell, MapRecord};
use gauges::Ruler;
use measuring::RowOf;
use plate::Readings;
use queue::Offer;

fn gap<R: Ruler>(
    ruler: &R,
    plate: &Plate,
    first: &[MapRecord<RowOf<R>>],
    second: &[MapRecord<RowOf<R>>],
) -> Reply<R::Length>
    ensures { (list marks : List ℕ) → RulerStep R.Length.kind (R.ruling ruler.now).sum
        call.Gap (told result list marks) plate.now first.now second.now }
{
    match plate.gap(ruler, first, second) {
        Ok(found) => Reply::Gap(found),
        Err(refusal) => Reply::Refused(refusal),
    }
}

// The marks go into the front of those that are lent, as far as their number and the call's room
// allow.
fn route<R: Ruler>(
    ruler: &R,
    plate: &Plate,
    first: &[MapRecord<RowOf<R>>],
    second: &[MapRecord<RowOf<R>>],
    marks: &mut [u8],
    room: usize,
) -> Reply<R::Length>
    ensures step { (list : List ℕ) → RulerStep R.Length.kind (R.ruling ruler.now).sum
        (call.Route (min room (length marks.old))) (told_of plate.now result list marks.new)
        plate.now first.now second.now }
    ensures marks { marks.new ≡ in_front (marks_told plate.now result marks.new) marks.old }
{
    let lent = room.min(marks.len());
    match plate.route(ruler, first, second, &mut marks[..lent]) {
        Ok(count) => Reply::Route(count),
        Err(refusal) => Reply::Refused(refusal),
    }
}

/// One call by a ruler, with the gap and the route among them, over marks that are lent to a route:
/// it has as many of them as the call's room says, or all where those are fewer. Else as
/// `carry_out`.
pub fn carry_out_by_ruler<R: Ruler>(
    ruler: &R,
    plate: Plate,
    cells: &mut [Cell],
    groups: &mut [u8],
    first: &mut [MapRecord<RowOf<R>>],
    second: &mut [MapRecord<RowOf<R>>],
    entries: &mut [Offer<RowOf<R>>],
    list: &mut [u16],
    marks: &mut [u8],
    call: RulerCall,
) -> (Plate, Reply<R::Length>)
    ensures { CarriedOut
        (by_ruler R.Length.kind (R.crossing ruler.now) (R.ruling ruler.now).sum) call
        plate result cells.old cells.new groups.old groups.new first.old first.new
        second.old second.new entries.old entries.new list.old list.new marks.old marks.new }
{
    match call {
        RulerCall::Plain(call) => carry_out(
            ruler, plate, cells, groups, first, second, entries, list, call,
        ),
        RulerCall::Gap => {
            let reply = gap(ruler, &plate, first, second);
            (plate, reply)
        }
        RulerCall::Route { room } => {
            let reply = route(ruler, &plate, first, second, marks, room);
            (plate, reply)
        }
    }
}

// The calls of a run over a ruler.
#[derive(Drop)]
pub(crate) struct ByRuler<'a, R> {
    pub(crate) ruler: &'a R,
}

impl<R: Ruler> Caller for ByRuler<'_, R> {
    type Length = R::Length;

    type Call = RulerCall;

    ghost measurer = { λ by.
        by_ruler R.Length.kind (R.crossing by.ruler.now) (R.ruling by.ruler.now).sum };

    fn carry_out(
        &self,
        plate: Plate,
        cells: &mut [Cell],
        groups: &mut [u8],
        first: &mut [MapRecord<RowOf<R>>],
        second: &mut [MapRecord<RowOf<R>>],
        entries: &mut [Offer<RowOf<R>>],
        list: &mut [u16],
        marks: &mut [u8],
        call: RulerCall,
    ) -> (Plate, Reply<R::Length>) {
        carry_out_by_ruler(
            self.ruler, plate, cells, groups, first, second, entries, list, marks, call,
        )
    }
}
