// The memory of a run, taken before its plate is opened.
ghost use Rattle.std.specs.Prelude.{◌≡◌, true, length, IfOk, IsOk};
ghost use Rattle.board.specs.Sizes.{bad_size};
ghost use Rattle.runs.specs.Places.{PlaceFor, PlacesFor, PlacesOn};

use crate::{Answer, Call, RulerCall, RunCall};
use board::{Dimensions, Size};
use lengths::Length;
use std::alloc::{AllocError, Global};

/// The memory of a run of these calls on a plate of these dimensions: a place for each answer, with
/// the list of a way or the marks of a route in it. It has as many cells or marks as the call asks
/// for, or as the plate has cells where those are fewer. For dimensions that no plate has there are
/// no places.
#[derive(Drop)]
pub struct Space<'a, C: RunCall, K> {
    /// Of the plate that the run is to open.
    pub dimensions: Dimensions,
    /// What it is to be asked, in this order.
    pub calls: &'a [C],
    pub(crate) alloc: Global,
    pub(crate) places: Vec<Answer<K>>,
    ghost fit: { PlacesOn C.as_call dimensions calls.now places.items },
}

// A place for the answer to a call, on a plate of so many cells.
fn place<K: Length>(alloc: Global, area: usize, call: RulerCall) -> Result<Answer<K>, AllocError>
    ensures { IfOk result (PlaceFor area call) }
{
    match call {
        RulerCall::Plain(Call::Way { room, .. }) => {
            let list = vec![in alloc; 0u16; room.min(area)]?;
            Ok(Answer::Way(list))
        }
        RulerCall::Route { room } => {
            let marks = vec![in alloc; 0u8; room.min(area)]?;
            Ok(Answer::Route { marks, count: 0 })
        }
        _ => Ok(Answer::NotAllowed),
    }
}

// A place for each call, on a plate of so many cells.
fn places<C: RunCall, K: Length>(
    alloc: Global,
    area: usize,
    calls: &[C],
) -> Result<Vec<Answer<K>>, AllocError>
    ensures fit { IfOk result (λ places. PlacesFor C.as_call area calls.now places.items) }
    ensures succeeds { length calls.now ≡ 0 → IsOk result }
{
    let mut places = Vec::with_capacity(alloc, calls.len())?;
    for i in 0..calls.len() {
        let place = place::<K>(alloc, area, calls[i].as_ruler_call())?;
        places.push_reserved(place);
    }
    Ok(places)
}

// The places on a plate of these dimensions; none where no plate has them.
fn places_on<C: RunCall, K: Length>(
    alloc: Global,
    dimensions: Dimensions,
    calls: &[C],
) -> Result<Vec<Answer<K>>, AllocError>
    ensures fit { IfOk result (λ places. PlacesOn C.as_call dimensions calls.now places.items) }
    ensures no_call { length calls.now ≡ 0 → IsOk result }
    ensures no_plate { bad_size dimensions ≡ true → IsOk result }
{
    let Some(size) = Size::new(dimensions) else {
        return Ok(Vec::new(alloc));
    };
    places(alloc, size.area(), calls)
}

impl<'a, C: RunCall, K: Length> Space<'a, C, K> {
    /// Takes the memory. It is lent no table, so that nothing has happened where memory is short,
    /// which is its only error. Where there is nothing to make, no call or dimensions that no plate
    /// has, it succeeds.
    pub fn reserve(
        alloc: Global,
        dimensions: Dimensions,
        calls: &'a [C],
    ) -> Result<Space<'a, C, K>, AllocError>
        ensures dimensions { IfOk result (λ space. space.dimensions ≡ dimensions) }
        ensures calls { IfOk result (λ space. space.calls.now ≡ calls.now) }
        ensures no_call { length calls.now ≡ 0 → IsOk result }
        ensures no_plate { bad_size dimensions ≡ true → IsOk result }
    {
        let places = places_on(alloc, dimensions, calls)?;
        Ok(Space {
            dimensions,
            calls,
            alloc,
            places,
        })
    }
}
