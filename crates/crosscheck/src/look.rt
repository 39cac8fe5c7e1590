// Readings a second time, over marks of any content.
use crate::recipe::Far;
use crate::second::Mark;
use std::alloc::{AllocError, Global};

// Where a way ends: at an unreached cell, nowhere, or at a source.
#[derive(PartialEq, Eq, Drop)]
pub enum Walk {
    Unreached,
    Torn,
    Cells(Vec<u16>),
}

impl Mark {
    // A reached cell's length; one with more counted steps than units is read as zero.
    pub fn length(self, counted: bool) -> Option<Far> {
        if !self.reached {
            return None;
        }
        if counted && self.far.steps > self.far.units {
            return Some(Far::ZERO);
        }
        Some(self.far)
    }

    // A reached cell's pad; none is above 64.
    pub fn nearest(self) -> Option<u8> {
        let known = if self.pad > 64 { 0 } else { self.pad };
        if self.reached { Some(known) } else { None }
    }
}

// The cells along the links.
pub fn walk_from(heap: Global, marks: &[Mark], place: usize) -> Result<Walk, AllocError> {
    let mut cells = Vec::new(heap);
    let mut at = place;
    if !marks.get(at).is_some_and(|mark| mark.reached) {
        return Ok(Walk::Unreached);
    }
    for _ in 0..marks.len() {
        let Some(mark) = marks.get(at).filter(|mark| mark.reached) else {
            return Ok(Walk::Torn);
        };
        cells.push((at & 0xffff) as u16)?;
        if usize::from(mark.link) == at {
            return Ok(Walk::Cells(cells));
        }
        at = usize::from(mark.link);
    }
    Ok(Walk::Torn)
}

// The sum of a cell's two lengths.
fn sum(first: &[Mark], second: &[Mark], place: usize, counted: bool) -> Option<Far> {
    let a = first.get(place)?.length(counted)?;
    let b = second.get(place)?.length(counted)?;
    Some(a.plus(b, counted))
}

// The least sum.
pub fn gap(first: &[Mark], second: &[Mark], counted: bool) -> Option<Far> {
    let mut least = None;
    for place in 0..first.len() {
        if let Some(far) = sum(first, second, place, counted)
            && least.is_none_or(|other| far < other)
        {
            least = Some(far);
        }
    }
    least
}

// Whether a cell's sum is the least.
pub fn marked(
    first: &[Mark],
    second: &[Mark],
    place: usize,
    counted: bool,
    gap: Option<Far>,
) -> bool {
    let here = sum(first, second, place, counted);
    here.is_some() && here == gap
}
