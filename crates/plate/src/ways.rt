// Ways along the links of a map that has as many records as the plate has cells.
ghost use Rattle.std.specs.Prelude.{◌≡◌, ℕ, ◌<◌, true, false, List, length, Some, None, MatchOption};
ghost use Rattle.measuring.specs.Ways.{at};
ghost use Rattle.plate.specs.Readings.{Walks};
ghost use Rattle.plate.specs.Walks.{way_at, way_on};

use crate::Refusal;
use board::MapRecord;
use lengths::Length;

// The cell that a reached cell is linked to, or none where the cell is unreached or off the map.
fn link_at<K: Length>(map: &[MapRecord<K::Row>], cell: u16) -> Option<u16>
    ensures { let here = at (K.kind.encode K.kind.zero) map.now cell in
        MatchOption result
        (here.reached ≡ false)
        (λ n. (here.reached ≡ true) × (here.link ≡ n)) }
{
    let here = map.get(cell as usize)?.if_reached()?;
    Some(here.link)
}

// How many cells the way from a cell has, or none where its links are torn. It has no more than the map has records,
// and the range says only that.
fn way_length<K: Length>(map: &[MapRecord<K::Row>], start: u16) -> Option<usize>
    ensures { MatchOption result
        (way_on K.kind map.now start ≡ None)
        (λ n.
        (cells : List ℕ) ×
        (way_on K.kind map.now start ≡ Some cells) ×
        (length cells ≡ n)) }
{
    let mut cell = start;
    for passed in 0..map.len() {
        let link = link_at::<K>(map, cell)?;
        if link == cell {
            return Some(passed + 1);
        }
        cell = link;
    }
    None
}

// Writes the way from a cell into a list of its length.
fn write_way<K: Length>(map: &[MapRecord<K::Row>], start: u16, list: &mut [u16])
    requires { (cells : List ℕ) ×
        (way_on K.kind map.now start ≡ Some cells) ×
        (length cells ≡ length list.old) }
    ensures { way_on K.kind map.now start ≡ Some list.new }
{
    let mut cell = start;
    for place in list.iter_mut() {
        *place = cell;
        cell = map[cell as usize].link;
    }
}

// Writes the way from a cell, which is 0 cells where the cell is unreached.
pub(crate) fn walk<K: Length>(
    map: &[MapRecord<K::Row>],
    start: u16,
    list: &mut [u16],
) -> Result<usize, Refusal>
    requires { start < length map.now }
    ensures { Walks (way_at K.kind map.now start (length list.old)) list.old list.new result }
{
    if !map[start as usize].reached {
        return Ok(0);
    }
    let count = way_length::<K>(map, start).ok_or(Refusal::Torn)?;
    if list.len() < count {
        return Err(Refusal::Short);
    }
    write_way::<K>(map, start, &mut list[0..count]);
    Ok(count)
}
