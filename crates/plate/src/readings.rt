// Reading the maps. A refused call writes nothing.
ghost use Rattle.std.specs.Prelude.{◌≡◌, ◌<◌, ◌≤◌, length, Some, None, IfOk, MatchResult};
ghost use Rattle.board.specs.Groups.{group_number};
ghost use Rattle.board.specs.Sizes.{area, cell_at};
ghost use Rattle.measuring.specs.MapReadings.{distance_at, nearest_at};
ghost use Rattle.plate.specs.Headers.{standing};
ghost use Rattle.plate.specs.Readings.{Routes, Walks, distance_answer, gap_answer, nearest_answer, way_cells};
ghost use Rattle.plate.specs.Refusals.{current, gap_refusal, reading_refusal};
ghost use Rattle.plate.specs.declared.header.Header.{Header};

use crate::routes::Maps;
use crate::ways::walk;
use crate::{Draft, Header, HeaderRef, Refusal, Sealed};
use board::{Group, MapRecord, known_pad};
use gauges::Ruler;
use lengths::Length;
use measuring::RowOf;

// A cell's distance, or none where it is unreached.
pub(crate) fn distance_at<K: Length>(map: &[MapRecord<K::Row>], number: usize) -> Option<K>
    requires { number < length map.now }
    ensures { result ≡ distance_at K.kind map.now number }
{
    let here = map[number].if_reached()?;
    Some(K::decode(here.length))
}

// A cell's pad, or none where it is unreached.
fn nearest_at<K: Length>(map: &[MapRecord<K::Row>], number: usize) -> Option<u8>
    requires { number < length map.now }
    ensures { result ≡ nearest_at K.kind map.now number }
{
    let here = map[number].if_reached()?;
    Some(known_pad(here.pad))
}

impl Header {
    fn is_current(&self, group: Group) -> bool
        ensures { result ≡ current (standing self.now) (group_number group) }
    {
        match group {
            Group::First => self.first,
            Group::Second => self.second,
        }
    }

    // Where a cell stands in its group's map.
    fn map_index(&self, map: usize, row: u16, column: u16, group: u16) -> Result<usize, Refusal>
        ensures { let refused = reading_refusal (standing self.now) map row column group in
            MatchResult result
            (λ at.
            (refused ≡ None) ×
            (at ≡ cell_at self.now.size row column) ×
            (at < area self.now.size) ×
            (area self.now.size ≤ map))
            (λ e. refused ≡ Some e) }
    {
        if map < self.size.area() {
            return Err(Refusal::Tables);
        }
        let at = self.size.cell(row, column).ok_or(Refusal::Off)?;
        let group = Group::new(group).ok_or(Refusal::Group)?;
        if !self.is_current(group) {
            return Err(Refusal::Outdated);
        }
        Ok(at)
    }

    // Both maps, which have to be long enough and current.
    fn both_maps<'a, R: Ruler>(
        &self,
        ruler: &'a R,
        first: &'a [MapRecord<RowOf<R>>],
        second: &'a [MapRecord<RowOf<R>>],
    ) -> Result<Maps<'a, R>, Refusal>
        ensures answer { MatchResult result
            (λ _. gap_refusal (standing self.now) (length first.now) (length second.now) ≡ None)
            (λ e. gap_refusal (standing self.now) (length first.now) (length second.now) ≡ Some e) }
        ensures ruler { IfOk result (λ maps. maps.ruler.now ≡ ruler.now) }
        ensures first { IfOk result (λ maps. maps.first.now ≡ first.now) }
        ensures second { IfOk result (λ maps. maps.second.now ≡ second.now) }
        ensures area { IfOk result (λ maps. maps.area ≡ area self.now.size) }
    {
        let area = self.size.area();
        if first.len() < area || second.len() < area {
            return Err(Refusal::Tables);
        }
        if !self.is_current(Group::First) || !self.is_current(Group::Second) {
            return Err(Refusal::Outdated);
        }
        Ok(Maps {
            ruler,
            first,
            second,
            area,
        })
    }
}

/// What has a header has the five readings of its maps. One that is sent back writes nothing.
pub trait Readings {
    ghost header: { Self → Header };

    /// The header, in whichever state the plate is.
    fn header(&self) -> HeaderRef<'_>
        ensures { standing result.header.now ≡ standing (header self.now) };

    /// A cell's length in one group's map, or none where it is unreached. Sent back: 2, 3, 5 and 6.
    final fn distance<K: Length>(
        &self,
        map: &[MapRecord<K::Row>],
        row: u16,
        column: u16,
        group: u16,
    ) -> Result<Option<K>, Refusal>
        ensures { result ≡
            distance_answer K.kind (standing (header self.now)) map.now row column group }
    {
        let header = self.header().header;
        let number = header.map_index(map.len(), row, column, group)?;
        Ok(distance_at::<K>(map, number))
    }

    /// A cell's pad, from 0 to 64, in one group's map, or none where it is unreached. Sent back: 2, 3, 5 and 6.
    final fn nearest<K: Length>(
        &self,
        map: &[MapRecord<K::Row>],
        row: u16,
        column: u16,
        group: u16,
    ) -> Result<Option<u8>, Refusal>
        ensures { result ≡
            nearest_answer K.kind (standing (header self.now)) map.now row column group }
    {
        let header = self.header().header;
        let number = header.map_index(map.len(), row, column, group)?;
        Ok(nearest_at::<K>(map, number))
    }

    /// Writes the path backwards, from the cell to the source, and answers how many cells it has; 0 means unreached. Sent back: 2, 3, 5, 6,
    /// then 8 where links are torn and 7 where the list is too short.
    final fn way<K: Length>(
        &self,
        map: &[MapRecord<K::Row>],
        row: u16,
        column: u16,
        group: u16,
        list: &mut [u16],
    ) -> Result<usize, Refusal>
        ensures { Walks
            (way_cells K.kind (standing (header self.now)) map.now row column group
            (length list.old))
            list.old list.new result }
    {
        let header = self.header().header;
        let number = header.map_index(map.len(), row, column, group)?;
        walk::<K>(&map[0..header.size.area()], number as u16, list)
    }

    /// The least sum of a cell's two distances, or none where no cell has both. Sent back: 2 and 6.
    final fn gap<R: Ruler>(
        &self,
        ruler: &R,
        first: &[MapRecord<RowOf<R>>],
        second: &[MapRecord<RowOf<R>>],
    ) -> Result<Option<R::Length>, Refusal>
        ensures { result ≡ gap_answer R.Length.kind (R.ruling ruler.now).sum
            (standing (header self.now)) first.now second.now }
    {
        let header = self.header().header;
        Ok(header.both_maps(ruler, first, second)?.least_sum())
    }

    /// Marks the cells whose two distances sum to the gap with 1 and the others with 0, and answers how many sum to it. Sent back: 2 and 6.
    final fn route<R: Ruler>(
        &self,
        ruler: &R,
        first: &[MapRecord<RowOf<R>>],
        second: &[MapRecord<RowOf<R>>],
        marks: &mut [u8],
    ) -> Result<usize, Refusal>
        ensures { Routes R.Length.kind (R.ruling ruler.now).sum (standing (header self.now))
            first.now second.now marks.old marks.new result }
    {
        let header = self.header().header;
        let area = header.size.area();
        if marks.len() < area {
            return Err(Refusal::Tables);
        }
        let maps = header.both_maps(ruler, first, second)?;
        Ok(maps.mark_route(&mut marks[0..area]))
    }
}

impl Readings for Header {
    ghost header = { λ header. header };

    fn header(&self) -> HeaderRef<'_> {
        HeaderRef { header: self }
    }
}

impl Readings for HeaderRef<'_> {
    ghost header = { λ lent. lent.header.now };

    fn header(&self) -> HeaderRef<'_> {
        *self
    }
}

impl Readings for Draft {
    ghost header = { λ draft. draft.header };

    fn header(&self) -> HeaderRef<'_> {
        self.header.header()
    }
}

impl Readings for Sealed {
    ghost header = { λ sealed. sealed.header };

    fn header(&self) -> HeaderRef<'_> {
        self.header.header()
    }
}
