// Measuring a group's map.
ghost use Rattle.std.specs.Prelude.{◌≡◌, length, Some, None, MatchResult};
ghost use Rattle.board.specs.Groups.{group_number};
ghost use Rattle.plate.specs.Headers.{renewed, standing};
ghost use Rattle.plate.specs.Maps.{MeasuresOver};
ghost use Rattle.plate.specs.Refusals.{measure_refusal};

use crate::{Draft, Refusal};
use board::{Cell, Group, MapRecord, PADS};
use gauges::Gauge;
use measuring::{Counts, ENTRIES_PER_CELL, RowOf, measure_group};
use queue::Offer;

impl Draft {
    fn may_measure(
        &self,
        cells: &[Cell],
        groups: &[u8],
        group: u16,
        map: usize,
        entries: usize,
    ) -> Result<Group, Refusal>
        ensures { let refused = measure_refusal self.now.header.size (length cells.now)
            (length groups.now) map entries group in
            MatchResult result
            (λ chosen. (refused ≡ None) × (group_number chosen ≡ group))
            (λ e. refused ≡ Some e) }
    {
        let area = self.header.size.area();
        if cells.len() < area
            || groups.len() < PADS
            || map < area
            || entries < ENTRIES_PER_CELL * area
        {
            return Err(Refusal::Tables);
        }
        Group::new(group).ok_or(Refusal::Group)
    }

    fn mark_current(&mut self, group: Group)
        ensures { standing self.new.header ≡ renewed (group_number group) (standing self.old.header) }
    {
        match group {
            Group::First => self.header.first = true,
            Group::Second => self.header.second = true,
        }
    }

    /// Fills the map of group 1 or 2, and answers how many cells were reached and how many steps were put to the gauge. Sent back: 2 and 5.
    pub fn measure<G: Gauge>(
        &mut self,
        gauge: &G,
        cells: &[Cell],
        groups: &[u8],
        group: u16,
        map: &mut [MapRecord<RowOf<G>>],
        entries: &mut [Offer<RowOf<G>>],
    ) -> Result<Counts, Refusal>
        ensures { MeasuresOver G.Length.kind (G.crossing gauge.now) group self.old.header
            self.new.header cells.now groups.now map.old map.new entries.old entries.new result }
    {
        let group = self.may_measure(cells, groups, group, map.len(), entries.len())?;
        let counts = measure_group(
            gauge,
            self.header.size,
            cells,
            groups,
            group.number(),
            map,
            entries,
        );
        self.mark_current(group);
        Ok(counts)
    }
}
