// Measuring a second time: lengths by relaxing until nothing changes, ranks by counting, links by looking around.
use crate::land::Land;
use crate::recipe::{Far, Recipe, Site};
use std::alloc::{AllocError, Global};

// What the second implementation says of a cell.
#[derive(Clone, Copy, PartialEq, Eq)]
pub struct Mark {
    pub far: Far,
    pub reached: bool,
    pub pad: u8,
    pub link: u16,
    pub rank: u16,
}

impl Mark {
    pub const UNREACHED: Mark = Mark {
        far: Far::ZERO,
        reached: false,
        pad: 0,
        link: 0,
        rank: 0,
    };
}

// A map with its two counts.
#[derive(Drop)]
pub struct Second {
    pub marks: Vec<Mark>,
    pub reached: usize,
    pub steps: usize,
}

impl Land {
    // An open spot by its number.
    fn site(&self, place: usize) -> Option<Site> {
        let columns = self.columns.max(1);
        self.site_in(place / columns, place % columns)
    }

    fn site_in(&self, row: usize, column: usize) -> Option<Site> {
        let spot = self.open_spot(row, column)?;
        Some(Site { row, column, spot })
    }

    fn place_of(&self, site: Site) -> usize {
        self.place(site.row, site.column)
    }

    fn source_at(&self, site: Site, group: u8) -> u8 {
        self.source(site.row, site.column, group)
    }

    // The open spots around one.
    fn around(&self, site: Site) -> [Option<Site>; 9] {
        let mut sites = [None; 9];
        for (at, slot) in sites.iter_mut().enumerate() {
            let row = site.row.saturating_add(at / 3).checked_sub(1);
            let column = site.column.saturating_add(at % 3).checked_sub(1);
            if let (Some(row), Some(column), true) = (row, column, at != 4) {
                *slot = self.site_in(row, column);
            }
        }
        sites
    }

    // Makes one length as small as those around it allow, and says whether it became less.
    fn relax_at(&self, recipe: &Recipe, site: Site, lengths: &mut [Option<Far>]) -> bool {
        let mut changed = false;
        let here = self.place_of(site);
        for from in self.around(site).iter().flatten() {
            let before = lengths.get(self.place_of(*from)).copied().flatten();
            let more = match (before, recipe.step(*from, site)) {
                (Some(before), Some(step)) => before.plus(step, recipe.counted()),
                _ => continue,
            };
            if let Some(slot) = lengths.get_mut(here)
                && slot.is_none_or(|old| more < old)
            {
                *slot = Some(more);
                changed = true;
            }
        }
        changed
    }

    // Goes over all places once.
    fn relax(&self, recipe: &Recipe, lengths: &mut [Option<Far>]) -> bool {
        let mut changed = false;
        for place in 0..self.spots.len() {
            if let Some(site) = self.site(place) {
                changed |= self.relax_at(recipe, site, lengths);
            }
        }
        changed
    }

    // The least length to each place.
    fn lengths(
        &self,
        heap: Global,
        recipe: &Recipe,
        group: u8,
    ) -> Result<Vec<Option<Far>>, AllocError> {
        let mut lengths = vec![in heap; None; self.spots.len()]?;
        for (place, slot) in lengths.iter_mut().enumerate() {
            let source = self
                .site(place)
                .map_or(0, |site| self.source_at(site, group));
            if source != 0 {
                *slot = Some(Far::ZERO);
            }
        }
        for _ in 0..self.spots.len() {
            if !self.relax(recipe, &mut lengths) {
                break;
            }
        }
        Ok(lengths)
    }

    // Which place a reached one links to: itself where it is a source, else the lowest-ranked that gives it its length.
    fn link(&self, recipe: &Recipe, group: u8, site: Site, marks: &[Mark]) -> usize {
        let here = self.place_of(site);
        if self.source_at(site, group) != 0 {
            return here;
        }
        let far = marks.get(here).map_or(Far::ZERO, |mark| mark.far);
        let mut best: Option<(u16, usize)> = None;
        for from in self.around(site).iter().flatten() {
            let there = self.place_of(*from);
            let Some(mark) = marks.get(there).filter(|mark| mark.reached) else {
                continue;
            };
            let gives = recipe
                .step(*from, site)
                .map(|step| mark.far.plus(step, recipe.counted()))
                == Some(far);
            if gives && best.is_none_or(|(rank, _)| mark.rank < rank) {
                best = Some((mark.rank, there));
            }
        }
        best.map_or(here, |(_, there)| there)
    }

    // The pad at the end of the links.
    fn pad(&self, group: u8, place: usize, marks: &[Mark]) -> u8 {
        let mut at = place;
        for _ in 0..self.spots.len() {
            let source = self.site(at).map_or(0, |site| self.source_at(site, group));
            if source != 0 {
                return source;
            }
            at = marks.get(at).map_or(at, |mark| usize::from(mark.link));
        }
        0
    }

    // The whole map of a group.
    pub fn measured(&self, heap: Global, recipe: &Recipe, group: u8) -> Result<Second, AllocError> {
        let lengths = self.lengths(heap, recipe, group)?;
        let mut marks = vec![in heap; Mark::UNREACHED; lengths.len()]?;
        for (place, mark) in marks.iter_mut().enumerate() {
            if let Some(far) = lengths.get(place).copied().flatten() {
                mark.far = far;
                mark.reached = true;
                mark.rank = rank_of(&lengths, place, far);
            }
        }
        for place in 0..lengths.len() {
            self.link_at(recipe, group, place, &mut marks);
        }
        for place in 0..lengths.len() {
            self.pad_at(group, place, &mut marks);
        }
        let steps = self.steps(&marks);
        let reached = marks.iter().filter(|mark| mark.reached).count();
        Ok(Second {
            marks,
            reached,
            steps,
        })
    }

    fn link_at(&self, recipe: &Recipe, group: u8, place: usize, marks: &mut [Mark]) {
        let Some(site) = self.site(place) else {
            return;
        };
        let link = self.link(recipe, group, site, marks);
        if let Some(mark) = marks.get_mut(place).filter(|mark| mark.reached) {
            mark.link = (link & 0xffff) as u16;
        }
    }

    fn pad_at(&self, group: u8, place: usize, marks: &mut [Mark]) {
        let pad = self.pad(group, place, marks);
        if let Some(mark) = marks.get_mut(place).filter(|mark| mark.reached) {
            mark.pad = pad;
        }
    }

    // The open spots around each reached one.
    fn steps(&self, marks: &[Mark]) -> usize {
        let mut steps = 0usize;
        for (place, mark) in marks.iter().enumerate() {
            if mark.reached
                && let Some(site) = self.site(place)
            {
                steps = steps.saturating_add(self.around(site).iter().flatten().count());
            }
        }
        steps
    }
}

// How many places come before one, by length and then by number.
fn rank_of(lengths: &[Option<Far>], place: usize, far: Far) -> u16 {
    let mut rank = 0u16;
    for (other, length) in lengths.iter().enumerate() {
        let before = length.is_some_and(|length| length < far || length == far && other < place);
        rank = rank.saturating_add(u16::from(before));
    }
    rank
}
