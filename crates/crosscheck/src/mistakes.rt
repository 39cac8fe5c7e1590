// Mistakes on purpose, in which the comparisons have to find something: without them a comparison of nothing would go unseen.
use crate::compare::{Forgery, compare_forged, compare_maps};
use crate::land::{Land, Spot};
use crate::recipe::{Base, Recipe};
use crate::sheet;
use ending::Stop;
use gauges::{Chessboard, WholeRuler};
use std::alloc::{AllocError, Global};

// Four open spots in a row, with pad 1 of group 1 on the first and pad 2 of group 2 on the third: the last is on no route.
fn strip(heap: Global) -> Result<Land, AllocError> {
    let mut land = Land::new(heap, 1, 4)?;
    for (column, pad) in [(0, 1), (2, 2)] {
        let spot = Spot {
            height: 0,
            pad,
            open: true,
        };
        land.put(0, column, spot);
    }
    land.groups[1] = 1;
    land.groups[2] = 2;
    Ok(land)
}

// How much is found in maps, in four kinds of readings, and in sheets.
pub fn found(heap: Global) -> Result<[u64; 6], Stop> {
    let land = strip(heap)?;
    let ruler = WholeRuler::new(Chessboard);
    let right = Recipe::plain(Base::Chessboard);
    let wrong = Recipe::plain(Base::Euclid);
    Ok([
        compare_maps(heap, &land, &ruler, &wrong)?,
        compare_forged(heap, &land, &ruler, &right, Forgery::Length)?,
        compare_forged(heap, &land, &ruler, &right, Forgery::Pad)?,
        compare_forged(heap, &land, &ruler, &right, Forgery::Link)?,
        compare_forged(heap, &land, &ruler, &right, Forgery::AllLengths)?,
        sheet::mistaken(),
    ])
}
