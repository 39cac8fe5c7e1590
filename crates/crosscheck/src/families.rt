// Families of boards.
use crate::compare::{compare_board, compare_tampered};
use crate::dice::Dice;
use crate::land::{Land, Spot};
use crate::library::Shown;
use crate::recipe::{Base, Recipe};
use ending::Stop;
use gauges::{
    Chessboard, CountedChessboard, Euclid, Fence, Rectangle, Rectangles, Ruler, ThreeFour,
    Weighting, WholeRuler,
};
use std::alloc::{AllocError, Global};

#[derive(Clone, Copy, PartialEq, Eq)]
pub enum Kind {
    Flat,
    Rough,
    Maze,
    Stripes,
    Steep,
}

// A spot of a board of this kind.
fn spot(dice: &mut Dice, kind: Kind, row: usize, column: usize) -> Spot {
    let (height, walls) = match kind {
        Kind::Flat => (0, 8),
        Kind::Rough => (dice.from_to(0, 999), 10),
        Kind::Maze => (dice.from_to(0, 9), 2),
        Kind::Stripes => (if column % 2 == 1 { 65535 } else { 0 }, 12),
        Kind::Steep => (dice.from_to(0, 65535), 9),
    };
    let wall = dice.once_in(walls) || kind == Kind::Stripes && row % 4 == 1 && column != row / 4;
    let pad = if dice.once_in(4) {
        dice.from_to(1, 6)
    } else {
        0
    };
    if wall {
        return Spot {
            height: 0,
            pad: 0,
            open: false,
        };
    }
    Spot {
        height,
        pad: (pad & 0xff) as u8,
        open: true,
    }
}

// A board of this kind and size, with pads 1 to 6 in groups by chance.
pub fn board_of(
    heap: Global,
    dice: &mut Dice,
    kind: Kind,
    rows: usize,
    columns: usize,
) -> Result<Land, AllocError> {
    let mut land = Land::new(heap, rows, columns)?;
    for place in 0..land.spots.len() {
        let (row, column) = (place / columns.max(1), place % columns.max(1));
        let spot = spot(dice, kind, row, column);
        land.put(row, column, spot);
    }
    for group in land.groups.iter_mut().skip(1).take(6) {
        *group = (dice.below(3) & 0xff) as u8;
    }
    Ok(land)
}

// A small board.
fn small(heap: Global, dice: &mut Dice, kind: Kind) -> Result<Land, AllocError> {
    let rows = usize::from(dice.from_to(1, 7));
    let columns = usize::from(dice.from_to(1, 7));
    board_of(heap, dice, kind, rows, columns)
}

// One board by each of the four rulers.
pub fn by_rulers(heap: Global, land: &Land, w: u16) -> Result<u64, Stop> {
    let chessboard = Recipe::plain(Base::Chessboard);
    let three_four = Recipe::plain(Base::ThreeFour(w));
    let a = compare_board(heap, land, &WholeRuler::new(Chessboard), &chessboard)?;
    let b = compare_board(
        heap,
        land,
        &WholeRuler::new(ThreeFour::new(w)?),
        &three_four,
    )?;
    let c = compare_board(
        heap,
        land,
        &WholeRuler::new(Euclid),
        &Recipe::plain(Base::Euclid),
    )?;
    let d = compare_board(
        heap,
        land,
        &CountedChessboard,
        &Recipe::plain(Base::Counted),
    )?;
    Ok(a.saturating_add(b).saturating_add(c).saturating_add(d))
}

// So many boards of a kind.
pub fn boards_of(heap: Global, dice: &mut Dice, kind: Kind, boards: u64) -> Result<u64, Stop> {
    let mut differences = 0u64;
    for _ in 0..boards {
        let land = small(heap, dice, kind)?;
        let w = dice.from_to(0, 64);
        differences = differences.saturating_add(by_rulers(heap, &land, w)?);
    }
    Ok(differences)
}

// So many boards whose maps are tampered with before they are read.
pub fn tampered(heap: Global, dice: &mut Dice, boards: u64) -> Result<u64, Stop> {
    let mut differences = 0u64;
    for _ in 0..boards {
        let land = small(heap, dice, Kind::Rough)?;
        let chessboard = Recipe::plain(Base::Chessboard);
        let counted = Recipe::plain(Base::Counted);
        let a = compare_tampered(heap, dice, &land, &WholeRuler::new(Chessboard), &chessboard)?;
        let b = compare_tampered(heap, dice, &land, &CountedChessboard, &counted)?;
        differences = differences.saturating_add(a).saturating_add(b);
    }
    Ok(differences)
}

// A rectangle somewhere on a small board.
fn rectangle(dice: &mut Dice) -> Rectangle {
    let (first_row, first_column) = (dice.from_to(0, 6), dice.from_to(0, 6));
    Rectangle {
        first_row,
        first_column,
        last_row: first_row.saturating_add(dice.from_to(0, 2)),
        last_column: first_column.saturating_add(dice.from_to(0, 2)),
    }
}

fn fence<G>(gauge: G, rectangle: Rectangle) -> Result<Fence<G>, Stop>
where
    G: Drop,
{
    let mut rectangles = Rectangles::new();
    rectangles.add(rectangle)?;
    Ok(Fence::new(gauge, rectangles))
}

// The layers of one board: two weightings and two rectangles.
#[derive(Clone, Copy)]
struct Layers {
    factors: [u16; 2],
    rectangles: [Rectangle; 2],
}

fn some_layers(dice: &mut Dice) -> Layers {
    Layers {
        factors: [dice.from_to(1, 16), dice.from_to(1, 16)],
        rectangles: [rectangle(dice), rectangle(dice)],
    }
}

// One board by three stacks over one ruler: a weighting, a fence, and a fence over a weighting over both again.
fn by_stacks<R: Ruler + Copy + Drop>(
    heap: Global,
    land: &Land,
    base: Base,
    ruler: R,
    layers: Layers,
) -> Result<u64, Stop>
where
    R::Length: Shown,
{
    let [k, more] = layers.factors;
    let [one, two] = layers.rectangles;
    let mut recipe = Recipe::plain(base);
    recipe.factor = u64::from(k);
    let a = compare_board(heap, land, &Weighting::new(ruler, k)?, &recipe)?;
    recipe.fenced = [Some(one), None];
    let fenced = Weighting::new(fence(ruler, one)?, k)?;
    let b = compare_board(heap, land, &fenced, &recipe)?;
    recipe.fenced = [Some(one), Some(two)];
    recipe.factor = u64::from(k) * u64::from(more);
    let stack = Weighting::new(fence(fenced, two)?, more)?;
    let c = compare_board(heap, land, &stack, &recipe)?;
    Ok(a.saturating_add(b).saturating_add(c))
}

// So many boards by stacks of layers over each of the four rulers.
pub fn stacks(heap: Global, dice: &mut Dice, boards: u64) -> Result<u64, Stop> {
    let mut differences = 0u64;
    for _ in 0..boards {
        let land = small(heap, dice, Kind::Rough)?;
        let layers = some_layers(dice);
        let w = dice.from_to(0, 64);
        let three_four = WholeRuler::new(ThreeFour::new(w)?);
        let a = by_stacks(
            heap,
            &land,
            Base::Chessboard,
            WholeRuler::new(Chessboard),
            layers,
        )?;
        let b = by_stacks(heap, &land, Base::ThreeFour(w), three_four, layers)?;
        let c = by_stacks(heap, &land, Base::Euclid, WholeRuler::new(Euclid), layers)?;
        let d = by_stacks(heap, &land, Base::Counted, CountedChessboard, layers)?;
        differences = differences.saturating_add(a).saturating_add(b);
        differences = differences.saturating_add(c).saturating_add(d);
    }
    Ok(differences)
}

// Boards at the limits: 256 rows or columns, pad 64, w 64, k 16.
pub fn limits(heap: Global, dice: &mut Dice) -> Result<u64, Stop> {
    let mut differences = 0u64;
    for (rows, columns) in [(256usize, 1usize), (1, 256), (256, 2), (1, 1)] {
        let mut land = board_of(heap, dice, Kind::Steep, rows, columns)?;
        land.groups[64] = 1;
        let last = Spot {
            height: 65535,
            pad: 64,
            open: true,
        };
        land.put(rows - 1, columns - 1, last);
        let more = by_rulers(heap, &land, 64)?;
        let mut recipe = Recipe::plain(Base::Euclid);
        recipe.factor = 16;
        let weighted = Weighting::new(WholeRuler::new(Euclid), 16)?;
        let heavy = compare_board(heap, &land, &weighted, &recipe)?;
        differences = differences.saturating_add(more).saturating_add(heavy);
    }
    Ok(differences)
}
