// What is measured.
ghost use Rattle.std.specs.Prelude.{◌≤◌, length};
ghost use Rattle.board.specs.Sizes.{area};

use board::{Cell, Size};

// A board, by a gauge, from the sources of a group. The map and the queue are no part of it: once a
// map's reference is in a struct, the proof of `measure_group` does not know any more what the map
// holds at the end.
#[derive(Drop)]
pub(crate) struct Measurement<'a, G> {
    pub(crate) gauge: &'a G,
    pub(crate) size: Size,
    pub(crate) cells: &'a [Cell],
    pub(crate) groups: &'a [u8],
    pub(crate) group: u8,
    ghost within: { area size ≤ length cells.now },
}
