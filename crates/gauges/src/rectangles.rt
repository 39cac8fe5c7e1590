// The rectangles of a fence.
ghost use Rattle.std.specs.Prelude.{◌≡◌, ◌≤◌, length};

use crate::Rectangle;

/// Up to 16 rectangles, in the front of the list. An array and a count, since an `ArrayVec` is not `Copy`.
#[derive(Clone, Copy)]
pub struct Rectangles {
    pub(crate) list: [Rectangle; 16],
    pub(crate) count: usize,
    ghost few: { count ≤ 16 },
    ghost long: { length list ≡ 16 },
}
