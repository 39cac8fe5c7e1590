// The heap: an entry is at most its two children, those of `i` standing at `2 * i + 1` and `2 * i + 2`.
ghost use Rattle.std.specs.Prelude.{◌≡◌, ◌+◌, ◌*◌, ◌<◌, ◌≤◌, true, length, slice_index_or, slice_set};
ghost use Rattle.queue.specs.Heaps.{BelowAll, Heap, Holed};
ghost use Rattle.std.specs.List.Sorted.{IsPermutation};

use crate::Order;

/// Fills a hole with an entry that comes after none of its children, once every greater ancestor has moved down.
pub fn sift_up<O: Order>(entries: &mut [O::Entry], at: usize, moving: O::Entry)
    requires within { at < length entries.old }
    requires holed { Holed O.le entries.old at }
    requires below { BelowAll O.le entries.old at moving }
    ensures ordered { Heap O.le entries.new }
    ensures shuffled { IsPermutation (slice_set entries.old at moving) entries.new }
{
    // From child to parent, and below from parent to child: no iterator goes so.
    let mut hole = at;
    while hole > 0 {
        let parent = (hole - 1) / 2;
        let above = entries[parent];
        if O::at_most(above, moving) {
            break;
        }
        entries[hole] = above;
        hole = parent;
    }
    entries[hole] = moving;
}

// The lesser of two entries side by side.
fn lesser<O: Order>(entries: &[O::Entry], left: usize) -> usize
    requires { left + 1 < length entries.now }
    ensures beside { (left ≤ result) × (result ≤ left + 1) }
    ensures at_most_left { (d : O.Entry) → O.le (slice_index_or entries.now result d)
        (slice_index_or entries.now left d) ≡ true }
    ensures at_most_right { (d : O.Entry) → O.le (slice_index_or entries.now result d)
        (slice_index_or entries.now (left + 1) d) ≡ true }
{
    let right = left + 1;
    right - O::at_most(entries[left], entries[right]) as usize
}

/// Moves the hole at the front down to a place without children, each time to the lesser child, and says where.
pub fn sift_down<O: Order>(entries: &mut [O::Entry]) -> usize
    requires some { 0 < length entries.old }
    requires holed { Holed O.le entries.old 0 }
    ensures within { result < length entries.new }
    ensures leaf { length entries.new ≤ 2 * result + 1 }
    ensures holed { Holed O.le entries.new result }
    ensures shuffled { (x : O.Entry) →
        IsPermutation (slice_set entries.old 0 x) (slice_set entries.new result x) }
{
    let len = entries.len();
    // Entries before this place have two children.
    let full = (len - 1) / 2;
    let mut hole = 0;
    while hole < full {
        let child = lesser::<O>(entries, 2 * hole + 1);
        entries[hole] = entries[child];
        hole = child;
    }
    if hole < len / 2 {
        let child = 2 * hole + 1;
        entries[hole] = entries[child];
        hole = child;
    }
    hole
}

/// Puts an entry in the place of the first. The hole goes all the way down and the entry up from there: it comes from the
/// end of a heap, so that it seldom rises far, and each level down costs one comparison in place of two.
pub fn replace_first<O: Order>(entries: &mut [O::Entry], moving: O::Entry)
    requires some { 0 < length entries.old }
    requires holed { Holed O.le entries.old 0 }
    ensures ordered { Heap O.le entries.new }
    ensures shuffled { IsPermutation (slice_set entries.old 0 moving) entries.new }
{
    let hole = sift_down::<O>(entries);
    sift_up::<O>(entries, hole, moving);
}
