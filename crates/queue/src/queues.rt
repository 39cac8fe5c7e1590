// The priority queue.
ghost use Rattle.std.specs.Prelude.{◌≡◌, ◌≤◌, ◌==◌, length, take};
ghost use Rattle.queue.specs.Heaps.{Heap};

use crate::{Order, replace_first, sift_up};
use std::marker::PhantomData;

// Names the order and holds nothing of it, so that a queue goes to another thread, and is shared, whatever its order's type is.
#[derive(Drop)]
struct ByOrder<O> {
    order: PhantomData<O>,
}

unsafe impl<O> Send for ByOrder<O> {}

unsafe impl<O> Sync for ByOrder<O> {}

impl<O> ByOrder<O> {
    fn new() -> ByOrder<O> {
        ByOrder { order: PhantomData }
    }
}

/// A priority queue in the front part of a lent slice, which is a heap. It takes no memory of its own, so the part's length stands beside it.
#[derive(Drop)]
pub struct Queue<'a, E, O: Order<Entry = E>> {
    entries: &'a mut [E],
    len: usize,
    order: ByOrder<O>,
    ghost within: { len ≤ length entries.now },
    ghost ordered: { Heap O.le (take len entries.now) },
}

impl<'a, E: Copy, O: Order<Entry = E>> Queue<'a, E, O> {
    ghost use Rattle.queue.specs.Queues.{Pops, Pushes};

    /// An empty queue, with room for as many entries as the slice has.
    pub fn new(entries: &'a mut [E]) -> Queue<'a, E, O>
        ensures len { result.len ≡ 0 }
        ensures entries { result.entries.now ≡ entries.old }
    {
        Queue {
            entries,
            len: 0,
            order: ByOrder::new(),
        }
    }

    /// The same entries in the same places by another order, by which they have to be a heap, as no entry or one is by any.
    pub fn reordered<P: Order<Entry = E>>(self) -> Queue<'a, E, P>
        requires { Heap P.le (take self.len self.entries.now) }
        ensures len { result.len ≡ self.entry.len }
        ensures entries { result.entries.now ≡ self.entry.entries.now }
    {
        let Queue { entries, len, .. } = self;
        Queue {
            entries,
            len,
            order: ByOrder::new(),
        }
    }

    /// How many entries are queued.
    pub fn len(&self) -> usize
        ensures { result ≡ self.now.len }
    {
        self.len
    }

    /// Whether none is.
    pub fn is_empty(&self) -> bool
        ensures { result ≡ (self.now.len == 0) }
    {
        self.len == 0
    }

    /// One entry more, or false where the slice is full, as a set answers an insertion: there is no more to say.
    pub fn push(&mut self, entry: E) -> bool
        ensures { Pushes self.old entry self.new result }
    {
        let len = self.len;
        if len >= self.entries.len() {
            return false;
        }
        sift_up::<O>(&mut self.entries[0..len + 1], len, entry);
        self.len = len + 1;
        true
    }

    /// Takes the least entry out, if there is one.
    pub fn pop(&mut self) -> Option<E>
        ensures { Pops O.le self.old self.new result }
    {
        if self.len == 0 {
            return None;
        }
        let least = self.entries[0];
        let len = self.len - 1;
        self.len = len;
        if len > 0 {
            let last = self.entries[len];
            replace_first::<O>(&mut self.entries[0..len], last);
        }
        Some(least)
    }
}
