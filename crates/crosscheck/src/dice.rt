// A fixed source of numbers that look like chance, so that each run tries the same boards.

#[derive(Drop)]
pub struct Dice {
    state: u64,
}

impl Dice {
    pub fn new(seed: u64) -> Dice {
        Dice { state: seed | 1 }
    }

    // The next number, by shifts and exclusive ors.
    fn next(&mut self) -> u64 {
        let mut x = self.state;
        x ^= x.wrapping_shl(13);
        x ^= x >> 7;
        x ^= x.wrapping_shl(17);
        self.state = x;
        x >> 16
    }

    // A number below `end`, and 0 where that is 0.
    pub fn below(&mut self, end: u64) -> u64 {
        if end == 0 { 0 } else { self.next() % end }
    }

    // A number from `first` to `last`.
    pub fn from_to(&mut self, first: u16, last: u16) -> u16 {
        let width = u64::from(last.saturating_sub(first)) + 1;
        first.saturating_add((self.below(width) & 0xffff) as u16)
    }

    // True once in so many times.
    pub fn once_in(&mut self, times: u64) -> bool {
        self.below(times) == 0
    }
}
