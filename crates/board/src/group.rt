// Pad groups.
ghost use Rattle.std.specs.Prelude.{◌≡◌, true, false, MatchOption};
ghost use Rattle.board.specs.Groups.{group_number, no_group};

/// One of the two groups of pads between which a gap is measured.
#[derive(Clone, Copy, Debug, PartialEq, Eq)]
pub enum Group {
    First = 1,
    Second = 2,
}

impl Group {
    /// The group of this number, or none where it is neither 1 nor 2.
    pub fn new(number: u16) -> Option<Group>
        ensures { MatchOption result (no_group number ≡ true)
            (λ group. (no_group number ≡ false) × (group_number group ≡ number)) }
    {
        match number {
            1 => Some(Group::First),
            2 => Some(Group::Second),
            _ => None,
        }
    }

    /// 1 or 2.
    pub fn number(self) -> u8
        ensures { result ≡ group_number self }
    {
        self as u8
    }
}
