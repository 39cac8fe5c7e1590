// The edits of a plate as values.

/// An edit of a plate. The numbers are those that the call of its name takes, so that bad ones may come.
#[derive(Clone, Copy, Debug, PartialEq, Eq)]
pub enum Edit {
    /// Gives a cell its height and pad, and opens it.
    Set {
        row: u16,
        column: u16,
        height: u16,
        pad: u16,
    },
    /// Bars a cell, with height and pad 0.
    Bar {
        row: u16,
        column: u16,
    },
    /// Puts a pad into a group, or with group 0 into none.
    Enrol {
        pad: u16,
        group: u16,
    },
}
