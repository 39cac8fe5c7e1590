// Calls as values.
ghost use Rattle.std.specs.Prelude.{◌≡◌};
ghost use Rattle.runs.specs.declared.call.RulerCall.{RulerCall};
ghost use Rattle.runs.specs.declared.call.RulerCall.TheVariants.{Plain};

use plate::Edit;

/// A call on an open plate. Any numbers may come: a bad one is sent back with its refusal.
#[derive(Clone, Copy, Debug, PartialEq, Eq)]
pub enum Call {
    /// Changes a cell or a pad's group. Sent back: 2 to 5, as by `plate::Draft::edit`.
    Edit(Edit),
    /// Fills the map of group 1 or 2. Sent back: 2 and 5.
    Measure {
        group: u16,
    },
    /// A cell's length in the map of group 1 or 2. Sent back: 2, 3, 5 and 6.
    Distance {
        row: u16,
        column: u16,
        group: u16,
    },
    /// A cell's pad in the map of group 1 or 2. Sent back: 2, 3, 5 and 6.
    Nearest {
        row: u16,
        column: u16,
        group: u16,
    },
    /// The cells from a cell back to its source, in a list that holds `room` cells. Sent back: 2,
    /// 3, 5 and 6, then 7 where the list is too short, or 8 over a map that was tampered with.
    Way {
        row: u16,
        column: u16,
        group: u16,
        room: usize,
    },
    /// Seals a draft. Sent back: 6.
    Seal,
    /// Breaks the seal of a sealed plate. It is never sent back.
    Break,
}

/// A call over a ruler, by which a plate has the gap and the route too.
#[derive(Clone, Copy, Debug, PartialEq, Eq)]
pub enum RulerCall {
    Plain(Call),
    /// The least length between the groups. Sent back: 2 and 6.
    Gap,
    /// The cells of the shortest paths between the groups, over `room` marks, of which each cell of
    /// the plate wants one. Sent back: 2 and 6.
    Route { room: usize },
}

/// A call that a run can be asked for: one of a gauge's run, or one of a ruler's.
pub trait RunCall: Copy {
    ghost as_call: { Self → RulerCall };

    fn as_ruler_call(&self) -> RulerCall
        ensures { result ≡ Self.as_call self.now };
}

impl RunCall for Call {
    ghost as_call = { Plain };

    fn as_ruler_call(&self) -> RulerCall {
        RulerCall::Plain(*self)
    }
}

impl RunCall for RulerCall {
    ghost as_call = { λ call. call };

    fn as_ruler_call(&self) -> RulerCall {
        *self
    }
}
