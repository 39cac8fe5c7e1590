// By what the calls of a run are carried out: a gauge, or a ruler with the gap and the route.
ghost use Rattle.runs.specs.Measurers.{Measurer};
ghost use Rattle.runs.specs.Replies.{CarriedOut};

use crate::plates::Plate;
use crate::{Reply, RunCall};
use board::{Cell, MapRecord};
use lengths::Length;
use queue::Offer;

// What carries out one call on a plate, over lent tables, a lent list and lent marks.
pub(crate) trait Caller {
    type Length: Length;

    type Call: RunCall;

    ghost measurer: { Self → Measurer Self.Length Self.Length.Row };

    fn carry_out(
        &self,
        plate: Plate,
        cells: &mut [Cell],
        groups: &mut [u8],
        first: &mut [MapRecord<<Self::Length as Length>::Row>],
        second: &mut [MapRecord<<Self::Length as Length>::Row>],
        entries: &mut [Offer<<Self::Length as Length>::Row>],
        list: &mut [u16],
        marks: &mut [u8],
        call: Self::Call,
    ) -> (Plate, Reply<Self::Length>)
        ensures { CarriedOut (measurer self.now) (Self.Call.as_call call)
            plate result cells.old cells.new groups.old groups.new first.old first.new
            second.old second.new entries.old entries.new list.old list.new marks.old marks.new };
}
