// Whole runs: any list of calls on a plate just opened, and what is true of every answer.
#![tactic(auto)]

ghost use Rattle.runs.specs.Steps.{GaugeRuns, RulerRuns};
ghost use Rattle.runs.specs.Sums.{PublishedRuns};

pub mod answer;
pub mod call;
mod callers;
pub mod plates;
pub mod reply;
mod ruler_steps;
pub mod running;
pub mod space;
mod steps;

pub use answer::Answer;
pub use call::{Call, RulerCall, RunCall};
use lengths::Length;
pub use plates::{Plate, Tables};
pub use reply::Reply;
pub use ruler_steps::carry_out_by_ruler;
pub use running::{run, run_by_ruler};
pub use space::Space;
pub use steps::carry_out;

/// Over every lawful gauge, whoever makes the calls and whatever the maps held when the plate was
/// opened.
pub fn calls_tell_the_truth<K: Length>()
    ensures { GaugeRuns K.kind }
{}

/// Over every lawful ruler, with the gap and the route.
pub fn ruler_calls_tell_the_truth<K: Length>()
    ensures { RulerRuns K.kind }
{}

/// By the four rulers each distance that is answered is the least sum of the step formula over the
/// lists of neighbours that end at its cell, and each gap the least over those between the groups,
/// on the plate at that moment and with no cap reached; none is answered only where there is no
/// such list.
pub fn answers_are_least_sums()
    ensures { PublishedRuns }
{}
