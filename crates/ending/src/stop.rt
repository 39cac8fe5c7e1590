// Why a program ends early, and how it ends.
ghost use Rattle.std.specs.Prelude.{◌≡◌, Ok, Err};
ghost use Rattle.std.specs.IoError.{error_kind};
ghost use Rattle.std.specs.declared.io.ErrorKind.TheVariants.{OutOfMemory};
ghost use Rattle.ending.specs.Ends.{line, refusal_text, setting_text, stop_text};
ghost use Rattle.ending.specs.declared.stop.Stop.TheVariants as stop;
ghost use Rattle.sheets.specs.Words.{fault_text};

use crate::output::Output;
use gauges::SentBack;
use sheets::Fault;
use std::alloc::AllocError;
use std::{fmt, io};

/// What stops a program.
#[derive(Drop)]
pub enum Stop {
    /// A sheet at fault.
    Fault(Fault),
    /// A call that a plate sent back: 1 to 8.
    Refused(plate::Refusal),
    /// A ruler or a layer that is not made as asked: 9 and 10.
    Setting(gauges::Refusal),
    /// An error of memory, input or output.
    System(io::Error),
}

impl From<Fault> for Stop {
    ghost from_gives = { λ fault end. end ≡ stop.Fault fault };

    fn from(fault: Fault) -> Stop {
        Stop::Fault(fault)
    }
}

impl From<plate::Refusal> for Stop {
    ghost from_gives = { λ refusal end. end ≡ stop.Refused refusal };

    fn from(refusal: plate::Refusal) -> Stop {
        Stop::Refused(refusal)
    }
}

impl From<gauges::Refusal> for Stop {
    ghost from_gives = { λ setting end. end ≡ stop.Setting setting };

    fn from(setting: gauges::Refusal) -> Stop {
        Stop::Setting(setting)
    }
}

/// The gauge is dropped; only the refusal is kept.
impl<G: Drop> From<SentBack<G>> for Stop {
    ghost from_gives = { λ back end. end ≡ stop.Setting back.refusal };

    fn from(back: SentBack<G>) -> Stop {
        Stop::Setting(back.refusal)
    }
}

impl From<io::Error> for Stop {
    ghost from_gives = { λ error end. end ≡ stop.System error };

    fn from(error: io::Error) -> Stop {
        Stop::System(error)
    }
}

/// Want of memory becomes the error of the system that says so.
impl From<AllocError> for Stop {
    ghost from_gives = { λ _ end.
        (error : _) × (end ≡ stop.System error) × (error_kind error ≡ OutOfMemory) };

    fn from(error: AllocError) -> Stop {
        Stop::System(error.into())
    }
}

/// A fault as it prints itself, or `refused` and the number of a refusal.
impl fmt::Display for Stop {
    ghost output = { stop_text };

    fn fmt<W: fmt::Write>(&self, f: &mut fmt::Formatter<W>) -> fmt::Result {
        match self {
            Stop::Fault(fault) => write!(f, "{fault}"),
            Stop::Refused(refusal) => write!(f, "refused\t{}", refusal.number()),
            Stop::Setting(setting) => write!(f, "refused\t{}", setting.number()),
            Stop::System(error) => write!(f, "{error}"),
        }
    }
}

/// Ends a program: prints the fault or the refusal that stopped it as a line, and hands an error of the system on. With nothing
/// to print the place is as it was.
pub fn finish<O: Output>(out: &mut O, outcome: Result<(), Stop>) -> io::Result<()>
    ensures done { outcome ≡ Ok tt → (result ≡ Ok tt) × (out.new ≡ out.old) }
    ensures fault { (fault : _) → outcome ≡ Err (stop.Fault fault) →
        O.print_gives out.old (line (fault_text fault)) result out.new }
    ensures refusal { (refusal : _) → outcome ≡ Err (stop.Refused refusal) →
        O.print_gives out.old (line (refusal_text refusal)) result out.new }
    ensures setting { (setting : _) → outcome ≡ Err (stop.Setting setting) →
        O.print_gives out.old (line (setting_text setting)) result out.new }
    ensures system { (error : _) → outcome ≡ Err (stop.System error) →
        (result ≡ Err error) × (out.new ≡ out.old) }
{
    match outcome {
        Ok(()) => Ok(()),
        Err(Stop::System(error)) => Err(error),
        Err(stop) => out.print(format_args!("{stop}\n")),
    }
}
