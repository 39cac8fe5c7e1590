// Where a program prints.
ghost use Rattle.std.specs.Prelude.{ℕ, List, IfSome, OnOk, Result};
ghost use Rattle.std.specs.Io.KnownBytes.{Appends};
ghost use Rattle.std.specs.declared.io.Error.{Error};

use std::{fmt, io};

/// A place that texts are printed to.
pub trait Output {
    // Relates the place before, the bytes of a text, how printing them ended, and the place after.
    ghost print_gives: { Self → List ℕ → Result (Unit {0}) Error → Self → Type 0 };

    /// Prints a text and nothing else.
    fn print<D: fmt::Display + Drop>(&mut self, text: D) -> io::Result<()>
        ensures gives { IfSome (D.output text) (λ bytes. print_gives self.old bytes result self.new) };
}

// A writer holds the bytes of the text behind those that it held, where it says what it holds and printing succeeds.
impl<W: io::Write> Output for W {
    ghost print_gives = { λ before bytes result after.
        OnOk result (Appends (W.contents before) (W.contents after) bytes) };

    fn print<D: fmt::Display + Drop>(&mut self, text: D) -> io::Result<()> {
        write!(self, "{text}")
    }
}
