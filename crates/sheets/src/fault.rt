// Where and why a sheet was sent back.
ghost use Rattle.std.specs.Prelude.{◌≡◌, Some};
ghost use Rattle.sheets.specs.Words.{fault_text, layer_of, name_of};
ghost use Rattle.sheets.specs.Lines.{fault_at};

use crate::{Place, Refusal};
use std::fmt;

/// Who found the fault: the plate's own call, the reading of a figure, or the reading of the sheet.
#[derive(Clone, Copy, Debug, PartialEq, Eq)]
pub enum Layer {
    Plate,
    Figure,
    Sheet,
}

impl Layer {
    /// The word that `Display` prints, for whoever wants it alone: `plate`, `figure` or `sheet`.
    pub fn name(self) -> &'static str
        ensures { result.now ≡ name_of self }
    {
        match self {
            Layer::Plate => "plate",
            Layer::Figure => "figure",
            Layer::Sheet => "sheet",
        }
    }
}

impl fmt::Display for Layer {
    ghost output = { λ layer. Some (name_of layer) };

    fn fmt<W: fmt::Write>(&self, f: &mut fmt::Formatter<W>) -> fmt::Result {
        f.write_str(self.name())
    }
}

/// A refusal with the line, counted from 1, and the field at fault; the line's word is field 0, and stands for the line as a whole.
/// A sheet that is too long has line 0.
#[derive(Clone, Copy, Debug, PartialEq, Eq)]
pub struct Fault {
    pub line: usize,
    pub field: u8,
    pub refusal: Refusal,
}

impl Fault {
    /// The fault of a field.
    pub fn at(place: Place, refusal: Refusal) -> Fault
        ensures { result ≡ fault_at place.line place.field refusal }
    {
        Fault {
            line: place.line,
            field: place.field,
            refusal,
        }
    }

    /// Who found it, which follows from the refusal.
    pub fn layer(self) -> Layer
        ensures { result ≡ layer_of self.refusal }
    {
        match self.refusal {
            Refusal::Plate(_) => Layer::Plate,
            Refusal::Figure => Layer::Figure,
            Refusal::Line | Refusal::Order | Refusal::Long => Layer::Sheet,
        }
    }
}

impl fmt::Display for Fault {
    ghost output = { λ fault. Some (fault_text fault) };

    fn fmt<W: fmt::Write>(&self, f: &mut fmt::Formatter<W>) -> fmt::Result {
        let layer = self.layer();
        let number = self.refusal.number();
        write!(f, "fault\t{layer}\t{}\t{}\t{number}", self.line, self.field)
    }
}
