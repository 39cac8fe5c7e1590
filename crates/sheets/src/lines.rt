// Reading a sheet line by line.
ghost use Rattle.std.specs.Prelude.{◌≡◌, ◌+◌, [], length, Ok, Err, MatchResult, OnOk, OnErr};
ghost use Rattle.sheets.specs.declared.refusal.Refusal.TheVariants as refusal;
ghost use Rattle.sheets.specs.Lines.{ended_lines, fault_at, too_long};
ghost use Rattle.sheets.specs.Readers.{Goes, Parts, Passes, next_edit, next_plate, unread};

use crate::line::{Line, split_once};
use crate::{Fault, Refusal, SheetReader};
use board::Dimensions;
use plate::Edit;

/// The longest sheet, in bytes.
pub const LONGEST: usize = 32768;

impl<'a> SheetReader<'a> {
    /// A reader at the start of a sheet.
    pub fn new(sheet: &'a [u8]) -> SheetReader<'a>
        ensures sheet { result.sheet ≡ sheet.entry }
        ensures place { result.place ≡ 0 }
        ensures line { result.line ≡ 0 }
    {
        SheetReader {
            sheet,
            place: 0,
            line: 0,
        }
    }

    /// How many lines are read: the number of the last one, counted from 1.
    pub fn line(&self) -> usize
        ensures { result ≡ self.now.line }
    {
        self.line
    }

    // A fault of the next line as a whole.
    fn fault(&self, refusal: Refusal) -> Fault
        ensures { result ≡ fault_at (self.now.line + 1) 0 refusal }
    {
        Fault {
            line: self.line + 1,
            field: 0,
            refusal,
        }
    }

    // Whether the sheet is too long, which is judged before its first line.
    fn check_length(&self) -> Result<(), Fault>
        ensures { result ≡ too_long (length self.now.sheet.now) }
    {
        if self.sheet.len() > LONGEST {
            return Err(Fault {
                line: 0,
                field: 0,
                refusal: Refusal::Long,
            });
        }
        Ok(())
    }

    // The next line, without its end.
    fn next_line(&self) -> Result<&'a [u8], Fault>
        ensures { MatchResult result
            (λ line. (rest : _) × Parts 10 (unread self.now) line.now rest)
            (λ fault.
            (ended_lines (unread self.now) ≡ []) ×
            (fault ≡ fault_at (self.now.line + 1) 0 refusal.Line)) }
    {
        let unread = &self.sheet[self.place..];
        let (line, _) = split_once(unread, b'\n').ok_or(self.fault(Refusal::Line))?;
        Ok(line)
    }

    // Moves past the next line.
    fn pass(&mut self, line: &[u8])
        requires { (rest : _) × Parts 10 (unread self.old) line.now rest }
        ensures { Passes self.old self.new }
    {
        self.place += line.len() + 1;
        self.line += 1;
    }

    /// Reads the sheet's first line, which gives the plate's dimensions. Sent back: 14, then 13 where a line is read already or no byte is
    /// left, and the line's own 11 to 13. After a fault the reader is where it was.
    pub fn plate_line(&mut self) -> Result<Dimensions, Fault>
        ensures answer { result ≡ next_plate self.old }
        ensures passed { OnOk result (Passes self.old self.new) }
        ensures fault { OnErr result (self.new ≡ self.old) }
    {
        self.check_length()?;
        if self.line > 0 || self.place == self.sheet.len() {
            return Err(self.fault(Refusal::Order));
        }
        let line = self.next_line()?;
        let dimensions = Line::new(line, self.line + 1).dimensions()?;
        self.pass(line);
        Ok(dimensions)
    }

    /// Reads the next line after the first, if there is one. Sent back: 14 and 13 where no line is read yet, and the line's own 11 to 13.
    /// After a fault, and at the sheet's end, the reader is where it was.
    pub fn next_edit(&mut self) -> Result<Option<Edit>, Fault>
        ensures answer { result ≡ next_edit self.old }
        ensures after { Goes self.old self.new result }
    {
        if self.line == 0 {
            self.check_length()?;
            return Err(self.fault(Refusal::Order));
        }
        if self.place == self.sheet.len() {
            return Ok(None);
        }
        let line = self.next_line()?;
        let edit = Line::new(line, self.line + 1).edit()?;
        self.pass(line);
        Ok(Some(edit))
    }
}
