// What the input asks for: a plate, and calls on it up to the first fault.
ghost use Rattle.std.specs.Prelude.{◌≤◌, length};

use crate::calls::read_call;
use board::{Cell, Dimensions, PADS};
use ending::Stop;
use runs::{Call, RulerCall};
use sheets::lines::LONGEST;
use sheets::{Fault, Line, Refusal, SheetReader, make_edit, open_plate};
use std::alloc::{AllocError, Global};

/// What the plate is opened with once its line is read, the calls so far, and how many lines they took.
#[derive(Drop)]
pub struct Script {
    pub dimensions: Option<Dimensions>,
    pub calls: Vec<RulerCall>,
    lines: usize,
}

// Whether a line begins with a word of a sheet's lines.
fn is_of_sheet(line: &[u8]) -> bool {
    match Line::new(line, 0).token() {
        Some(word) => word.keyword().is_ok(),
        None => false,
    }
}

// Where the sheet ends: before the first line with another word than a sheet's.
fn sheet_end(input: &[u8]) -> usize
    ensures { result ≤ length input.now }
{
    let mut end = 0usize;
    for line in input.split(|byte| *byte == b'\n') {
        if !is_of_sheet(line) {
            break;
        }
        end = end.saturating_add(line.len()).saturating_add(1);
    }
    end.min(input.len())
}

impl Script {
    pub fn new(heap: Global) -> Script {
        Script {
            dimensions: None,
            calls: Vec::new(heap),
            lines: 0,
        }
    }

    /// Reads the sheet, and then the lines of calls.
    pub fn read(&mut self, heap: Global, input: &[u8]) -> Result<(), Stop> {
        // The whole input is no longer than a sheet may be.
        if input.len() > LONGEST {
            return Err(Stop::Fault(Fault {
                line: 0,
                field: 0,
                refusal: Refusal::Long,
            }));
        }
        let end = sheet_end(input);
        // Where there is no sheet, the calls' first line is judged, and then that no plate line comes first.
        if end > 0 || input.is_empty() {
            self.read_sheet(heap, &input[..end])?;
        }
        self.read_calls(&input[end..])
    }

    // Reads the sheet's lines, each of which is judged as the plate would answer it.
    fn read_sheet(&mut self, heap: Global, sheet: &[u8]) -> Result<(), Stop> {
        let mut cells = vec![in heap; Cell::BARE; crate::CELLS]?;
        let mut groups = [0u8; PADS];
        let mut reader = SheetReader::new(sheet);
        let dimensions = reader.plate_line()?;
        let mut draft = open_plate(dimensions, &mut cells, &mut groups)?;
        self.dimensions = Some(dimensions);
        while let Some(edit) = reader.next_edit()? {
            make_edit(edit, reader.line(), &mut draft, &mut cells, &mut groups)?;
            self.calls
                .push(RulerCall::Plain(Call::Edit(edit)))
                .map_err(AllocError::from)?;
        }
        self.lines = reader.line();
        Ok(())
    }

    // Reads lines of calls, each ended by a line feed.
    fn read_calls(&mut self, text: &[u8]) -> Result<(), Stop> {
        let ends = text.iter().filter(|byte| **byte == b'\n').count();
        for (at, line) in text.split(|byte| *byte == b'\n').enumerate() {
            if at == ends && line.is_empty() {
                break;
            }
            let number = self.lines.saturating_add(at).saturating_add(1);
            let call = read_call(line, at < ends, number, self.dimensions.is_some())?;
            self.calls.push(call).map_err(AllocError::from)?;
        }
        Ok(())
    }
}

#[cfg(test)]
mod tests {
    use super::*;

    // The fault of an input, and how many calls come before it.
    fn fault_of(heap: Global, input: &[u8]) -> (Option<Fault>, usize) {
        let mut script = Script::new(heap);
        match script.read(heap, input) {
            Err(Stop::Fault(fault)) => (Some(fault), script.calls.len()),
            _ => (None, script.calls.len()),
        }
    }

    // An input, and the calls, line, field and refusal of its fault.
    const FAULTS: [(&[u8], usize, usize, u8, Refusal); 7] = [
        (b"", 0, 1, 0, Refusal::Order),
        (b"gap\n", 0, 1, 0, Refusal::Order),
        (b"bar\t0\t0\n", 0, 1, 0, Refusal::Order),
        (
            b"plate\t1\t1\nbar\t0\t1\nseal\n",
            0,
            2,
            2,
            Refusal::Plate(plate::Refusal::Off),
        ),
        (
            b"plate\t1\t1\nbar\t0\t0\ngap\nbar\t9\t9\nway\t0\n",
            3,
            5,
            0,
            Refusal::Line,
        ),
        (b"plate\t1\t1\nseal\nbreak", 1, 3, 0, Refusal::Line),
        (b"plate\t1\t1\nseal\n\nseal\n", 1, 3, 0, Refusal::Line),
    ];

    #[test]
    fn faults_have_their_place(rt: HostRuntime) {
        for (input, calls, line, field, refusal) in FAULTS {
            let fault = Fault {
                line,
                field,
                refusal,
            };
            assert_eq!(rt; fault_of(rt.alloc(), input), (Some(fault), calls));
        }
    }

    #[test]
    fn the_length_is_judged_first(rt: HostRuntime) {
        let long = [b'x'; LONGEST + 1];
        let fault = Fault {
            line: 0,
            field: 0,
            refusal: Refusal::Long,
        };
        assert_eq!(rt; fault_of(rt.alloc(), &long), (Some(fault), 0));
        let line = Fault {
            line: 1,
            field: 0,
            refusal: Refusal::Line,
        };
        assert_eq!(rt; fault_of(rt.alloc(), &long[1..]), (Some(line), 0));
    }
}
