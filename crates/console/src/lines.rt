// Lines put together from their parts, in place.
ghost use Rattle.std.specs.Prelude.{◌≡◌, ◌≤◌, ◌+◌, ◌∷◌, ◌++◌, length, Err};
ghost use Rattle.arrayvec.specs.ArrayString.{array_string_len};
ghost use Rattle.console.specs.Gaps.{gap_text};

use arrayvec::ArrayString;
use itoa::Buffer;
use sheets::Fault;

/// A line that lies in the value itself. The longest is a fault's, of at most 42 bytes: its own word of 5, the
/// layer's of at most 6, a line of at most 20 digits, a field and a number of at most 3 each, 4 tabs and the end.
pub type Line = ArrayString<64>;

// A tab and a part behind what is there.
pub(crate) fn push_part(line: &mut Line, part: &str)
    requires { array_string_len line.old + 1 + length part.now ≤ 64 }
    ensures bytes { line.new.bytes ≡ line.old.bytes ++ 9 ∷ part.now }
    ensures len { array_string_len line.new ≡ array_string_len line.old + 1 + length part.now }
{
    line.push_str("\t");
    line.push_str(part);
}

// The line of a fault.
pub(crate) fn line_of_fault(fault: Fault) -> Line
    ensures { result.bytes ≡ gap_text (Err fault) }
{
    let mut digits = Buffer::new();
    let mut line = Line::new();
    line.push_str("fault");
    push_part(&mut line, fault.layer().name());
    push_part(&mut line, digits.format(fault.line));
    push_part(&mut line, digits.format(fault.field));
    push_part(&mut line, digits.format(fault.refusal.number()));
    line.push_str("\n");
    line
}
