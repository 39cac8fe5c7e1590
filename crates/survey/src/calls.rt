// A line of a call: its word and its figures.
use plate::Edit;
use runs::{Call, RulerCall};
use sheets::{Fault, Keyword, Line, Place, Refusal, Token};

// The words of lines: those of a sheet, and those of the other calls.
#[derive(Clone, Copy, PartialEq, Eq)]
enum Word {
    Sheet(Keyword),
    Measure,
    Distance,
    Nearest,
    Way,
    Gap,
    Route,
    Seal,
    Break,
}

impl Word {
    fn of(word: &[u8]) -> Option<Word> {
        match word {
            b"measure" => Some(Word::Measure),
            b"distance" => Some(Word::Distance),
            b"nearest" => Some(Word::Nearest),
            b"way" => Some(Word::Way),
            b"gap" => Some(Word::Gap),
            b"route" => Some(Word::Route),
            b"seal" => Some(Word::Seal),
            b"break" => Some(Word::Break),
            _ => Keyword::try_from(word).ok().map(Word::Sheet),
        }
    }

    // How many figures follow the word.
    fn figures(self) -> usize {
        match self {
            Word::Sheet(keyword) => keyword.figures(),
            Word::Distance | Word::Nearest | Word::Way => 3,
            Word::Measure => 1,
            Word::Gap | Word::Route | Word::Seal | Word::Break => 0,
        }
    }

    // The call of this word, if it is one on an open plate. A way's list and a route's marks are as long as the largest plate needs.
    fn call(self, figures: [u16; 4]) -> Option<RulerCall> {
        let [row, column, height, pad] = figures;
        // What stands first and third where the figures are no place on the board.
        let (first, second, group) = (row, column, height);
        let room = crate::CELLS;
        let call = match self {
            Word::Gap => return Some(RulerCall::Gap),
            Word::Route => return Some(RulerCall::Route { room }),
            Word::Sheet(Keyword::Plate) => return None,
            Word::Sheet(Keyword::Cell) => Call::Edit(Edit::Set {
                row,
                column,
                height,
                pad,
            }),
            Word::Sheet(Keyword::Bar) => Call::Edit(Edit::Bar { row, column }),
            Word::Sheet(Keyword::Enrol) => Call::Edit(Edit::Enrol {
                pad: first,
                group: second,
            }),
            Word::Measure => Call::Measure { group: first },
            Word::Distance => Call::Distance { row, column, group },
            Word::Nearest => Call::Nearest { row, column, group },
            Word::Way => Call::Way {
                row,
                column,
                group,
                room,
            },
            Word::Seal => Call::Seal,
            Word::Break => Call::Break,
        };
        Some(RulerCall::Plain(call))
    }
}

// The word of a line, if it is one.
fn word_of(token: Option<Token<'_>>) -> Option<Word> {
    match token {
        Some(Token::Word { bytes, .. }) => Word::of(bytes),
        _ => None,
    }
}

/// Reads a line: 11 comes first, then 13 where no plate is open or a plate line comes again, then 12 for each figure.
pub fn read_call(
    bytes: &[u8],
    ended: bool,
    number: usize,
    opened: bool,
) -> Result<RulerCall, Fault> {
    let place = Place {
        line: number,
        field: 0,
    };
    let mut line = Line::new(bytes, number);
    let tabs = line.tabs();
    let word = word_of(line.token());
    let Some(word) = word.filter(|word| ended && word.figures() == tabs) else {
        return Err(Fault::at(place, Refusal::Line));
    };
    if !opened || word == Word::Sheet(Keyword::Plate) {
        return Err(Fault::at(place, Refusal::Order));
    }
    let mut figures = [0u16; 4];
    for slot in &mut figures {
        let Some(token) = line.token() else {
            break;
        };
        *slot = token.figure()?;
    }
    word.call(figures).ok_or(Fault::at(place, Refusal::Order))
}

#[cfg(test)]
mod tests {
    use super::*;

    // A line, whether it is ended and a plate open, and the field and the refusal of its fault.
    const FAULTS: [(&[u8], bool, bool, u8, Refusal); 10] = [
        (b"", true, true, 0, Refusal::Line),
        (b"walk", true, true, 0, Refusal::Line),
        (b"gap\t1", true, true, 0, Refusal::Line),
        (b"way\t1\t1", true, true, 0, Refusal::Line),
        (b"seal", false, true, 0, Refusal::Line),
        (b"measure\tx", true, false, 0, Refusal::Order),
        (b"plate\tx\t1", true, true, 0, Refusal::Order),
        (b"plate\t1\t1", true, true, 0, Refusal::Order),
        (b"way\t1\t01\tx", true, true, 2, Refusal::Figure),
        (b"cell\t1\t1\t1\t65536", true, true, 4, Refusal::Figure),
    ];

    #[test]
    fn lines_are_judged_in_order(rt: HostRuntime) {
        for (line, ended, opened, field, refusal) in FAULTS {
            let fault = Fault {
                line: 7,
                field,
                refusal,
            };
            assert_eq!(rt; read_call(line, ended, 7, opened), Err(fault));
        }
    }
}
