// Tokens: the fields of a line.
ghost use Rattle.std.specs.Prelude.{◌≡◌};
ghost use Rattle.sheets.specs.Lines.{figure_of, figure_on, figures_of, number_in};
ghost use Rattle.sheets.specs.Tokens.{field_at, field_of, next_place, token_figure, token_keyword};
ghost use Rattle.sheets.specs.Words.{ReadsWord};

use crate::{Fault, Refusal};

/// Where a field stands: its line, counted from 1, and its number in the line, from 0 to 255; the line's word is field 0.
#[derive(Clone, Copy, Debug, PartialEq, Eq)]
pub struct Place {
    pub line: usize,
    pub field: u8,
}

impl Place {
    // The place behind this one, whose field stays at 255 once it is there.
    pub(crate) fn next(self) -> Place
        ensures { result ≡ next_place self }
    {
        Place {
            line: self.line,
            field: self.field.saturating_add(1),
        }
    }
}

/// A field of a line, which borrows its bytes: the line's word, or a figure.
#[derive(Clone, Copy)]
pub enum Token<'a> {
    Word { bytes: &'a [u8], place: Place },
    Figure { bytes: &'a [u8], place: Place },
}

/// The words that a sheet's line can begin with.
#[derive(Clone, Copy, Debug, PartialEq, Eq)]
pub enum Keyword {
    Plate,
    Cell,
    Bar,
    Enrol,
}

impl Keyword {
    /// How many figures follow the word: 4 behind `cell`, else 2.
    pub fn figures(self) -> usize
        ensures { result ≡ figures_of self }
    {
        match self {
            Keyword::Cell => 4,
            Keyword::Plate | Keyword::Bar | Keyword::Enrol => 2,
        }
    }
}

/// Another word is a fault of its line.
impl TryFrom<&[u8]> for Keyword {
    type Error = Refusal;

    ghost try_from_gives = { λ word result. ReadsWord word.now result };

    fn try_from(word: &[u8]) -> Result<Keyword, Refusal> {
        match word {
            b"plate" => Ok(Keyword::Plate),
            b"cell" => Ok(Keyword::Cell),
            b"bar" => Ok(Keyword::Bar),
            b"enrol" => Ok(Keyword::Enrol),
            _ => Err(Refusal::Line),
        }
    }
}

// A number with one more decimal digit, if it is at most 65,535.
fn with_digit(value: u16, digit: u8) -> Option<u16>
    ensures { result ≡ figure_on value digit }
{
    match digit {
        b'0'..=b'9' => u16::try_from(u32::from(value) * 10 + u32::from(digit - b'0')).ok(),
        _ => None,
    }
}

// The number that decimal digits stand for, at most 65,535.
fn digits_value(digits: &[u8]) -> Option<u16>
    ensures { result ≡ number_in digits.now }
{
    let mut value = 0;
    for digit in digits {
        value = with_digit(value, *digit)?;
    }
    Some(value)
}

// The number of a figure: no 0 before a digit.
fn number(digits: &[u8]) -> Option<u16>
    ensures { result ≡ figure_of digits.now }
{
    match digits {
        [] | [b'0', _, ..] => None,
        _ => digits_value(digits),
    }
}

impl<'a> Token<'a> {
    // The token of a field.
    pub(crate) fn at(place: Place, bytes: &'a [u8]) -> Token<'a>
        ensures { field_of result ≡ field_at place bytes.now }
    {
        if place.field == 0 {
            Token::Word { bytes, place }
        } else {
            Token::Figure { bytes, place }
        }
    }
}

impl Token<'_> {
    /// What a sheet's word says; another word, and a figure, is a fault of the line, 11.
    pub fn keyword(self) -> Result<Keyword, Fault>
        ensures { result ≡ token_keyword self.entry }
    {
        match self {
            Token::Word { bytes, place } => {
                Keyword::try_from(bytes).map_err(|refusal| Fault::at(place, refusal))
            }
            Token::Figure { place, .. } => Err(Fault::at(place, Refusal::Line)),
        }
    }

    /// The number that a figure stands for, from 0 to 65,535. Other bytes, a 0 before a digit, and a word are a fault, 12.
    pub fn figure(self) -> Result<u16, Fault>
        ensures { result ≡ token_figure self.entry }
    {
        match self {
            Token::Figure { bytes, place } => {
                number(bytes).ok_or(Fault::at(place, Refusal::Figure))
            }
            Token::Word { place, .. } => Err(Fault::at(place, Refusal::Figure)),
        }
    }
}
