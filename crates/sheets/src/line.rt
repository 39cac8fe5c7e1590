// The fields of a line as tokens, and what a line of a sheet asks for.
ghost use Rattle.std.specs.Prelude.{◌≡◌, ◌+◌, ◌-◌, ◌<◌, ◌==◌, [], length, drop, count_by, position, slice_get, slice_index_or, option_map, Some, MatchOption, OnOk};
ghost use Rattle.std.specs.Option.{option_copied};
ghost use Rattle.sheets.specs.Lines.{dimensions_in, edit_in, fault_at, figure_in, keyword_in, keyword_of, keyword_or_fault, pair_in};
ghost use Rattle.sheets.specs.Readers.{Parts, Reads, Unended};
ghost use Rattle.sheets.specs.Tokens.{behind_next, fields_left, field_of, left_of, next_field, whole_line};

use crate::{Fault, Keyword, Place, Refusal, Token};
use board::Dimensions;
use plate::Edit;

// The first place of a byte.
fn place_of(bytes: &[u8], byte: u8) -> Option<usize>
    ensures { result ≡ position (λ b. b == byte) bytes.now }
{
    bytes.iter().position(|b| *b == byte)
}

// How often a byte stands there.
fn count_of(bytes: &[u8], byte: u8) -> usize
    ensures { result ≡ count_by (λ b. b == byte) bytes.now }
{
    bytes.iter().filter(|b| **b == byte).count()
}

// What stands before and behind the first place of a byte.
pub(crate) fn split_once(bytes: &[u8], byte: u8) -> Option<(&[u8], &[u8])>
    ensures { MatchOption result (Unended byte bytes.now)
        (λ parts. Parts byte bytes.now parts.0.now parts.1.now) }
{
    let at = place_of(bytes, byte)?;
    Some((&bytes[..at], &bytes[at + 1..]))
}

/// A line's fields as tokens, one after another. A tab parts two fields, so that a line of no byte has one empty field.
///
/// Sheets are read through it, and so can other lines of a word and figures be: before the first token `tabs` says how many figures the
/// line has, the first token's bytes are the word, which a reader looks up among its own, and `Token::figure` reads each token behind it.
/// A token has its place, for a fault of the reader's own by `Fault::at`.
#[derive(Drop)]
pub struct Line<'a> {
    rest: Option<&'a [u8]>,
    place: Place,
}

impl<'a> Line<'a> {
    /// The line of this number, counted from 1, without its end. No field is read yet.
    pub fn new(bytes: &'a [u8], number: usize) -> Line<'a>
        ensures { left_of result ≡ whole_line bytes.now number }
    {
        Line {
            rest: Some(bytes),
            place: Place {
                line: number,
                field: 0,
            },
        }
    }

    /// How many tabs are left: as many as fields behind the next one.
    pub fn tabs(&self) -> usize
        ensures { result ≡ length (left_of self.now).fields - 1 }
    {
        match self.rest {
            Some(rest) => count_of(rest, b'\t'),
            None => 0,
        }
    }

    /// The next field, or none behind the last: the first is a word, and each other a figure, with its place. The number of a field stays
    /// at 255 from the 256th field on.
    pub fn token(&mut self) -> Option<Token<'a>>
        ensures token { option_map field_of result ≡ next_field (left_of self.old) }
        ensures left { left_of self.new ≡ behind_next (left_of self.old) }
    {
        let place = self.place;
        self.place = place.next();
        Some(Token::at(place, self.field()?))
    }

    // The bytes of the next field, up to a tab or the line's end.
    fn field(&mut self) -> Option<&'a [u8]>
        ensures field { option_copied result ≡ slice_get (fields_left self.old.rest) 0 }
        ensures place { self.new.place ≡ self.old.place }
        ensures rest { fields_left self.new.rest ≡ drop 1 (fields_left self.old.rest) }
    {
        let rest = self.rest?;
        match split_once(rest, b'\t') {
            Some((field, behind)) => {
                self.rest = Some(behind);
                Some(field)
            }
            None => {
                self.rest = None;
                Some(rest)
            }
        }
    }

    // A fault of the line as a whole.
    fn fault(&self, refusal: Refusal) -> Fault
        ensures { result ≡ fault_at self.now.place.line 0 refusal }
    {
        Fault {
            line: self.place.line,
            field: 0,
            refusal,
        }
    }

    // The next field as a keyword.
    fn word(&mut self) -> Result<Keyword, Fault>
        requires { self.old.place.field ≡ 0 }
        ensures keyword { result ≡ keyword_or_fault self.old.place.line 0
            (keyword_of (slice_index_or (fields_left self.old.rest) 0 [])) }
        ensures after { Reads 1 self.old self.new }
    {
        let place = self.place;
        match self.token() {
            Some(token) => token.keyword(),
            None => Err(Fault::at(place, Refusal::Line)),
        }
    }

    // The line's word, which as many figures have to follow as it asks for.
    fn keyword(&mut self) -> Result<Keyword, Fault>
        requires { self.old.place.field ≡ 0 }
        ensures keyword { result ≡ keyword_in self.old.place.line (fields_left self.old.rest) }
        ensures after { OnOk result (Reads 1 self.old self.new) }
    {
        let keyword = self.word()?;
        // The tab behind the word is passed: one fewer than figures is left.
        if self.tabs() != keyword.figures() - 1 {
            return Err(self.fault(Refusal::Line));
        }
        Ok(keyword)
    }

    // The next field as a figure.
    fn figure(&mut self) -> Result<u16, Fault>
        requires behind { 0 < self.old.place.field }
        requires numbered { self.old.place.field < 255 }
        ensures figure { (fields : _) → fields_left self.old.rest ≡ drop self.old.place.field fields →
            result ≡ figure_in self.old.place.line fields self.old.place.field }
        ensures after { Reads 1 self.old self.new }
    {
        let place = self.place;
        match self.token() {
            Some(token) => token.figure(),
            None => Err(Fault::at(place, Refusal::Figure)),
        }
    }

    // The next two figures. Inlined, so that a line's fields stay in registers: sheets of short lines take a fifth less time.
    #[inline(always)]
    fn pair(&mut self) -> Result<(u16, u16), Fault>
        requires behind { 0 < self.old.place.field }
        requires numbered { self.old.place.field < 254 }
        ensures pair { (fields : _) → fields_left self.old.rest ≡ drop self.old.place.field fields →
            result ≡ pair_in self.old.place.line fields self.old.place.field }
        ensures after { OnOk result (Reads 2 self.old self.new) }
    {
        Ok((self.figure()?, self.figure()?))
    }

    // The rows and columns of a sheet's first line.
    pub(crate) fn dimensions(mut self) -> Result<Dimensions, Fault>
        requires { self.place.field ≡ 0 }
        ensures { result ≡ dimensions_in self.entry.place.line (fields_left self.entry.rest) }
    {
        match self.keyword()? {
            Keyword::Plate => {
                let (rows, columns) = self.pair()?;
                Ok(Dimensions { rows, columns })
            }
            Keyword::Cell | Keyword::Bar | Keyword::Enrol => Err(self.fault(Refusal::Order)),
        }
    }

    // What a line after the first asks for.
    pub(crate) fn edit(mut self) -> Result<Edit, Fault>
        requires { self.place.field ≡ 0 }
        ensures { result ≡ edit_in self.entry.place.line (fields_left self.entry.rest) }
    {
        match self.keyword()? {
            Keyword::Plate => Err(self.fault(Refusal::Order)),
            Keyword::Cell => {
                let (row, column) = self.pair()?;
                let (height, pad) = self.pair()?;
                Ok(Edit::Set {
                    row,
                    column,
                    height,
                    pad,
                })
            }
            Keyword::Bar => {
                let (row, column) = self.pair()?;
                Ok(Edit::Bar { row, column })
            }
            Keyword::Enrol => {
                let (pad, group) = self.pair()?;
                Ok(Edit::Enrol { pad, group })
            }
        }
    }
}
