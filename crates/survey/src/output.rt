// The line that is printed for a call and its answer.
use lengths::Whole;
use plate::Edit;
use runs::{Answer, Call, RulerCall};
use std::fmt;

/// A call with its answer. It displays as one line without its end, so that each line is printed at once.
#[derive(Drop)]
pub struct AnswerLine<'a> {
    pub call: RulerCall,
    pub answer: &'a Answer<Whole>,
}

impl fmt::Display for AnswerLine<'_> {
    fn fmt<W: fmt::Write>(&self, f: &mut fmt::Formatter<W>) -> fmt::Result {
        write_call(f, self.call)?;
        write_answer(f, self.call, self.answer)
    }
}

// The word of a call and its figures.
fn write_call<W: fmt::Write>(f: &mut fmt::Formatter<W>, call: RulerCall) -> fmt::Result {
    match call {
        RulerCall::Gap => write!(f, "gap"),
        RulerCall::Route { .. } => write!(f, "route"),
        RulerCall::Plain(call) => write_plain(f, call),
    }
}

fn write_plain<W: fmt::Write>(f: &mut fmt::Formatter<W>, call: Call) -> fmt::Result {
    match call {
        Call::Edit(edit) => write_edit(f, edit),
        Call::Measure { group } => write!(f, "measure\t{group}"),
        Call::Distance { row, column, group } => write!(f, "distance\t{row}\t{column}\t{group}"),
        Call::Nearest { row, column, group } => write!(f, "nearest\t{row}\t{column}\t{group}"),
        Call::Way {
            row,
            column,
            group,
            ..
        } => write!(f, "way\t{row}\t{column}\t{group}"),
        Call::Seal => write!(f, "seal"),
        Call::Break => write!(f, "break"),
    }
}

fn write_edit<W: fmt::Write>(f: &mut fmt::Formatter<W>, edit: Edit) -> fmt::Result {
    match edit {
        Edit::Set {
            row,
            column,
            height,
            pad,
        } => write!(f, "cell\t{row}\t{column}\t{height}\t{pad}"),
        Edit::Bar { row, column } => write!(f, "bar\t{row}\t{column}"),
        Edit::Enrol { pad, group } => write!(f, "enrol\t{pad}\t{group}"),
    }
}

// What was done by a call that has nothing else to say.
fn done(call: RulerCall) -> &'static str {
    match call {
        RulerCall::Plain(Call::Edit(Edit::Set { .. })) => "set",
        RulerCall::Plain(Call::Edit(Edit::Bar { .. })) => "barred",
        RulerCall::Plain(Call::Edit(Edit::Enrol { .. })) => "enrolled",
        RulerCall::Plain(Call::Seal) => "sealed",
        RulerCall::Plain(Call::Break) => "broken",
        _ => "done",
    }
}

// The answer, behind the call.
fn write_answer<W: fmt::Write>(
    f: &mut fmt::Formatter<W>,
    call: RulerCall,
    answer: &Answer<Whole>,
) -> fmt::Result {
    match answer {
        Answer::Done => write!(f, "\t{}", done(call)),
        Answer::Measured(counts) => {
            write!(f, "\treached\t{}\tsteps\t{}", counts.reached, counts.steps)
        }
        Answer::Distance(Some(length)) => write!(f, "\t{}", length.units),
        Answer::Nearest(Some(pad)) => write!(f, "\t{pad}"),
        Answer::Distance(None) | Answer::Nearest(None) => write!(f, "\tunreached"),
        Answer::Gap(Some(length)) => write!(f, "\t{}", length.units),
        Answer::Gap(None) => write!(f, "\tnone"),
        Answer::Way(cells) => write_way(f, cells),
        Answer::Route { marks, count } => write_route(f, marks, *count),
        Answer::Refused(refusal) => write!(f, "\trefused\t{}", refusal.number()),
        Answer::NotAllowed => write!(f, "\tnot allowed"),
    }
}

// How many cells a way has, and their numbers.
fn write_way<W: fmt::Write>(f: &mut fmt::Formatter<W>, cells: &[u16]) -> fmt::Result {
    write!(f, "\t{}", cells.len())?;
    for cell in cells {
        write!(f, "\t{cell}")?;
    }
    Ok(())
}

// How many cells are marked, and their numbers.
fn write_route<W: fmt::Write>(
    f: &mut fmt::Formatter<W>,
    marks: &[u8],
    count: usize,
) -> fmt::Result {
    write!(f, "\t{count}")?;
    for (cell, mark) in marks.iter().enumerate() {
        if *mark == 1 {
            write!(f, "\t{cell}")?;
        }
    }
    Ok(())
}
