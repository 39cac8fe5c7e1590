// Surveys one board: reads a sheet and lines of calls from standard input, makes the calls in one run, by chessboard, and prints a line
// for each action with its answer.
#![tactic(auto)]

mod calls;
mod output;
mod script;

use board::{Cell, Dimensions, MapRecord, PADS};
use ending::{Stop, finish, read_input};
use gauges::{Chessboard, WholeRuler};
use lengths::Whole;
use measuring::ENTRIES_PER_CELL;
use output::AnswerLine;
use queue::Offer;
use runs::{Answer, Call, RulerCall, Space, Tables, run_by_ruler};
use script::Script;
use std::io;

// A plate's cells are at most 256 times 256.
const CELLS: usize = 65536;

fn print_run(rt: &impl Print, calls: &[RulerCall], answers: &[Answer<Whole>]) -> io::Result<()> {
    for (call, answer) in calls.iter().zip(answers) {
        let line = AnswerLine {
            call: *call,
            answer,
        };
        println!(rt; "{line}")?;
    }
    Ok(())
}

// Whether a call may go by the maps: any that is no edit.
fn needs_maps(call: &RulerCall) -> bool {
    !matches!(call, RulerCall::Plain(Call::Edit(_)))
}

// Makes the calls on the plate, over tables of their own. Edits alone get maps and a queue without entries, so a sheet at fault takes no
// more memory than its cells, its edits and their answers.
fn run_script(rt: &(impl Print + AllocGlobal), script: &Script) -> Result<(), Stop> {
    let Some(dimensions) = script.dimensions else {
        return Ok(());
    };
    let heap = rt.alloc();
    let mut cells = vec![in heap; Cell::BARE; CELLS]?;
    let mut groups = [0u8; PADS];
    let measured = if script.calls.iter().any(needs_maps) {
        CELLS
    } else {
        0
    };
    let mut first = vec![in heap; MapRecord::unreached(0); measured]?;
    let mut second = vec![in heap; MapRecord::unreached(0); measured]?;
    let mut entries = vec![in heap; Offer { length: 0, cell: 0 }; ENTRIES_PER_CELL * measured]?;
    let tables = Tables {
        cells: &mut cells,
        groups: &mut groups,
        first: &mut first,
        second: &mut second,
        entries: &mut entries,
    };
    let space = Space::reserve(heap, dimensions, &script.calls)?;
    let answers = run_by_ruler(&WholeRuler::new(Chessboard), space, tables)?;
    let Dimensions { rows, columns } = dimensions;
    println!(rt; "plate\t{rows}\t{columns}\topened")?;
    print_run(rt, &script.calls, &answers)?;
    Ok(())
}

// Reads the input, makes the calls before its first fault, and ends with that.
fn survey(rt: &(impl Print + AllocGlobal), input: &[u8]) -> Result<(), Stop> {
    let mut script = Script::new(rt.alloc());
    let outcome = script.read(rt.alloc(), input);
    if let Err(Stop::System(_) | Stop::Refused(_) | Stop::Setting(_)) = outcome {
        return outcome;
    }
    run_script(rt, &script)?;
    outcome
}

fn main(rt: HostRuntime) -> io::Result<()> {
    let input = read_input(rt.alloc(), rt.stdin())?;
    finish(&mut io::writer(&rt), survey(&rt, &input))
}
