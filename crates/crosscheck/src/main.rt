// Compares the library with a second implementation on boards from a fixed generator, and prints a line for each family of boards:
// how many there are, and how much differs. The last line says how much the comparisons find in mistakes on purpose.
#![tactic(auto)]

mod calls;
mod compare;
mod dice;
mod families;
mod land;
mod library;
mod look;
mod mistakes;
mod recipe;
mod second;
mod sheet;

use dice::Dice;
use ending::{Stop, finish};
use families::{Kind, boards_of, limits, stacks, tampered};
use std::io;

fn print_family(rt: &impl Print, name: &str, count: u64, differences: u64) -> io::Result<()> {
    println!(rt; "{name}\t{count}\tdifferences {differences}")
}

// Boards of one kind by the four rulers.
fn run_kind(
    rt: &(impl Print + AllocGlobal),
    dice: &mut Dice,
    name: &str,
    of: Kind,
) -> Result<(), Stop> {
    let differences = boards_of(rt.alloc(), dice, of, 60)?;
    print_family(rt, name, 60, differences)?;
    Ok(())
}

// Boards and their maps.
fn run_boards(rt: &(impl Print + AllocGlobal), dice: &mut Dice) -> Result<(), Stop> {
    run_kind(rt, dice, "flat boards", Kind::Flat)?;
    run_kind(rt, dice, "rough boards", Kind::Rough)?;
    run_kind(rt, dice, "mazes", Kind::Maze)?;
    run_kind(rt, dice, "stripes", Kind::Stripes)?;
    run_kind(rt, dice, "steep boards", Kind::Steep)?;
    print_family(rt, "stacks of layers", 40, stacks(rt.alloc(), dice, 40)?)?;
    print_family(rt, "tampered maps", 80, tampered(rt.alloc(), dice, 80)?)?;
    print_family(rt, "boards at the limits", 4, limits(rt.alloc(), dice)?)?;
    Ok(())
}

// Calls that may be sent back, and sheets.
fn run_calls(rt: &(impl Print + AllocGlobal), dice: &mut Dice) -> Result<(), Stop> {
    print_family(rt, "plates of 40 calls", 400, calls::plates(dice, 400, 40))?;
    print_family(rt, "sheets", 1000, sheet::sheets(rt.alloc(), dice, 1000)?)?;
    let long = sheet::long_sheets(rt.alloc())?;
    print_family(rt, "sheets of the greatest length", 3, long)?;
    print_family(rt, "settings and rectangles", 57, calls::settings()?)?;
    Ok(())
}

fn run(rt: &(impl Print + AllocGlobal)) -> Result<(), Stop> {
    let mut dice = Dice::new(2026);
    run_boards(rt, &mut dice)?;
    run_calls(rt, &mut dice)?;
    print!(rt; "mistakes on purpose")?;
    for found in mistakes::found(rt.alloc())? {
        print!(rt; "\tdifferences {found}")?;
    }
    for found in calls::mistaken() {
        print!(rt; "\tdifferences {found}")?;
    }
    println!(rt; "")?;
    Ok(())
}

fn main(rt: HostRuntime) -> io::Result<()> {
    finish(&mut io::writer(&rt), run(&rt))
}
