// Prints the gap of the board whose sheet comes from standard input, or the sheet's fault.
#![tactic(auto)]

use console::gap_line;
use ending::read_input;
use std::io;

fn main(rt: HostRuntime) -> io::Result<()> {
    let sheet = read_input(rt.alloc(), rt.stdin())?;
    let line = gap_line(&sheet);
    print!(rt; "{line}")
}
