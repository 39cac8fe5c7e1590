// A program of the gate that a call sent back stops: it makes rulers of rising weights and prints a line for each.
#![tactic(auto)]

use ending::{Stop, finish};
use gauges::ThreeFour;
use std::io;

// The last two weights are out of range.
const WEIGHTS: [u16; 4] = [63, 64, 65, 66];

fn make_rulers(rt: &impl Print) -> Result<(), Stop> {
    for weight in WEIGHTS {
        ThreeFour::new(weight)?;
        println!(rt; "three-four\t{weight}")?;
    }
    Ok(())
}

fn main(rt: HostRuntime) -> io::Result<()> {
    finish(&mut io::writer(&rt), make_rulers(&rt))
}

#[cfg(test)]
mod reading;

#[cfg(test)]
mod tests {
    use super::*;
    use sheets::{Fault, Refusal};
    use std::io::{Error, ErrorKind, Write};

    const TORN: Fault = Fault {
        line: 12,
        field: 3,
        refusal: Refusal::Plate(plate::Refusal::Torn),
    };

    // A writer that takes a few bytes and then has no room.
    #[derive(Drop)]
    struct Short(usize);

    impl Write for Short {
        fn write(&mut self, buf: &[u8]) -> io::Result<usize> {
            let taken = buf.len().min(self.0);
            self.0 -= taken;
            if taken == 0 && !buf.is_empty() {
                return Err(Error::from(ErrorKind::StorageFull));
            }
            Ok(taken)
        }

        fn flush(&mut self) -> io::Result<()> {
            Ok(())
        }
    }

    #[test]
    fn what_stops_is_a_line(rt: HostRuntime) -> io::Result<()> {
        let mut out = Vec::new(rt.alloc());
        finish(&mut out, Err(Stop::Fault(TORN)))?;
        finish(&mut out, Ok(()))?;
        finish(&mut out, Err(Stop::Refused(plate::Refusal::Outdated)))?;
        finish(&mut out, Err(Stop::Setting(gauges::Refusal::Setting)))?;
        let lines = b"fault\tplate\t12\t3\t8\nrefused\t6\nrefused\t9\n";
        assert_eq!(rt; out.as_slice(), lines.as_slice());
        Ok(())
    }

    #[test]
    fn errors_are_handed_on(rt: HostRuntime) {
        let mut out = Vec::new(rt.alloc());
        let stop = Stop::System(Error::from(ErrorKind::NotFound));
        let kind = finish(&mut out, Err(stop)).err().map(|error| error.kind());
        assert_eq!(rt; kind, Some(ErrorKind::NotFound));
        assert!(rt; out.is_empty());
    }

    // The line has 19 bytes.
    #[test]
    fn printing_ends_the_program(rt: HostRuntime) {
        for (room, error) in [
            (0, Some(ErrorKind::StorageFull)),
            (18, Some(ErrorKind::StorageFull)),
            (19, None),
        ] {
            let outcome = finish(&mut Short(room), Err(Stop::Fault(TORN)));
            assert_eq!(rt; outcome.err().map(|error| error.kind()), error);
        }
    }
}
