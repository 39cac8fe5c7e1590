// Tests of how a program reads its input, by a reader that gives its bytes in pieces.
use ending::read_input;
use std::io;
use std::io::{Error, ErrorKind, Read};

// Gives bytes that are counted from 0, so many at a call and so many in all, and then an error or the end.
#[derive(Drop)]
struct Pieces {
    piece: usize,
    given: usize,
    bytes: usize,
    error: Option<ErrorKind>,
}

fn in_pieces(piece: usize, bytes: usize, error: Option<ErrorKind>) -> Pieces {
    Pieces {
        piece,
        given: 0,
        bytes,
        error,
    }
}

// The byte at a place.
fn byte_at(place: usize) -> u8 {
    (place % 251) as u8
}

impl Read for Pieces {
    fn read(&mut self, buf: &mut [u8]) -> io::Result<usize> {
        let left = self.bytes.saturating_sub(self.given);
        if let (0, Some(kind)) = (left, self.error) {
            return Err(Error::from(kind));
        }
        let count = left.min(self.piece).min(buf.len());
        for byte in &mut buf[..count] {
            *byte = byte_at(self.given);
            self.given = self.given.saturating_add(1);
        }
        Ok(count)
    }
}

fn are_counted(bytes: &[u8]) -> bool {
    let mut counted = true;
    for (place, byte) in bytes.iter().enumerate() {
        counted = counted && *byte == byte_at(place);
    }
    counted
}

#[test]
fn pieces_are_put_together(rt: HostRuntime) -> io::Result<()> {
    for (piece, bytes) in [(1, 0), (1, 1), (3, 1000), (7, 32768), (4096, 32769)] {
        let read = read_input(rt.alloc(), in_pieces(piece, bytes, None))?;
        assert_eq!(rt; read.len(), bytes);
        assert!(rt; are_counted(&read));
    }
    Ok(())
}

#[test]
fn of_a_longer_input_one_byte_more_is_read(rt: HostRuntime) -> io::Result<()> {
    for (piece, bytes) in [(7, 32770), (40000, 40000), (4096, usize::MAX)] {
        let read = read_input(rt.alloc(), in_pieces(piece, bytes, None))?;
        assert_eq!(rt; read.len(), 32769);
        assert!(rt; are_counted(&read));
    }
    Ok(())
}

#[test]
fn errors_of_reading_come_back(rt: HostRuntime) {
    for kind in [ErrorKind::BrokenPipe, ErrorKind::TimedOut] {
        for bytes in [0, 1, 1000, 32768] {
            let outcome = read_input(rt.alloc(), in_pieces(300, bytes, Some(kind)));
            assert_eq!(rt; outcome.err().map(|error| error.kind()), Some(kind));
        }
    }
}

// What comes behind the bytes that are looked at is not asked for.
#[test]
fn an_error_behind_what_is_read_is_not_seen(rt: HostRuntime) -> io::Result<()> {
    let failing = in_pieces(300, 32769, Some(ErrorKind::BrokenPipe));
    assert_eq!(rt; read_input(rt.alloc(), failing)?.len(), 32769);
    Ok(())
}
