// Sheets with the plates and the faults that they should have.
#![tactic(auto)]

use board::Cell;
use sheets::{Fault, read_sheet};

// How many cells the tables of a trial hold.
pub const CELLS: usize = 9;

// The fault of a sheet that is read into tables for nine cells, or none where a plate comes back.
pub fn fault_of(sheet: &[u8]) -> Option<Fault> {
    let mut cells = [Cell::BARE; CELLS];
    let mut groups = [0; 64];
    read_sheet(sheet, &mut cells, &mut groups).err()
}

#[cfg(test)]
mod tests {
    use super::*;
    use console::gap_line;
    use plate::Refusal::{Group, Off, Pad, Size, Tables};
    use sheets::{Line, Place, Refusal, Token};
    use std::process::Abort;
    use std::test::Fail;

    // What a sheet has, its bytes, and the line, the field and the refusal of its fault.
    type Case<'a> = (&'a str, &'a [u8], usize, u8, Refusal);

    fn check_faults(rt: &impl Abort, cases: &[Case<'_>]) {
        for (what, sheet, line, field, refusal) in cases {
            let fault = Fault {
                line: *line,
                field: *field,
                refusal: *refusal,
            };
            assert_eq!(rt; fault_of(sheet), Some(fault), "{what}");
        }
    }

    const FIRST_LINES: &[Case<'static>] = &[
        ("no byte at all", b"", 1, 0, Refusal::Order),
        ("an unknown word", b"plat\t2\t3\n", 1, 0, Refusal::Line),
        ("a capital letter", b"Plate\t2\t3\n", 1, 0, Refusal::Line),
        ("spaces between fields", b"plate 2 3\n", 1, 0, Refusal::Line),
        ("an empty first line", b"\n", 1, 0, Refusal::Line),
        (
            "a plate line with a field missing",
            b"plate\t2\n",
            1,
            0,
            Refusal::Line,
        ),
        ("a doubled tab", b"plate\t\t2\t3\n", 1, 0, Refusal::Line),
        ("a trailing tab", b"plate\t2\t3\t\n", 1, 0, Refusal::Line),
        (
            "a first line without its end",
            b"plate\t2\t3",
            1,
            0,
            Refusal::Line,
        ),
        (
            "a return behind the word",
            b"plate\r\t2\t3\n",
            1,
            0,
            Refusal::Line,
        ),
        (
            "a return behind a figure",
            b"plate\t2\t3\r\n",
            1,
            2,
            Refusal::Figure,
        ),
        (
            "a zero byte in the word",
            b"plate\0\t2\t3\n",
            1,
            0,
            Refusal::Line,
        ),
        (
            "a zero byte in a figure",
            b"plate\t2\t\x003\n",
            1,
            2,
            Refusal::Figure,
        ),
        ("a byte above 127 as a word", b"\x80\n", 1, 0, Refusal::Line),
        (
            "a byte above 127 as a figure",
            b"plate\t\xff\t3\n",
            1,
            1,
            Refusal::Figure,
        ),
        ("a bar first", b"bar\t0\t0\n", 1, 0, Refusal::Order),
        ("a cell first", b"cell\t0\t0\t0\t0\n", 1, 0, Refusal::Order),
        ("an enrolment first", b"enrol\t1\t1\n", 1, 0, Refusal::Order),
        (
            "a bar first, with a bad figure",
            b"bar\tx\t0\n",
            1,
            0,
            Refusal::Order,
        ),
        (
            "a bar first, with a field missing",
            b"bar\t0\n",
            1,
            0,
            Refusal::Line,
        ),
        ("no rows", b"plate\t0\t3\n", 1, 1, Refusal::Plate(Size)),
        ("257 rows", b"plate\t257\t3\n", 1, 1, Refusal::Plate(Size)),
        ("no columns", b"plate\t2\t0\n", 1, 2, Refusal::Plate(Size)),
        (
            "257 columns",
            b"plate\t2\t257\n",
            1,
            2,
            Refusal::Plate(Size),
        ),
        (
            "257 rows and no columns",
            b"plate\t257\t0\n",
            1,
            1,
            Refusal::Plate(Size),
        ),
        (
            "65,535 columns",
            b"plate\t2\t65535\n",
            1,
            2,
            Refusal::Plate(Size),
        ),
        (
            "ten cells in nine",
            b"plate\t2\t5\n",
            1,
            0,
            Refusal::Plate(Tables),
        ),
        ("an empty figure", b"plate\t\t3\n", 1, 1, Refusal::Figure),
        (
            "an empty last figure",
            b"plate\t2\t\n",
            1,
            2,
            Refusal::Figure,
        ),
        (
            "a 0 before a digit",
            b"plate\t2\t03\n",
            1,
            2,
            Refusal::Figure,
        ),
        ("two bad figures", b"plate\tx\t03\n", 1, 1, Refusal::Figure),
        ("65,536 rows", b"plate\t65536\t3\n", 1, 1, Refusal::Figure),
    ];

    const LATER_LINES: &[Case<'static>] = &[
        (
            "a row off the plate",
            b"plate\t2\t3\ncell\t2\t0\t0\t0\n",
            2,
            1,
            Refusal::Plate(Off),
        ),
        (
            "a column off the plate",
            b"plate\t2\t3\ncell\t0\t3\t0\t0\n",
            2,
            2,
            Refusal::Plate(Off),
        ),
        (
            "row and column off the plate",
            b"plate\t2\t3\ncell\t2\t3\t0\t65\n",
            2,
            1,
            Refusal::Plate(Off),
        ),
        (
            "a barred row off the plate",
            b"plate\t2\t3\nbar\t65535\t0\n",
            2,
            1,
            Refusal::Plate(Off),
        ),
        (
            "a barred column off the plate",
            b"plate\t2\t3\nbar\t0\t3\n",
            2,
            2,
            Refusal::Plate(Off),
        ),
        (
            "pad 65 of a cell",
            b"plate\t2\t3\ncell\t0\t0\t0\t65\n",
            2,
            4,
            Refusal::Plate(Pad),
        ),
        (
            "pad 0 enrolled",
            b"plate\t2\t3\nenrol\t0\t1\n",
            2,
            1,
            Refusal::Plate(Pad),
        ),
        (
            "pad 65 enrolled",
            b"plate\t2\t3\nenrol\t65\t3\n",
            2,
            1,
            Refusal::Plate(Pad),
        ),
        (
            "group 3",
            b"plate\t2\t3\nenrol\t1\t3\n",
            2,
            2,
            Refusal::Plate(Group),
        ),
        (
            "no row",
            b"plate\t2\t3\ncell\t\t0\t0\t0\n",
            2,
            1,
            Refusal::Figure,
        ),
        (
            "a column with a sign",
            b"plate\t2\t3\ncell\t0\t+1\t0\t0\n",
            2,
            2,
            Refusal::Figure,
        ),
        (
            "a height of 65,536",
            b"plate\t2\t3\ncell\t0\t0\t65536\t0\n",
            2,
            3,
            Refusal::Figure,
        ),
        (
            "a height with forty digits",
            b"plate\t2\t3\ncell\t0\t0\t1000000000000000000000000000000000000000\t0\n",
            2,
            3,
            Refusal::Figure,
        ),
        (
            "a pad with a space",
            b"plate\t2\t3\ncell\t0\t0\t0\t 1\n",
            2,
            4,
            Refusal::Figure,
        ),
        (
            "a bad figure behind a row off the plate",
            b"plate\t2\t3\ncell\t9\t9\t0\tx\n",
            2,
            4,
            Refusal::Figure,
        ),
        (
            "a bad row of a bar",
            b"plate\t2\t3\nbar\t00\t0\n",
            2,
            1,
            Refusal::Figure,
        ),
        (
            "a bad column of a bar",
            b"plate\t2\t3\nbar\t0\t0x\n",
            2,
            2,
            Refusal::Figure,
        ),
        (
            "a bad pad",
            b"plate\t2\t3\nenrol\t1.\t1\n",
            2,
            1,
            Refusal::Figure,
        ),
        (
            "a bad group",
            b"plate\t2\t3\nenrol\t1\t01\n",
            2,
            2,
            Refusal::Figure,
        ),
        ("an empty line", b"plate\t2\t3\n\n", 2, 0, Refusal::Line),
        ("a return alone", b"plate\t2\t3\n\r\n", 2, 0, Refusal::Line),
        (
            "a cell with a field missing",
            b"plate\t2\t3\ncell\t0\t0\t0\n",
            2,
            0,
            Refusal::Line,
        ),
        (
            "a bar with a field more",
            b"plate\t2\t3\nbar\t0\t0\t0\n",
            2,
            0,
            Refusal::Line,
        ),
        (
            "an enrolment with a field missing",
            b"plate\t2\t3\nenrol\t1\n",
            2,
            0,
            Refusal::Line,
        ),
        (
            "a last line without its end",
            b"plate\t2\t3\nbar\t0\t0",
            2,
            0,
            Refusal::Line,
        ),
        (
            "a second plate line",
            b"plate\t2\t3\nplate\t2\t3\n",
            2,
            0,
            Refusal::Order,
        ),
        (
            "a second plate line with bad figures",
            b"plate\t2\t3\nplate\tx\t03\n",
            2,
            0,
            Refusal::Order,
        ),
        (
            "a second plate line with a field missing",
            b"plate\t2\t3\nplate\t2\n",
            2,
            0,
            Refusal::Line,
        ),
        (
            "a fault before another",
            b"plate\t2\t3\nbar\t0\t9\nx\n",
            2,
            2,
            Refusal::Plate(Off),
        ),
        (
            "a third line",
            b"plate\t2\t3\nbar\t0\t0\nbar\t2\t0\n",
            3,
            1,
            Refusal::Plate(Off),
        ),
    ];

    #[test]
    fn first_lines_have_their_faults(rt: HostRuntime) {
        check_faults(&rt, FIRST_LINES);
    }

    #[test]
    fn later_lines_have_their_faults(rt: HostRuntime) {
        check_faults(&rt, LATER_LINES);
    }

    #[test]
    fn lengths_are_weighed_first(rt: HostRuntime) {
        let zeros = [0u8; 32769];
        check_faults(
            &rt,
            &[
                ("32,768 bytes", &zeros[..32768], 1, 0, Refusal::Line),
                ("32,769 bytes", &zeros, 0, 0, Refusal::Long),
            ],
        );
    }

    // A lawful sheet of 32,768 bytes: a plate line of 10, 6 lines of 13 and 4,085 lines of 8; one byte more is too much.
    #[test]
    fn longest_sheet_is_read(rt: HostRuntime) -> Result<(), Fail> {
        let mut sheet = Vec::from_slice(rt.alloc(), b"plate\t2\t3\n")?;
        for _ in 0..6 {
            sheet.extend_from_slice(b"cell\t0\t0\t0\t0\n")?;
        }
        for _ in 0..4085 {
            sheet.extend_from_slice(b"bar\t0\t0\n")?;
        }
        assert_eq!(rt; sheet.len(), 32768);
        assert_eq!(rt; fault_of(&sheet), None);
        sheet.push(b'\n')?;
        check_faults(&rt, &[("32,769 bytes", &sheet, 0, 0, Refusal::Long)]);
        Ok(())
    }

    // The lines before a fault have done their work.
    #[test]
    fn earlier_lines_stay_done(rt: HostRuntime) {
        let mut cells = [Cell::BARRED; CELLS];
        let mut groups = [2; 64];
        let sheet = b"plate\t1\t2\ncell\t0\t1\t7\t3\nenrol\t3\t1\nbar\t0\t2\nbar\t0\t1\n";
        let fault = Fault {
            line: 4,
            field: 2,
            refusal: Refusal::Plate(Off),
        };
        assert_eq!(rt;
            read_sheet(sheet, &mut cells, &mut groups).err(),
            Some(fault)
        );
        let set = Cell {
            height: 7,
            pad: 3,
            barred: false,
        };
        assert_eq!(rt; &cells[..3], [Cell::BARE, set, Cell::BARRED].as_slice());
        assert_eq!(rt; &groups[..4], [0, 0, 1, 0].as_slice());
    }

    // A figure is no keyword, whatever it holds, and a word is no figure.
    #[test]
    fn tokens_are_of_their_kind(rt: HostRuntime) {
        let place = Place { line: 3, field: 1 };
        let at = |refusal| Fault {
            line: 3,
            field: 1,
            refusal,
        };
        let word = Token::Word { bytes: b"7", place };
        assert_eq!(rt; word.figure(), Err(at(Refusal::Figure)));
        let figure = Token::Figure {
            bytes: b"bar",
            place,
        };
        assert_eq!(rt; figure.keyword(), Err(at(Refusal::Line)));
    }

    // What a token has: whether it is a word, its bytes and its place.
    fn parts_of(token: Token<'_>) -> (bool, &[u8], Place) {
        match token {
            Token::Word { bytes, place } => (true, bytes, place),
            Token::Figure { bytes, place } => (false, bytes, place),
        }
    }

    // A line of another reader of lines, with a word and a figure of no byte.
    #[test]
    fn fields_are_tokens(rt: HostRuntime) {
        let mut line = Line::new(b"way\t12\t\t7", 4);
        for (field, bytes, tabs) in [
            (0, b"way".as_slice(), 3),
            (1, b"12", 2),
            (2, b"", 1),
            (3, b"7", 0),
        ] {
            assert_eq!(rt; line.tabs(), tabs);
            let place = Place { line: 4, field };
            let parts = line.token().map(|token| parts_of(token));
            assert_eq!(rt; parts, Some((field == 0, bytes, place)));
        }
        assert_eq!(rt; line.tabs(), 0);
        assert!(rt; line.token().is_none());
    }

    // A line of 300 empty fields: the number stays at 255.
    #[test]
    fn fields_are_numbered_up_to_255(rt: HostRuntime) {
        let tabs = [b'\t'; 299];
        let mut line = Line::new(&tabs, 1);
        for number in 0..300usize {
            let field = number.min(255) as u8;
            let place = Place { line: 1, field };
            let parts = line.token().map(|token| parts_of(token));
            assert_eq!(rt; parts, Some((number == 0, b"".as_slice(), place)));
        }
        assert!(rt; line.token().is_none());
    }

    fn check_line(rt: &impl Abort, sheet: &[u8], line: &str) {
        assert_eq!(rt; gap_line(sheet).as_str(), line);
    }

    #[test]
    fn gaps_are_printed(rt: HostRuntime) {
        let board =
            b"plate\t2\t3\ncell\t0\t0\t0\t1\ncell\t0\t1\t9\t0\ncell\t0\t2\t0\t2\nenrol\t1\t1\nenrol\t2\t2\n";
        check_line(&rt, board, "gap\t2\n");
        check_line(&rt, b"plate\t16\t16\n", "gap\tnone\n");
    }

    // One row, in which each step rises or falls by 65,535: 255 steps of 65,536, and 256 cells have no greater gap.
    #[test]
    fn greatest_gap_is_printed(rt: HostRuntime) -> Result<(), Fail> {
        let mut sheet = Vec::from_slice(rt.alloc(), b"plate\t1\t256\ncell\t0\t0\t0\t1\n")?;
        for pair in 0..127u16 {
            let peak = format!(in rt.alloc(); "cell\t0\t{}\t65535\t0\n", 2 * pair + 1)?;
            sheet.extend_from_slice(peak.as_bytes())?;
        }
        sheet.extend_from_slice(b"cell\t0\t255\t65535\t2\nenrol\t1\t1\nenrol\t2\t2\n")?;
        check_line(&rt, &sheet, "gap\t16711680\n");
        Ok(())
    }

    #[test]
    fn faults_are_printed(rt: HostRuntime) {
        let off =
            b"plate\t2\t3\ncell\t0\t3\t0\t1\ncell\t0\t1\t9\t0\ncell\t0\t2\t0\t2\nenrol\t1\t1\nenrol\t2\t2\n";
        check_line(&rt, off, "fault\tplate\t2\t2\t3\n");
        check_line(&rt, b"plate\t17\t16\n", "fault\tplate\t1\t0\t2\n");
        check_line(&rt, b"plate\t2\t03\n", "fault\tfigure\t1\t2\t12\n");
        check_line(&rt, b"", "fault\tsheet\t1\t0\t13\n");
        check_line(&rt, &[b'\n'; 32768], "fault\tsheet\t1\t0\t11\n");
    }

    // `Display` comes to its end.
    #[test]
    fn faults_print_themselves(rt: HostRuntime) -> Result<(), Fail> {
        let fault = Fault {
            line: 4096,
            field: 2,
            refusal: Refusal::Figure,
        };
        let printed = format!(in rt.alloc(); "{fault}")?;
        assert_eq!(rt; printed.as_str(), "fault\tfigure\t4096\t2\t12");
        Ok(())
    }

    // No sheet has a later line at fault: 32,768 bytes are a plate line of 10, 4,094 lines of 8 and one of 6.
    #[test]
    fn fault_of_the_last_line_is_printed(rt: HostRuntime) -> Result<(), Fail> {
        let mut sheet = Vec::from_slice(rt.alloc(), b"plate\t1\t1\n")?;
        for _ in 0..4094 {
            sheet.extend_from_slice(b"bar\t0\t0\n")?;
        }
        sheet.extend_from_slice(b"bar\t\t\n")?;
        assert_eq!(rt; sheet.len(), 32768);
        check_line(&rt, &sheet, "fault\tfigure\t4096\t1\t12\n");
        sheet.push(b'\n')?;
        check_line(&rt, &sheet, "fault\tsheet\t0\t0\t14\n");
        Ok(())
    }
}
