// The two calls that the programs of stored calls do not make: no clause says what is printed, or that a read succeeds.
use super::*;
use format::Reason;
use std::cell::Cell;
use std::fmt::{Display, Write};
use std::io::ErrorKind;
use std::test::Fail;

// What was printed; what has no room is an error.
#[derive(Clone, Copy)]
struct Text {
    bytes: [u8; 16],
    used: usize,
}

impl Write for Text {
    fn write_str(&mut self, text: &str) -> fmt::Result {
        for byte in text.bytes() {
            if self.used >= 16 {
                return Err(fmt::Error);
            }
            self.bytes[self.used] = byte;
            self.used += 1;
        }
        Ok(())
    }
}

// An output that takes some prints and is closed then.
#[derive(Drop)]
struct Screen {
    text: Cell<Text>,
    prints: Cell<usize>,
}

impl Print for Screen {
    fn print<D: Display + Drop>(&self, value: D) -> io::Result<()> {
        let Some(left) = self.prints.get().checked_sub(1) else {
            return Err(ErrorKind::BrokenPipe.into());
        };
        let mut text = self.text.get();
        write!(text, "{value}")?;
        self.text.set(text);
        self.prints.set(left);
        Ok(())
    }

    fn println<D: Display + Drop>(&self, value: D) -> io::Result<()> {
        self.print(value)
    }

    fn write_all(&self, _bytes: &[u8]) -> io::Result<()> {
        Err(ErrorKind::Unsupported.into())
    }
}

fn printed<const N: usize>(
    answer: Result<[u64; N], Refusal>,
    prints: usize,
) -> io::Result<[u8; 16]> {
    let text = Text {
        bytes: [b'.'; 16],
        used: 0,
    };
    let screen = Screen {
        text: Cell::new(text),
        prints: Cell::new(prints),
    };
    print_answer(&screen, answer)?;
    Ok(screen.text.get().bytes)
}

#[test]
fn an_answer_is_printed(rt: HostRuntime) -> Result<(), Fail> {
    assert_eq!(rt; printed(Ok([13, 2]), 3)?, *b"ok 13 2.........");
    assert_eq!(rt; printed::<0>(Ok([]), 1)?, *b"ok..............");
    let refused = printed::<1>(Err(Reason::Count.at(7)), 1)?;
    assert_eq!(rt; refused, *b"no 10 7.........");
    Ok(())
}

#[test]
fn a_closed_output_is_told(rt: HostRuntime) {
    for prints in 0..3 {
        assert!(rt; printed(Ok([13, 2]), prints).is_err(), "{prints}");
    }
    assert!(rt; printed::<1>(Err(Reason::Count.at(7)), 0).is_err());
}

// A reader that fails where its bytes end.
#[derive(Drop)]
struct Broken<'a> {
    left: &'a [u8],
}

impl Read for Broken<'_> {
    fn read(&mut self, buffer: &mut [u8]) -> io::Result<usize> {
        if self.left.is_empty() {
            return Err(ErrorKind::BrokenPipe.into());
        }
        self.left.read(buffer)
    }
}

#[test]
fn reads_go_on_until_the_buffer_is_full(rt: HostRuntime) -> Result<(), Fail> {
    let mut from = b"ab".as_slice().chain(b"cdef".as_slice());
    let mut buffer = [b'.'; 5];
    assert_eq!(rt; read_full(&mut from, &mut buffer)?, 5);
    assert_eq!(rt; buffer, *b"abcde");
    assert_eq!(rt; read_full(&mut from, &mut buffer)?, 1);
    assert_eq!(rt; buffer, *b"fbcde");
    assert_eq!(rt; read_full(&mut from, &mut buffer)?, 0);
    Ok(())
}

#[test]
fn a_failed_read_is_told(rt: HostRuntime) -> Result<(), Fail> {
    let mut from = Broken { left: b"abcde" };
    let mut buffer = [b'.'; 3];
    assert_eq!(rt; read_full(&mut from, &mut buffer)?, 3);
    assert!(rt; read_full(&mut from, &mut buffer).is_err());
    assert_eq!(rt; buffer, *b"dec");
    Ok(())
}
