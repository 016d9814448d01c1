// What the programs of stored calls share: the numbers in a head, a digest of bytes, and an answer in print. For other programs: a read that goes on until
// a buffer is full, and a function that prints an answer.
#![tactic(auto)]

ghost use Rattle.std.specs.Prelude.{◌≡◌, ◌≤◌, length, IfOk, OnErr, fold};
ghost use Rattle.vectors.specs.Cases.{with_digit, with_byte, ReadFull, ReadPart};

use format::Refusal;
use std::io::Read;
use std::{fmt, io};

#[cfg(test)]
mod tests;

// The most cases that a program answers, and calls in a case, so that each loop ends.
pub const MOST: usize = 10000;

// Reads until the buffer is full or the input ends, and answers how many bytes were read. An error leaves a part of them at the buffer's start.
// Which bytes these are is said only where the reader's bytes are known.
pub fn read_full<R: Read>(from: &mut R, buffer: &mut [u8]) -> io::Result<usize>
    ensures ok { IfOk result (λ n. n ≤ length buffer.new) }
    ensures kept { length buffer.new ≡ length buffer.old }
    ensures read { IfOk result (λ n. ReadFull (R.remaining from.old) (R.remaining from.new) buffer.new n) }
    ensures failed { OnErr result (ReadPart (R.remaining from.old) (R.remaining from.new) buffer.new) }
{
    let mut done = 0;
    // Kept: a read says how far it came, which no range counts.
    while done < buffer.len() {
        let n = from.read(&mut buffer[done..])?;
        if n == 0 {
            break;
        }
        done += n;
    }
    Ok(done)
}

// A number of at most ten digits.
pub fn number(digits: &[u8]) -> usize
    ensures { result ≡ fold with_digit 0 digits.now }
{
    digits.iter().fold(0, |n, digit| n % 1000000000 * 10 + usize::from(*digit) % 16)
}

// A digest of bytes: each counts 31 times for each byte behind it, modulo a prime.
pub fn digest(bytes: &[u8]) -> u64
    ensures { result ≡ fold with_byte 0 bytes.now }
{
    bytes.iter().fold(
        0,
        |h, byte| (h % 4294967291 * 31 + u64::from(*byte)) % 4294967291,
    )
}

// An answer in print: `ok` and its numbers, or `no` with number and record of the refusal.
#[derive(Clone, Copy, PartialEq, Eq, Debug)]
pub struct Told<T, const N: usize>(pub Result<[T; N], Refusal>);

impl<T: fmt::Display, const N: usize> fmt::Display for Told<T, N> {
    fn fmt<W: fmt::Write>(&self, f: &mut fmt::Formatter<W>) -> fmt::Result {
        match &self.0 {
            Ok(numbers) => {
                f.write_str("ok")?;
                for n in numbers {
                    write!(f, " {n}")?;
                }
                Ok(())
            }
            Err(refusal) => write!(f, "no {} {}", refusal.reason.number(), refusal.at),
        }
    }
}

// Prints an answer, as a `Told` does: an accepted one with a write for each piece, a refusal with one.
pub fn print_answer<T: fmt::Display + Copy, const N: usize>(
    rt: &impl Print,
    answer: Result<[T; N], Refusal>,
) -> io::Result<()> {
    match answer {
        Ok(numbers) => {
            print!(rt; "ok")?;
            for n in numbers {
                print!(rt; " {n}")?;
            }
            Ok(())
        }
        Err(refusal) => print!(rt; "{}", Told::<u64, 0>(Err(refusal))),
    }
}
