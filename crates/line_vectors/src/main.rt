// Runs stored calls on files with line ends: judges them, writes line ends and takes them off. What it prints is held to the answers of an
// implementation that shares nothing with the library.
//
// A case is a line of 31 bytes: `sheet ` or `index ` to judge, `to    ` or `from  ` to write; the used length in ten digits, a space, the
// buffer's length in six digits, a space, the target's in six and a line end; then the buffer's bytes. The target is filled with points.
#![tactic(auto)]

ghost use Rattle.std.specs.Prelude.{◌≡◌, ◌≤◌, length, IfOk};

use format::{Counts, Refusal};
use std::io;
use std::io::Read;
use vectors::Told;

// A judgement, and the line's end.
fn print_judged(rt: &impl Print, judged: Result<Counts, Refusal>) -> io::Result<()> {
    let numbers = judged.map(|counts| [counts.records, counts.items]);
    print!(rt; "{}\n", Told(numbers))
}

// The length that a call wrote, the digest of the bytes that it left, and the line's end.
fn print_written(rt: &impl Print, written: Result<usize, Refusal>, bytes: &[u8]) -> io::Result<()> {
    let numbers = written.map(|length| [length]);
    print!(rt; "{} {}\n", Told(numbers), vectors::digest(bytes))
}

// One call, told apart by its word's first letter.
// Kept: the letter as it stands in the head; an enum would be matched once, where it is made.
fn answer(
    rt: &impl Print,
    word: u8,
    buffer: &[u8],
    used: usize,
    target: &mut [u8],
) -> io::Result<()> {
    match word {
        b's' => print_judged(rt, line_ends::judge_sheet_lines(buffer, used)),
        b'i' => print_judged(rt, line_ends::judge_index_lines(buffer, used)),
        b't' => {
            target.fill(b'.');
            let written = line_ends::to_lines(buffer, used, target);
            print_written(rt, written, target)
        }
        _ => {
            target.fill(b'.');
            let written = line_ends::from_lines(buffer, used, target);
            print_written(rt, written, target)
        }
    }
}

// Reads until the buffer is full or the input ends, and answers how many bytes were read. An error leaves a part of them at its start.
fn read_full(from: &mut impl Read, buffer: &mut [u8]) -> io::Result<usize>
    ensures ok { IfOk result (λ n. n ≤ length buffer.new) }
    ensures kept { length buffer.new ≡ length buffer.old }
{
    let mut done = 0;
    // Kept: a read says how far it came, which no range counts.
    while done < buffer.len() {
        let n = from.read(&mut buffer[done..])?;
        if n == 0 {
            break;
        }
        done += n;
    }
    Ok(done)
}

// The case that a line heads: its bytes are read into a buffer of their length.
fn answer_case(
    rt: &impl Print,
    from: &mut impl Read,
    head: &[u8; 31],
    buffer: &mut [u8],
    target: &mut [u8],
) -> io::Result<()> {
    let used = vectors::number(&head[6..16]);
    let size = vectors::number(&head[17..23]).min(buffer.len());
    let room = vectors::number(&head[24..30]).min(target.len());
    let buffer = &mut buffer[..size];
    read_full(from, buffer)?;
    answer(rt, head[0], buffer, used, &mut target[..room])
}

// Reads cases until the input ends.
// Kept: the loop stands in each of these programs; over a closure it would take a `requires` that the closure may be called, and be no plainer.
fn answer_cases(
    rt: &impl Print,
    from: &mut impl Read,
    buffer: &mut [u8],
    target: &mut [u8],
) -> io::Result<()> {
    let mut head = [0u8; 31];
    for _ in 0..vectors::MOST {
        if read_full(from, &mut head)? < head.len() {
            return Ok(());
        }
        answer_case(rt, from, &head, buffer, target)?;
    }
    Ok(())
}

fn main(rt: HostRuntime) -> io::Result<()> {
    let mut buffer = [0u8; 65536];
    let mut target = [0u8; 65536];
    answer_cases(&rt, &mut rt.stdin(), &mut buffer, &mut target)
}
