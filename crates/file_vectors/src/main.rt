// Judges stored files, sheets and indexes, and writes the normal form of those that are accepted. What it prints is held to the answers of an
// implementation that shares nothing with the library.
//
// A case is a line of 24 bytes, `sheet ` or `index `, the used length in ten digits, a space, the buffer's length in six digits and a line
// end; then the buffer's bytes.
#![tactic(auto)]

ghost use Rattle.std.specs.Prelude.{◌≡◌, ◌≤◌, length, IfOk};

use format::{Counts, Refusal};
use std::io;
use std::io::Read;
use vectors::Told;

// What a case holds.
#[derive(Clone, Copy, PartialEq, Eq, Debug)]
enum FileType {
    Sheet,
    Index,
}

// By the first letter of a head.
fn file_type(letter: u8) -> FileType {
    if letter == b's' {
        FileType::Sheet
    } else {
        FileType::Index
    }
}

fn judge_file(kind: FileType, buffer: &[u8], used: usize) -> Result<Counts, Refusal> {
    match kind {
        FileType::Sheet => judge::judge_sheet(buffer, used),
        FileType::Index => judge::judge_index(buffer, used),
    }
}

fn normal_file(
    kind: FileType,
    buffer: &[u8],
    used: usize,
    second: &mut [u8],
) -> Result<usize, Refusal> {
    match kind {
        FileType::Sheet => normal::normal_sheet(buffer, used, second),
        FileType::Index => normal::normal_index(buffer, used, second),
    }
}

// The digest of the normal form, in a second buffer as long as the first, and the line's end.
fn print_normal(
    rt: &impl Print,
    kind: FileType,
    buffer: &[u8],
    used: usize,
    second: &mut [u8],
) -> io::Result<()> {
    second.fill(b'.');
    let _ = normal_file(kind, buffer, used, second);
    print!(rt; " {}\n", vectors::digest(second))
}

// One case: the judgement, and behind it the digest of an accepted file's normal form.
fn answer(
    rt: &impl Print,
    kind: FileType,
    buffer: &[u8],
    used: usize,
    second: &mut [u8],
) -> io::Result<()> {
    let judged = judge_file(kind, buffer, used);
    let numbers = judged.map(|counts| [counts.records, counts.items]);
    print!(rt; "{}", Told(numbers))?;
    if judged.is_ok() {
        print_normal(rt, kind, buffer, used, second)
    } else {
        print!(rt; "\n")
    }
}

// Reads until the buffer is full or the input ends, and answers how many bytes were read. An error leaves a part of them at its start.
fn read_full(from: &mut impl Read, buffer: &mut [u8]) -> io::Result<usize>
    ensures ok { IfOk result (λ n. n ≤ length buffer.new) }
    ensures kept { length buffer.new ≡ length buffer.old }
{
    let mut done = 0;
    // Kept: a read says how far it came, which no range counts.
    while done < buffer.len() {
        let n = from.read(&mut buffer[done..])?;
        if n == 0 {
            break;
        }
        done += n;
    }
    Ok(done)
}

// The case that a line heads: its bytes are read into a buffer of their length.
fn answer_case(
    rt: &impl Print,
    from: &mut impl Read,
    head: &[u8; 24],
    buffer: &mut [u8],
    second: &mut [u8],
) -> io::Result<()> {
    let used = vectors::number(&head[6..16]);
    let size = vectors::number(&head[17..23])
        .min(buffer.len())
        .min(second.len());
    let buffer = &mut buffer[..size];
    read_full(from, buffer)?;
    answer(rt, file_type(head[0]), buffer, used, &mut second[..size])
}

// Reads cases until the input ends.
// Kept: the loop stands in each of these programs; over a closure it would take a `requires` that the closure may be called, and be no plainer.
fn answer_cases(
    rt: &impl Print,
    from: &mut impl Read,
    buffer: &mut [u8],
    second: &mut [u8],
) -> io::Result<()> {
    let mut head = [0u8; 24];
    for _ in 0..vectors::MOST {
        if read_full(from, &mut head)? < head.len() {
            return Ok(());
        }
        answer_case(rt, from, &head, buffer, second)?;
    }
    Ok(())
}

fn main(rt: HostRuntime) -> io::Result<()> {
    let mut buffer = [0u8; 65536];
    let mut second = [0u8; 65536];
    answer_cases(&rt, &mut rt.stdin(), &mut buffer, &mut second)
}
