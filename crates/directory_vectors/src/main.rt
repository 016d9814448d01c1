// Runs stored calls on sheets with a directory of either edition: judges them, appends a directory, jumps to a layer. What it prints is held to the
// answers of an implementation that shares nothing with the library.
//
// A case is a line of 39 bytes: a word in ten bytes, `directory`, `append` or `jump` for the calls of the first edition, `either`, `second` or `layer`
// for those that know both; the used length in ten digits, a space, the layer in ten digits, a space, the buffer's length in six digits and a line
// end; then the buffer's bytes.
#![tactic(auto)]

ghost use Rattle.std.specs.Prelude.{◌≡◌, ◌≤◌, length, IfOk};

use format::{Counts, Refusal};
use std::io;
use std::io::Read;
use vectors::Told;

// A judgement, and the line's end.
fn print_judged(rt: &impl Print, judged: Result<Counts, Refusal>) -> io::Result<()> {
    let numbers = judged.map(|counts| [counts.records, counts.items]);
    print!(rt; "{}\n", Told(numbers))
}

// The length that a call wrote, the digest of the bytes that it left, and the line's end.
fn print_written(rt: &impl Print, written: Result<usize, Refusal>, bytes: &[u8]) -> io::Result<()> {
    let numbers = written.map(|length| [length]);
    print!(rt; "{} {}\n", Told(numbers), vectors::digest(bytes))
}

// A jump: the record number of the layer's header, or the refusal.
fn answer_jump(rt: &impl Print, buffer: &[u8], used: usize, layer: usize) -> io::Result<()> {
    let jumped = directories::jump(buffer, used, layer);
    print!(rt; "{}\n", Told(jumped.map(|header| [header])))
}

// A jump in either edition: the layer's header, total and last record, or the refusal.
fn answer_jump_either(rt: &impl Print, buffer: &[u8], used: usize, layer: usize) -> io::Result<()> {
    let jumped = directories::jump_either_edition(buffer, used, layer);
    let numbers = jumped.map(|entry| [entry.header, entry.total, entry.last]);
    print!(rt; "{}\n", Told(numbers))
}

// One call, told apart by its word's first letter.
// Kept: the letter as it stands in the head; an enum would be matched once, where it is made.
fn answer(
    rt: &impl Print,
    word: u8,
    buffer: &mut [u8],
    used: usize,
    layer: usize,
) -> io::Result<()> {
    match word {
        b'd' => print_judged(rt, directories::judge_directory(buffer, used)),
        b'e' => print_judged(rt, directories::judge_either_edition(buffer, used)),
        b'j' => answer_jump(rt, buffer, used, layer),
        b'l' => answer_jump_either(rt, buffer, used, layer),
        b's' => {
            let appended = directories::append_second_edition(buffer, used);
            print_written(rt, appended, buffer)
        }
        _ => {
            let appended = directories::append_directory(buffer, used);
            print_written(rt, appended, buffer)
        }
    }
}

// Reads until the buffer is full or the input ends, and answers how many bytes were read. An error leaves a part of them at its start.
fn read_full(from: &mut impl Read, buffer: &mut [u8]) -> io::Result<usize>
    ensures ok { IfOk result (λ n. n ≤ length buffer.new) }
    ensures kept { length buffer.new ≡ length buffer.old }
{
    let mut done = 0;
    // Kept: a read says how far it came, which no range counts.
    while done < buffer.len() {
        let n = from.read(&mut buffer[done..])?;
        if n == 0 {
            break;
        }
        done += n;
    }
    Ok(done)
}

// The case that a line heads: its bytes are read into a buffer of their length.
fn answer_case(
    rt: &impl Print,
    from: &mut impl Read,
    head: &[u8; 39],
    buffer: &mut [u8],
) -> io::Result<()> {
    let used = vectors::number(&head[10..20]);
    let layer = vectors::number(&head[21..31]);
    let size = vectors::number(&head[32..38]).min(buffer.len());
    let buffer = &mut buffer[..size];
    read_full(from, buffer)?;
    answer(rt, head[0], buffer, used, layer)
}

// Reads cases until the input ends.
// Kept: the loop stands in each of these programs; over a closure it would take a `requires` that the closure may be called, and be no plainer.
fn answer_cases(rt: &impl Print, from: &mut impl Read, buffer: &mut [u8]) -> io::Result<()> {
    let mut head = [0u8; 39];
    for _ in 0..vectors::MOST {
        if read_full(from, &mut head)? < head.len() {
            return Ok(());
        }
        answer_case(rt, from, &head, buffer)?;
    }
    Ok(())
}

fn main(rt: HostRuntime) -> io::Result<()> {
    let mut buffer = [0u8; 65536];
    answer_cases(&rt, &mut rt.stdin(), &mut buffer)
}
