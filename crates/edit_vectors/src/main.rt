// Runs stored lists of insertions and removals, and ways up between them, each on the buffer and used length that the last call returned or
// left. What it prints is held to the answers of an implementation that shares nothing with the library.
//
// A line has 24 bytes: a word in seven, a number in ten digits, a space, a length in five digits and a line end; so many bytes follow it.
// `start` gives the used length, and the buffer follows; `insert` the place, and the block follows; `remove` the place; `up` a record
// number; `end` ends the list.
#![tactic(auto)]

ghost use Rattle.std.specs.Prelude.{◌≡◌, ◌≤◌, length, IfOk};

use format::{HeaderAbove, Refusal};
use std::io;
use std::io::Read;
use vectors::Told;

// The head of a call.
type Head = [u8; 24];

// The digest of the whole buffer, tail and all, and the line's end.
fn print_digest(rt: &impl Print, buffer: &[u8]) -> io::Result<()> {
    print!(rt; " {}\n", vectors::digest(buffer))
}

// The way up: the header above, 0 for a layer header, and the headers passed.
fn print_way_up(rt: &impl Print, way: Result<Option<HeaderAbove>, Refusal>) -> io::Result<()> {
    let numbers = match way {
        Ok(Some(above)) => Ok([above.header, usize::from(above.passed)]),
        Ok(None) => Ok([0, 0]),
        Err(refusal) => Err(refusal),
    };
    print!(rt; "{}\n", Told(numbers))
}

// An edit, and the digest that it leaves; answers the used length for the next call, which a refusal leaves.
fn print_edited(
    rt: &impl Print,
    edited: Result<usize, Refusal>,
    used: usize,
    buffer: &[u8],
) -> io::Result<usize> {
    print!(rt; "{}", Told(edited.map(|after| [after])))?;
    print_digest(rt, buffer)?;
    Ok(edited.unwrap_or(used))
}

// One call at a place or from a record, told apart by its word's first letter; answers the used length for the next call.
// Kept: the letter as it stands in the head; an enum would be matched once, where it is made.
fn answer(
    rt: &impl Print,
    word: u8,
    place: usize,
    buffer: &mut [u8],
    used: usize,
    block: &[u8],
) -> io::Result<usize> {
    match word {
        b'u' => {
            print_way_up(rt, way_up::way_up(buffer, used, place))?;
            Ok(used)
        }
        b'i' => {
            let edited = edit::insert(buffer, used, place, block);
            print_edited(rt, edited, used, buffer)
        }
        _ => {
            let edited = edit::remove(buffer, used, place);
            print_edited(rt, edited, used, buffer)
        }
    }
}

// Reads until the buffer is full or the input ends, and answers how many bytes were read. An error leaves a part of them at its start.
fn read_full(from: &mut impl Read, buffer: &mut [u8]) -> io::Result<usize>
    ensures ok { IfOk result (λ n. n ≤ length buffer.new) }
    ensures kept { length buffer.new ≡ length buffer.old }
{
    let mut done = 0;
    // Kept: a read says how far it came, which no range counts.
    while done < buffer.len() {
        let n = from.read(&mut buffer[done..])?;
        if n == 0 {
            break;
        }
        done += n;
    }
    Ok(done)
}

// The call that a line heads: reads its block, and answers it.
fn answer_call(
    rt: &impl Print,
    from: &mut impl Read,
    head: &Head,
    buffer: &mut [u8],
    used: usize,
    block: &mut [u8],
) -> io::Result<usize> {
    let place = vectors::number(&head[7..17]);
    let length = vectors::number(&head[18..23]).min(block.len());
    let block = &mut block[..length];
    read_full(from, block)?;
    answer(rt, head[0], place, buffer, used, block)
}

// Reads and answers calls until the list ends.
fn answer_calls(
    rt: &impl Print,
    from: &mut impl Read,
    buffer: &mut [u8],
    start: usize,
    block: &mut [u8],
) -> io::Result<()> {
    let mut head = [0u8; 24];
    let mut used = start;
    for _ in 0..vectors::MOST {
        if read_full(from, &mut head)? < head.len() || head[0] == b'e' {
            return Ok(());
        }
        used = answer_call(rt, from, &head, buffer, used, block)?;
    }
    Ok(())
}

// The list that a line starts, in a buffer of its length, and the digest that it leaves.
fn answer_list(
    rt: &impl Print,
    from: &mut impl Read,
    head: &Head,
    buffer: &mut [u8],
    block: &mut [u8],
) -> io::Result<()> {
    let used = vectors::number(&head[7..17]);
    let size = vectors::number(&head[18..23]).min(buffer.len());
    let buffer = &mut buffer[..size];
    read_full(from, buffer)?;
    answer_calls(rt, from, buffer, used, block)?;
    print!(rt; "end")?;
    print_digest(rt, buffer)
}

// Reads lists until the input ends.
// Kept: the loop stands in each of these programs; over a closure it would take a `requires` that the closure may be called, and be no plainer.
fn answer_lists(
    rt: &impl Print,
    from: &mut impl Read,
    buffer: &mut [u8],
    block: &mut [u8],
) -> io::Result<()> {
    let mut head = [0u8; 24];
    for _ in 0..vectors::MOST {
        if read_full(from, &mut head)? < head.len() {
            return Ok(());
        }
        answer_list(rt, from, &head, buffer, block)?;
    }
    Ok(())
}

fn main(rt: HostRuntime) -> io::Result<()> {
    let mut buffer = [0u8; 65536];
    let mut block = [0u8; 65536];
    answer_lists(&rt, &mut rt.stdin(), &mut buffer, &mut block)
}
