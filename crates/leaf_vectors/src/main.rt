// Answers stored commands on number columns and corners, a line for each: the batch protocol's read, write, join and split, and
// `formed START COUNT BYTES`, whether so many seven-byte columns from a start are well formed.
// What it writes is held to the answers of an implementation that shares nothing with the library.
#![tactic(auto)]

ghost use Rattle.std.specs.Prelude.{◌≡◌, ◌≤◌, length, IfOk};

use std::io;
use std::io::Read;
use vectors::Told;

// The three words behind a line's command, each behind one space: a word that is missing is empty, and a control byte ends the last.
#[derive(Clone, Copy, Debug)]
struct Words<'a> {
    first: &'a [u8],
    second: &'a [u8],
    third: &'a [u8],
}

fn words_of(line: &[u8]) -> Words<'_> {
    let text = line.split(|byte| *byte < b' ').next().unwrap_or(line);
    let mut words = text.split(|byte| *byte == b' ').skip(1);
    Words {
        first: words.next().unwrap_or(b""),
        second: words.next().unwrap_or(b""),
        third: words.next().unwrap_or(b""),
    }
}

// The size of a decimal number of at most 19 digits, a minus in front passed over.
fn size_of(word: &[u8]) -> u64 {
    word.iter().fold(0, |n, byte| {
        if *byte < b'0' {
            n
        } else {
            n % 1000000000000000000 * 10 + u64::from(*byte - b'0') % 10
        }
    })
}

// A signed number of 64 bits, both ends included.
fn signed(word: &[u8]) -> i64 {
    match i64::try_from(size_of(word)) {
        Ok(value) if word.first() == Some(&b'-') => -value,
        Ok(value) => value,
        Err(_) => i64::MIN,
    }
}

fn hex_digit(byte: u8) -> u8
    ensures { result ≤ 15 }
{
    if byte < b'a' {
        byte % 16
    } else {
        (byte - b'a') % 6 + 10
    }
}

// Puts the bytes that a word spells in hex at the start of out, and answers how many there are; "-" spells none.
fn unhex(word: &[u8], out: &mut [u8]) -> usize
    ensures { result ≤ length out.new }
{
    let count = (word.len() / 2).min(out.len());
    for (byte, pair) in out.iter_mut().zip(word.chunks_exact(2)) {
        *byte = hex_digit(pair[0]) * 16 + hex_digit(pair[1]);
    }
    count
}

// read BYTES: the bytes are spelled out in `space` first.
fn answer_read(rt: &impl Print, word: &[u8], space: &mut [u8]) -> io::Result<()> {
    let width = unhex(word, space);
    print!(rt; "{}", Told(columns::read(&space[..width]).map(|n| [n])))
}

// write WIDTH VALUE: the column is lent by the caller, and has the width.
fn answer_write(rt: &impl Print, column: &mut [u8], value: i64) -> io::Result<()> {
    match columns::write(column, value) {
        Ok(_) => {
            print!(rt; "ok ")?;
            for byte in column.iter() {
                print!(rt; "{byte:02x}")?;
            }
            Ok(())
        }
        Err(refusal) => print!(rt; "{}", Told::<usize, 0>(Err(refusal))),
    }
}

// formed START COUNT BYTES: the bytes are spelled out in `space` first.
fn answer_formed(
    rt: &impl Print,
    start: usize,
    count: usize,
    word: &[u8],
    space: &mut [u8],
) -> io::Result<()> {
    let length = unhex(word, space);
    if form_columns::columns_well_formed(&space[..length], start, count) {
        print!(rt; "yes")
    } else {
        print!(rt; "no")
    }
}

// One command, told apart by its first letter.
// Kept: the letter as it stands in the line; an enum would be matched once, where it is made.
fn answer(rt: &impl Print, command: u8, words: Words<'_>, space: &mut [u8]) -> io::Result<()> {
    match command {
        b'r' => answer_read(rt, words.first, space),
        b'w' => {
            let width = usize::try_from(size_of(words.first))
                .unwrap_or(space.len())
                .min(space.len());
            answer_write(rt, &mut space[..width], signed(words.second))
        }
        b'f' => {
            let start = size_of(words.first) as usize;
            let count = size_of(words.second) as usize;
            answer_formed(rt, start, count, words.third, space)
        }
        b'j' => {
            let unit = size_of(words.first);
            let joined = corners::join(unit, signed(words.second), signed(words.third));
            print!(rt; "{}", Told(joined.map(|millimetres| [millimetres])))
        }
        _ => {
            let split = corners::split(size_of(words.first), signed(words.second));
            print!(rt;
                "{}",
                Told(split.map(|corner| [corner.whole, corner.fraction]))
            )
        }
    }
}

// Each line, one command. No line is empty: each has its end, or is the last.
fn answer_lines(rt: &impl Print, input: &[u8], space: &mut [u8]) -> io::Result<()> {
    for line in input.split_inclusive(|byte| *byte == b'\n') {
        if let Some(command) = line.first() {
            answer(rt, *command, words_of(line), space)?;
            print!(rt; "\n")?;
        }
    }
    Ok(())
}

// Reads until the buffer is full or the input ends, and answers how many bytes were read. An error leaves a part of them at its start.
fn read_full(from: &mut impl Read, buffer: &mut [u8]) -> io::Result<usize>
    ensures ok { IfOk result (λ n. n ≤ length buffer.new) }
    ensures kept { length buffer.new ≡ length buffer.old }
{
    let mut done = 0;
    // Kept: a read says how far it came, which no range counts.
    while done < buffer.len() {
        let n = from.read(&mut buffer[done..])?;
        if n == 0 {
            break;
        }
        done += n;
    }
    Ok(done)
}

fn main(rt: HostRuntime) -> io::Result<()> {
    let mut buffer = [0u8; 65536];
    let n = read_full(&mut rt.stdin(), &mut buffer)?;
    let mut space = [0u8; 4096];
    answer_lines(&rt, &buffer[..n], &mut space)
}
