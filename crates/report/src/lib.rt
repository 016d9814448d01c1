// The line that the program prints: what judging its input answers, in words.
#![tactic(auto)]

ghost use Rattle.std.specs.Prelude.{◌≡◌, ◌++◌, ◌+◌, ◌≤◌, length};
ghost use Rattle.format.specs.Column.{digits};
ghost use Rattle.format.specs.Answers.{judged_answer, written_answer};
ghost use Rattle.format.specs.Program.{judge_input, line_to, report_to, read_to};
ghost use Rattle.files.specs.Buffers.{put_at};
ghost use Rattle.report.specs.Steps.{number_line, line_for, count_read, read_failed};

use format::{Counts, Reason, Refusal};

// "standard input up to 65,520 bytes"
const LONGEST: usize = 65520;

// How many digits a number has.
// Kept: digits are put by these functions and not by `Display`, since the contract says every byte of the lent buffer.
fn count_digits(n: u64) -> usize
    ensures { (result ≡ length (digits n)) × (result ≤ 20) }
{
    n.max(1).ilog10() as usize + 1
}

// Puts the digits of a number into a buffer, from `at` on.
fn put_digits(out: &mut [u8], at: usize, n: u64)
    requires { at + length (digits n) ≤ length out.old }
    ensures { out.new ≡ put_at out.old at (digits n) }
{
    let mut left = n;
    for i in (0..count_digits(n)).rev() {
        out[at + i] = b'0' + ((left % 10) as u8);
        left /= 10;
    }
}

// A text and a number behind it.
#[derive(Clone, Copy, PartialEq, Eq, Debug)]
struct Pair<'a> {
    text: &'a [u8],
    number: u64,
}

// Puts a pair into a buffer, from `at` on, and answers where it ends.
fn put_pair(out: &mut [u8], at: usize, pair: Pair) -> usize
    requires { at + length pair.text.now + length (digits pair.number) ≤ length out.old }
    ensures { (result ≡ at + length pair.entry.text.now + length (digits pair.entry.number))
        × (out.new ≡ put_at out.old at (pair.entry.text.now ++ digits pair.entry.number)) }
{
    let Pair { text, number } = pair;
    files::put_at(out, at, text);
    let behind = at + text.len();
    put_digits(out, behind, number);
    behind + count_digits(number)
}

// Puts a line that is a text at the start of a buffer, if it has room there.
pub fn put_text_line(out: &mut [u8], text: &[u8]) -> Result<usize, Refusal>
    ensures { record { answer = written_answer result; bytes = out.new } ≡ line_to text.now out.old }
{
    if out.len() < text.len() {
        return Err(Reason::Room.at(0));
    }
    files::put_at(out, 0, text);
    Ok(text.len())
}

// Puts a line that is two pairs and a text at the start of a buffer, if it has room there. The texts are so short that the line's length cannot wrap.
fn put_number_line(out: &mut [u8], a: Pair, b: Pair, last: &[u8]) -> Result<usize, Refusal>
    requires { length a.text.now + length b.text.now + length last.now ≤ 40 }
    ensures { record { answer = written_answer result; bytes = out.new }
        ≡ line_to (number_line a.entry.text.now a.entry.number b.entry.text.now b.entry.number last.now) out.old }
{
    let length = a.text.len()
        + count_digits(a.number)
        + b.text.len()
        + count_digits(b.number)
        + last.len();
    if out.len() < length {
        return Err(Reason::Room.at(0));
    }
    let at = put_pair(out, 0, a);
    let at = put_pair(out, at, b);
    files::put_at(out, at, last);
    Ok(length)
}

// Puts the line for what judging answered at the start of a buffer, if it has room there.
fn put_answer(out: &mut [u8], judged: Result<Counts, Refusal>) -> Result<usize, Refusal>
    ensures { record { answer = written_answer result; bytes = out.new } ≡ line_to (line_for judged) out.old }
{
    match judged {
        Ok(Counts { records, items }) => {
            let records = Pair {
                text: b"accepted ",
                number: records as u64,
            };
            let items = Pair {
                text: b" records ",
                number: items as u64,
            };
            put_number_line(out, records, items, b" items\n")
        }
        Err(Refusal { reason, at }) => {
            let number = Pair {
                text: b"refused ",
                number: u64::from(reason.number()),
            };
            let at = Pair {
                text: b" at record ",
                number: at as u64,
            };
            put_number_line(out, number, at, b"\n")
        }
    }
}

// Judges the program's input, as an index or as a sheet.
fn judge_input(input: &[u8]) -> Result<Counts, Refusal>
    ensures { judged_answer result ≡ judge_input input.now }
{
    if input.starts_with(b"I ") {
        judge::judge_index(input, input.len())
    } else {
        judge::judge_sheet(input, input.len())
    }
}

// Puts the line that the program prints on an input at the start of a buffer, if it has room there.
pub fn report(input: &[u8], out: &mut [u8]) -> Result<usize, Refusal>
    ensures { record { answer = written_answer result; bytes = out.new } ≡ report_to input.now out.old }
{
    if LONGEST < input.len() {
        return put_text_line(out, b"too long\n");
    }
    put_answer(out, judge_input(input))
}

// The same for what reading an input came to: the first bytes of a buffer, or a read that failed. A part of an input gets no answer.
pub fn report_read(buffer: &[u8], read: Option<usize>, out: &mut [u8]) -> Result<usize, Refusal>
    ensures { record { answer = written_answer result; bytes = out.new } ≡ read_to buffer.now (count_read read) (read_failed read) out.old }
{
    let Some(used) = read else {
        return put_text_line(out, b"not judged: read error\n");
    };
    report(&buffer[..used.min(buffer.len())], out)
}
