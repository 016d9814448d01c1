// Files with line ends: records of 84 bytes, each with carriage return and line feed behind it. Judging that form in place, and writing to it and from it.
#![tactic(auto)]

ghost use Rattle.std.specs.Prelude.{◌≡◌, ◌+◌, ◌*◌, ◌/◌, ◌≤◌, length, take, drop};
ghost use Rattle.format.specs.Reasons.{fault_said};
ghost use Rattle.format.specs.Answers.{judged_answer, written_answer};
ghost use Rattle.format_lines.specs.LineEnds.{lines, with_end, end_ok, end_fault, line_fault, judge_sheet_lines, judge_index_lines, to_lines, from_lines};
ghost use Rattle.files.specs.Records.{stride_of, records_of};
ghost use Rattle.files.specs.Buffers.{put_at};
ghost use Rattle.line_ends.specs.Steps.{end_fault_of, as_written, written_first};

use files::Stride;
use format::{Counts, Reason, Refusal};

const CARRIAGE_RETURN: u8 = 13;

const LINE_FEED: u8 = 10;

const LINE_END: [u8; 2] = [CARRIAGE_RETURN, LINE_FEED];

// Record k of a file with line ends, counted from 0, ends in carriage return and line feed.
fn is_ended(file: &[u8], k: usize) -> bool
    requires { 86 * k + 86 ≤ length file.now }
    ensures { result ≡ end_ok (take 86 (drop (86 * k) file.now)) }
{
    let start = files::LINE * k;
    file[start..start + files::LINE].ends_with(&LINE_END)
}

// The number of the first record that does not, counted from 1.
fn first_unended(file: &[u8]) -> Option<usize>
    ensures { end_fault_of result ≡ end_fault 1 (lines (length file.now / 86) file.now) }
{
    // Kept: the index; tried `chunks_exact(..).position(..)`, whose clauses speak of the chunks' runs and give no list, so the proof did not close.
    for k in 0..files::count(file, Stride::Lines) {
        if !is_ended(file, k) {
            return Some(k + 1);
        }
    }
    None
}

// 1, or 18 with its record, of a file with line ends in the first `used` bytes of the buffer.
fn check_lines(buffer: &[u8], used: usize) -> Result<(), Refusal>
    ensures { fault_said result ≡ line_fault used buffer.now }
{
    if !files::length_ok(buffer, used, Stride::Lines) {
        return Err(Reason::Length.at(0));
    }
    if let Some(unended) = first_unended(&buffer[..used]) {
        return Err(Reason::LineEnd.at(unended));
    }
    Ok(())
}

// Judges the first `used` bytes of the buffer as a sheet file with line ends.
pub fn judge_sheet_lines(buffer: &[u8], used: usize) -> Result<Counts, Refusal>
    ensures { judged_answer result ≡ judge_sheet_lines used buffer.now }
{
    check_lines(buffer, used)?;
    judge::judge_sheet_by(buffer, used, Stride::Lines)
}

// Judges the first `used` bytes of the buffer as an index file with line ends.
pub fn judge_index_lines(buffer: &[u8], used: usize) -> Result<Counts, Refusal>
    ensures { judged_answer result ≡ judge_index_lines used buffer.now }
{
    check_lines(buffer, used)?;
    judge::judge_index_by(buffer, used, Stride::Lines)
}

// Puts a record where record k of a target stands, counted from 0, as the target's stride asks: with its line end or without.
// Inlined, so that the compiler knows the strides of each writer.
#[inline(always)]
fn put_record(target: &mut [u8], stride: Stride, k: usize, record: &[u8])
    requires { (length «record».now ≡ 84) × (stride_of stride * k + stride_of stride ≤ length target.old) }
    ensures { target.new ≡ put_at target.old (stride_of stride * k) (as_written stride «record».now) }
{
    let start = files::bytes(stride) * k;
    files::put_at(target, start, record);
    if stride == Stride::Lines {
        let end = start + files::RECORD;
        target[end] = CARRIAGE_RETURN;
        target[end + 1] = LINE_FEED;
    }
}

// Every record of a file at one stride, to the front of a target at another.
#[inline(always)]
fn write_records(file: &[u8], from: Stride, target: &mut [u8], to: Stride)
    requires { stride_of to * length (records_of from file.now) ≤ length target.old }
    ensures { target.new ≡ written_first to (records_of from file.now) target.old }
{
    for k in 0..files::count(file, from) {
        put_record(target, to, k, files::record_at(file, from, k));
    }
}

// The plain file in the first `used` bytes of the buffer, with line ends, to the target.
pub fn to_lines(buffer: &[u8], used: usize, target: &mut [u8]) -> Result<usize, Refusal>
    ensures { record { answer = written_answer result; bytes = target.new } ≡ to_lines used buffer.now target.old }
{
    if !files::length_ok(buffer, used, Stride::Plain) {
        return Err(Reason::Length.at(0));
    }
    let length = files::LINE * (used / files::RECORD);
    if target.len() < length {
        return Err(Reason::Room.at(0));
    }
    write_records(&buffer[..used], Stride::Plain, target, Stride::Lines);
    Ok(length)
}

// The file with line ends in the first `used` bytes of the buffer, without them, to the target.
pub fn from_lines(buffer: &[u8], used: usize, target: &mut [u8]) -> Result<usize, Refusal>
    ensures { record { answer = written_answer result; bytes = target.new } ≡ from_lines used buffer.now target.old }
{
    check_lines(buffer, used)?;
    let length = files::RECORD * (used / files::LINE);
    if target.len() < length {
        return Err(Reason::Room.at(0));
    }
    write_records(&buffer[..used], Stride::Lines, target, Stride::Plain);
    Ok(length)
}
