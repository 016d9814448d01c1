// The normal form of a sheet file and of an index file: the same file with every judged integer in written form, in a second buffer.
#![tactic(auto)]

ghost use Rattle.std.specs.Prelude.{◌≡◌, ◌++◌, ◌+◌, ◌*◌, ◌%◌, ◌≤◌, length, drop};
ghost use Rattle.format.specs.Basics.{chunks, flat};
ghost use Rattle.format.specs.Normal.{normal_record, normal_sheet, normal_index};
ghost use Rattle.format.specs.Answers.{written_answer};
ghost use Rattle.normal.specs.Due.{letter_columns, part_columns, columns_due, rewritten, with_record, file_to};

use due::FileDue;
use files::{RECORD, Stride};
use format::{Reason, Refusal};
use layouts::{
    Element, GridHeader, Header, IndexA, IndexC, NetHeader, SheetA, SheetB, SheetD, SheetE, SheetF,
};
use part_and_index::Due;

mod data;
mod due;
mod rewriting;

// A header or an item, by the letter that its type begins with.
#[tactic(auto, using(crate::proofs::Lies::each_lies))]
fn rewrite_entry(record: &mut [u8; RECORD])
    ensures { «record».new ≡ normal_record (letter_columns «record».old) «record».old }
{
    match record[0] {
        b'H' => rewriting::rewrite::<Header>(record),
        b'E' => rewriting::rewrite::<Element>(record),
        b'G' => rewriting::rewrite::<GridHeader>(record),
        b'T' => rewriting::rewrite::<NetHeader>(record),
        _ => {}
    }
}

// A record of a sheet part or of an index, by its layout. Sheet c and index b have no judged column.
#[tactic(auto, using(crate::proofs::Lies::each_lies))]
fn rewrite_part(record: &mut [u8; RECORD], due: Due)
    ensures { «record».new ≡ normal_record (part_columns due) «record».old }
{
    match due {
        Due::SheetA => rewriting::rewrite::<SheetA>(record),
        Due::SheetB(_) => rewriting::rewrite::<SheetB>(record),
        Due::SheetD(_) => rewriting::rewrite::<SheetD>(record),
        Due::SheetE(_, _) => rewriting::rewrite::<SheetE>(record),
        Due::SheetF(_, _) => rewriting::rewrite::<SheetF>(record),
        Due::IndexA => rewriting::rewrite::<IndexA>(record),
        Due::IndexC(_) => rewriting::rewrite::<IndexC>(record),
        Due::SheetC(_) | Due::IndexB(_, _) | Due::Over => {}
    }
}

// The record that is due, by its layout.
fn rewrite_due(record: &mut [u8; RECORD], due: FileDue)
    ensures { «record».new ≡ normal_record (columns_due due «record».old) «record».old }
{
    match due {
        FileDue::Sheet(part) | FileDue::Index(part) => rewrite_part(record, part),
        FileDue::Entry => rewrite_entry(record),
        FileDue::Data(held, behind) => data::data(record, held, behind),
    }
}

// One record, copied and then written again.
fn write_record(source: &[u8], due: FileDue, target: &mut [u8])
    requires { (length source.now ≡ 84) × (length target.old ≡ 84) }
    ensures { target.new ≡ normal_record (columns_due due source.now) source.now }
{
    let (Some(record), Some(read)) = (target.as_mut_array::<RECORD>(), source.as_array::<RECORD>())
    else {
        unreachable!()
    };
    *record = *read;
    rewrite_due(record, due);
}

// The same at record k of the second buffer, counted from 0.
fn write_at(source: &[u8], due: FileDue, second: &mut [u8], k: usize)
    requires { (length source.now ≡ 84) × (84 * (k + 1) ≤ length second.old) }
    ensures { second.new ≡ with_record k (normal_record (columns_due due source.now) source.now) second.old }
{
    let start = RECORD * k;
    write_record(source, due, &mut second[start..start + RECORD]);
}

// The records of the buffer, n of them, to the second one, from the record that is due first.
fn write_records(buffer: &[u8], n: usize, first: FileDue, second: &mut [u8])
    requires { (84 * n ≤ length buffer.now) × (84 * n ≤ length second.old) }
    ensures { second.new ≡ flat (rewritten first (chunks n buffer.now)) ++ drop (84 * n) second.old }
{
    let mut due = first;
    for k in 0..n {
        let record = files::record_at(buffer, Stride::Plain, k);
        write_at(record, due, second, k);
        due = due::next_in_file(due, record);
    }
}

// An accepted file: "writes to a second buffer (else 15)".
fn write_file(
    buffer: &[u8],
    used: usize,
    first: FileDue,
    second: &mut [u8],
) -> Result<usize, Refusal>
    requires { (used ≤ length buffer.now) × (used % 84 ≡ 0) }
    ensures { record { answer = written_answer result; bytes = second.new } ≡ file_to used first buffer.now second.old }
{
    if second.len() < used {
        return Err(Reason::Room.at(0));
    }
    write_records(buffer, used / RECORD, first, second);
    Ok(used)
}

// The normal form of the sheet file in the first `used` bytes of the buffer.
pub fn normal_sheet(buffer: &[u8], used: usize, second: &mut [u8]) -> Result<usize, Refusal>
    ensures { record { answer = written_answer result; bytes = second.new } ≡ normal_sheet used buffer.now second.old }
{
    judge::open_sheet(buffer, used, 0)?;
    write_file(buffer, used, FileDue::Sheet(Due::SheetA), second)
}

// The normal form of the index file in the first `used` bytes of the buffer.
pub fn normal_index(buffer: &[u8], used: usize, second: &mut [u8]) -> Result<usize, Refusal>
    ensures { record { answer = written_answer result; bytes = second.new } ≡ normal_index used buffer.now second.old }
{
    judge::judge_index(buffer, used)?;
    write_file(buffer, used, FileDue::Index(Due::IndexA), second)
}
