// Judging a sheet file and an index file, in the three stages of document 01, and opening a sheet: the verdict with what stands before a place
// of it.
#![tactic(auto)]

ghost use Rattle.std.specs.Prelude.{◌≡◌, true, false, take, MatchResult};
ghost use Rattle.format.specs.Reasons.{refusal_for};
ghost use Rattle.format.specs.declared.Reason.TheVariants.{Length};
ghost use Rattle.format.specs.Judge.{judge_records, judge_index_records, judge_sheet, judge_index};
ghost use Rattle.format.specs.Answers.{judged_answer};
ghost use Rattle.files.specs.declared.Stride.TheVariants.{Plain};
ghost use Rattle.files.specs.Records.{records_of, length_ok};
ghost use Rattle.judge.specs.Sheet.{judge_by, opened_in, sheet_said};
ghost use Rattle.judge.specs.Listed.{listed_in, listed_said};

use files::Stride;
use format::{Counts, Reason, Refusal};
use format_directory::Edition;
use part_and_index::FourCorners;

// What a directory lists of the first layers, kept by the walk that judges, so that who lists the layers of a sheet does not look for them again; 0 where there
// is no layer.
// Kept: 33 numbers with 0 for none, since there is no heap and the contract (first_numbers of specs/Listed) has them so.
pub type FirstNumbers = [usize; 33];

// So many layers are 33 numbers, by edition.
pub const FIRST_KEPT: usize = 33;

pub const SECOND_KEPT: usize = 11;

mod body_records;
mod opening;
mod walk;

// An opened sheet: how many items it has, how many records its sheet part, its unit and corners. Of a place of it: how many data records are still due there, and
// the open level; and by their numbers in the file the last header or item before it and the last header of each level, the sheet part's last record where there is
// none.
#[derive(Clone, Copy, PartialEq, Eq, Debug)]
pub struct Sheet {
    pub items: usize,
    pub part: usize,
    pub unit: u64,
    pub corners: FourCorners,
    pub due: usize,
    pub open_level: usize,
    pub start: usize,
    pub headers: [usize; 9],
}

// Stage one: the file in the first `used` bytes of the buffer.
fn stage_one(buffer: &[u8], used: usize, stride: Stride) -> Result<&[u8], Refusal>
    ensures { MatchResult result (λ file. (length_ok stride used buffer.now ≡ true) × (file.now ≡ take used buffer.now)) (λ r. (length_ok stride used buffer.now ≡ false) × (r ≡ refusal_for Length 0)) }
{
    if !files::length_ok(buffer, used, stride) {
        return Err(Reason::Length.at(0));
    }
    Ok(&buffer[..used])
}

// Opens the sheet file in the first `used` bytes of the buffer: the verdict, and what stands before the place behind `before` of its records.
pub fn open_sheet(buffer: &[u8], used: usize, before: usize) -> Result<Sheet, Refusal>
    ensures { sheet_said result ≡ opened_in used buffer.now before }
{
    let file = stage_one(buffer, used, Stride::Plain)?;
    opening::open_file(file, Stride::Plain, before)
}

// A sheet against the records of a directory: how many items it has, how many records its sheet part, how many layers, the first of these, counted from 0, that the
// directory does not list with its numbers, and what one of this edition lists of the first ones.
#[derive(Clone, Copy, PartialEq, Eq, Debug)]
pub struct ListedSheet {
    pub items: usize,
    pub part: usize,
    pub layers: usize,
    pub unlisted: Option<usize>,
    pub first_numbers: FirstNumbers,
}

// Opens the sheet file in the first `used` bytes of the buffer against the records of a directory, in the one walk that judges it.
pub fn open_listed(
    buffer: &[u8],
    used: usize,
    directory: &[u8],
    edition: Edition,
) -> Result<ListedSheet, Refusal>
    ensures { listed_said result ≡ listed_in edition used buffer.now (records_of Plain directory.now) }
{
    let file = stage_one(buffer, used, Stride::Plain)?;
    let against = walk::Directory {
        records: directory,
        edition,
    };
    let opened = opening::open_against(file, Stride::Plain, 0, against)?;
    let first_numbers = opened.first_numbers;
    Ok(ListedSheet {
        items: opened.sheet.items,
        part: opened.sheet.part,
        layers: opened.layers,
        unlisted: opened.unlisted,
        first_numbers,
    })
}

// Judges the first `used` bytes of the buffer as a sheet file whose records stand at a stride.
pub fn judge_sheet_by(buffer: &[u8], used: usize, stride: Stride) -> Result<Counts, Refusal>
    ensures { judged_answer result ≡ judge_by judge_records stride used buffer.now }
{
    let file = stage_one(buffer, used, stride)?;
    let sheet = opening::open_file(file, stride, 0)?;
    Ok(Counts {
        records: files::count(file, stride),
        items: sheet.items,
    })
}

// The same as an index file.
pub fn judge_index_by(buffer: &[u8], used: usize, stride: Stride) -> Result<Counts, Refusal>
    ensures { judged_answer result ≡ judge_by judge_index_records stride used buffer.now }
{
    let file = stage_one(buffer, used, stride)?;
    let counts = Counts {
        records: files::count(file, stride),
        items: 0,
    };
    part_and_index::check_index(file, stride).and(Ok(counts))
}

// Judges the first `used` bytes of the buffer as a sheet file.
pub fn judge_sheet(buffer: &[u8], used: usize) -> Result<Counts, Refusal>
    ensures { judged_answer result ≡ judge_sheet used buffer.now }
{
    judge_sheet_by(buffer, used, Stride::Plain)
}

// Judges the first `used` bytes of the buffer as an index file.
pub fn judge_index(buffer: &[u8], used: usize) -> Result<Counts, Refusal>
    ensures { judged_answer result ≡ judge_index used buffer.now }
{
    judge_index_by(buffer, used, Stride::Plain)
}
