// A directory of layers behind a sheet, of the first or the second edition: judging a sheet with it, appending it, and jumping by it to the header of a layer.
#![tactic(auto)]

ghost use Rattle.std.specs.Prelude.{◌≡◌, true, ◌+◌, ◌-◌, ◌*◌, ◌/◌, ◌≤◌, ◌<◌, ◌↔◌, IsTrue, [], MatchResult, false, length, get_or};
ghost use Rattle.format.specs.Reasons.{refusal_for};
ghost use Rattle.format.specs.Basics.{chunks};
ghost use Rattle.format.specs.Answers.{judged_answer, edited_answer};
ghost use Rattle.format_directory.specs.declared.Edition.TheVariants.{One, Two};
ghost use Rattle.format_directory.specs.Directory.{used_ok, last_record, in_count, directory_in, entry_in, judge_edition, judge_directory, append_directory, jump, judge_either_edition, jump_either_edition};
ghost use Rattle.format_directory.specs.Answers.{jumped_answer, jumped_either_answer};
ghost use Rattle.directories.specs.Steps.{EditionNamed, Behind, FoundFrom, FoundAs, FoundFirst, FoundEither, Reaches, number_for};

use files::{RECORD, Stride};
use format::{Counts, Reason, Refusal};
use format_directory::{Edition, LayerEntry};

mod closing;
mod comparing;
mod writing;

// A directory that was found behind its sheet: its edition, the number of its first record, how many layers it lists, and how many items the sheet has.
#[derive(Clone, Copy, PartialEq, Eq, Debug)]
struct Found {
    edition: Edition,
    pointer: usize,
    layers: usize,
    items: usize,
}

impl Found {
    // What the sheet before it holds.
    fn counts(self) -> Counts
        requires { 1 ≤ self.pointer }
        ensures { result ≡ record { records = self.pointer - 1; items = self.items } }
    {
        Counts {
            records: self.pointer - 1,
            items: self.items,
        }
    }

    // Number i of those that it lists of a layer, counted from 1.
    #[tactic(auto, using(crate::proofs::Judging::number_there, crate::proofs::Judging::number_is_lem))]
    fn number(self, buffer: &[u8], used: usize, layer: usize, i: usize) -> usize
        requires { Reaches used buffer.now self layer i }
        ensures { result ≡ number_for used buffer.now self layer i }
    {
        let each = directory_columns::per_record(self.edition);
        let own = directory_columns::per_layer(self.edition);
        let row = self.pointer - 1 + (layer - 1) / each;
        let record = record_at(buffer, used, row);
        closing::number_in(record, own * ((layer - 1) % each) + i)
    }

    // It lists a layer of this number, counted from 1.
    fn has_layer(self, layer: usize) -> bool
        ensures { IsTrue result ↔ ((1 ≤ layer) × (layer ≤ self.layers)) }
    {
        (1..=self.layers).contains(&layer)
    }

    // What it lists of a layer, counted from 1.
    fn entry(self, buffer: &[u8], used: usize, layer: usize) -> Result<LayerEntry, Refusal>
        requires { Behind used buffer.now self }
        ensures { jumped_either_answer result ≡ in_count self.layers layer (entry_in self.edition (directory_in used buffer.now) layer) }
    {
        if !self.has_layer(layer) {
            return Err(Reason::RecordNumber.at(0));
        }
        let header = self.number(buffer, used, layer, 0);
        match self.edition {
            Edition::One => Ok(LayerEntry {
                header,
                total: 0,
                last: 0,
            }),
            Edition::Two => Ok(LayerEntry {
                header,
                total: self.number(buffer, used, layer, 1),
                last: self.number(buffer, used, layer, 2),
            }),
        }
    }
}

// 1, of a file with a directory, which may be longer than a sheet.
fn used_ok(buffer: &[u8], used: usize) -> bool
    ensures { result ≡ used_ok used buffer.now }
{
    0 < used && used <= buffer.len() && used % RECORD == 0
}

// Record k of the file in the first `used` bytes.
#[tactic(auto, using(crate::proofs::Judging::record_long, crate::proofs::Judging::record_is))]
fn record_at(buffer: &[u8], used: usize, k: usize) -> &[u8; RECORD]
    requires { (used ≤ length buffer.now) × (k < used / 84) }
    ensures { result.now ≡ get_or (chunks (used / 84) buffer.now) k [] }
{
    let record = files::record_at(&buffer[..used], Stride::Plain, k);
    <&[u8; RECORD]>::try_from(record).unwrap()
}

// The last record of a file of whole records.
fn last_record(buffer: &[u8], used: usize) -> Result<&[u8; RECORD], Refusal>
    ensures { MatchResult result (λ r. (used_ok used buffer.now ≡ true) × (r.now ≡ last_record used buffer.now)) (λ w. (used_ok used buffer.now ≡ false) × (w ≡ refusal_for Reason.Length 0)) }
{
    if !used_ok(buffer, used) {
        return Err(Reason::Length.at(0));
    }
    Ok(record_at(buffer, used, used / RECORD - 1))
}

// The sheet before the pointer, then the records from there on, in a file whose closing record is well formed.
fn judge_from(
    buffer: &[u8],
    used: usize,
    edition: Edition,
    pointer: usize,
) -> Result<Found, Refusal>
    requires { (used ≤ length buffer.now) × (1 ≤ pointer) × (84 * pointer ≤ used) }
    ensures { FoundFrom edition pointer used buffer.now result }
{
    let sheet = RECORD * (pointer - 1);
    let directory = &buffer[sheet..used];
    let listed = judge::open_listed(buffer, sheet, directory, edition)?;
    let found = Found {
        edition,
        pointer,
        layers: listed.layers,
        items: listed.items,
    };
    match comparing::first_different(directory, found, listed.unlisted) {
        Some(i) => Err(Reason::Directory.at(pointer + i)),
        None => Ok(found),
    }
}

// The sheet with a directory of this edition, by the last record of the file.
fn find_behind(
    buffer: &[u8],
    used: usize,
    last: &[u8; RECORD],
    edition: Edition,
) -> Result<Found, Refusal>
    requires { (used_ok used buffer.now ≡ true) × (last.now ≡ last_record used buffer.now) }
    ensures { FoundAs (judge_edition edition used buffer.now) edition used buffer.now result }
{
    let number = used / RECORD;
    if !closing::closing_ok(last, edition, number) {
        return Err(Reason::Directory.at(number));
    }
    judge_from(buffer, used, edition, closing::number_in(last, 0))
}

// The same of any bytes, by the first edition.
fn find_first(buffer: &[u8], used: usize) -> Result<Found, Refusal>
    ensures { FoundFirst used buffer.now result }
{
    let last = last_record(buffer, used)?;
    find_behind(buffer, used, last, Edition::One)
}

// The edition that the last record names, by its number.
fn edition_named(last: &[u8; RECORD], number: usize) -> Result<Edition, Refusal>
    ensures { EditionNamed last.now number result }
{
    if !closing::is_second(last) {
        return Ok(Edition::One);
    }
    if !closing::states_two(last) {
        return Err(Reason::Edition.at(number));
    }
    Ok(Edition::Two)
}

// The same by the edition that the last record names.
fn find_either(buffer: &[u8], used: usize) -> Result<Found, Refusal>
    ensures { FoundEither used buffer.now result }
{
    let last = last_record(buffer, used)?;
    let edition = edition_named(last, used / RECORD)?;
    find_behind(buffer, used, last, edition)
}

// Judges the first `used` bytes of the buffer as a sheet file with a directory.
pub fn judge_directory(buffer: &[u8], used: usize) -> Result<Counts, Refusal>
    ensures { judged_answer result ≡ judge_directory used buffer.now }
{
    let found = find_first(buffer, used)?;
    Ok(found.counts())
}

// Judges them as a sheet file with a directory of either edition.
pub fn judge_either_edition(buffer: &[u8], used: usize) -> Result<Counts, Refusal>
    ensures { judged_answer result ≡ judge_either_edition used buffer.now }
{
    let found = find_either(buffer, used)?;
    Ok(found.counts())
}

// The record number of the header of a layer, counted from 1, as the directory has it.
pub fn jump(buffer: &[u8], used: usize, layer: usize) -> Result<usize, Refusal>
    ensures { jumped_answer result ≡ jump used buffer.now layer }
{
    let found = find_first(buffer, used)?;
    let entry = found.entry(buffer, used, layer)?;
    Ok(entry.header)
}

// The same in a directory of either edition, with total and last record of the layer, both 0 in the first.
pub fn jump_either_edition(buffer: &[u8], used: usize, layer: usize) -> Result<LayerEntry, Refusal>
    ensures { jumped_either_answer result ≡ jump_either_edition used buffer.now layer }
{
    let found = find_either(buffer, used)?;
    found.entry(buffer, used, layer)
}

// Appends a directory of this edition to the sheet in the first `used` bytes of the buffer.
fn append_edition(buffer: &mut [u8], used: usize, edition: Edition) -> Result<usize, Refusal>
    ensures { record { answer = edited_answer result; bytes = buffer.new } ≡ append_directory edition used buffer.old }
{
    let listed = judge::open_listed(buffer, used, &[], edition)?;
    let rows = directory_columns::rows(edition, listed.layers);
    let new = used + RECORD * (rows + 1);
    if buffer.len() < new {
        return Err(Reason::Room.at(0));
    }
    writing::write_directory(buffer, used, edition, &listed);
    Ok(new)
}

// Appends a directory to the sheet in the first `used` bytes of the buffer.
pub fn append_directory(buffer: &mut [u8], used: usize) -> Result<usize, Refusal>
    ensures { record { answer = edited_answer result; bytes = buffer.new } ≡ append_directory One used buffer.old }
{
    append_edition(buffer, used, Edition::One)
}

// Appends a directory of the second edition.
pub fn append_second_edition(buffer: &mut [u8], used: usize) -> Result<usize, Refusal>
    ensures { record { answer = edited_answer result; bytes = buffer.new } ≡ append_directory Two used buffer.old }
{
    append_edition(buffer, used, Edition::Two)
}
