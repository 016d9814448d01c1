// The records that a walk passes, by their indices in the file, and what is wrong with one where a header or an item is due, or data.
ghost use Rattle.std.specs.Prelude.{◌≡◌, ◌+◌, ◌<◌, ◌≤◌};
ghost use Rattle.format.specs.Reasons.{fault_number};
ghost use Rattle.records.specs.Entry.{entry_of, entry_said, data_fault_of, states_counts};
ghost use Rattle.judge.specs.Walks.{ExtentOf, record_at, level_fits, entry_fault, EntryDue};

use files::Stride;
use format::{Reason, Refusal};
use records::{Entry, Held, Tally};

// What a walk is told: how far record stands from record, how many records the file has, and how many of them stand before the place.
#[derive(Clone, Copy, PartialEq, Eq, Debug)]
pub(crate) struct Extent {
    pub stride: Stride,
    pub records: usize,
    pub before: usize,
}

// The file that is walked, with what the walk is told of it.
#[derive(Clone, Copy, PartialEq, Eq, Debug)]
pub(crate) struct Walk<'a> {
    pub file: &'a [u8],
    pub extent: Extent,
}

impl<'a> Walk<'a> {
    // The bytes of record k.
    fn record_at(&self, k: usize) -> &'a [u8]
        ensures { result.now ≡ record_at self.now.file.now self.now.extent k }
    {
        files::record_at(self.file, self.extent.stride, k)
    }

    // Record k, where a header or an item is due, of which the columns are right.
    pub(crate) fn entry_at(&self, k: usize) -> Result<Entry, Reason>
        ensures { entry_said result ≡ entry_of (record_at self.now.file.now self.now.extent k) }
    {
        records::entry(self.record_at(k))
    }

    // What is wrong with record k, where data is due and `behind` data records follow it. A note is told apart here, as in `check_data`: what judges points,
    // of which a sheet has most, is then a function without the many values that judging a note keeps.
    pub(crate) fn check_data_at(&self, k: usize, held: Held, behind: usize) -> Result<(), Reason>
        ensures { fault_number result ≡ data_fault_of (record_at self.now.file.now self.now.extent k) held behind }
    {
        let record = self.record_at(k);
        if matches!(held, Held::Notes) {
            return records::check_note(record);
        }
        records::check_columns(record, held, behind)
    }

    // Whether the header at record k states this tally.
    pub(crate) fn counts_agree_at(&self, k: usize, tally: &Tally) -> bool
        ensures { result ≡ states_counts (record_at self.now.file.now self.now.extent k) tally.now }
    {
        records::counts_agree(self.record_at(k), tally)
    }

    // The header or item that record k is, where one is due: 4, 5 and 6, then 7, then 8.
    pub(crate) fn entry_due(&self, k: usize, open_level: usize) -> Result<Entry, Refusal>
        requires { (open_level ≤ 8) × (ExtentOf self.now.file.now self.now.extent) × (k < self.now.extent.records) }
        ensures { EntryDue self.now.file.now self.now.extent k open_level result }
    {
        let entry = match self.entry_at(k) {
            Ok(entry) => entry,
            Err(reason) => return Err(reason.at(k + 1)),
        };
        if let Err(reason) = check_entry(entry, open_level) {
            return Err(reason.at(k + 1));
        }
        Ok(entry)
    }

    // The record behind record k.
    pub(crate) fn next(&self, k: usize) -> usize
        requires { (ExtentOf self.now.file.now self.now.extent) × (k < self.now.extent.records) }
        ensures { result ≡ k + 1 }
    {
        let each = files::bytes(self.extent.stride);
        let from = each * k;
        if read_ahead::go_on(self.file, from, from + each) {
            k + 1
        } else {
            k
        }
    }

    // Record k, where the walk begins.
    pub(crate) fn begin(&self, k: usize) -> usize
        ensures { result ≡ k }
    {
        if read_ahead::start(self.file) { k } else { 0 }
    }
}

// A header, which is of kind 0, has level 1 to 8, an item 2 to 9; and either is at most one above the open level.
#[tactic(auto, unfolding(crate::specs::Walks::level_fits, crate::specs::Walks::lowest_of, crate::specs::Walks::highest_of))]
fn level_ok(kind: usize, level: usize, open_level: usize) -> bool
    requires { open_level ≤ 8 }
    ensures { result ≡ level_fits kind level open_level }
{
    let levels = if kind == 0 { 1..=8 } else { 2..=9 };
    levels.contains(&level) && level <= open_level + 1
}

// What is wrong with a header or an item of which the columns are right: 7, then 8.
fn check_entry(entry: Entry, open_level: usize) -> Result<(), Reason>
    requires { open_level ≤ 8 }
    ensures { fault_number result ≡ entry_fault (entry_said (Ok entry)) open_level }
{
    if !level_ok(entry.kind, entry.level, open_level) {
        return Err(Reason::Level);
    }
    if !entry.rule_kept {
        return Err(Reason::DataRule);
    }
    Ok(())
}
