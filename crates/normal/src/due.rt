// Which record of a file is due: the records follow each other from the front, and each is read by its own layout. The order of the records of a sheet part
// and of an index is that of crate part_and_index; behind a sheet part come headers, items and their data records.
ghost use Rattle.std.specs.Prelude.{◌≡◌};
ghost use Rattle.normal.specs.Due.{behind_part, due_data, behind_entry, next_in_file};

use part_and_index::Due;
use records::Held;

// The record that is due: one of a sheet part, or of an index; behind a sheet part a header or an item; or a data record, what the data records of its item
// hold, and how many of them come after it.
#[derive(Clone, Copy, PartialEq, Eq, Debug)]
pub(crate) enum FileDue {
    Sheet(Due),
    Index(Due),
    Entry,
    Data(Held, usize),
}

// Behind a sheet part, or still in it.
fn behind_part(due: Due) -> FileDue
    ensures { result ≡ behind_part due }
{
    if due == Due::Over {
        FileDue::Entry
    } else {
        FileDue::Sheet(due)
    }
}

// `data_records` more of this item.
fn due_data(held: Held, data_records: usize) -> FileDue
    ensures { result ≡ due_data held data_records }
{
    match data_records.checked_sub(1) {
        Some(behind) => FileDue::Data(held, behind),
        None => FileDue::Entry,
    }
}

// Behind a header or an item: the data records that it states.
fn behind_entry(record: &[u8]) -> FileDue
    ensures { result ≡ behind_entry «record».now }
{
    match records::entry(record) {
        Ok(entry) => due_data(entry.held, entry.data_records),
        Err(_) => FileDue::Entry,
    }
}

// What is due behind a record.
pub(crate) fn next_in_file(due: FileDue, record: &[u8]) -> FileDue
    ensures { result ≡ next_in_file due «record».now }
{
    match due {
        FileDue::Sheet(part) => behind_part(part_and_index::next_due(part, record)),
        FileDue::Index(part) => FileDue::Index(part_and_index::next_due(part, record)),
        FileDue::Entry => behind_entry(record),
        FileDue::Data(held, behind) => due_data(held, behind),
    }
}
