// Which record is due: the records of a sheet part, and those of an index, come in a fixed order. This is the one place where that order is coded: who judges
// the records and who writes them again both follow it.
ghost use Rattle.std.specs.Prelude.{◌≡◌, []};
ghost use Rattle.format.specs.Sheet as Sheet;
ghost use Rattle.format.specs.Index as Index;
ghost use Rattle.part_and_index.specs.Due.{due_in, due_at, next_of_whole, next_due};

use files::RECORD;
use layouts::{IndexA, SheetA, SheetD};

// The record that is due. In a sheet part: how many sets of d, e and f records come after this one, of b and c after the first; of e and f, first how
// many f records of its own set come after it. In an index: of b, how many b records come after it and how many c records then; of c, how many c
// records. Nothing is due where either is over.
#[derive(Clone, Copy, PartialEq, Eq, Debug)]
pub enum Due {
    SheetA,
    SheetB(usize),
    SheetC(usize),
    SheetD(usize),
    SheetE(usize, usize),
    SheetF(usize, usize),
    IndexA,
    IndexB(usize, usize),
    IndexC(usize),
    Over,
}

// `f_records` more of this set, then the other sets.
fn due_f(f_records: usize, sets: usize) -> Due
    ensures { result ≡ due_in (Sheet.due_fs 0 [] sets f_records) }
{
    match (f_records.checked_sub(1), sets.checked_sub(1)) {
        (Some(f_records), _) => Due::SheetF(f_records, sets),
        (None, Some(sets)) => Due::SheetD(sets),
        (None, None) => Due::Over,
    }
}

// `b_records` more, then the c records.
fn due_b(b_records: usize, c_records: usize) -> Due
    ensures { result ≡ due_at (Index.due_bs b_records c_records) }
{
    match (b_records.checked_sub(1), c_records.checked_sub(1)) {
        (Some(b_records), _) => Due::IndexB(b_records, c_records),
        (None, Some(c_records)) => Due::IndexC(c_records),
        (None, None) => Due::Over,
    }
}

// What is due behind a whole record.
pub(crate) fn next_of_whole(due: Due, record: &[u8; RECORD]) -> Due
    ensures { result ≡ next_of_whole due «record».now }
{
    match due {
        Due::SheetA => Due::SheetB(columns::number_at(
            record,
            SheetA::REVISIONS_START,
            SheetA::REVISIONS_WIDTH,
        )),
        Due::SheetB(sets) => Due::SheetC(sets),
        Due::SheetC(sets) => Due::SheetD(sets),
        Due::SheetD(sets) => Due::SheetE(
            columns::number_at(record, SheetD::F_RECORDS_START, SheetD::F_RECORDS_WIDTH),
            sets,
        ),
        Due::SheetE(f_records, sets) => due_f(f_records, sets),
        Due::SheetF(f_records, sets) => due_f(f_records, sets),
        Due::IndexA => due_b(
            columns::number_at(record, IndexA::B_RECORDS_START, IndexA::B_RECORDS_WIDTH),
            columns::number_at(record, IndexA::C_RECORDS_START, IndexA::C_RECORDS_WIDTH),
        ),
        Due::IndexB(b_records, c_records) => due_b(b_records, c_records),
        Due::IndexC(c_records) => due_b(0, c_records),
        Due::Over => Due::Over,
    }
}

// What is due behind a record. Bytes that are no whole record leave due what was due.
pub fn next_due(due: Due, record: &[u8]) -> Due
    ensures { result ≡ next_due due «record».now }
{
    let Ok(record) = <&[u8; RECORD]>::try_from(record) else {
        return due;
    };
    next_of_whole(due, record)
}
