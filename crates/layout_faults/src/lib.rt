// The fault of one record's own columns: 5 for a malformed integer column, else 6 for a number outside its range or list. Bytes that are no record of
// 84 answer 5. Most records of a sheet's body, records b, e and f of its part and c of an index are told at once to be without fault; the others are
// read column by column, by the table of their layout.
#![tactic(auto)]

ghost use Rattle.std.specs.Prelude.{◌≡◌, true, ◌&&◌, Option, pos};
ghost use Rattle.std.specs.Int.Signed.{le_z};
ghost use Rattle.format.specs.Column.{integer};
ghost use Rattle.format.specs.Reasons.{fault_number};
ghost use Rattle.columns.specs.InRecord.{column_at};
ghost use Rattle.layouts.specs.Tables.{tabled};
ghost use Rattle.layout_faults.specs.Faults.{fault_in};
ghost use Rattle.layout_faults.specs.Tables.{integer_told, integer_or_spaces, told, table_told, listed_at, all_listed};

use files::RECORD;
use format::{Column, Reason};
use layouts::{
    DataNote, Element, Form, GridHeader, Header, IndexA, IndexC, Layout, NetHeader, SheetA, SheetB,
    SheetD, SheetE, SheetF, TableColumn,
};

// An integer: inside its limits or not; none where it is malformed.
#[tactic(auto, unfolding(crate::specs::Tables::integer_told))]
fn integer_inside(record: &[u8; RECORD], column: &TableColumn) -> Option<bool>
    ensures { result ≡ integer_told «record».now column.now }
{
    let Column::Value(z) = columns::column_at(record, column.start, column.width) else {
        return None;
    };
    Some((column.low <= z) & (z <= column.high))
}

// An integer of any number, or spaces.
#[tactic(auto, unfolding(crate::specs::Tables::integer_or_spaces))]
fn is_integer_or_spaces(record: &[u8; RECORD], column: &TableColumn) -> bool
    ensures { result ≡ integer_or_spaces «record».now column.now }
{
    let read = columns::column_at(record, column.start, column.width);
    matches!(read, Column::Value(_)) || columns::spaces_at(record, column.start, column.width)
}

// A column of the table: inside its limits or not, none where it is malformed. A blank is not judged.
#[tactic(auto, unfolding(crate::specs::Tables::told, crate::specs::Tables::integer_told))]
fn is_inside(record: &[u8; RECORD], column: &TableColumn) -> Option<bool>
    ensures { result ≡ told «record».now column.now }
{
    match column.form {
        Form::Integer => integer_inside(record, column),
        Form::IntegerOrSpaces => is_integer_or_spaces(record, column).then_some(true),
        Form::Blank => Some(true),
    }
}

// All columns of the table. A malformed one ends it; a number outside does not, since a later column may be malformed.
fn all_inside(record: &[u8; RECORD], table: &[TableColumn]) -> Option<bool>
    ensures { result ≡ table_told «record».now table.now }
{
    let mut inside = true;
    for column in table {
        inside &= is_inside(record, column)?;
    }
    Some(inside)
}

// The column's number is one of these. A column that has none counts as 0 here: by the table it is malformed.
fn is_listed(record: &[u8], start: usize, width: usize, numbers: &[u64]) -> bool
    ensures { result ≡ listed_at «record».now start width numbers.now }
{
    let z = columns::integer_at(record, start, width);
    0 <= z && numbers.contains(&z.unsigned_abs())
}

// The column's number is above 0; one that has none counts as 0.
fn above_zero(record: &[u8], start: usize, width: usize) -> bool
    ensures { result ≡ le_z (pos 1) (integer (column_at «record».now start width)) }
{
    1 <= columns::integer_at(record, start, width)
}

// A layout whose records are judged by their own columns: what is asked of them beside the table.
pub trait Judged: Layout {
    // Told at once to be without fault; another record may still have none.
    fn is_sure(_record: &[u8]) -> bool
        ensures { result ≡ true → fault_in Self.columns _record.now ≡ 0 }
    {
        false
    }

    // The numbers of lists are of them; of a list the table says the ends alone.
    fn are_listed(record: &[u8]) -> bool
        ensures { result ≡ all_listed (tabled Self.columns) «record».now };
}

impl Judged for IndexA {
    #[tactic(auto, unfolding(crate::specs::Tables::all_listed, layouts::specs::Tables::tabled, format::specs::Layout::index_a))]
    fn are_listed(_record: &[u8]) -> bool {
        true
    }
}

impl Judged for IndexC {
    // Beside its form, its dimension is one of the list.
    fn is_sure(record: &[u8]) -> bool {
        form_records::is_sure::<Self>(record) && Self::are_listed(record)
    }

    // The dimension.
    #[tactic(auto, unfolding(crate::specs::Tables::all_listed, crate::specs::Tables::listed_at, layouts::specs::Tables::tabled, format::specs::Layout::index_c))]
    fn are_listed(record: &[u8]) -> bool {
        is_listed(
            record,
            Self::DIMENSION_START,
            Self::DIMENSION_WIDTH,
            &[0, 2, 3],
        )
    }
}

impl Judged for SheetA {
    // "another level is 6 at a"
    #[tactic(auto, unfolding(crate::specs::Tables::all_listed, crate::specs::Tables::listed_at, layouts::specs::Tables::tabled, format::specs::Layout::sheet_a))]
    fn are_listed(record: &[u8]) -> bool {
        is_listed(
            record,
            Self::LEVEL_START,
            Self::LEVEL_WIDTH,
            &[500, 1000, 2500, 5000, 10000],
        )
    }
}

impl Judged for SheetB {
    #[tactic(auto, using(crate::proofs::Sure::faultless), unfolding(format::specs::Layout::sheet_b, format::specs::Layout::all_inside, form_records::proofs::Sound::asking_more))]
    fn is_sure(record: &[u8]) -> bool {
        form_records::is_sure::<Self>(record)
    }

    #[tactic(auto, unfolding(crate::specs::Tables::all_listed, layouts::specs::Tables::tabled, format::specs::Layout::sheet_b))]
    fn are_listed(_record: &[u8]) -> bool {
        true
    }
}

impl Judged for SheetD {
    // Both codes are of one list.
    #[tactic(auto, unfolding(crate::specs::Tables::all_listed, crate::specs::Tables::listed_at, layouts::specs::Tables::tabled, format::specs::Layout::sheet_d))]
    fn are_listed(record: &[u8]) -> bool {
        let codes = [0, 1, 2, 3, 9];
        let first = is_listed(
            record,
            Self::FIRST_CODE_START,
            Self::FIRST_CODE_WIDTH,
            &codes,
        );
        let second = is_listed(
            record,
            Self::SECOND_CODE_START,
            Self::SECOND_CODE_WIDTH,
            &codes,
        );
        first & second
    }
}

impl Judged for SheetE {
    #[tactic(auto, using(crate::proofs::Sure::faultless), unfolding(format::specs::Layout::sheet_e, format::specs::Layout::all_inside, form_records::proofs::Sound::asking_more))]
    fn is_sure(record: &[u8]) -> bool {
        form_records::is_sure::<Self>(record)
    }

    #[tactic(auto, unfolding(crate::specs::Tables::all_listed, layouts::specs::Tables::tabled, format::specs::Layout::sheet_e))]
    fn are_listed(_record: &[u8]) -> bool {
        true
    }
}

impl Judged for SheetF {
    #[tactic(auto, using(crate::proofs::Sure::faultless), unfolding(format::specs::Layout::sheet_f, format::specs::Layout::all_inside, form_records::proofs::Sound::asking_more))]
    fn is_sure(record: &[u8]) -> bool {
        form_records::is_sure::<Self>(record)
    }

    #[tactic(auto, unfolding(crate::specs::Tables::all_listed, layouts::specs::Tables::tabled, format::specs::Layout::sheet_f))]
    fn are_listed(_record: &[u8]) -> bool {
        true
    }
}

impl Judged for Header {
    #[tactic(auto, using(crate::proofs::Sure::faultless), unfolding(format::specs::Layout::header, format::specs::Layout::all_inside, form_records::proofs::Sound::asking_more))]
    fn is_sure(record: &[u8]) -> bool {
        form_records::is_sure::<Self>(record)
    }

    #[tactic(auto, unfolding(crate::specs::Tables::all_listed, layouts::specs::Tables::tabled, format::specs::Layout::header))]
    fn are_listed(_record: &[u8]) -> bool {
        true
    }
}

impl Judged for Element {
    #[tactic(auto, using(crate::proofs::Sure::faultless), unfolding(format::specs::Layout::element, format::specs::Layout::all_inside, form_records::proofs::Sound::asking_more))]
    fn is_sure(record: &[u8]) -> bool {
        form_records::is_sure::<Self>(record)
    }

    #[tactic(auto, unfolding(crate::specs::Tables::all_listed, layouts::specs::Tables::tabled, format::specs::Layout::element))]
    fn are_listed(_record: &[u8]) -> bool {
        true
    }
}

impl Judged for GridHeader {
    // Beside its form, rows, columns and cell sizes are at least 1.
    fn is_sure(record: &[u8]) -> bool {
        if !form_records::is_sure::<Self>(record) {
            return false;
        }
        let rows = above_zero(record, Self::ROWS_START, Self::ROWS_WIDTH);
        let columns = above_zero(record, Self::COLUMNS_START, Self::COLUMNS_WIDTH);
        let cell_rows = above_zero(record, Self::CELL_ROWS_START, Self::CELL_ROWS_WIDTH);
        let cell_columns = above_zero(record, Self::CELL_COLUMNS_START, Self::CELL_COLUMNS_WIDTH);
        rows & columns & cell_rows & cell_columns
    }

    #[tactic(auto, unfolding(crate::specs::Tables::all_listed, layouts::specs::Tables::tabled, format::specs::Layout::grid_header))]
    fn are_listed(_record: &[u8]) -> bool {
        true
    }
}

impl Judged for NetHeader {
    // Beside its form, it has at least one triangle.
    fn is_sure(record: &[u8]) -> bool {
        form_records::is_sure::<Self>(record)
            && above_zero(record, Self::TRIANGLES_START, Self::TRIANGLES_WIDTH)
    }

    #[tactic(auto, unfolding(crate::specs::Tables::all_listed, layouts::specs::Tables::tabled, format::specs::Layout::net_header))]
    fn are_listed(_record: &[u8]) -> bool {
        true
    }
}

impl Judged for DataNote {
    #[tactic(auto, using(crate::proofs::Sure::faultless), unfolding(format::specs::Layout::data_note, format::specs::Layout::all_inside, form_records::proofs::Sound::asking_more))]
    fn is_sure(record: &[u8]) -> bool {
        form_records::is_sure::<Self>(record)
    }

    #[tactic(auto, unfolding(crate::specs::Tables::all_listed, layouts::specs::Tables::tabled, format::specs::Layout::data_note))]
    fn are_listed(_record: &[u8]) -> bool {
        true
    }
}

// The first fault of a record's own columns.
pub fn check<L: Judged>(record: &[u8]) -> Result<(), Reason>
    ensures { fault_number result ≡ fault_in L.columns «record».now }
{
    if L::is_sure(record) {
        return Ok(());
    }
    let Ok(whole) = <&[u8; RECORD]>::try_from(record) else {
        return Err(Reason::Malformed);
    };
    let Some(inside) = all_inside(whole, L::table()) else {
        return Err(Reason::Malformed);
    };
    if inside & L::are_listed(record) {
        Ok(())
    } else {
        Err(Reason::OutsideRange)
    }
}
