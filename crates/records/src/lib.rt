// One record of a sheet's body: what a header or an item states, and the first fault of its own columns; the first fault of a data record; and
// whether a header states the counts of a tally.
#![tactic(auto)]

ghost use Rattle.std.specs.Prelude.{◌≡◌};
ghost use Rattle.format.specs.Reasons.{fault_number};
ghost use Rattle.format.specs.Record.{type_of};
ghost use Rattle.records.specs.declared.Held.TheVariants.{Notes};
ghost use Rattle.records.specs.Entry.{entry_of, entry_said, columns_fault_of, data_fault_of, count_start, count_width, stated_count, states_counts};
ghost use Rattle.records.specs.Outline.{outline_of, outline_said};
ghost use Rattle.records.specs.Steps.{code_of};

mod counted;
mod data;
mod items;
mod outlines;
mod reading;
mod rules;

pub use counted::Outline;
pub use data::columns_used;
use files::RECORD;
use format::Reason;
pub use items::Entry;
use layouts::{DataNote, Header};

// The count of grids and nets, which share it.
const GRID_OR_NET: usize = 9;

// What an item's data records hold: so many points in 3D or 2D, triangles or heights; a note; attributes.
#[derive(Clone, Copy, PartialEq, Eq, Debug)]
pub enum Held {
    Nothing,
    Points3D(usize),
    Points2D(usize),
    Triangles(usize),
    Heights(usize),
    Notes,
    Attributes,
}

// What the two type bytes of a record say.
#[derive(Clone, Copy, PartialEq, Eq, Debug)]
enum TypeCode {
    Header,
    Element(usize),
    Grid,
    Net,
    Other,
}

#[tactic(auto, using(crate::proofs::Types::type_laws))]
fn read_type(record: &[u8; RECORD]) -> TypeCode
    ensures { result ≡ code_of (type_of «record».now) }
{
    match (record[0], record[1]) {
        (b'E', digit @ b'1'..=b'8') => TypeCode::Element(usize::from(digit - b'0')),
        (b'H', b' ') => TypeCode::Header,
        (b'G', b' ') => TypeCode::Grid,
        (b'T', b' ') => TypeCode::Net,
        _ => TypeCode::Other,
    }
}

// What stands where a header or an item is due. What is no record of 84 bytes is neither.
#[tactic(auto, using(crate::proofs::Entries::entry_laws))]
pub fn entry(record: &[u8]) -> Result<Entry, Reason>
    ensures { entry_said result ≡ entry_of «record».now }
{
    let Ok(record) = <&[u8; RECORD]>::try_from(record) else {
        return Err(Reason::RecordType);
    };
    match read_type(record) {
        TypeCode::Header => items::header_entry(record),
        TypeCode::Element(number) => items::element_entry(record, number),
        TypeCode::Grid => items::grid_entry(record),
        TypeCode::Net => items::net_entry(record),
        TypeCode::Other => Err(Reason::RecordType),
    }
}

// The kind and data records of a header or an item, and a header's level, with no fault looked for: where its record is known to have none. A malformed or
// negative column counts as 0. None for what is neither.
#[tactic(auto, using(crate::proofs::Outlined::outline_laws))]
pub fn outline(record: &[u8]) -> Option<Outline>
    ensures { outline_said result ≡ outline_of «record».now }
{
    let Ok(record) = <&[u8; RECORD]>::try_from(record) else {
        return None;
    };
    match read_type(record) {
        TypeCode::Header => Some(outlines::header_outline(record)),
        TypeCode::Element(number) => Some(outlines::element_outline(record, number)),
        TypeCode::Grid => Some(outlines::grid_outline(record)),
        TypeCode::Net => Some(outlines::net_outline(record)),
        TypeCode::Other => None,
    }
}

// Where the count of a kind stands in a header: nine I5 in a row, and I1 for grid and net. No other kind is counted.
// Kept: 0 for a kind that is not counted, here and in the next two, as specs/Entry has it: they answer every number.
#[tactic(auto, using(crate::proofs::Counts::start_laws))]
pub fn count_start(kind: usize) -> usize
    ensures { result ≡ count_start kind }
{
    match kind {
        0..=8 => Header::GROUPS_START + kind * Header::GROUPS_WIDTH,
        GRID_OR_NET => Header::GRID_AND_NET_START,
        _ => 0,
    }
}

// How wide it is.
#[tactic(auto, using(crate::proofs::Counts::width_laws))]
pub fn count_width(kind: usize) -> usize
    ensures { result ≡ count_width kind }
{
    match kind {
        0..=8 => Header::GROUPS_WIDTH,
        GRID_OR_NET => Header::GRID_AND_NET_WIDTH,
        _ => 0,
    }
}

// The count of a kind that a header states. What is no record states none.
#[tactic(auto, using(crate::proofs::Counts::count_laws))]
pub fn stated_count(record: &[u8], kind: usize) -> usize
    ensures { result ≡ stated_count «record».now kind }
{
    if record.len() != RECORD {
        return 0;
    }
    let start = count_start(kind);
    let width = count_width(kind);
    columns::number_at(record, start, width)
}

// Counts by kind, as a header has them: groups, the eight types of elements, grid and net.
pub type Tally = [usize; 10];

// A header states exactly these ten counts, and their sum as its total.
#[tactic(auto, using(crate::proofs::Counts::agree_laws))]
pub fn counts_agree(record: &[u8], tally: &Tally) -> bool
    ensures { result ≡ states_counts «record».now tally.now }
{
    if record.len() != RECORD {
        return false;
    }
    let mut agree = true;
    let mut sum = 0;
    for (kind, counted) in tally.iter().enumerate() {
        let stated = stated_count(record, kind);
        agree &= stated == *counted;
        sum += stated;
    }
    let total = columns::number_at(record, Header::TOTAL_START, Header::TOTAL_WIDTH);
    agree & (total == sum)
}

// A note record: its own columns, then its direction. What is no record of 84 bytes is malformed.
#[tactic(auto, using(crate::proofs::DataFaults::note_laws))]
pub fn check_note(record: &[u8]) -> Result<(), Reason>
    ensures { fault_number result ≡ data_fault_of «record».now Notes 0 }
{
    let Ok(record) = <&[u8; RECORD]>::try_from(record) else {
        return Err(Reason::Malformed);
    };
    layout_faults::check::<DataNote>(record)?;
    let writing = reading::natural(
        record,
        DataNote::WRITING_DIRECTION_START,
        DataNote::WRITING_DIRECTION_WIDTH,
    );
    let direction = columns::integer_at(
        record,
        DataNote::DIRECTION_START,
        DataNote::DIRECTION_WIDTH,
    );
    if data::is_direction(writing, direction) {
        Ok(())
    } else {
        Err(Reason::OutsideRange)
    }
}

// A record of points, heights or attributes. Points and heights are read for form alone, those after the last used one not at all. A note counts as a
// record that holds nothing. What is no record of 84 bytes is malformed.
#[tactic(auto, using(crate::proofs::DataFaults::columns_laws))]
pub fn check_columns(record: &[u8], held: Held, behind: usize) -> Result<(), Reason>
    ensures { fault_number result ≡ columns_fault_of «record».now held behind }
{
    if record.len() != RECORD {
        return Err(Reason::Malformed);
    }
    let used = columns_used(held, behind);
    if form_columns::columns_well_formed(record, 0, used) {
        Ok(())
    } else {
        Err(Reason::Malformed)
    }
}

// A data record, by what its item's data records hold and how many of them stand behind this one.
#[tactic(auto, using(crate::proofs::DataFaults::data_laws))]
pub fn check_data(record: &[u8], held: Held, behind: usize) -> Result<(), Reason>
    ensures { fault_number result ≡ data_fault_of «record».now held behind }
{
    if held == Held::Notes {
        return check_note(record);
    }
    check_columns(record, held, behind)
}
