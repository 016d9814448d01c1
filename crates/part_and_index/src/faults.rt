// The first fault of each judged record of a sheet part and of an index, where it is due, and the numbers that such a record states.
ghost use Rattle.std.specs.Prelude.{◌≡◌, [], ◌∷◌, map};
ghost use Rattle.format.specs.Column.{integer};
ghost use Rattle.format.specs.Corner.{fraction_ok};
ghost use Rattle.std.specs.List.{list_all, zip};
ghost use Rattle.columns.specs.InRecord.{column_at};
ghost use Rattle.format.specs.Reasons.{fault_number};
ghost use Rattle.format.specs.Sheet.{unit_of, wholes_of, fractions_of, fractions_ok, f_count_ok};
ghost use Rattle.part_and_index.specs.Progress.{corner_of, corners_of};
ghost use Rattle.part_and_index.specs.Steps.{fault_of_sheet_a, fault_of_sheet_b, fault_of_sheet_d, fault_of_sheet_e, fault_of_index_a};

use super::FourCorners;
use files::RECORD;
use format::Reason;
use layouts::{IndexA, SheetA, SheetB, SheetD, SheetE};

// ---- The sheet part

// Record a: 2, or the first 5 or 6 of its columns.
pub(crate) fn check_sheet_a(record: &[u8; RECORD]) -> Result<(), Reason>
    ensures { fault_number result ≡ fault_of_sheet_a «record».now }
{
    if !record.starts_with(b"M ") {
        return Err(Reason::FileType);
    }
    layout_faults::check::<SheetA>(record)
}

// Of the five levels that record a may have.
fn unit_of(level: usize) -> usize
    ensures { result ≡ unit_of level }
{
    match level {
        500 | 1000 => 1,
        2500 | 5000 => 10,
        _ => 999,
    }
}

// Record b: the first 5 or 6 of its columns, then the unit against record a's level.
pub(crate) fn check_sheet_b(record: &[u8; RECORD], level: usize) -> Result<(), Reason>
    ensures { fault_number result ≡ fault_of_sheet_b level «record».now }
{
    layout_faults::check::<SheetB>(record)?;
    let unit = columns::number_at(record, SheetB::UNIT_START, SheetB::UNIT_WIDTH);
    if unit != unit_of(level) {
        return Err(Reason::OutsideRange);
    }
    Ok(())
}

// The integers of eight columns of one width, by their starts.
fn eight_integers(record: &[u8; RECORD], starts: [usize; 8], width: usize) -> FourCorners
    ensures { result ≡ map (λ start. integer (column_at «record».now start width)) starts }
{
    // Kept: the index; tried `starts.map(..)`, whose clause does not say that every call has the captured record and width, so the proof did not close.
    let mut integers = [0; 8];
    for i in 0..8 {
        integers[i] = columns::integer_at(record, starts[i], width);
    }
    integers
}

// The whole metres of record b, in its order: all eight have one width.
pub(crate) fn wholes_of(record: &[u8; RECORD]) -> FourCorners
    ensures { result ≡ wholes_of «record».now }
{
    let starts = [
        SheetB::LOWER_LEFT_X_START,
        SheetB::LOWER_LEFT_Y_START,
        SheetB::UPPER_RIGHT_X_START,
        SheetB::UPPER_RIGHT_Y_START,
        SheetB::UPPER_LEFT_X_START,
        SheetB::UPPER_LEFT_Y_START,
        SheetB::LOWER_RIGHT_X_START,
        SheetB::LOWER_RIGHT_Y_START,
    ];
    eight_integers(record, starts, SheetB::LOWER_LEFT_X_WIDTH)
}

// "f records: 0, or courses divided by 3 rounded up".
fn f_count_ok(courses: usize, f_records: usize) -> bool
    ensures { result ≡ f_count_ok courses f_records }
{
    f_records == 0 || f_records == courses.div_ceil(3)
}

// Record d: the first 5 or 6 of its columns, then the f count.
pub(crate) fn check_sheet_d(record: &[u8; RECORD]) -> Result<(), Reason>
    ensures { fault_number result ≡ fault_of_sheet_d «record».now }
{
    layout_faults::check::<SheetD>(record)?;
    let courses = columns::number_at(record, SheetD::COURSES_START, SheetD::COURSES_WIDTH);
    let f_records = columns::number_at(record, SheetD::F_RECORDS_START, SheetD::F_RECORDS_WIDTH);
    if !f_count_ok(courses, f_records) {
        return Err(Reason::OutsideRange);
    }
    Ok(())
}

// The fractions of record e, in the order of record b: all eight have one width.
pub(crate) fn fractions_of(record: &[u8; RECORD]) -> FourCorners
    ensures { result ≡ fractions_of «record».now }
{
    let starts = [
        SheetE::LOWER_LEFT_X_START,
        SheetE::LOWER_LEFT_Y_START,
        SheetE::UPPER_RIGHT_X_START,
        SheetE::UPPER_RIGHT_Y_START,
        SheetE::UPPER_LEFT_X_START,
        SheetE::UPPER_LEFT_Y_START,
        SheetE::LOWER_RIGHT_X_START,
        SheetE::LOWER_RIGHT_Y_START,
    ];
    eight_integers(record, starts, SheetE::LOWER_LEFT_X_WIDTH)
}

// Whether each of eight fractions goes with its whole.
fn fractions_ok(unit: u64, wholes: FourCorners, fractions: FourCorners) -> bool
    ensures { result ≡ list_all (λ p. fraction_ok unit p.0 p.1) (zip wholes fractions) }
{
    wholes.iter().zip(fractions.iter()).all(|(whole, fraction)| corners::fraction_ok(
        unit, *whole, *fraction,
    ))
}

// Record e: the first 5 or 6 of its columns, then 9 for its fractions.
pub(crate) fn check_sheet_e(
    record: &[u8; RECORD],
    unit: u64,
    wholes: FourCorners,
    fractions: FourCorners,
) -> Result<(), Reason>
    ensures { fault_number result ≡ fault_of_sheet_e unit wholes fractions «record».now }
{
    layout_faults::check::<SheetE>(record)?;
    if !fractions_ok(unit, wholes, fractions) {
        return Err(Reason::Fraction);
    }
    Ok(())
}

// A corner in millimetres; 0 where unit, whole and fraction are not joined, as in no sound sheet part.
fn corner(unit: u64, whole: i64, fraction: i64) -> i64
    ensures { result ≡ corner_of unit whole fraction }
{
    corners::join(unit, whole, fraction).unwrap_or(0)
}

// The corners of eight wholes and their fractions.
pub(crate) fn corners_of(unit: u64, wholes: FourCorners, fractions: FourCorners) -> FourCorners
    ensures { result ≡ corners_of unit wholes fractions }
{
    // Kept: the index; tried `array::from_fn(..)`, whose clause does not say that every call has the captured corners, so the proof did not close.
    let mut corners = [0; 8];
    for i in 0..8 {
        corners[i] = corner(unit, wholes[i], fractions[i]);
    }
    corners
}

// ---- The index

// Record a: 2, or the first 5 or 6 of its columns, then the b count: one for each ten sheets.
pub(crate) fn check_index_a(record: &[u8; RECORD]) -> Result<(), Reason>
    ensures { fault_number result ≡ fault_of_index_a «record».now }
{
    if !record.starts_with(b"I ") {
        return Err(Reason::FileType);
    }
    layout_faults::check::<IndexA>(record)?;
    let sheets = columns::number_at(record, IndexA::SHEETS_START, IndexA::SHEETS_WIDTH);
    let b_records = columns::number_at(record, IndexA::B_RECORDS_START, IndexA::B_RECORDS_WIDTH);
    if b_records != sheets.div_ceil(10) {
        return Err(Reason::OutsideRange);
    }
    Ok(())
}
