// One integer column: leading spaces, at most one minus, then one digit or more to the last byte. It is read in one pass, and
// written in written form (shortest digits, spaces in front), alone or inside a record.
#![tactic(auto)]

ghost use Rattle.std.specs.Prelude.{◌≡◌, ◌+◌, leb, length, nat_abs};
ghost use Rattle.format.specs.Column.{width_ok, integer, read_alone, write_alone};
ghost use Rattle.format.specs.Text.{same};
ghost use Rattle.format.specs.Layout.{spaces};
ghost use Rattle.format.specs.Answers.{number_answer, written_answer};
ghost use Rattle.columns.specs.InRecord.{column_at, number_in, spaces_at, write_at, is_written_at};
ghost use Rattle.columns.specs.WriteSteps.{byte_of, before_of, filled, choice_of};

mod pass;

use format::{Column, Reason, Refusal};

// No column is wider: "width 1 to 18".
const WIDEST: usize = 18;

// A width that a column may have.
fn is_width(width: usize) -> bool
    ensures { result ≡ width_ok width }
{
    (1..=WIDEST).contains(&width)
}

// ---- reading

// A column read alone: 16 for a width that is not 1 to 18, 5 for a malformed one.
pub fn read(column: &[u8]) -> Result<i64, Refusal>
    ensures { number_answer result ≡ read_alone column.now }
{
    if !is_width(column.len()) {
        return Err(Reason::Number.at(0));
    }
    match pass::scan(column) {
        Column::Value(z) => Ok(z),
        Column::MinusZero | Column::Malformed => Err(Reason::Malformed.at(0)),
    }
}

// The bytes from `start` on have room for `width` bytes.
fn is_inside(record: &[u8], start: usize, width: usize) -> bool
    ensures { result ≡ leb (start + width) (length «record».now) }
{
    start <= record.len() && width <= record.len() - start
}

// The column of `width` bytes from `start`: one wider than 18, or not whole inside the record, is malformed.
pub fn column_at(record: &[u8], start: usize, width: usize) -> Column
    ensures { result ≡ column_at «record».now start width }
{
    if WIDEST < width || !is_inside(record, start, width) {
        return Column::Malformed;
    }
    pass::scan(&record[start..start + width])
}

// Its number; 0 where it has none.
pub fn integer_at(record: &[u8], start: usize, width: usize) -> i64
    ensures { result ≡ integer (column_at «record».now start width) }
{
    match column_at(record, start, width) {
        Column::Value(z) => z,
        Column::MinusZero | Column::Malformed => 0,
    }
}

// The same of at least 0; 0 for a negative one.
pub fn number_at(record: &[u8], start: usize, width: usize) -> usize
    ensures { result ≡ number_in «record».now start width }
{
    integer_at(record, start, width).max(0) as usize
}

// Spaces alone. Each byte is asked, so that many are asked at once.
pub fn all_spaces(bytes: &[u8]) -> bool
    ensures { result ≡ spaces bytes.now }
{
    let mut blank = true;
    for byte in bytes {
        blank &= *byte == b' ';
    }
    blank
}

// The `width` bytes from `start` are spaces alone: not so of bytes that are not whole inside the record.
pub fn spaces_at(record: &[u8], start: usize, width: usize) -> bool
    ensures { result ≡ spaces_at «record».now start width }
{
    is_inside(record, start, width) && all_spaces(&record[start..start + width])
}

// ---- writing

// What is still to be written, from the right: digits, whether a minus stands before them, and their number; the minus; spaces.
#[derive(Clone, Copy, PartialEq, Eq, Debug)]
enum Rest {
    Digits(bool, u64),
    Minus,
    Spaces,
}

// The last byte of what is left.
fn last_byte(s: Rest) -> u8
    ensures { result ≡ byte_of s }
{
    match s {
        Rest::Digits(_, n) => b'0' + ((n % 10) as u8),
        Rest::Minus => b'-',
        Rest::Spaces => b' ',
    }
}

// What is left before its last byte.
fn before_last(s: Rest) -> Rest
    ensures { result ≡ before_of s }
{
    // Kept: the `if` in its arm; tried guards on the arms, and the proof did not close.
    match s {
        Rest::Digits(minus, n) => {
            if 10 <= n {
                Rest::Digits(minus, n / 10)
            } else if minus {
                Rest::Minus
            } else {
                Rest::Spaces
            }
        }
        Rest::Minus | Rest::Spaces => Rest::Spaces,
    }
}

// Writes the whole column, from the last byte to the first.
fn fill(column: &mut [u8], first: Rest)
    ensures { column.new ≡ filled (length column.old) first }
{
    let mut rest = first;
    for i in (0..column.len()).rev() {
        column[i] = last_byte(rest);
        rest = before_last(rest);
    }
}

// The number without its sign, the least i64 too.
pub fn size(value: i64) -> u64
    ensures { result ≡ nat_abs value }
{
    value.unsigned_abs()
}

// What to write, or that width or number do not allow it: every test on them, with nothing lent, so that a refusal has changed nothing. A minus takes one
// byte of the width.
fn choose(width: usize, value: i64) -> Option<Rest>
    ensures { result ≡ choice_of width value }
{
    if !is_width(width) {
        return None;
    }
    let minus = value < 0;
    let room = width - usize::from(minus);
    let n = size(value);
    (n < 10u64.pow(room as u32)).then_some(Rest::Digits(minus, n))
}

// A column written alone: 16 for a width that is not 1 to 18 or a number that does not fit, and nothing is changed.
pub fn write(column: &mut [u8], value: i64) -> Result<usize, Refusal>
    ensures { record { answer = written_answer result; bytes = column.new } ≡ write_alone column.old value }
{
    let width = column.len();
    let Some(first) = choose(width, value) else {
        return Err(Reason::Number.at(0));
    };
    fill(column, first);
    Ok(width)
}

// The column of `width` bytes from `start` in written form, and true; or false, and nothing is changed.
pub fn write_at(record: &mut [u8], start: usize, width: usize, value: i64) -> bool
    ensures { record { done = result; bytes = «record».new } ≡ write_at «record».old start width value }
{
    if !is_inside(record, start, width) {
        return false;
    }
    let Some(first) = choose(width, value) else {
        return false; // Nothing is written.
    };
    fill(&mut record[start..start + width], first);
    true
}

// These are the bytes that would be written: all of them are looked at, from the last to the first.
fn is_filled(column: &[u8], first: Rest) -> bool
    ensures { result ≡ same column.now (filled (length column.now) first) }
{
    let mut rest = first;
    let mut equal = true;
    for i in (0..column.len()).rev() {
        equal &= column[i] == last_byte(rest);
        rest = before_last(rest);
    }
    equal
}

// The column of `width` bytes from `start` holds the number in written form: not so of a column that is not whole inside the record, nor where width or
// number do not allow it.
pub fn is_written_at(record: &[u8], start: usize, width: usize, value: i64) -> bool
    ensures { result ≡ is_written_at «record».now start width value }
{
    if !is_inside(record, start, width) {
        return false;
    }
    let Some(first) = choose(width, value) else {
        return false;
    };
    is_filled(&record[start..start + width], first)
}
