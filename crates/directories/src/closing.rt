// One record of a directory: its letters, its numbers and the spaces behind them; the closing record.
ghost use Rattle.std.specs.Prelude.{◌≡◌, ◌+◌, ◌*◌, ◌<◌};
ghost use Rattle.format.specs.Layout.{column};
ghost use Rattle.format_directory.specs.Directory.{letters, end_letters, end_columns, number_in, is_written, closing_ok, is_second};
ghost use Rattle.directory_columns.specs.Numbers.{number_is};
ghost use Rattle.directories.specs.Steps.{framed, others_written, closing_is};

use super::Found;
use directory_columns::{LETTERS, WIDTH};
use files::RECORD;
use format::Column;
use format_directory::Edition;

// The letters of a record that lists layers.
// Kept: a table by edition, as the two below; one over all three would take a kind of record and answer letters or a number, and be no plainer.
#[tactic(auto, unfolding(format::specs::Text::bytes))]
pub(crate) fn letters(edition: Edition) -> [u8; LETTERS]
    ensures { result ≡ letters edition }
{
    match edition {
        Edition::One => *b"Z ",
        Edition::Two => *b"Y ",
    }
}

// The letters of the closing record.
#[tactic(auto, unfolding(format::specs::Text::bytes))]
pub(crate) fn end_letters(edition: Edition) -> [u8; LETTERS]
    ensures { result ≡ end_letters edition }
{
    match edition {
        Edition::One => *b"ZE",
        Edition::Two => *b"YE",
    }
}

// So many columns the closing record has.
fn end_columns(edition: Edition) -> usize
    ensures { result ≡ end_columns edition }
{
    match edition {
        Edition::One => 2,
        Edition::Two => 3,
    }
}

// These letters, so many columns, and spaces behind them. What is no record of 84 bytes has none of this.
#[tactic(auto, using(crate::proofs::OneRecord::framed_is))]
pub(crate) fn is_framed(record: &[u8], letters: [u8; LETTERS], columns: usize) -> bool
    ensures { result ≡ framed letters columns «record».now }
{
    record.len() == RECORD
        && record.starts_with(&letters)
        && directory_columns::spaces_from(record, columns)
}

// The closing record has its letters, its columns, and spaces behind them.
fn is_end(record: &[u8], edition: Edition) -> bool
    ensures { result ≡ framed (end_letters edition) (end_columns edition) «record».now }
{
    is_framed(record, end_letters(edition), end_columns(edition))
}

// Column k of a record holds a number in written form.
fn is_written(record: &[u8; RECORD], k: usize) -> bool
    requires { k < 11 }
    ensures { result ≡ is_written (column (2 + 7 * k) 7 «record».now) }
{
    let start = LETTERS + WIDTH * k;
    match columns::column_at(record, start, WIDTH) {
        Column::Value(z) => columns::is_written_at(record, start, WIDTH, z),
        Column::MinusZero | Column::Malformed => false,
    }
}

// The number of column k; 0 where it has none.
// Kept: `Directory.number_in`, by which document 01's claims read a pointer, is 0 there.
#[tactic(auto, using(crate::proofs::OneRecord::number_read))]
pub(crate) fn number_in(record: &[u8; RECORD], k: usize) -> usize
    requires { k < 11 }
    ensures { result ≡ number_in k «record».now }
{
    columns::number_at(record, LETTERS + WIDTH * k, WIDTH)
}

// The columns behind the pointer are in written form.
fn others_written(record: &[u8; RECORD], edition: Edition) -> bool
    ensures { result ≡ others_written edition «record».now }
{
    is_written(record, 1) && (edition == Edition::One || is_written(record, 2))
}

// A closing record that is well formed, and whose pointer lies from 1 to its own number.
#[tactic(auto, using(crate::proofs::OneRecord::closing_parts))]
pub(crate) fn closing_ok(record: &[u8; RECORD], edition: Edition, number: usize) -> bool
    ensures { result ≡ closing_ok edition number «record».now }
{
    let pointer = number_in(record, 0);
    is_end(record, edition)
        && is_written(record, 0)
        && others_written(record, edition)
        && 1 <= pointer
        && pointer <= number
}

// The right closing record of a directory.
#[tactic(auto, using(crate::proofs::OneRecord::is_parts))]
pub(crate) fn is_closing(record: &[u8], found: Found) -> bool
    ensures { result ≡ closing_is found.edition found.pointer found.layers «record».now }
{
    is_end(record, found.edition)
        && directory_columns::number_is(record, 0, found.pointer)
        && directory_columns::number_is(record, 1, found.layers)
        && (found.edition == Edition::One || states_two(record))
}

// The edition column holds 2 in written form.
pub(crate) fn states_two(record: &[u8]) -> bool
    ensures { result ≡ number_is «record».now 2 2 }
{
    directory_columns::number_is(record, 2, 2)
}

// A record that starts as the second edition's closing one.
#[tactic(auto, using(crate::proofs::OneRecord::second_is))]
pub(crate) fn is_second(record: &[u8; RECORD]) -> bool
    ensures { result ≡ is_second «record».now }
{
    record.starts_with(b"YE")
}
