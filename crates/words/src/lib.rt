// Words and tables for programs that show a file: what each refusal says, and each column of the nineteen layouts by its numbers.
#![tactic(auto)]

ghost use Rattle.std.specs.Prelude.{◌≡◌};
ghost use Rattle.format.specs.Answers.{written_answer};
ghost use Rattle.format.specs.Layout.{layouts};
ghost use Rattle.format_words.specs.Words.{entry, refusal_to, layout_column, name_to, described_of, described_answer};
ghost use Rattle.words.specs.Rows.{Tells, row_in, told, told_of};

use format::{Reason, Refusal};
use format_words::Described;
use tables::Row;

mod refusals;
mod tables;

// The words of a refusal, put at the start of a buffer: 15 where it has no room for them, 16 for a number that is not 1 to 19 or 27.
pub fn refusal_text(number: u64, out: &mut [u8]) -> Result<usize, Refusal>
    ensures { record { answer = written_answer result; bytes = out.new } ≡ refusal_to number out.old }
{
    let Ok(reason) = Reason::try_from(number) else {
        return Err(Reason::Number.at(0));
    };
    report::put_text_line(out, refusals::text(reason))
}

// The table of a layout, numbered from 1.
// Kept: a number for the layout, since the C interface and document 01 number the layouts.
fn table(layout: usize) -> Option<&'static [Row]>
    ensures { Tells result (entry layout layouts) }
{
    match layout {
        1 => Some(&tables::INDEX_A),
        2 => Some(&tables::INDEX_B),
        3 => Some(&tables::INDEX_C),
        4 => Some(&tables::SHEET_A),
        5 => Some(&tables::SHEET_B),
        6 => Some(&tables::SHEET_C),
        7 => Some(&tables::SHEET_D),
        8 => Some(&tables::SHEET_E),
        9 => Some(&tables::SHEET_F),
        10 => Some(&tables::HEADER),
        11 => Some(&tables::ELEMENT),
        12 => Some(&tables::GRID_HEADER),
        13 => Some(&tables::NET_HEADER),
        14 => Some(&tables::DATA_3D),
        15 => Some(&tables::DATA_2D),
        16 => Some(&tables::DATA_NOTE),
        17 => Some(&tables::DATA_ATTRIBUTE),
        18 => Some(&tables::DATA_GRID),
        19 => Some(&tables::DATA_3D),
        _ => None,
    }
}

// The row of a column in a table, numbered from 1.
fn row_in(table: &[Row], column: usize) -> Option<Row>
    ensures { result ≡ row_in table.now column }
{
    table.get(column.checked_sub(1)?).copied()
}

// The row of a column of a layout, both numbered from 1.
fn column_row(layout: usize, column: usize) -> Option<Row>
    ensures { told result ≡ told_of (layout_column layout column) }
{
    row_in(table(layout)?, column)
}

// What stands in a column of a layout, both numbered from 1; 16 where there is no such column.
pub fn layout_column(layout: usize, column: usize) -> Result<Described, Refusal>
    ensures { described_answer result ≡ described_of (layout_column layout column) }
{
    let Row(letter, start, width, least, greatest, _) = column_row(layout, column).ok_or(
        Reason::Number.at(0),
    )?;
    Ok(Described {
        start,
        width,
        letter,
        least,
        greatest,
    })
}

// Its name, put at the start of a buffer: 15 where it has no room for it, 16 where there is no such column.
pub fn column_name(layout: usize, column: usize, out: &mut [u8]) -> Result<usize, Refusal>
    ensures { record { answer = written_answer result; bytes = out.new } ≡ name_to (layout_column layout column) out.old }
{
    let Row(.., name) = column_row(layout, column).ok_or(Reason::Number.at(0))?;
    report::put_text_line(out, name)
}
