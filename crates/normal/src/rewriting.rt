// A record by the table of its layout: its judged columns in written form, all its other bytes as they are.
ghost use Rattle.std.specs.Prelude.{◌≡◌, true};
ghost use Rattle.format.specs.Normal.{normal_record};
ghost use Rattle.layouts.specs.Tables.{tabled};
ghost use Rattle.normal.specs.Rewriting.{all_lie, rewritten_at, rewritten_as, rewritten_all};

use files::RECORD;
use layouts::{Form, Layout, TableColumn};

// An integer, in written form.
fn rewrite_integer(record: &mut [u8; RECORD], start: usize, width: usize)
    ensures { «record».new ≡ rewritten_at «record».old start width }
{
    let z = columns::integer_at(record, start, width);
    columns::write_at(record, start, width, z);
}

// A column by its form: spaces stay where they may stand, and a blank stays.
fn rewrite_column(record: &mut [u8; RECORD], column: TableColumn)
    ensures { «record».new ≡ rewritten_as «record».old column.start column.width column.form }
{
    let TableColumn {
        start,
        width,
        form,
        ..
    } = column;
    match form {
        Form::Integer => rewrite_integer(record, start, width),
        Form::IntegerOrSpaces => {
            if !columns::spaces_at(record, start, width) {
                rewrite_integer(record, start, width);
            }
        }
        Form::Blank => {}
    }
}

// The columns of a table, one after another.
pub(crate) fn rewrite_columns(record: &mut [u8; RECORD], table: &[TableColumn])
    ensures { «record».new ≡ rewritten_all «record».old table.now }
{
    for column in table {
        rewrite_column(record, *column);
    }
}

// A record of a layout, whose judged columns lie inside a record.
pub(crate) fn rewrite<L: Layout>(record: &mut [u8; RECORD])
    requires { all_lie (tabled L.columns) ≡ true }
    ensures { «record».new ≡ normal_record L.columns «record».old }
{
    rewrite_columns(record, L::table());
}
