// The counts that an edit changes: a header's total read, and all four written.
ghost use Rattle.std.specs.Prelude.{◌≡◌, ◌+◌, ◌^◌, ◌≤◌, ◌<◌, pos, length};
ghost use Rattle.format.specs.Column.{written};
ghost use Rattle.format.specs.Layout.{splice, number_at, header};
ghost use Rattle.edit.specs.Counts.{Fitting, with_counts};

use layouts::{Header, SheetB};

// What an edit changes. `header` is the index of the header above, counted from 0; `kind` is the count that the item belongs to; then the
// header's total and that count, and the element count and the record count of the sheet, as they are to be written. The item's
// bytes go in or out at `start`, `length` of them.
// Kept: a number for the kind, since it is the index of a count in the header, and the block's item of document 01 has it so.
#[derive(Clone, Copy, PartialEq, Eq, Debug)]
pub(crate) struct Change {
    pub header: usize,
    pub kind: usize,
    pub total: usize,
    pub count: usize,
    pub stated_elements: usize,
    pub stated_records: usize,
    pub start: usize,
    pub length: usize,
}

// The total that a header states.
pub(crate) fn stated_total(record: &[u8]) -> usize
    requires { length «record».now ≡ 84 }
    ensures { (result ≡ number_at header "total" «record».now) × (result < 100000) }
{
    columns::number_at(record, Header::TOTAL_START, Header::TOTAL_WIDTH)
}

// A number in a column of the buffer, in written form.
fn write_number(buffer: &mut [u8], start: usize, width: usize, number: usize)
    requires { (start + width ≤ length buffer.old) × (1 ≤ width) × (width ≤ 7) × (number < 10 ^ width) }
    ensures { buffer.new ≡ splice start width (written width (pos number)) buffer.old }
{
    columns::write_at(buffer, start, width, number as i64);
}

// Total and own kind in the header above, element count and record count in record 2.
pub(crate) fn write_counts(buffer: &mut [u8], change: Change)
    requires { Fitting change (length buffer.old) }
    ensures { buffer.new ≡ with_counts change buffer.old }
{
    let header = files::RECORD * change.header;
    let start = header + records::count_start(change.kind);
    let width = records::count_width(change.kind);
    write_number(
        buffer,
        header + Header::TOTAL_START,
        Header::TOTAL_WIDTH,
        change.total,
    );
    write_number(buffer, start, width, change.count);
    write_number(
        buffer,
        files::RECORD + SheetB::ELEMENT_COUNT_START,
        SheetB::ELEMENT_COUNT_WIDTH,
        change.stated_elements,
    );
    write_number(
        buffer,
        files::RECORD + SheetB::RECORD_COUNT_START,
        SheetB::RECORD_COUNT_WIDTH,
        change.stated_records,
    );
}
