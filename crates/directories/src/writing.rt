// The right directory of a sheet, written behind it.
ghost use Rattle.std.specs.Prelude.{◌≡◌, [], ◌+◌, ◌*◌, ◌^◌, ◌≤◌, ◌<◌, pos, length, take};
ghost use Rattle.format.specs.Basics.{round_up};
ghost use Rattle.format.specs.Column.{written};
ghost use Rattle.format.specs.Layout.{splice};
ghost use Rattle.format_directory.specs.Directory.{record_of, per_record, closing};
ghost use Rattle.files.specs.declared.Stride.TheVariants.{Plain};
ghost use Rattle.files.specs.Records.{records_of};
ghost use Rattle.records.specs.Outline.{outline_said};
ghost use Rattle.judge.specs.Listed.{kept_layers};
ghost use Rattle.directories.specs.Steps.{layers_in, is_layer, item_of, behind_entry, behind_layer, NextLayer, Kept, FirstKept, LayerFrom, RowFrom};
ghost use Rattle.directories.specs.Steps.{SmallNumbers, layer_put, rows_put, directory_put};

use super::closing;
use directory_columns::{LETTERS, LayerNumbers, WIDTH};
use files::{RECORD, Stride};
use format_directory::Edition;
use judge::{FirstNumbers, ListedSheet};
use records::Outline;

// A record of the directory, and the record of the sheet from which the next layers are looked for.
#[derive(Clone, Copy, PartialEq, Eq, Debug)]
struct Row {
    bytes: [u8; RECORD],
    next: usize,
}

// What stands from a record of the sheet up to the next header of a layer: how many items, and the record of that header, as many as the file has records where
// there is none.
#[derive(Clone, Copy, PartialEq, Eq, Debug)]
struct Passed {
    items: usize,
    next: usize,
}

// A record with two letters and nothing else.
#[tactic(auto, using(crate::proofs::Written::blank_is))]
fn blank(letters: [u8; LETTERS]) -> [u8; RECORD]
    ensures { result ≡ record_of letters [] }
{
    let mut bytes = [b' '; RECORD];
    bytes[..LETTERS].copy_from_slice(&letters);
    bytes
}

// Writes a number into column k of a record.
fn put_number(record: &mut [u8; RECORD], k: usize, number: usize)
    requires { (k < 11) × (number ≤ 9999999) }
    ensures { «record».new ≡ splice (2 + 7 * k) 7 (written 7 (pos number)) «record».old }
{
    // Kept: no `From` leads from usize to i64; the clause bounds the number.
    columns::write_at(record, LETTERS + WIDTH * k, WIDTH, number as i64);
}

// Writes what is listed of a layer into a record that lists so many layers before it.
#[tactic(auto, using(crate::proofs::Written::first_put, crate::proofs::Written::second_put))]
fn put_layer(record: &mut [u8; RECORD], edition: Edition, before: usize, numbers: LayerNumbers)
    requires { (before < per_record edition) × (SmallNumbers edition numbers) }
    ensures { «record».new ≡ layer_put edition before numbers «record».old }
{
    match edition {
        Edition::One => put_number(record, before, numbers.header),
        Edition::Two => {
            put_number(record, 3 * before, numbers.header);
            put_number(record, 3 * before + 1, numbers.total);
            put_number(record, 3 * before + 2, numbers.last);
        }
    }
}

// The header of a layer: a header of level 1.
fn is_layer(outline: Option<Outline>) -> bool
    ensures { result ≡ is_layer (outline_said outline) }
{
    outline.is_some_and(|outline| outline.kind == 0 && outline.level == 1)
}

// 1 for an item, 0 for a header.
fn one_if_item(outline: Option<Outline>) -> usize
    ensures { result ≡ item_of (outline_said outline) }
{
    usize::from(!outline.is_some_and(|outline| outline.kind == 0))
}

// The record behind record k, a header or an item, and its data records.
fn behind(outline: Option<Outline>, k: usize) -> usize
    requires { ((outline_said outline).data_records ≤ 999999) × (84 * k < 2 ^ 64) }
    ensures { result ≡ behind_entry (outline_said outline) k }
{
    match outline {
        Some(item) if item.kind != 0 => k + 1 + item.data_records,
        _ => k + 1,
    }
}

// From record k on, where a header or an item is due.
fn next_layer(file: &[u8], k: usize) -> Passed
    ensures { NextLayer file.now k result }
{
    let count = files::count(file, Stride::Plain);
    let mut at = k;
    let mut items = 0;
    // Kept: the step is an entry with its data records, which no range counts.
    while at < count {
        let outline = records::outline(files::record_at(file, Stride::Plain, at));
        if is_layer(outline) {
            return Passed { items, next: at };
        }
        items += one_if_item(outline);
        at = behind(outline, at);
    }
    Passed { items, next: count }
}

// What is listed of the first layer from record k on, where there is one.
#[tactic(auto, using(crate::proofs::Written::none_found, crate::proofs::Written::first_found, crate::proofs::Written::second_found))]
fn find_layer(file: &[u8], edition: Edition, k: usize) -> Option<LayerNumbers>
    ensures { LayerFrom file.now edition k result }
{
    let at = next_layer(file, k).next;
    if files::count(file, Stride::Plain) <= at {
        return None;
    }
    let header = at + 1;
    match edition {
        Edition::One => Some(LayerNumbers {
            header,
            total: 0,
            last: 0,
        }),
        Edition::Two => {
            let body = next_layer(file, header);
            Some(LayerNumbers {
                header,
                total: body.items,
                last: body.next,
            })
        }
    }
}

// What is listed of so many layers was kept by judging.
fn kept_layers(edition: Edition) -> usize
    ensures { result ≡ kept_layers edition }
{
    match edition {
        Edition::One => judge::FIRST_KEPT,
        Edition::Two => judge::SECOND_KEPT,
    }
}

// The same, where so many layers stand before record k, and judging kept what is listed of the first ones: they are not looked for again.
fn layer_from(
    file: &[u8],
    edition: Edition,
    first: &FirstNumbers,
    before: usize,
    k: usize,
) -> Option<LayerNumbers>
    requires { Kept file.now edition first.now before k }
    ensures { LayerFrom file.now edition k result }
{
    if kept_layers(edition) <= before {
        return find_layer(file, edition, k);
    }
    let start = directory_columns::per_layer(edition) * before;
    let header = first[start];
    if header == 0 {
        return None;
    }
    match edition {
        Edition::One => Some(LayerNumbers {
            header,
            total: 0,
            last: 0,
        }),
        Edition::Two => Some(LayerNumbers {
            header,
            total: first[start + 1],
            last: first[start + 2],
        }),
    }
}

// The record from which the layers behind this one are looked for: the one behind its header, or its last one.
fn behind_layer(edition: Edition, numbers: LayerNumbers) -> usize
    ensures { result ≡ behind_layer edition numbers }
{
    match edition {
        Edition::One => numbers.header,
        Edition::Two => numbers.last,
    }
}

// The right record of the layers from record k of the sheet on, before which so many stand: as many as it takes.
fn row_from(file: &[u8], edition: Edition, k: usize, first: &FirstNumbers, before: usize) -> Row
    requires { (length (records_of Plain file.now) ≤ 200000) × (before ≤ 200000 * 11) × (Kept file.now edition first.now before k) }
    ensures { RowFrom file.now edition k result }
{
    let mut bytes = blank(closing::letters(edition));
    let mut at = k;
    for i in 0..directory_columns::per_record(edition) {
        let Some(numbers) = layer_from(file, edition, first, before + i, at) else {
            return Row { bytes, next: at };
        };
        put_layer(&mut bytes, edition, i, numbers);
        at = behind_layer(edition, numbers);
    }
    Row { bytes, next: at }
}

// Writes so many records of the directory behind the sheet; they list its layers from the first on.
fn write_rows(buffer: &mut [u8], used: usize, edition: Edition, rows: usize, listed: &ListedSheet)
    requires { (used ≤ 84 * 200000) × (rows ≤ 200000) × (used + 84 * rows ≤ length buffer.old) × (FirstKept edition used listed.now.part listed.now.first_numbers buffer.old) }
    ensures { buffer.new ≡ rows_put edition used listed.now.part rows buffer.old }
{
    let each = directory_columns::per_record(edition);
    let first = &listed.first_numbers;
    let mut at = listed.part;
    for i in 0..rows {
        let row = row_from(&buffer[..used], edition, at, first, each * i);
        files::put_at(buffer, used + RECORD * i, &row.bytes);
        at = row.next;
    }
}

// The right closing record.
#[tactic(auto, using(crate::proofs::Written::first_closing, crate::proofs::Written::second_closing))]
fn closing_bytes(edition: Edition, pointer: usize, layers: usize) -> [u8; RECORD]
    requires { (pointer ≤ 9999999) × (layers ≤ 9999999) }
    ensures { result ≡ closing edition pointer layers }
{
    let mut bytes = blank(closing::end_letters(edition));
    put_number(&mut bytes, 0, pointer);
    put_number(&mut bytes, 1, layers);
    if edition == Edition::Two {
        put_number(&mut bytes, 2, 2);
    }
    bytes
}

// The right directory of the sheet in the first `used` bytes, by what judging found.
pub(crate) fn write_directory(
    buffer: &mut [u8],
    used: usize,
    edition: Edition,
    listed: &ListedSheet,
)
    requires { (used ≤ 84 * 200000) × (listed.now.layers ≤ 200000) × (listed.now.layers ≡ length (layers_in (take used buffer.old) listed.now.part)) × (FirstKept edition used listed.now.part listed.now.first_numbers buffer.old) × (used + 84 * (round_up listed.now.layers (per_record edition) + 1) ≤ length buffer.old) }
    ensures { buffer.new ≡ directory_put edition used listed.now.part buffer.old }
{
    let rows = directory_columns::rows(edition, listed.layers);
    write_rows(buffer, used, edition, rows, listed);
    let bytes = closing_bytes(edition, used / RECORD + 1, listed.layers);
    files::put_at(buffer, used + RECORD * rows, &bytes);
}
