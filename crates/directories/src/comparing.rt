// The records of a directory against the right ones. That each layer is listed with its numbers was looked at when the sheet was judged; what is left are the
// letters, the spaces, the closing record and what stands behind it.
ghost use Rattle.std.specs.Prelude.{◌≡◌, ◌*◌, ◌≤◌};
ghost use Rattle.format_directory.specs.Directory.{letters, per_layer, per_record};
ghost use Rattle.files.specs.declared.Stride.TheVariants.{Plain};
ghost use Rattle.files.specs.Records.{records_of};
ghost use Rattle.directories.specs.Steps.{framed, right_rows, in_row, behind_rows, FirstDifferent};

use super::{Found, closing};
use files::Stride;
use format_directory::Edition;

// A record that lists so many layers has its letters, and spaces behind the numbers.
#[tactic(auto, using(crate::proofs::OneRecord::row_fits))]
fn is_row(record: &[u8], edition: Edition, layers: usize) -> bool
    requires { layers ≤ per_record edition }
    ensures { result ≡ framed (letters edition) (per_layer edition * layers) «record».now }
{
    let columns = directory_columns::per_layer(edition) * layers;
    closing::is_framed(record, closing::letters(edition), columns)
}

// So many records, from the first, list every layer of theirs, where `rows` list all layers and `unlisted` is the first layer that is not listed.
fn right_rows(edition: Edition, rows: usize, unlisted: Option<usize>) -> usize
    ensures { result ≡ right_rows edition rows unlisted }
{
    match unlisted {
        Some(layer) => layer / directory_columns::per_record(edition),
        None => rows,
    }
}

// So many of the layers stand in record i, where the records before it are full.
fn in_row(edition: Edition, layers: usize, i: usize) -> usize
    requires { per_record edition * i ≤ layers }
    ensures { result ≡ in_row edition layers i }
{
    let each = directory_columns::per_record(edition);
    (layers - each * i).min(each)
}

// The first record, counted from 0, that differs from the right directory.
pub(crate) fn first_different(
    directory: &[u8],
    found: Found,
    unlisted: Option<usize>,
) -> Option<usize>
    requires { found.layers ≤ 200000 }
    ensures { FirstDifferent (records_of Plain directory.now) found.edition found.pointer found.layers unlisted result }
{
    let edition = found.edition;
    let layers = found.layers;
    let rows = directory_columns::rows(edition, layers);
    let right = right_rows(edition, rows, unlisted);
    for i in 0..rows {
        let record = files::record_at(directory, Stride::Plain, i);
        if right == i || !is_row(record, edition, in_row(edition, layers, i)) {
            return Some(i);
        }
    }
    behind_rows(directory, found, rows)
}

// The same, where every record that lists layers is right: the closing record, and what stands behind it.
fn behind_rows(directory: &[u8], found: Found, rows: usize) -> Option<usize>
    requires { rows ≤ 200000 }
    ensures { result ≡ behind_rows found.edition (records_of Plain directory.now) found.pointer found.layers rows }
{
    let record = files::record_at(directory, Stride::Plain, rows);
    if !closing::is_closing(record, found) {
        return Some(rows);
    }
    let behind = rows + 1;
    (behind < files::count(directory, Stride::Plain)).then_some(behind)
}
