// The numbers in the records of a directory, by edition: how many records list so many layers, whether the numbers of a layer stand where they belong, and
// whether spaces stand behind them.
#![tactic(auto)]

ghost use Rattle.std.specs.Prelude.{◌≡◌};
ghost use Rattle.format.specs.Basics.{round_up};
ghost use Rattle.format_directory.specs.Directory.{per_layer, per_record};
ghost use Rattle.files.specs.declared.Stride.TheVariants.{Plain};
ghost use Rattle.files.specs.Records.{records_of};
ghost use Rattle.directory_columns.specs.Numbers.{has_column, spaces_from, column_is, number_is, columns_are, packed_of, lists_packed};

use files::{RECORD, Stride};
use format_directory::Edition;

mod packed;

pub use packed::{packed_near, packed_number};

// A record has eleven columns of seven bytes, behind two letters.
const COLUMNS: usize = 11;

pub const LETTERS: usize = 2;

pub const WIDTH: usize = 7;

// The bytes behind the last column.
const BEHIND: usize = 5;

// Eight spaces, packed.
const EIGHT_SPACES: u64 = 0x2020202020202020;

// The second edition lists three numbers of a layer, and three layers in a record.
const NUMBERS: usize = 3;

const LAYERS: usize = 3;

// What may be listed of a layer: the record number of its header, how many items it has, at any depth, and the number of its last record.
#[derive(Clone, Copy, PartialEq, Eq, Debug)]
pub struct LayerNumbers {
    pub header: usize,
    pub total: usize,
    pub last: usize,
}

// The same for a comparison: header and last record as packed numbers, the total as it is.
#[derive(Clone, Copy, PartialEq, Eq, Debug)]
pub struct PackedNumbers {
    pub header: u64,
    pub total: usize,
    pub last: u64,
}

// So many numbers are listed of a layer.
pub fn per_layer(edition: Edition) -> usize
    ensures { result ≡ per_layer edition }
{
    match edition {
        Edition::One => 1,
        Edition::Two => NUMBERS,
    }
}

// So many layers stand in a record.
pub fn per_record(edition: Edition) -> usize
    ensures { result ≡ per_record edition }
{
    match edition {
        Edition::One => COLUMNS,
        Edition::Two => LAYERS,
    }
}

// So many records list so many layers; the closing one stands behind them.
pub fn rows(edition: Edition, layers: usize) -> usize
    ensures { result ≡ round_up layers (per_record edition) }
{
    layers.div_ceil(per_record(edition))
}

// A record has column k, from 0, whole.
#[tactic(auto, unfolding(crate::specs::Numbers::has_column))]
fn has_column(record: &[u8], k: usize) -> bool
    ensures { result ≡ has_column «record».now k }
{
    k < COLUMNS && LETTERS + WIDTH * k + WIDTH <= record.len()
}

// A record of 84 bytes has spaces alone from column k on. Each column is read with the byte behind it, which makes eight.
pub fn spaces_from(record: &[u8], k: usize) -> bool
    ensures { result ≡ spaces_from «record».now k }
{
    if record.len() != RECORD {
        return false;
    }
    if COLUMNS < k {
        return true;
    }
    for i in k..COLUMNS {
        if packed::eight_at(record, LETTERS + WIDTH * i) != EIGHT_SPACES {
            return false;
        }
    }
    columns::spaces_at(record, LETTERS + WIDTH * COLUMNS, BEHIND)
}

// Column k of a record, from 0, holds the seven bytes of a packed number.
fn column_is(record: &[u8], k: usize, packed: u64) -> bool
    ensures { result ≡ column_is «record».now k packed }
{
    has_column(record, k) && packed::packed_at(record, LETTERS + WIDTH * k) == packed
}

// Column k of a record, from 0, holds the number in written form.
pub fn number_is(record: &[u8], k: usize, number: usize) -> bool
    ensures { result ≡ number_is «record».now k number }
{
    column_is(record, k, packed_number(number))
}

// The columns of a record from k on hold what is listed of a layer with these numbers.
fn numbers_are(record: &[u8], k: usize, edition: Edition, numbers: PackedNumbers) -> bool
    ensures { result ≡ columns_are «record».now k (packed_of edition numbers) }
{
    if !column_is(record, k, numbers.header) {
        return false;
    }
    match edition {
        Edition::One => true,
        Edition::Two => {
            number_is(record, k + 1, numbers.total) && column_is(record, k + 2, numbers.last)
        }
    }
}

// The records of a directory list a layer, counted from 0, with these numbers.
pub fn is_listed(directory: &[u8], edition: Edition, layer: usize, numbers: PackedNumbers) -> bool
    ensures { result ≡ lists_packed edition (records_of Plain directory.now) layer (packed_of edition numbers) }
{
    let each = per_record(edition);
    let record = files::record_at(directory, Stride::Plain, layer / each);
    // So the compiler knows the 84 bytes and can leave out the test of the length at each column.
    if record.len() != RECORD {
        return false;
    }
    let start = per_layer(edition) * (layer % each);
    numbers_are(record, start, edition, numbers)
}
