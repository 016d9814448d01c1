// Columns of seven bytes that hold integers of any sign, as data records have them: well formed or not. Most are told by comparing each byte
// with the one before it, seven columns at a time and without a value; what that leaves in doubt is read.
#![tactic(auto)]

ghost use Rattle.std.specs.Prelude.{◌≡◌, true, ◌+◌, ◌*◌, ◌≤◌, ◌<◌, length, take, drop};
ghost use Rattle.format.specs.Column.{column_of, formed};
ghost use Rattle.form_columns.specs.Columns.{each_formed, Told};
ghost use Rattle.form_columns.specs.Counted.{counted_if};

use form_bytes::doubt_at;
use format::Column;

// The letters, those of form_bytes, of the bytes of seven columns behind the first byte; and the column of each of these bytes, from 0 to 6.
const LETTERS: [u8; 48] = *b"mmmmmdMmmmmmdMmmmmmdMmmmmmdMmmmmmdMmmmmmdMmmmmmd";

const COLUMNS: [u8; 48] = *b"000000111111122222223333333444444455555556666666";

// Whether seven columns are surely well formed, at the front and at the back of many.
#[derive(Clone, Copy, PartialEq, Eq, Debug)]
struct Ends {
    front: bool,
    back: bool,
}

// Seven columns from `at` and seven from `end`, in one loop: surely well formed where no byte is in doubt. At most 49 doubts are counted in a byte, so
// that sixteen of them are added at a time.
fn ends_sure(bytes: &[u8], at: usize, end: usize) -> Ends
    requires { (at + 49 ≤ length bytes.now) × (end + 49 ≤ length bytes.now) }
    ensures { (result.front ≡ true → each_formed 7 (drop at bytes.now) ≡ true)
        × (result.back ≡ true → each_formed 7 (drop end bytes.now) ≡ true) }
{
    let letters = LETTERS;
    let mut front = doubt_at(b'M', b' ', bytes[at]);
    let mut back = doubt_at(b'M', b' ', bytes[end]);
    for i in 0..48 {
        front = front + doubt_at(letters[i], bytes[at + i], bytes[at + i + 1]);
        back = back + doubt_at(letters[i], bytes[end + i], bytes[end + i + 1]);
    }
    Ends {
        front: front == 0,
        back: back == 0,
    }
}

// A doubt that counts, or 0.
fn counted(used: bool, doubt: u8) -> u8
    ensures { result ≡ counted_if used doubt }
{
    if used { doubt } else { 0 }
}

// From one to seven columns are surely well formed. The bytes of seven are compared, and the doubts of those behind the last do not count.
fn few_sure(bytes: &[u8], at: usize, count: u8) -> bool
    requires { (1 ≤ count) × (count ≤ 7) × (at + 49 ≤ length bytes.now) }
    ensures { result ≡ true → each_formed count (drop at bytes.now) ≡ true }
{
    let letters = LETTERS;
    let columns = COLUMNS;
    let end = b'0' + count;
    let mut doubts = doubt_at(b'M', b' ', bytes[at]);
    for i in 0..48 {
        let doubt = doubt_at(letters[i], bytes[at + i], bytes[at + i + 1]);
        doubts = doubts + counted(columns[i] < end, doubt);
    }
    doubts == 0
}

// The column has a value: the exact reader says so.
fn has_value(bytes: &[u8], at: usize) -> bool
    requires { at + 7 ≤ length bytes.now }
    ensures { result ≡ formed (column_of (take 7 (drop at bytes.now))) }
{
    matches!(columns::column_at(bytes, at, 7), Column::Value(_))
}

// Any number of columns, one after another.
fn each_formed(bytes: &[u8], start: usize, count: usize) -> bool
    requires { start + count * 7 ≤ length bytes.now }
    ensures { result ≡ each_formed count (drop start bytes.now) }
{
    let mut good = true;
    for column in 0..count {
        good &= has_value(bytes, start + column * 7);
    }
    good
}

// Fewer than seven columns, told at once where seven lie in the bytes.
fn few_formed(bytes: &[u8], start: usize, count: usize) -> bool
    requires { (count < 7) × (start + count * 7 ≤ length bytes.now) }
    ensures { result ≡ each_formed count (drop start bytes.now) }
{
    if count == 0 {
        return true;
    }
    if bytes.len() - start < 49 {
        return each_formed(bytes, start, count);
    }
    if few_sure(bytes, start, count as u8) {
        return true;
    }
    each_formed(bytes, start, count)
}

// From seven to fourteen columns, told at once by seven at each end, which may overlap. Where only one end is sure, the others are read.
fn many_formed(bytes: &[u8], start: usize, count: usize) -> bool
    requires { (7 ≤ count) × (count ≤ 14) × (start + count * 7 ≤ length bytes.now) }
    ensures { result ≡ each_formed count (drop start bytes.now) }
{
    let rest = count - 7;
    let sure = ends_sure(bytes, start, start + rest * 7);
    if sure.front {
        if sure.back {
            return true;
        }
        return each_formed(bytes, start + 49, rest);
    }
    if sure.back {
        return each_formed(bytes, start, rest);
    }
    each_formed(bytes, start, count)
}

// `count` columns of seven bytes from `start` lie whole in the bytes, and each is well formed. The room is counted in columns, since
// `start + count * 7` may be no 64-bit number.
pub fn columns_well_formed(bytes: &[u8], start: usize, count: usize) -> bool
    ensures { Told bytes.now start count result }
{
    if bytes.len() < start {
        return false;
    }
    if (bytes.len() - start) / 7 < count {
        return false;
    }
    if count < 7 {
        return few_formed(bytes, start, count);
    }
    if count <= 14 {
        return many_formed(bytes, start, count);
    }
    each_formed(bytes, start, count)
}
