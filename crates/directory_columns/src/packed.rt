// A column of seven bytes as one number, a packed number, in which its first byte counts least: two columns have the same bytes exactly when these numbers are
// equal, so that one comparison tells what seven would.
ghost use Rattle.std.specs.Prelude.{◌≡◌, ◌+◌, ◌≤◌, length};
ghost use Rattle.format.specs.Layout.{column};
ghost use Rattle.directory_columns.specs.PackedColumns.{Packs, packed_number, is_raised, packed_near, zeros_part, digits_part};

// What one counts in the last byte, 256 ^ 6: the place of the ones.
const ONES: u64 = 0x1000000000000;

// The place of the tens.
const TENS: u64 = 0x10000000000;

// More than any seven bytes.
const NONE: u64 = 0x100000000000000;

// The greatest number that seven digits hold.
const MOST: usize = 9999999;

// The eight bytes from `start`, which the machine reads at once.
// Kept: no plainer, u64::from_le_bytes takes an array, so the eight bytes would be copied into one first.
pub(crate) fn eight_at(record: &[u8], start: usize) -> u64
    requires { start + 8 ≤ length «record».now }
    ensures { Packs (column start 8 «record».now) result }
{
    u64::from(record[start])
        + u64::from(record[start + 1]) * 0x100
        + u64::from(record[start + 2]) * 0x10000
        + u64::from(record[start + 3]) * 0x1000000
        + u64::from(record[start + 4]) * 0x100000000
        + u64::from(record[start + 5]) * 0x10000000000
        + u64::from(record[start + 6]) * 0x1000000000000
        + u64::from(record[start + 7]) * 0x100000000000000
}

// The seven bytes of a column, which are read with the one before them.
pub(crate) fn packed_at(record: &[u8], start: usize) -> u64
    requires { (1 ≤ start) × (start + 7 ≤ length «record».now) }
    ensures { Packs (column start 7 «record».now) result }
{
    eight_at(record, start - 1) / 0x100
}

// The written form of a number of two to four digits, with 0 for each digit.
fn few_zeros(n: u32) -> u64
    requires { (10 ≤ n) × (n ≤ 9999) }
    ensures { result ≡ zeros_part 7 n }
{
    if n < 100 {
        0x30302020202020
    } else if n < 1000 {
        0x30303020202020
    } else {
        0x30303030202020
    }
}

// The same of any number of two digits or more that fits a column.
fn zeros(n: u32) -> u64
    requires { (10 ≤ n) × (n ≤ 9999999) }
    ensures { result ≡ zeros_part 7 n }
{
    if n < 10000 {
        few_zeros(n)
    } else if n < 100000 {
        0x30303030302020
    } else if n < 1000000 {
        0x30303030303020
    } else {
        0x30303030303030
    }
}

// What the digits add to that. A digit is what a number has more than ten times its tenth. So each tenth counts once in its own place and is taken off ten
// times in the place behind it, which is 256 times as high: 2,559 times its own place in all.
fn digits(n: u32) -> u64
    requires { n ≤ 9999999 }
    ensures { result ≡ digits_part 7 n }
{
    let a = n / 10;
    let b = a / 10;
    let c = b / 10;
    let d = c / 10;
    let e = d / 10;
    let f = e / 10;
    let tenths = ((u64::from(b) * 256 + u64::from(c)) * 256 + u64::from(d)) * 65536
        + u64::from(e) * 256
        + u64::from(f);
    u64::from(n - 10 * a) * ONES + (u64::from(a) * TENS - 2559 * tenths)
}

// The written form of a number; NONE where it does not fit a column.
// Kept: NONE is the value that the contract (packed_number of specs/PackedColumns) names, and one comparison tells a column from it as from any other.
pub fn packed_number(number: usize) -> u64
    ensures { result ≡ packed_number number }
{
    if number < 10 {
        return 0x30202020202020 + (number as u64) * ONES;
    }
    if MOST < number {
        return NONE;
    }
    let n = number as u32;
    zeros(n) + digits(n)
}

// The byte of the digit 9.
const NINE: u64 = 57;

// `other`, whose written form is `of_other`, becomes `number` by raising its last digit, which stays at most 9.
fn is_raised(number: usize, other: usize, of_other: u64) -> bool
    ensures { result ≡ is_raised number other of_other }
{
    if number < other {
        return false;
    }
    let more = (number - other) as u64;
    // Else the sum below might not fit.
    if NINE < more {
        return false;
    }
    of_other / ONES + more <= NINE
}

// The same as `packed_number`, if `of_other` is that of `other`: numbers that differ in their last digit alone differ in their last byte alone.
pub fn packed_near(number: usize, other: usize, of_other: u64) -> u64
    ensures { result ≡ packed_near number other of_other }
{
    if number == other {
        return of_other;
    }
    if is_raised(number, other, of_other) {
        of_other + ((number - other) as u64) * ONES
    } else {
        packed_number(number)
    }
}
