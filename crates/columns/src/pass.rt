// One column read in one pass: what is kept after a byte, one number and one mark, follows from what was kept before and that byte alone.
ghost use Rattle.std.specs.Prelude.{◌≡◌, ◌≤◌, ◌<◌, ◌^◌, length, drop};
ghost use Rattle.format.specs.Column.{column_of, strip};
ghost use Rattle.columns.specs.declared.pass.Mark.TheVariants.{Minus};
ghost use Rattle.columns.specs.Pass.{digit_mark, other_mark, step_of, pass_from, says_of};

use format::Column;

// What the bytes so far are: spaces alone; a minus behind them; digits behind them; digits behind a minus; what no column has.
#[derive(Clone, Copy, PartialEq, Eq, Debug)]
pub(crate) enum Mark {
    Spaces,
    Minus,
    Digits,
    MinusDigits,
    Other,
}

// All that is kept of the bytes so far. The number is that of the digits.
#[derive(Clone, Copy, PartialEq, Eq, Debug)]
pub(crate) struct Kept {
    number: u64,
    mark: Mark,
}

// The mark behind a digit.
fn behind_digit(mark: Mark) -> Mark
    ensures { result ≡ digit_mark mark }
{
    match mark {
        Mark::Spaces => Mark::Digits,
        Mark::Minus => Mark::MinusDigits,
        Mark::Digits | Mark::MinusDigits | Mark::Other => mark,
    }
}

// The mark behind a byte that is no digit.
fn behind_other(mark: Mark, byte: u8) -> Mark
    ensures { result ≡ other_mark mark byte }
{
    match (mark, byte) {
        (Mark::Spaces, b' ') => Mark::Spaces,
        (Mark::Spaces, b'-') => Mark::Minus,
        _ => Mark::Other,
    }
}

// One byte more.
fn step(kept: Kept, byte: u8) -> Kept
    requires { kept.number < 10 ^ 18 }
    ensures { result ≡ step_of kept byte }
{
    if byte.is_ascii_digit() {
        Kept {
            number: kept.number * 10 + u64::from(byte - b'0'),
            mark: behind_digit(kept.mark),
        }
    } else {
        Kept {
            mark: behind_other(kept.mark, byte),
            ..kept
        }
    }
}

// What the column says after its last byte.
fn finish(kept: Kept) -> Column
    requires { kept.number < 10 ^ 18 }
    ensures { result ≡ says_of kept }
{
    let value = kept.number as i64;
    match kept.mark {
        Mark::Digits => Column::Value(value),
        Mark::MinusDigits if value == 0 => Column::MinusZero,
        Mark::MinusDigits => Column::Value(-value),
        Mark::Spaces | Mark::Minus | Mark::Other => Column::Malformed,
    }
}

// How many spaces lead. By `step` they leave what is kept before the first byte as it is, so the pass begins behind them: each is then tested once.
fn leading_spaces(column: &[u8]) -> usize
    ensures { (result ≤ length column.now) × (drop result column.now ≡ strip column.now) }
{
    // Kept: the loop; tried `position(|byte| *byte != b' ')`, and the proof did not close.
    for (i, byte) in column.iter().enumerate() {
        if *byte != b' ' {
            return i;
        }
    }
    column.len()
}

// What a column says of whose bytes before `from` this is kept: the pass to its last byte, or to the first that no column has there. Eighteen digits are
// below 2 ^ 63.
fn read_on(column: &[u8], from: usize, first: Kept) -> Column
    requires { (from ≤ length column.now) × (length column.now ≤ 18) × (first.number < 10 ^ from) }
    ensures { result ≡ says_of (pass_from first (drop from column.now)) }
{
    // Kept: the index; tried `for byte in &column[from..]`, and the proof did not close.
    let mut kept = first;
    for i in from..column.len() {
        kept = step(kept, column[i]);
        if kept.mark == Mark::Other {
            return Column::Malformed;
        }
    }
    finish(kept)
}

// The same where a minus stands right before `from`, and spaces alone before it: the mark behind the next digit is known.
fn behind_minus(column: &[u8], from: usize, minus: Kept) -> Column
    requires { (from ≤ length column.now) × (length column.now ≤ 18) × (minus.number < 10 ^ from) × (minus.mark ≡ Minus) }
    ensures { result ≡ says_of (pass_from minus (drop from column.now)) }
{
    if column.len() <= from {
        return Column::Malformed;
    }
    let first = step(minus, column[from]);
    if first.mark == Mark::Other {
        return Column::Malformed;
    }
    read_on(column, from + 1, first)
}

// The whole column. Where a digit stands behind the spaces, or behind a minus there, the compiler knows the mark of all that follow, and has a number alone
// to keep.
pub(crate) fn scan(column: &[u8]) -> Column
    requires { length column.now ≤ 18 }
    ensures { result ≡ column_of column.now }
{
    let begin = leading_spaces(column);
    if column.len() <= begin {
        return Column::Malformed;
    }
    let start = Kept {
        number: 0,
        mark: Mark::Spaces,
    };
    let first = step(start, column[begin]);
    if first.mark == Mark::Digits {
        return read_on(column, begin + 1, first);
    }
    if first.mark == Mark::Minus {
        return behind_minus(column, begin + 1, first);
    }
    read_on(column, begin + 1, first)
}
