// The number of a column of a record without fault, which is known to have one of at least 0: the pass over such a column keeps the number alone.
ghost use Rattle.std.specs.Prelude.{◌≡◌, ◌+◌, ◌≤◌, ◌<◌};
ghost use Rattle.columns.specs.InRecord.{number_in};
ghost use Rattle.columns.specs.Pass.{number_step};
ghost use Rattle.records.specs.Steps.{Natural};

use files::RECORD;

// One byte more: a byte's lower half is the number of a digit, and 0 for a space. Whatever they are, the halves of seven bytes make less than twenty
// million.
fn number_step(number: usize, byte: u8) -> usize
    requires { number < 20000000 }
    ensures { result ≡ number_step number byte }
{
    number * 10 + usize::from(byte % 16)
}

// The number after all bytes of the column.
// Kept: start and width are two numbers, since crate layouts has them as two constants and the functions of crate columns take them so.
pub(crate) fn natural(record: &[u8; RECORD], start: usize, width: usize) -> usize
    requires { (start + width ≤ 84) × (width ≤ 7) × Natural «record».now start width }
    ensures { result ≡ number_in «record».now start width }
{
    let mut number = 0;
    for byte in &record[start..start + width] {
        number = number_step(number, *byte);
    }
    number
}
