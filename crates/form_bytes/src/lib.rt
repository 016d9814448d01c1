// One byte of a record against the byte before it: surely right by its letter, or in doubt. A record of which no byte is in doubt is told at
// once, without reading a number; what is in doubt is read by the exact reader.
//
// Each byte of a column has a letter for what may stand there:
//   .       anything
//   d       a digit; r one from 1 to 9; 0 to 8 one up to that
//   S, M    a column's first byte: a digit or a space; for M also a minus
//   s, m    the same behind the first byte, where a space or a minus stands only after a space
//   Z       a first byte that adds nothing to the number: 0, a space or a minus
// And nowhere a 0 right after a minus, which may be "a minus before zeros only".
#![tactic(auto)]

ghost use Rattle.std.specs.Prelude.{◌≡◌};
ghost use Rattle.form_bytes.specs.Doubt.{least_at, most_at};
ghost use Rattle.form_bytes.specs.Told.{Told};

// The least digit of a letter.
fn least_at(letter: u8) -> u8
    ensures { result ≡ least_at letter }
{
    if letter == b'r' { b'1' } else { b'0' }
}

// The greatest digit of a letter.
fn most_at(letter: u8) -> u8
    ensures { result ≡ most_at letter }
{
    if letter == b'Z' {
        return b'0';
    }
    letter.min(b'9')
}

// 0 where the byte is surely right by its letter after the byte before it, else 1: a column of which no byte is in doubt has no fault but a 0 where a
// number above 0 is due, or a number that is not of its list. No branch, so that a loop of it takes sixteen bytes at a time.
pub fn doubt_at(letter: u8, before: u8, byte: u8) -> u8
    ensures { Told letter before byte result }
{
    let least = least_at(letter);
    let most = most_at(letter);
    let digit = (least <= byte) & (byte <= most);
    let first = (letter == b'S') | (letter == b'M') | (letter == b'Z');
    let spaced = first | (letter == b's') | (letter == b'm');
    let signed = (letter == b'M') | (letter == b'm') | (letter == b'Z');
    let gap = (((byte == b' ') & spaced) | ((byte == b'-') & signed)) & ((before == b' ') | first);
    let minus_zero = (before == b'-') & (byte == b'0');
    if (letter == b'.') | ((digit | gap) & !minus_zero) {
        0
    } else {
        1
    }
}
