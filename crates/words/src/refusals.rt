// The words of the refusals, in the order of their numbers.
ghost use Rattle.std.specs.Prelude.{◌≡◌, ℕ, List};
ghost use Rattle.format.specs.Reasons.{refusal_number};
ghost use Rattle.format.specs.Program.{line_to};
ghost use Rattle.format_words.specs.Words.{refusal_to};

use format::Reason;

// The words of a reason.
pub(crate) fn text(reason: Reason) -> &'static [u8]
    ensures { (out : List ℕ) → line_to result.now out ≡ refusal_to (refusal_number reason) out }
{
    match reason {
        Reason::Length => LENGTH,
        Reason::FileType => FILE_TYPE,
        Reason::MissingRecord => MISSING_RECORD,
        Reason::RecordType => RECORD_TYPE,
        Reason::Malformed => MALFORMED,
        Reason::OutsideRange => OUTSIDE_RANGE,
        Reason::Level => LEVEL,
        Reason::DataRule => DATA_RULE,
        Reason::Fraction => FRACTION,
        Reason::Count => COUNT,
        Reason::Place => PLACE,
        Reason::Block => BLOCK,
        Reason::BlockLevel => BLOCK_LEVEL,
        Reason::Limit => LIMIT,
        Reason::Room => ROOM,
        Reason::Number => NUMBER,
        Reason::RecordNumber => RECORD_NUMBER,
        Reason::LineEnd => LINE_END,
        Reason::Directory => DIRECTORY,
        Reason::Edition => EDITION,
    }
}

// 1.
const LENGTH: &[u8] =
    b"the length is 0, above the buffer, no multiple of 84 (lines: 86) or above 200,000 records";

// 2.
const FILE_TYPE: &[u8] = b"record 1 does not start with the type that was asked for";

// 3.
const MISSING_RECORD: &[u8] = b"a record that is needed is missing";

// 4.
const RECORD_TYPE: &[u8] = b"the record is not H, E1 to E8, G or T, where one of these is due";

// 5.
const MALFORMED: &[u8] = b"an integer column is malformed";

// 6.
const OUTSIDE_RANGE: &[u8] = b"an integer is outside its range, or does not go with another column";

// 7.
const LEVEL: &[u8] = b"the level is not allowed here";

// 8.
const DATA_RULE: &[u8] = b"the data kind, counts and records do not go together";

// 9.
const FRACTION: &[u8] = b"a corner's fraction is too large or of opposite sign to its whole";

// 10.
const COUNT: &[u8] = b"a count differs from what the file holds";

// 11.
const PLACE: &[u8] =
    b"the place is no start of an item (for an insertion: nor of a header, nor one past the end)";

// 12.
const BLOCK: &[u8] = b"the block is not exactly one sound item with a level from 2 to 9";

// 13.
const BLOCK_LEVEL: &[u8] = b"the block's level does not go with the place";

// 14.
const LIMIT: &[u8] =
    b"a header's total, its grid and net count or the file's records would pass their limit";

// 15.
const ROOM: &[u8] = b"the buffer is too short for the result";

// 16.
const NUMBER: &[u8] =
    b"the number does not fit, the width or unit is not allowed, or the corner cannot be split";

// 17.
const RECORD_NUMBER: &[u8] =
    b"the record number is outside the file or in the sheet part, or there is no such layer";

// 18.
const LINE_END: &[u8] = b"a record does not end in carriage return and line feed";

// 19.
const DIRECTORY: &[u8] = b"the directory of layers is missing, or differs here from the right one";

// 27.
const EDITION: &[u8] = b"the edition column of the directory of layers is not 2 in written form";
