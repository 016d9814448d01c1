// The C interface: every public call as a function with C linkage, its answer a struct of numbers. A slice passes as a pointer and a length.
//
// In each answer `refusal` is 0, or the number of the refusal, `at` the record that the refusal names, 0 where it names none; the other
// fields hold the values of an accepted call, and 0 for a refused one.
// Kept: a number for the refusal beside the values, and the used length beside the buffer: the C interface needs both, since C has no Result and no slice.
#![tactic(auto)]

ghost use Rattle.std.specs.Prelude.{◌≡◌};
ghost use Rattle.format.specs.Column.{read_alone, write_alone};
ghost use Rattle.format.specs.Corner.{join, split};
ghost use Rattle.format.specs.Judge.{judge_sheet, judge_index};
ghost use Rattle.format.specs.Above.{up};
ghost use Rattle.format.specs.Calls.{insert, remove};
ghost use Rattle.format.specs.Run.{call};
ghost use Rattle.format.specs.Normal.{normal_sheet, normal_index};
ghost use Rattle.format.specs.Answers.{number_answer, written_answer, parts_answer, judged_answer, way_up_answer};
ghost use Rattle.format.specs.Program.{report_to};
ghost use Rattle.format_lines.specs.LineEnds.{judge_sheet_lines, judge_index_lines, to_lines, from_lines};
ghost use Rattle.format_directory.specs.declared.Edition.TheVariants.{One, Two};
ghost use Rattle.format_directory.specs.Directory.{judge_directory, append_directory, jump, judge_either_edition, jump_either_edition};
ghost use Rattle.format_directory.specs.Answers.{jumped_answer, jumped_either_answer};
ghost use Rattle.format_words.specs.Words.{refusal_to, layout_column, described_of, described_answer, name_to};
ghost use Rattle.c_interface.specs.Interface.{version, number_of, corner_of, counts_of, length_of, way_of, layer_of, layer_entry_of, column_of, wrote_of, edited_of};

use format::{Corner, Counts, HeaderAbove, Refusal};
use format_directory::LayerEntry;
use format_words::Described;

// The version: 10,000 times the major number, 100 times the minor one, and the patch.
const VERSION: u64 = 500;

#[repr(C)]
#[derive(Clone, Copy, PartialEq, Eq, Debug)]
pub struct ZvNumber {
    pub refusal: u64,
    pub at: usize,
    pub value: i64,
}

#[repr(C)]
#[derive(Clone, Copy, PartialEq, Eq, Debug)]
pub struct ZvCorner {
    pub refusal: u64,
    pub at: usize,
    pub whole: i64,
    pub fraction: i64,
}

#[repr(C)]
#[derive(Clone, Copy, PartialEq, Eq, Debug)]
pub struct ZvCounts {
    pub refusal: u64,
    pub at: usize,
    pub records: usize,
    pub items: usize,
}

#[repr(C)]
#[derive(Clone, Copy, PartialEq, Eq, Debug)]
pub struct ZvLength {
    pub refusal: u64,
    pub at: usize,
    pub length: usize,
}

// `header` is 0 where no header stands above.
#[repr(C)]
#[derive(Clone, Copy, PartialEq, Eq, Debug)]
pub struct ZvWay {
    pub refusal: u64,
    pub at: usize,
    pub header: usize,
    pub passed: usize,
}

#[repr(C)]
#[derive(Clone, Copy, PartialEq, Eq, Debug)]
pub struct ZvLayer {
    pub refusal: u64,
    pub at: usize,
    pub header: usize,
}

// `total` and `last` are 0 for a directory of the first edition, which does not state them.
#[repr(C)]
#[derive(Clone, Copy, PartialEq, Eq, Debug)]
pub struct ZvLayerEntry {
    pub refusal: u64,
    pub at: usize,
    pub header: usize,
    pub total: usize,
    pub last: usize,
}

// `content` is the letter for what may stand in the column.
#[repr(C)]
#[derive(Clone, Copy, PartialEq, Eq, Debug)]
pub struct ZvColumn {
    pub refusal: u64,
    pub at: usize,
    pub start: usize,
    pub width: usize,
    pub content: u64,
    pub least: i64,
    pub greatest: i64,
}

// ---- the answers as structs

#[tactic(auto, unfolding(format::specs::Answers::number_answer))]
impl From<Result<i64, Refusal>> for ZvNumber {
    ghost from_gives = { λ answer told. told ≡ number_of (number_answer answer) };

    fn from(answer: Result<i64, Refusal>) -> Self {
        match answer {
            Ok(value) => ZvNumber {
                refusal: 0,
                at: 0,
                value,
            },
            Err(Refusal { reason, at }) => ZvNumber {
                refusal: u64::from(reason.number()),
                at,
                value: 0,
            },
        }
    }
}

#[tactic(auto, unfolding(format::specs::Answers::parts_answer))]
impl From<Result<Corner, Refusal>> for ZvCorner {
    ghost from_gives = { λ answer told. told ≡ corner_of (parts_answer answer) };

    fn from(answer: Result<Corner, Refusal>) -> Self {
        match answer {
            Ok(corner) => ZvCorner {
                refusal: 0,
                at: 0,
                whole: corner.whole,
                fraction: corner.fraction,
            },
            Err(Refusal { reason, at }) => ZvCorner {
                refusal: u64::from(reason.number()),
                at,
                whole: 0,
                fraction: 0,
            },
        }
    }
}

#[tactic(auto, unfolding(format::specs::Answers::written_answer))]
impl From<Result<usize, Refusal>> for ZvLength {
    ghost from_gives = { λ answer told. told ≡ length_of (written_answer answer) };

    fn from(answer: Result<usize, Refusal>) -> Self {
        match answer {
            Ok(length) => ZvLength {
                refusal: 0,
                at: 0,
                length,
            },
            Err(Refusal { reason, at }) => ZvLength {
                refusal: u64::from(reason.number()),
                at,
                length: 0,
            },
        }
    }
}

#[tactic(auto, unfolding(format::specs::Answers::judged_answer))]
impl From<Result<Counts, Refusal>> for ZvCounts {
    ghost from_gives = { λ answer told. told ≡ counts_of (judged_answer answer) };

    fn from(answer: Result<Counts, Refusal>) -> Self {
        match answer {
            Ok(counts) => ZvCounts {
                refusal: 0,
                at: 0,
                records: counts.records,
                items: counts.items,
            },
            Err(Refusal { reason, at }) => ZvCounts {
                refusal: u64::from(reason.number()),
                at,
                records: 0,
                items: 0,
            },
        }
    }
}

#[tactic(auto, unfolding(format::specs::Answers::way_up_answer))]
impl From<Result<Option<HeaderAbove>, Refusal>> for ZvWay {
    ghost from_gives = { λ answer told. told ≡ way_of (way_up_answer answer) };

    fn from(answer: Result<Option<HeaderAbove>, Refusal>) -> Self {
        match answer {
            Ok(Some(above)) => ZvWay {
                refusal: 0,
                at: 0,
                header: above.header,
                passed: usize::from(above.passed),
            },
            Ok(None) => ZvWay {
                refusal: 0,
                at: 0,
                header: 0,
                passed: 0,
            },
            Err(Refusal { reason, at }) => ZvWay {
                refusal: u64::from(reason.number()),
                at,
                header: 0,
                passed: 0,
            },
        }
    }
}

#[tactic(auto, unfolding(format_directory::specs::Answers::jumped_answer))]
impl From<Result<usize, Refusal>> for ZvLayer {
    ghost from_gives = { λ answer told. told ≡ layer_of (jumped_answer answer) };

    fn from(answer: Result<usize, Refusal>) -> Self {
        match answer {
            Ok(found) => ZvLayer {
                refusal: 0,
                at: 0,
                header: found,
            },
            Err(Refusal { reason, at }) => ZvLayer {
                refusal: u64::from(reason.number()),
                at,
                header: 0,
            },
        }
    }
}

#[tactic(auto, unfolding(format_directory::specs::Answers::jumped_either_answer))]
impl From<Result<LayerEntry, Refusal>> for ZvLayerEntry {
    ghost from_gives = { λ answer told. told ≡ layer_entry_of (jumped_either_answer answer) };

    fn from(answer: Result<LayerEntry, Refusal>) -> Self {
        match answer {
            Ok(layer) => ZvLayerEntry {
                refusal: 0,
                at: 0,
                header: layer.header,
                total: layer.total,
                last: layer.last,
            },
            Err(Refusal { reason, at }) => ZvLayerEntry {
                refusal: u64::from(reason.number()),
                at,
                header: 0,
                total: 0,
                last: 0,
            },
        }
    }
}

#[tactic(auto, unfolding(format_words::specs::Words::described_answer))]
impl From<Result<Described, Refusal>> for ZvColumn {
    ghost from_gives = { λ answer told. told ≡ column_of (described_answer answer) };

    fn from(answer: Result<Described, Refusal>) -> Self {
        match answer {
            Ok(column) => ZvColumn {
                refusal: 0,
                at: 0,
                start: column.start,
                width: column.width,
                content: u64::from(column.letter),
                least: column.least,
                greatest: column.greatest,
            },
            Err(Refusal { reason, at }) => ZvColumn {
                refusal: u64::from(reason.number()),
                at,
                start: 0,
                width: 0,
                content: 0,
                least: 0,
                greatest: 0,
            },
        }
    }
}

// ---- the calls

// The version of the library that answers.
#[tactic(auto, unfolding(crate::specs::Interface::version))]
#[unsafe(no_mangle)]
pub extern "C" fn zv_version() -> u64
    ensures { result ≡ version }
{
    VERSION
}

// A column read alone.
#[unsafe(no_mangle)]
pub extern "C" fn zv_read_column(column: &[u8]) -> ZvNumber
    ensures { result ≡ number_of (read_alone column.now) }
{
    ZvNumber::from(columns::read(column))
}

// A column written alone: the answer's length is the column's.
#[unsafe(no_mangle)]
pub extern "C" fn zv_write_column(column: &mut [u8], value: i64) -> ZvLength
    ensures { record { result = result; bytes = column.new } ≡ wrote_of (write_alone column.old value) }
{
    ZvLength::from(columns::write(column, value))
}

// A corner joined to millimetres.
#[unsafe(no_mangle)]
pub extern "C" fn zv_join_corner(unit: u64, whole: i64, fraction: i64) -> ZvNumber
    ensures { result ≡ number_of (join unit whole fraction) }
{
    ZvNumber::from(corners::join(unit, whole, fraction))
}

// Millimetres split into a corner.
#[unsafe(no_mangle)]
pub extern "C" fn zv_split_corner(unit: u64, millimetres: i64) -> ZvCorner
    ensures { result ≡ corner_of (split unit millimetres) }
{
    ZvCorner::from(corners::split(unit, millimetres))
}

// A sheet judged, and an index.
#[unsafe(no_mangle)]
pub extern "C" fn zv_judge_sheet(buffer: &[u8], used: usize) -> ZvCounts
    ensures { result ≡ counts_of (judge_sheet used buffer.now) }
{
    ZvCounts::from(judge::judge_sheet(buffer, used))
}

#[unsafe(no_mangle)]
pub extern "C" fn zv_judge_index(buffer: &[u8], used: usize) -> ZvCounts
    ensures { result ≡ counts_of (judge_index used buffer.now) }
{
    ZvCounts::from(judge::judge_index(buffer, used))
}

// A sheet with line ends judged, and an index.
#[unsafe(no_mangle)]
pub extern "C" fn zv_judge_sheet_lines(buffer: &[u8], used: usize) -> ZvCounts
    ensures { result ≡ counts_of (judge_sheet_lines used buffer.now) }
{
    ZvCounts::from(line_ends::judge_sheet_lines(buffer, used))
}

#[unsafe(no_mangle)]
pub extern "C" fn zv_judge_index_lines(buffer: &[u8], used: usize) -> ZvCounts
    ensures { result ≡ counts_of (judge_index_lines used buffer.now) }
{
    ZvCounts::from(line_ends::judge_index_lines(buffer, used))
}

// A file written to a target with line ends, and one with line ends without them: the answer's length is the written file's.
#[unsafe(no_mangle)]
pub extern "C" fn zv_to_lines(buffer: &[u8], used: usize, target: &mut [u8]) -> ZvLength
    ensures { record { result = result; bytes = target.new } ≡ wrote_of (to_lines used buffer.now target.old) }
{
    ZvLength::from(line_ends::to_lines(buffer, used, target))
}

#[unsafe(no_mangle)]
pub extern "C" fn zv_from_lines(buffer: &[u8], used: usize, target: &mut [u8]) -> ZvLength
    ensures { record { result = result; bytes = target.new } ≡ wrote_of (from_lines used buffer.now target.old) }
{
    ZvLength::from(line_ends::from_lines(buffer, used, target))
}

// The header above a record of a sheet, and the headers passed up to its layer.
#[unsafe(no_mangle)]
pub extern "C" fn zv_way_up(buffer: &[u8], used: usize, number: usize) -> ZvWay
    ensures { result ≡ way_of (up used buffer.now number) }
{
    ZvWay::from(way_up::way_up(buffer, used, number))
}

// The normal form of a sheet, and of an index, written to a second buffer: the answer's length is the file's.
#[unsafe(no_mangle)]
pub extern "C" fn zv_normal_sheet(buffer: &[u8], used: usize, second: &mut [u8]) -> ZvLength
    ensures { record { result = result; bytes = second.new } ≡ wrote_of (normal_sheet used buffer.now second.old) }
{
    ZvLength::from(normal::normal_sheet(buffer, used, second))
}

#[unsafe(no_mangle)]
pub extern "C" fn zv_normal_index(buffer: &[u8], used: usize, second: &mut [u8]) -> ZvLength
    ensures { record { result = result; bytes = second.new } ≡ wrote_of (normal_index used buffer.now second.old) }
{
    ZvLength::from(normal::normal_index(buffer, used, second))
}

// A block inserted into a sheet before a record, or at its end; and the item at a record removed. The answer's length is the new used length.
#[tactic(auto, using(crate::proofs::Laws::edits))]
#[unsafe(no_mangle)]
pub extern "C" fn zv_insert(buffer: &mut [u8], used: usize, place: usize, block: &[u8]) -> ZvLength
    ensures { record { result = result; bytes = buffer.new }
        ≡ edited_of (call (insert place block.now) (record { bytes = buffer.old; used = used })) }
{
    ZvLength::from(edit::insert(buffer, used, place, block))
}

#[tactic(auto, using(crate::proofs::Laws::edits))]
#[unsafe(no_mangle)]
pub extern "C" fn zv_remove(buffer: &mut [u8], used: usize, place: usize) -> ZvLength
    ensures { record { result = result; bytes = buffer.new }
        ≡ edited_of (call (remove place) (record { bytes = buffer.old; used = used })) }
{
    ZvLength::from(edit::remove(buffer, used, place))
}

// A sheet with a directory of its layers judged; and one appended to a sheet: the answer's length is the new used length.
#[unsafe(no_mangle)]
pub extern "C" fn zv_judge_directory(buffer: &[u8], used: usize) -> ZvCounts
    ensures { result ≡ counts_of (judge_directory used buffer.now) }
{
    ZvCounts::from(directories::judge_directory(buffer, used))
}

#[unsafe(no_mangle)]
pub extern "C" fn zv_append_directory(buffer: &mut [u8], used: usize) -> ZvLength
    ensures { record { result = result; bytes = buffer.new } ≡ wrote_of (append_directory One used buffer.old) }
{
    ZvLength::from(directories::append_directory(buffer, used))
}

// The header of a layer, counted from 1, by the directory of the sheet.
#[unsafe(no_mangle)]
pub extern "C" fn zv_jump(buffer: &[u8], used: usize, layer: usize) -> ZvLayer
    ensures { result ≡ layer_of (jump used buffer.now layer) }
{
    ZvLayer::from(directories::jump(buffer, used, layer))
}

// A sheet with a directory of either edition judged; and one of the second edition appended to a sheet: the answer's length is the new used length.
#[unsafe(no_mangle)]
pub extern "C" fn zv_judge_either_edition(buffer: &[u8], used: usize) -> ZvCounts
    ensures { result ≡ counts_of (judge_either_edition used buffer.now) }
{
    ZvCounts::from(directories::judge_either_edition(buffer, used))
}

#[unsafe(no_mangle)]
pub extern "C" fn zv_append_second_edition(buffer: &mut [u8], used: usize) -> ZvLength
    ensures { record { result = result; bytes = buffer.new } ≡ wrote_of (append_directory Two used buffer.old) }
{
    ZvLength::from(directories::append_second_edition(buffer, used))
}

// The header of a layer, counted from 1, with its total of items and its last record, by the directory of either edition.
#[unsafe(no_mangle)]
pub extern "C" fn zv_jump_either_edition(buffer: &[u8], used: usize, layer: usize) -> ZvLayerEntry
    ensures { result ≡ layer_entry_of (jump_either_edition used buffer.now layer) }
{
    ZvLayerEntry::from(directories::jump_either_edition(buffer, used, layer))
}

// The line that the program prints on an input, put at the start of a buffer: the answer's length is the line's, its end included. 65 bytes always hold it.
#[unsafe(no_mangle)]
pub extern "C" fn zv_report(input: &[u8], out: &mut [u8]) -> ZvLength
    ensures { record { result = result; bytes = out.new } ≡ wrote_of (report_to input.now out.old) }
{
    ZvLength::from(report::report(input, out))
}

// The words of a refusal, put at the start of a buffer: the answer's length is theirs.
#[unsafe(no_mangle)]
pub extern "C" fn zv_refusal_text(number: u64, out: &mut [u8]) -> ZvLength
    ensures { record { result = result; bytes = out.new } ≡ wrote_of (refusal_to number out.old) }
{
    ZvLength::from(words::refusal_text(number, out))
}

// A column of a layout, both numbered from 1; and its name, put at the start of a buffer: the answer's length is the name's.
#[unsafe(no_mangle)]
pub extern "C" fn zv_layout_column(layout: usize, column: usize) -> ZvColumn
    ensures { result ≡ column_of (described_of (layout_column layout column)) }
{
    ZvColumn::from(words::layout_column(layout, column))
}

#[unsafe(no_mangle)]
pub extern "C" fn zv_column_name(layout: usize, column: usize, out: &mut [u8]) -> ZvLength
    ensures { record { result = result; bytes = out.new } ≡ wrote_of (name_to (layout_column layout column) out.old) }
{
    ZvLength::from(words::column_name(layout, column, out))
}
