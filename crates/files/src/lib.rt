// The records of a file in a lent buffer: where each stands, how many there are, and stage one of judging; and bytes put into a buffer. A file has its
// records end to end, or each with a line end behind it; the walks above take the stride and serve both.
#![tactic(auto)]

ghost use Rattle.std.specs.Prelude.{◌≡◌, [], length, get_or};
ghost use Rattle.files.specs.Buffers.{put_at};
ghost use Rattle.files.specs.Records.{stride_of, records_of, length_ok};

// Bytes of a record.
pub const RECORD: usize = 84;

// The same with a line end of two bytes behind it.
pub const LINE: usize = RECORD + 2;

// "above 200,000 records"
pub const MOST: usize = 200000;

// How far a record starts behind the one before it: records of 84 bytes end to end, or with a line end of two bytes behind each.
#[derive(Clone, Copy, PartialEq, Eq, Debug)]
pub enum Stride {
    Plain,
    Lines,
}

// The same in bytes.
pub fn bytes(stride: Stride) -> usize
    ensures { result ≡ stride_of stride }
{
    match stride {
        Stride::Plain => RECORD,
        Stride::Lines => LINE,
    }
}

// How many whole records a file has.
pub fn count(file: &[u8], stride: Stride) -> usize
    ensures { result ≡ length (records_of stride file.now) }
{
    // Kept: `file.len() / bytes(stride)` is shorter and divides by a number that the compiler does not know, at every record of every walk.
    match stride {
        Stride::Plain => file.len() / RECORD,
        Stride::Lines => file.len() / LINE,
    }
}

// One record of a file, counted from 0, without its line end; no bytes where there is none.
pub fn record_at(file: &[u8], stride: Stride, k: usize) -> &[u8]
    ensures { result.now ≡ get_or (records_of stride file.now) k [] }
{
    if count(file, stride) <= k {
        return &file[0..0];
    }
    let start = bytes(stride) * k;
    let end = start + RECORD;
    &file[start..end]
}

// Stage one: a length that is not 0, not above the buffer, of whole records, and of 200,000 at most.
pub fn length_ok(buffer: &[u8], used: usize, stride: Stride) -> bool
    ensures { result ≡ length_ok stride used buffer.now }
{
    let each = bytes(stride);
    0 < used && used <= buffer.len() && used % each == 0 && used <= each * MOST
}

// Puts bytes into a buffer, from `at` on; nothing where they have no room there.
pub fn put_at(buffer: &mut [u8], at: usize, bytes: &[u8])
    ensures { buffer.new ≡ put_at buffer.old at bytes.now }
{
    if buffer.len() < at {
        return;
    }
    if buffer.len() - at < bytes.len() {
        return;
    }
    // Kept: the loop; `copy_from_slice` needs `memmove` from whoever links the archive.
    for i in 0..bytes.len() {
        buffer[at + i] = bytes[i];
    }
}
