// The program: judges what stands on standard input and prints one line.
#![tactic(auto)]

ghost use Rattle.std.specs.Prelude.{IfSome};
ghost use Rattle.io.specs.Counts.{IsPrefixLen};

use std::io::Read;

// Reads until the buffer is full or the input ends, and answers how many bytes that were; none where a read failed: then what was read may be a part of the
// input.
fn read_input(from: &mut impl Read, input: &mut [u8]) -> Option<usize>
    ensures { IfSome result (λ used. IsPrefixLen used input.new) }
{
    let mut used = 0;
    // Kept: a read says how far it came, which no range counts.
    while used < input.len() {
        let got = from.read(&mut input[used..]).ok()?;
        if got == 0 {
            break;
        }
        used += got;
    }
    Some(used)
}

// Reads the input, puts the line for it at the start of a buffer, and answers the line's length: 0, where the line has no room in it.
fn put_line(from: &mut impl Read, input: &mut [u8], out: &mut [u8]) -> usize
    ensures { IsPrefixLen result out.new }
{
    let read = read_input(from, input);
    report::report_read(input, read, out).unwrap_or(0)
}

fn main(rt: HostRuntime) -> std::io::Result<()> {
    // Longer than the longest input that is judged, so that a longer input shows.
    let mut input = io::large_buffer();
    // A line has at most 65 bytes, so it always has room here.
    let mut line = io::buffer();
    let length = put_line(&mut rt.stdin(), &mut input, &mut line);
    rt.write_all(&line[..length])
}
