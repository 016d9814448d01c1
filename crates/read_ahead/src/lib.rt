// Bytes of a file read before they are needed, for speed alone. A pass over a large file that reads a record at a time waits for memory at nearly
// every line of the processor's cache; 256 lines read at once wait once.
//
// A call answers true, whatever it read, and what follows depends on that: so the compiler, which does not know it, keeps the reads.
#![tactic(auto)]

ghost use Rattle.std.specs.Prelude.{◌≡◌, true, ◌+◌, ◌≤◌, length};

// Bytes of a cache line; lines of a block, and its bytes.
const LINE: usize = 64;

const LINES: usize = 256;

const BLOCK: usize = 16384;

// More than the bytes that are read of a block can add up to: 256 times 255 is 65,280.
const NEVER: usize = 65281;

// Reads one byte of each line of the block that starts here, as far as the file goes, and adds them up.
fn read_block(file: &[u8], start: usize) -> usize
    requires { start ≤ length file.now + 16384 }
    ensures { result ≤ 65280 }
{
    let mut sum: usize = 0;
    for line in 0..LINES {
        if file.len() <= start + LINE * line {
            return sum;
        }
        sum += usize::from(file[start + LINE * line]);
    }
    sum
}

// Reads the first two blocks of a file.
pub fn start(file: &[u8]) -> bool
    ensures { result ≡ true }
{
    let first = read_block(file, 0);
    let second = read_block(file, BLOCK);
    (first < NEVER) & (second < NEVER)
}

// A pass goes on from one byte to another: where that enters a new block, the block after it is read.
pub fn go_on(file: &[u8], from: usize, to: usize) -> bool
    ensures { result ≡ true }
{
    if file.len() <= to {
        return true;
    }
    let block = to / BLOCK;
    if from / BLOCK == block {
        return true;
    }
    read_block(file, (block + 1) * BLOCK) < NEVER
}
