// Moves of bytes within a lent buffer.
// Kept: the two loops; `copy_within` needs `memmove` from whoever links the archive.
ghost use Rattle.std.specs.Prelude.{◌≡◌, ◌+◌, ◌≤◌, length};
ghost use Rattle.edit.specs.Moves.{moved_up, moved_down, put_in, taken_out};

// Moves the bytes from `at` to `used` up by n places. The n bytes from `at` on stay as they were.
fn open_gap(buffer: &mut [u8], used: usize, at: usize, n: usize)
    requires { (at ≤ used) × (used + n ≤ length buffer.old) }
    ensures { buffer.new ≡ moved_up buffer.old used at n }
{
    let mut i = used;
    while at < i {
        i -= 1;
        buffer[i + n] = buffer[i];
    }
}

// Moves the bytes from `at` + n to `used` down by n places. The n bytes before `used` stay as they were.
fn shift_down(buffer: &mut [u8], used: usize, at: usize, n: usize)
    requires { (at + n ≤ used) × (used ≤ length buffer.old) }
    ensures { buffer.new ≡ moved_down buffer.old used at n }
{
    let mut i = at + n;
    while i < used {
        buffer[i - n] = buffer[i];
        i += 1;
    }
}

// Takes the n bytes from `at` on out: what follows them within `used` moves down, and the freed end is filled with spaces.
pub(crate) fn take_out(buffer: &mut [u8], used: usize, at: usize, n: usize)
    requires { (at + n ≤ used) × (used ≤ length buffer.old) }
    ensures { buffer.new ≡ taken_out buffer.old used at n }
{
    shift_down(buffer, used, at, n);
    buffer[used - n..used].fill(b' ');
}

// Puts a block in at `at`: what follows within `used` moves up.
pub(crate) fn put_in(buffer: &mut [u8], used: usize, at: usize, block: &[u8])
    requires { (at ≤ used) × (used + length block.now ≤ length buffer.old) }
    ensures { buffer.new ≡ put_in buffer.old used at block.now }
{
    open_gap(buffer, used, at, block.len());
    files::put_at(buffer, at, block);
}
