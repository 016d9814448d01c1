// Inserting and removing items in a sheet: refuse first, store later. An edit costs one pass, which judges the sheet and keeps what stands
// before the place, and one move.
#![tactic(auto)]

ghost use Rattle.std.specs.Prelude.{◌≡◌};
ghost use Rattle.format.specs.Calls.{insert, remove};
ghost use Rattle.format.specs.Run.{call};
ghost use Rattle.edit.specs.Counts.{with_counts};
ghost use Rattle.edit.specs.Moves.{put_in, taken_out};
ghost use Rattle.edit.specs.Plans.{CanPut, CanTake};
ghost use Rattle.format.specs.Answers.{step_for};

use counts::Change;
use format::Refusal;

mod counts;
mod moves;
mod plans;
mod refusals;

// A block put in, and its four counts written.
fn store_insertion(buffer: &mut [u8], used: usize, block: &[u8], change: Change)
    requires { CanPut buffer.old used block.now change }
    ensures { buffer.new ≡ with_counts change (put_in buffer.old used change.start block.now) }
{
    moves::put_in(buffer, used, change.start, block);
    counts::write_counts(buffer, change);
}

// An item taken out, and its four counts written.
fn store_removal(buffer: &mut [u8], used: usize, change: Change)
    requires { CanTake buffer.old used change }
    ensures { buffer.new ≡ with_counts change (taken_out buffer.old used change.start change.length) }
{
    moves::take_out(buffer, used, change.start, change.length);
    counts::write_counts(buffer, change);
}

// Kept: the used length beside the buffer, here and in `remove`, since the C interface and document 01 lend them so.
// The block goes in before the record at the place, or at the end.
pub fn insert(buffer: &mut [u8], used: usize, place: usize, block: &[u8]) -> Result<usize, Refusal>
    ensures { step_for result used buffer.new ≡ call (insert place block.now) (record { bytes = buffer.old; used = used }) }
{
    let change = plans::insertion(&buffer[..], used, place, block)?;
    store_insertion(buffer, used, block, change);
    Ok(used + block.len())
}

// The item at the place goes out.
pub fn remove(buffer: &mut [u8], used: usize, place: usize) -> Result<usize, Refusal>
    ensures { step_for result used buffer.new ≡ call (remove place) (record { bytes = buffer.old; used = used }) }
{
    let change = plans::removal(&buffer[..], used, place)?;
    store_removal(buffer, used, change);
    Ok(used - change.length)
}
