// One data record: how much of it is used, and the direction of a note.
ghost use Rattle.std.specs.Prelude.{◌≡◌, ◌≤◌, ◌*◌};
ghost use Rattle.format.specs.Record.{used_in};
ghost use Rattle.records.specs.Entry.{columns_used};
ghost use Rattle.records.specs.Steps.{direction_in};

use super::Held;

// How many points or heights are used where a record takes `each` of `count`: all but in the last record. The count may be any number.
#[tactic(auto, using(crate::proofs::Used::last_used))]
fn used(each: usize, count: usize, behind: usize) -> usize
    requires { (1 ≤ each) × (each ≤ 12) }
    ensures { result ≡ used_in each count behind }
{
    if 0 < behind {
        each
    } else if count == 0 {
        0
    } else {
        (count - 1) % each + 1
    }
}

// How many columns of seven bytes are used, by what the item's data records hold and how many of them stand behind this one.
// Kept: the two stay apart, since the public contracts (columns_used, columns_fault_of, data_fault_of) take them so.
#[tactic(auto, using(crate::proofs::Used::wrapped_used), unfolding(crate::specs::Entry::columns_used))]
pub fn columns_used(held: Held, behind: usize) -> usize
    ensures { result ≡ columns_used held behind }
{
    match held {
        Held::Points3D(count) => 3 * used(4, count, behind),
        Held::Points2D(count) => 2 * used(6, count, behind),
        // 3 x count may be no 64-bit number, but what is left of it there has the same rest by 4, and is 0 for 0 alone.
        Held::Triangles(count) => 3 * used(4, count.wrapping_mul(3), behind),
        Held::Heights(count) => used(12, count, behind),
        Held::Nothing | Held::Notes | Held::Attributes => 0,
    }
}

// The direction of a note, in degrees: from -45 to 45 for 0 in the first column, else from -135 to -45.
#[tactic(auto, unfolding(crate::specs::Steps::direction_in))]
pub(crate) fn is_direction(writing: usize, direction: i64) -> bool
    ensures { result ≡ direction_in writing direction }
{
    if writing == 0 {
        (-45..=45).contains(&direction)
    } else {
        (-135..=-45).contains(&direction)
    }
}
