// The refusals after judging, each by numbers alone, in their order: the place, the block's level there, the counts, the buffer.
ghost use Rattle.std.specs.Prelude.{◌≡◌, ◌≤◌, ◌<◌};
ghost use Rattle.format.specs.Basics.{unless};
ghost use Rattle.format.specs.Edit.{has_room};
ghost use Rattle.format.specs.Reasons.{fault_number};
ghost use Rattle.edit.specs.Plans.{is_place, nests_in, room_fault};

use super::plans::Above;
use format::Reason;

// 11: a place behind the sheet part, `last` at most, where no data record is due.
pub(crate) fn check_place(part: usize, last: usize, due: usize, place: usize) -> Result<(), Reason>
    ensures { fault_number result ≡ unless (is_place part last due place) 11 }
{
    if (part < place) & (place <= last) & (due == 0) {
        Ok(())
    } else {
        Err(Reason::Place)
    }
}

// 13: a level not above the open level plus 1, nor below that of the record now there, 0 for none.
pub(crate) fn check_level(open_level: usize, level: usize, next: usize) -> Result<(), Reason>
    requires { 1 ≤ level }
    ensures { fault_number result ≡ unless (nests_in open_level level next) 13 }
{
    if (level - 1 <= open_level) & (next <= level) {
        Ok(())
    } else {
        Err(Reason::BlockLevel)
    }
}

// 14: room for one item more in the total, in the count of grids and nets, which has one digit, and in the file, of so many records then.
fn has_room(above: Above, kind: usize, records: usize) -> bool
    requires { (above.total < 100000) × (above.count < 100000) }
    ensures { result ≡ has_room above.total kind above.count records 200000 }
{
    (above.total + 1 <= 99999) & ((kind != 9) | (above.count + 1 <= 9)) & (records <= files::MOST)
}

// 14, then 15: the block's bytes fit behind the used length.
pub(crate) fn check_room(
    above: Above,
    kind: usize,
    records: usize,
    free: usize,
    length: usize,
) -> Result<(), Reason>
    requires { (above.total < 100000) × (above.count < 100000) }
    ensures { fault_number result ≡ room_fault above kind records 200000 free length }
{
    if !has_room(above, kind, records) {
        return Err(Reason::Limit);
    }
    if free < length {
        return Err(Reason::Room);
    }
    Ok(())
}
