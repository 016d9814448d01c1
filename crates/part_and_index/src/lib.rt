// The sheet part and the index: records that come in a fixed order, judged from the front. Records are counted from 1 in answers.
#![tactic(auto)]

ghost use Rattle.std.specs.Prelude.{◌≡◌, Ok};
ghost use Rattle.files.specs.Records.{records_of};
ghost use Rattle.part_and_index.specs.Result.{sheet_part_of, part_said, index_fault_of, index_said};
ghost use Rattle.part_and_index.specs.Progress.{started, progress_said};
ghost use Rattle.part_and_index.specs.Steps.{passed_part, walked_from};

pub use due::{Due, next_due};
use files::Stride;
use format::{Reason, Refusal};
pub use progress::{Progress, Stepped, step};

mod due;
mod faults;
mod progress;

// x and y of a sheet's four corners in the order of record b: whole metres, the fractions that belong to them, or millimetres.
pub type FourCorners = [i64; 8];

// The sheet part of a file: how many records it has, the two counts and the unit that record 2 states, and the corners in millimetres, in the order of record
// 2, that the last e record gives.
#[derive(Clone, Copy, PartialEq, Eq, Debug)]
pub struct SheetPart {
    pub length: usize,
    pub stated_elements: usize,
    pub stated_records: usize,
    pub unit: u64,
    pub corners: FourCorners,
}

// Nothing is due any more behind so many records.
fn passed(progress: Progress, records: usize) -> SheetPart
    ensures { part_said (Ok result) ≡ passed_part (progress_said progress) records }
{
    let Progress {
        stated_elements,
        stated_records,
        unit,
        corners,
        ..
    } = progress;
    SheetPart {
        length: records,
        stated_elements,
        stated_records,
        unit,
        corners,
    }
}

// The due records from the front of a file until nothing is due, one has a fault, or one is missing: "in sheet part or index, 1". Of an index no more than
// how many records there are is asked of the answer.
fn walk(file: &[u8], stride: Stride, first: Due) -> Result<SheetPart, Refusal>
    ensures { part_said result ≡ walked_from (started first) 0 (records_of stride file.now) }
{
    let n = files::count(file, stride);
    let mut progress = progress::start(first);
    for k in 0..n {
        if progress.due == Due::Over {
            return Ok(passed(progress, k));
        }
        let stepped = progress::step(progress, files::record_at(file, stride, k));
        stepped.verdict.map_err(|reason| reason.at(k + 1))?;
        progress = stepped.progress;
    }
    if progress.due != Due::Over {
        return Err(Reason::MissingRecord.at(1));
    }
    Ok(passed(progress, n))
}

// The sheet part of a file.
pub fn sheet_part(file: &[u8], stride: Stride) -> Result<SheetPart, Refusal>
    ensures { part_said result ≡ sheet_part_of (records_of stride file.now) }
{
    walk(file, stride, Due::SheetA)
}

// The first fault of an index file: that of its records in order, or else 10 where records are left over.
pub fn check_index(file: &[u8], stride: Stride) -> Result<(), Refusal>
    ensures { index_said result ≡ index_fault_of (records_of stride file.now) }
{
    let index = walk(file, stride, Due::IndexA)?;
    if index.length != files::count(file, stride) {
        return Err(Reason::Count.at(1));
    }
    Ok(())
}
