// Judging the records of a sheet part, or of an index, one after the other: what is due and what the records said so far, kept by value, and one record more.
ghost use Rattle.std.specs.Prelude.{◌≡◌};
ghost use Rattle.part_and_index.specs.Progress.{started, put, said_a, said_b, stepped, progress_said, stepped_said};
ghost use Rattle.part_and_index.specs.Steps.{fault_of_sheet_a, fault_of_sheet_b, over_e};

use super::due::Due;
use super::{FourCorners, due, faults};
use files::RECORD;
use format::Reason;
use layouts::{IndexC, SheetA, SheetB, SheetF};

// How far the judging of a sheet part or of an index has come: the record that is due, and what the records before it said: record a's level; record b's
// unit, wholes and two counts; the corners in millimetres that the last e record gives.
#[derive(Clone, Copy, PartialEq, Eq, Debug)]
pub struct Progress {
    pub due: Due,
    pub level: usize,
    pub unit: u64,
    pub wholes: FourCorners,
    pub stated_elements: usize,
    pub stated_records: usize,
    pub corners: FourCorners,
}

// What one record more came to, and how far judging has come with it.
#[derive(Clone, Copy, PartialEq, Eq, Debug)]
pub struct Stepped {
    pub verdict: Result<(), Reason>,
    pub progress: Progress,
}

// Before the first record.
pub(crate) fn start(first: Due) -> Progress
    ensures { progress_said result ≡ started first }
{
    Progress {
        due: first,
        level: 0,
        unit: 0,
        wholes: [0; 8],
        stated_elements: 0,
        stated_records: 0,
        corners: [0; 8],
    }
}

// Record a of a sheet, with what is due next.
fn step_a(progress: Progress, record: &[u8; RECORD], next: Due) -> Stepped
    ensures { stepped_said result ≡ said_a «record».now (put (progress_said progress) (fault_of_sheet_a «record».now) next) }
{
    Stepped {
        verdict: faults::check_sheet_a(record),
        progress: Progress {
            due: next,
            level: columns::number_at(record, SheetA::LEVEL_START, SheetA::LEVEL_WIDTH),
            ..progress
        },
    }
}

// Record b of a sheet, with what is due next.
fn step_b(progress: Progress, record: &[u8; RECORD], next: Due) -> Stepped
    ensures { stepped_said result ≡ said_b «record».now (put (progress_said progress) (fault_of_sheet_b progress.level «record».now) next) }
{
    Stepped {
        verdict: faults::check_sheet_b(record, progress.level),
        progress: Progress {
            due: next,
            unit: columns::number_at(record, SheetB::UNIT_START, SheetB::UNIT_WIDTH) as u64,
            wholes: faults::wholes_of(record),
            stated_elements: columns::number_at(
                record,
                SheetB::ELEMENT_COUNT_START,
                SheetB::ELEMENT_COUNT_WIDTH,
            ),
            stated_records: columns::number_at(
                record,
                SheetB::RECORD_COUNT_START,
                SheetB::RECORD_COUNT_WIDTH,
            ),
            ..progress
        },
    }
}

// Record e of a sheet, with what is due next.
fn step_e(progress: Progress, record: &[u8; RECORD], next: Due) -> Stepped
    ensures { stepped_said result ≡ over_e «record».now (progress_said progress) next }
{
    let fractions = faults::fractions_of(record);
    Stepped {
        verdict: faults::check_sheet_e(record, progress.unit, progress.wholes, fractions),
        progress: Progress {
            due: next,
            corners: faults::corners_of(progress.unit, progress.wholes, fractions),
            ..progress
        },
    }
}

// A whole record more.
fn step_of_whole(progress: Progress, record: &[u8; RECORD]) -> Stepped
    ensures { stepped_said result ≡ stepped (progress_said progress) «record».now }
{
    let due = due::next_of_whole(progress.due, record);
    let verdict = match progress.due {
        Due::SheetA => return step_a(progress, record, due),
        Due::SheetB(_) => return step_b(progress, record, due),
        Due::SheetE(_, _) => return step_e(progress, record, due),
        Due::SheetD(_) => faults::check_sheet_d(record),
        Due::SheetF(_, _) => layout_faults::check::<SheetF>(record),
        Due::IndexA => faults::check_index_a(record),
        Due::IndexC(_) => layout_faults::check::<IndexC>(record),
        Due::SheetC(_) | Due::IndexB(_, _) | Due::Over => Ok(()),
    };
    Stepped {
        verdict,
        progress: Progress { due, ..progress },
    }
}

// One record more, which is judged as the one that is due. Bytes that are no whole record are 1, and all else stays.
pub fn step(progress: Progress, record: &[u8]) -> Stepped
    ensures { stepped_said result ≡ stepped (progress_said progress) «record».now }
{
    let Ok(record) = <&[u8; RECORD]>::try_from(record) else {
        return Stepped {
            verdict: Err(Reason::Length),
            progress,
        };
    };
    step_of_whole(progress, record)
}
