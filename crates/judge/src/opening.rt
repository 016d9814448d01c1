// Opening a sheet whose length is right: its sheet part, its body, stage three, and what stands before the place.
ghost use Rattle.std.specs.Prelude.{◌≡◌, ◌-◌, ◌≤◌};
ghost use Rattle.files.specs.declared.Stride.TheVariants.{Plain};
ghost use Rattle.files.specs.Records.{records_of};
ghost use Rattle.records.specs.Entry.{entry_said};
ghost use Rattle.part_and_index.specs.Result.{part_said};
ghost use Rattle.judge.specs.Sheet.{records_sheet, sheet_said};
ghost use Rattle.judge.specs.Walks.{ExtentOf, due_of_entry, open_of_entry, place_in, sheet_with, Stands, standing_sheet};
ghost use Rattle.judge.specs.Walks.{WholeBody, wrong_sheet_of, body_sheet, layers_said, against_said, BodyAgainst, OpenedAgainst};

use super::body_records::{Extent, Walk};
use super::walk::{Directory, Seen, WalkedLayers};
use super::{FirstNumbers, Sheet, walk};
use files::Stride;
use format::{Reason, Refusal};
use format_directory::Edition;
use part_and_index::SheetPart;
use records::Entry;

// Record 2 where the sheet's two counts differ from those found.
#[tactic(auto, unfolding(crate::specs::Walks::wrong_sheet_of))]
fn wrong_sheet(part: SheetPart, items: usize, records: usize) -> Option<usize>
    ensures { result ≡ wrong_sheet_of (part_said (Ok part)) items records }
{
    (part.stated_elements != items || part.stated_records != records).then_some(2)
}

// A sheet that is accepted.
fn accepted(part: SheetPart, due: usize, open_level: usize, seen: Seen) -> Sheet
    ensures { sheet_said (Ok result) ≡ sheet_with (part_said (Ok part)) due open_level seen }
{
    let corners = part.corners;
    let headers = seen.headers;
    Sheet {
        items: seen.items,
        part: part.length,
        unit: part.unit,
        corners,
        due,
        open_level,
        start: seen.start,
        headers,
    }
}

// The data records of a header or an item: a header has none.
#[tactic(auto, unfolding(crate::specs::Walks::due_of_entry))]
fn due_of(entry: Entry) -> usize
    ensures { result ≡ due_of_entry (entry_said (Ok entry)) }
{
    if entry.kind == 0 {
        0
    } else {
        entry.data_records
    }
}

// The open level behind it.
#[tactic(auto, unfolding(crate::specs::Walks::open_of_entry))]
fn open_of(entry: Entry) -> usize
    requires { 1 ≤ entry.level }
    ensures { result ≡ open_of_entry (entry_said (Ok entry)) }
{
    if entry.kind == 0 {
        entry.level
    } else {
        entry.level - 1
    }
}

// How many of the records up to `end` stand behind the place, or behind the end of the file where that comes first.
#[tactic(auto, unfolding(crate::specs::Walks::place_in))]
fn due_beyond(end: usize, extent: Extent) -> usize
    ensures { result ≡ end - place_in extent }
{
    end.saturating_sub(extent.before.min(extent.records))
}

// The sheet that is accepted, with what its last header or item before the place says of it.
fn at_place(walk: &Walk, part: SheetPart, seen: Seen) -> Sheet
    requires { (ExtentOf walk.now.file.now walk.now.extent) × (part.length ≤ walk.now.extent.records) × (Stands walk.now.file.now walk.now.extent (part_said (Ok part)) seen) }
    ensures { sheet_said (Ok result) ≡ standing_sheet walk.now.file.now walk.now.extent (part_said (Ok part)) seen }
{
    if seen.start <= part.length {
        return accepted(part, 0, 0, seen);
    }
    let Ok(entry) = walk.entry_at(seen.start - 1) else {
        unreachable!();
    };
    let due = due_beyond(seen.start + due_of(entry), walk.extent);
    accepted(part, due, open_of(entry), seen)
}

// A sheet that is opened against a directory: how many layers it has, the first of them, counted from 0, that the directory does not list, and what one of its
// edition lists of the first ones.
#[derive(Clone, Copy, PartialEq, Eq, Debug)]
pub(crate) struct Against {
    pub sheet: Sheet,
    pub layers: usize,
    pub unlisted: Option<usize>,
    pub first_numbers: FirstNumbers,
}

// Stage three of a body that passes stage two: the sheet's own counts, then those of its headers, lowest record first.
fn stage_three(walk: &Walk, part: SheetPart, body: WalkedLayers) -> Result<Sheet, Refusal>
    requires { (ExtentOf walk.now.file.now walk.now.extent) × (part.length ≤ walk.now.extent.records) × (WholeBody walk.now.file.now walk.now.extent part.length (layers_said (Ok body))) }
    ensures { sheet_said result ≡ body_sheet walk.now.file.now walk.now.extent (part_said (Ok part)) }
{
    let seen = body.seen;
    let sheet = wrong_sheet(part, seen.items, walk.extent.records - part.length);
    if let Some(low) = sheet.or(body.low) {
        return Err(Reason::Count.at(low));
    }
    Ok(at_place(walk, part, seen))
}

// The body of a sheet, behind its sheet part: stage two, then stage three.
fn open_body(walk: &Walk, part: SheetPart, directory: Directory) -> Result<Against, Refusal>
    requires { (ExtentOf walk.now.file.now walk.now.extent) × (part.length ≤ walk.now.extent.records) }
    ensures { BodyAgainst walk.now.file.now walk.now.extent (part_said (Ok part)) (records_of Plain directory.entry.records.now) directory.entry.edition (against_said result) }
{
    let body = walk::walk_whole(walk, part.length, directory)?;
    let sheet = stage_three(walk, part, body)?;
    let first_numbers = body.first_numbers;
    Ok(Against {
        sheet,
        layers: body.layers,
        unlisted: body.unlisted,
        first_numbers,
    })
}

// A file of records at a stride, behind stage one, against the records of a directory: its sheet part, then its body.
pub(crate) fn open_against(
    file: &[u8],
    stride: Stride,
    before: usize,
    directory: Directory,
) -> Result<Against, Refusal>
    ensures { OpenedAgainst (records_of stride file.now) before (records_of Plain directory.entry.records.now) directory.entry.edition (against_said result) }
{
    let part = part_and_index::sheet_part(file, stride)?;
    let extent = Extent {
        stride,
        records: files::count(file, stride),
        before,
    };
    open_body(&Walk { file, extent }, part, directory)
}

// The same with no directory.
pub(crate) fn open_file(file: &[u8], stride: Stride, before: usize) -> Result<Sheet, Refusal>
    ensures { sheet_said result ≡ records_sheet (records_of stride file.now) before }
{
    let none = Directory {
        records: &file[..0],
        edition: Edition::One,
    };
    let opened = open_against(file, stride, before, none)?;
    Ok(opened.sheet)
}
