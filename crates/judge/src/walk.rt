// The walk of stage two over the body. It also counts, so that stage three reads no more than each header's own counts, and keeps what stands
// before the place.
ghost use Rattle.std.specs.Prelude.{◌≡◌, ◌-◌, ◌<◌, ◌≤◌, length};
ghost use Rattle.files.specs.declared.Stride.TheVariants.{Plain};
ghost use Rattle.files.specs.Records.{records_of};
ghost use Rattle.directory_columns.specs.PackedColumns.{packed_number};
ghost use Rattle.directory_columns.specs.Numbers.{listed_of, lists_layer};
ghost use Rattle.records.specs.Entry.{to_data};
ghost use Rattle.judge.specs.Walks.{ExtentOf, last_before, seen_none, with_header, SeenUpTo, walked_said, group_said, body_said, layers_said};
ghost use Rattle.judge.specs.Walks.{Item, HeaderAt, Child, Body, WholeListed, kept_in};

use super::body_records::Walk;
use super::{FIRST_KEPT, FirstNumbers, SECOND_KEPT};
use directory_columns::{LayerNumbers, PackedNumbers};
use files::RECORD;
use format::{Reason, Refusal};
use format_directory::Edition;
use records::{Entry, Tally};

// What a walk has seen so far: how many items; and of what stands before the place the last header or item, and the last header of each level,
// by their numbers in the file.
#[derive(Clone, Copy, PartialEq, Eq, Debug)]
pub(crate) struct Seen {
    pub items: usize,
    pub start: usize,
    pub headers: [usize; 9],
}

// What the walk of a header with all that belongs to it found: the record past it, and the number of the first header with a wrong count.
#[derive(Clone, Copy, PartialEq, Eq, Debug)]
struct WalkedGroup {
    next: usize,
    low: Option<usize>,
    seen: Seen,
}

// The same of a body. `tally` counts, by kind, what stands one level below the open one.
#[derive(Clone, Copy, PartialEq, Eq, Debug)]
struct WalkedBody {
    next: usize,
    low: Option<usize>,
    tally: Tally,
    seen: Seen,
}

// The same of all layers. `layers` counts them; `unlisted` is the first of them, counted from 0, that a directory does not list; `first_numbers` is what one of
// its edition lists of the first ones.
#[derive(Clone, Copy, PartialEq, Eq, Debug)]
pub(crate) struct WalkedLayers {
    pub low: Option<usize>,
    pub seen: Seen,
    pub layers: usize,
    pub unlisted: Option<usize>,
    pub first_numbers: FirstNumbers,
}

// Keeps what a directory lists of a layer, counted from 0, where there is room for it.
fn keep(first_numbers: &mut FirstNumbers, edition: Edition, layer: usize, numbers: LayerNumbers)
    ensures { first_numbers.new ≡ kept_in edition first_numbers.old layer (listed_of edition numbers) }
{
    match edition {
        Edition::One => {
            if layer < FIRST_KEPT {
                first_numbers[layer] = numbers.header;
            }
        }
        Edition::Two => {
            if layer < SECOND_KEPT {
                first_numbers[3 * layer] = numbers.header;
                first_numbers[3 * layer + 1] = numbers.total;
                first_numbers[3 * layer + 2] = numbers.last;
            }
        }
    }
}

// The number of record k where that stands before the place, else the latest one that does.
fn last_before(k: usize, before: usize, latest: usize) -> usize
    ensures { result ≡ last_before k before latest }
{
    if k < before { k + 1 } else { latest }
}

// What a walk has seen where it begins, behind the sheet part.
fn seen_none(part: usize) -> Seen
    ensures { result ≡ seen_none part }
{
    Seen {
        items: 0,
        start: part,
        headers: [part; 9],
    }
}

// What is seen with the header of a level at record k.
fn see_header(seen: Seen, k: usize, before: usize, level: usize) -> Seen
    requires { level ≤ 8 }
    ensures { result ≡ with_header seen k before level }
{
    let mut headers = seen.headers;
    headers[level] = last_before(k, before, headers[level]);
    Seen {
        items: seen.items,
        start: last_before(k, before, seen.start),
        headers,
    }
}

// The data records of the item at record k, whose entry this is: the record past them.
fn walk_item(walk: &Walk, k: usize, entry: Entry) -> Result<usize, Refusal>
    requires { (ExtentOf walk.now.file.now walk.now.extent) × (k < walk.now.extent.records) }
    ensures { Item walk.now.file.now walk.now.extent k entry.data_records (to_data entry.held) (walked_said result) }
{
    let held = entry.held;
    let mut at = walk.next(k);
    for behind in (0..entry.data_records).rev() {
        if walk.extent.records <= at {
            return Err(Reason::MissingRecord.at(k + 1));
        }
        if let Err(reason) = walk.check_data_at(at, held, behind) {
            return Err(reason.at(at + 1));
        }
        at = walk.next(at);
    }
    Ok(at)
}

// The header at record k, one level below the open one, and its body, which has one level less left.
#[cycle(walk_body_walk_group)]
fn walk_group(walk: &Walk, k: usize, open_level: usize, seen: Seen) -> Result<WalkedGroup, Refusal>
    requires { (ExtentOf walk.now.file.now walk.now.extent) × (k < walk.now.extent.records) × (open_level < 8) × (HeaderAt walk.now.file.now walk.now.extent k open_level) × (SeenUpTo k seen) }
    ensures { Child walk.now.file.now walk.now.extent k open_level seen (group_said result) }
{
    let level = open_level + 1;
    let with_header = see_header(seen, k, walk.extent.before, level);
    let body = walk_body(walk, k + 1, level, with_header)?;
    let agreed = walk.counts_agree_at(k, &body.tally);
    Ok(WalkedGroup {
        next: body.next,
        low: if agreed { body.low } else { Some(k + 1) },
        seen: body.seen,
    })
}

// The headers and items one level below the open one, from record k on.
#[cycle(walk_body_walk_group)]
fn walk_body(walk: &Walk, k: usize, open_level: usize, given: Seen) -> Result<WalkedBody, Refusal>
    requires { (ExtentOf walk.now.file.now walk.now.extent) × (k ≤ walk.now.extent.records) × (open_level ≤ 8) × (SeenUpTo k given) }
    ensures { Body walk.now.file.now walk.now.extent k open_level given (body_said result) }
{
    let mut next = k;
    let mut tally = [0; 10];
    let mut low = None;
    let mut seen = given;
    // Kept: no plainer, a turn goes on past a whole group or item, not by one.
    while next < walk.extent.records {
        let entry = walk.entry_due(next, open_level)?;
        if entry.level <= open_level {
            break;
        }
        tally[entry.kind] += 1;
        if entry.kind == 0 {
            let group = walk_group(walk, next, open_level, seen)?;
            next = group.next;
            low = low.or(group.low);
            seen = group.seen;
        } else {
            let behind = walk_item(walk, next, entry)?;
            seen.items += 1;
            seen.start = last_before(next, walk.extent.before, seen.start);
            next = behind;
        }
    }
    Ok(WalkedBody {
        next,
        low,
        tally,
        seen,
    })
}

// The records of a directory against which a sheet is walked, and its edition.
#[derive(Clone, Copy, PartialEq, Eq, Debug)]
pub(crate) struct Directory<'a> {
    pub records: &'a [u8],
    pub edition: Edition,
}

// A layer against a directory: whether it is listed with its numbers; and, where there is a directory, the number of its last record as a packed number.
#[derive(Clone, Copy, PartialEq, Eq, Debug)]
struct Compared {
    listed: bool,
    last: u64,
}

// Where there is a directory, `before` is the number before the header's as a packed number: the header's is made from it, and the last record's from the
// header's. What is shorter than a record lists nothing.
fn compare(directory: Directory, layer: usize, numbers: LayerNumbers, before: u64) -> Compared
    requires { (layer < numbers.header) × (84 ≤ length directory.records.now → before ≡ packed_number (numbers.header - 1)) }
    ensures { (result.listed ≡ lists_layer directory.entry.edition (records_of Plain directory.entry.records.now) layer (listed_of directory.entry.edition numbers)) × (84 ≤ length directory.entry.records.now → result.last ≡ packed_number numbers.last) }
{
    if directory.records.len() < RECORD {
        return Compared {
            listed: false,
            last: before,
        };
    }
    let header = directory_columns::packed_near(numbers.header, numbers.header - 1, before);
    let last = directory_columns::packed_near(numbers.last, numbers.header, header);
    let packed = PackedNumbers {
        header,
        total: numbers.total,
        last,
    };
    Compared {
        listed: directory_columns::is_listed(directory.records, directory.edition, layer, packed),
        last,
    }
}

// All layers, from record k on, against the records of a directory.
fn walk_layers(walk: &Walk, k: usize, directory: Directory) -> Result<WalkedLayers, Refusal>
    requires { (ExtentOf walk.now.file.now walk.now.extent) × (k ≤ walk.now.extent.records) }
    ensures { WholeListed walk.now.file.now walk.now.extent k (records_of Plain directory.entry.records.now) directory.entry.edition (layers_said result) }
{
    let mut at = k;
    let mut low = None;
    let mut seen = seen_none(k);
    let mut layers = 0;
    let mut unlisted = None;
    let mut first_numbers = [0; FIRST_KEPT];
    let mut before = directory_columns::packed_number(k);
    // Kept: no plainer, a turn goes on past a whole layer.
    while at < walk.extent.records {
        walk.entry_due(at, 0)?;
        let layer = walk_group(walk, at, 0, seen)?;
        let numbers = LayerNumbers {
            header: at + 1,
            total: layer.seen.items - seen.items,
            last: layer.next,
        };
        let compared = compare(directory, layers, numbers, before);
        before = compared.last;
        keep(&mut first_numbers, directory.edition, layers, numbers);
        unlisted = unlisted.or((!compared.listed).then_some(layers));
        layers += 1;
        at = layer.next;
        low = low.or(layer.low);
        seen = layer.seen;
    }
    Ok(WalkedLayers {
        low,
        seen,
        layers,
        unlisted,
        first_numbers,
    })
}

// All of the body, behind a sheet part of so many records.
pub(crate) fn walk_whole(
    walk: &Walk,
    part: usize,
    directory: Directory,
) -> Result<WalkedLayers, Refusal>
    requires { (ExtentOf walk.now.file.now walk.now.extent) × (part ≤ walk.now.extent.records) }
    ensures { WholeListed walk.now.file.now walk.now.extent part (records_of Plain directory.entry.records.now) directory.entry.edition (layers_said result) }
{
    let first = walk.begin(part);
    walk_layers(walk, first, directory)
}
