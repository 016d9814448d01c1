// A record where a header or an item is due, by its layout: its fault, or what it states.
ghost use Rattle.std.specs.Prelude.{◌≡◌, ◌≤◌};
ghost use Rattle.format.specs.Record.{header_view, element_view, grid_view, net_view};
ghost use Rattle.records.specs.Entry.{entry_in, entry_said};
ghost use Rattle.records.specs.Steps.{element_type};

use super::rules::ElementData;
use super::{GRID_OR_NET, Held, reading, rules};
use files::RECORD;
use format::Reason;
use layouts::{Element, GridHeader, Header, NetHeader};

// A header or an item: the count of a header that it belongs to, 0 for a header, 1 to 8 for E1 to E8, 9 for grid and net; its level; how many data records it
// states and what they hold; and whether its data rule is kept, else 8.
// Kept: the kind is a number, since it indexes a Tally, and count_start, count_width and stated_count answer every number.
#[derive(Clone, Copy, PartialEq, Eq, Debug)]
pub struct Entry {
    pub kind: usize,
    pub level: usize,
    pub data_records: usize,
    pub held: Held,
    pub rule_kept: bool,
}

#[tactic(auto, using(crate::proofs::Entries::header_laws))]
pub(crate) fn header_entry(record: &[u8; RECORD]) -> Result<Entry, Reason>
    ensures { entry_said result ≡ entry_in (header_view «record».now) }
{
    layout_faults::check::<Header>(record)?;
    let level = reading::natural(record, Header::LEVEL_START, Header::LEVEL_WIDTH);
    Ok(Entry {
        kind: 0,
        level,
        data_records: 0,
        held: Held::Nothing,
        rule_kept: true,
    })
}

// `number` is that of the type, 1 to 8 for E1 to E8, and of the count.
#[tactic(auto, using(crate::proofs::Entries::element_laws))]
pub(crate) fn element_entry(record: &[u8; RECORD], number: usize) -> Result<Entry, Reason>
    requires { (1 ≤ number) × (number ≤ 8) }
    ensures { entry_said result ≡ entry_in (element_view (element_type number) «record».now) }
{
    layout_faults::check::<Element>(record)?;
    let level = reading::natural(record, Element::LEVEL_START, Element::LEVEL_WIDTH);
    let kind = reading::natural(record, Element::DATA_KIND_START, Element::DATA_KIND_WIDTH);
    let count = reading::natural(record, Element::DATA_COUNT_START, Element::DATA_COUNT_WIDTH);
    let records = reading::natural(record, Element::RECORDS_START, Element::RECORDS_WIDTH);
    let data = ElementData { kind, count };
    let allowed = data.allowed(number);
    let needs = data.records();
    let held = data.held();
    Ok(Entry {
        kind: number,
        level,
        data_records: records,
        held,
        rule_kept: allowed & (records == needs),
    })
}

#[tactic(auto, using(crate::proofs::Entries::grid_laws))]
pub(crate) fn grid_entry(record: &[u8; RECORD]) -> Result<Entry, Reason>
    ensures { entry_said result ≡ entry_in (grid_view «record».now) }
{
    layout_faults::check::<GridHeader>(record)?;
    let level = reading::natural(record, GridHeader::LEVEL_START, GridHeader::LEVEL_WIDTH);
    let rows = reading::natural(record, GridHeader::ROWS_START, GridHeader::ROWS_WIDTH);
    let columns = reading::natural(record, GridHeader::COLUMNS_START, GridHeader::COLUMNS_WIDTH);
    let records = reading::natural(record, GridHeader::RECORDS_START, GridHeader::RECORDS_WIDTH);
    let repeat = reading::natural(record, GridHeader::REPEAT_START, GridHeader::REPEAT_WIDTH);
    let states = rules::grid_states(repeat, records);
    let heights = rows * columns;
    let needs = rules::grid_needs(heights);
    Ok(Entry {
        kind: GRID_OR_NET,
        level,
        data_records: states,
        held: Held::Heights(heights),
        rule_kept: states == needs,
    })
}

#[tactic(auto, using(crate::proofs::Entries::net_laws))]
pub(crate) fn net_entry(record: &[u8; RECORD]) -> Result<Entry, Reason>
    ensures { entry_said result ≡ entry_in (net_view «record».now) }
{
    layout_faults::check::<NetHeader>(record)?;
    let level = reading::natural(record, NetHeader::LEVEL_START, NetHeader::LEVEL_WIDTH);
    let triangles = reading::natural(
        record,
        NetHeader::TRIANGLES_START,
        NetHeader::TRIANGLES_WIDTH,
    );
    let records = reading::natural(record, NetHeader::RECORDS_START, NetHeader::RECORDS_WIDTH);
    let needs = rules::net_needs(triangles);
    Ok(Entry {
        kind: GRID_OR_NET,
        level,
        data_records: records,
        held: Held::Triangles(triangles),
        rule_kept: records == needs,
    })
}
