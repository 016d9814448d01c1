// The outline of a header or an item by its layout: each number from its own column, and no other column read.
ghost use Rattle.std.specs.Prelude.{◌≡◌, ◌&&◌, ◌≤◌, eqb, get_or};
ghost use Rattle.format.specs.Record.{header_view, element_view, grid_view, net_view};
ghost use Rattle.columns.specs.InRecord.{number_in};
ghost use Rattle.records.specs.Outline.{outline_in, outline_said};
ghost use Rattle.records.specs.Steps.{element_type};

use super::counted::Outline;
use super::{GRID_OR_NET, reading, rules};
use files::RECORD;
use layouts::{Element, GridHeader, Header, NetHeader};

#[tactic(auto, using(crate::proofs::Outlined::header_outlined))]
pub(crate) fn header_outline(record: &[u8; RECORD]) -> Outline
    ensures { outline_said (Some result) ≡ outline_in (header_view «record».now) }
{
    let level = columns::number_at(record, Header::LEVEL_START, Header::LEVEL_WIDTH);
    Outline {
        kind: 0,
        level,
        data_records: 0,
    }
}

// The three bytes before the last one of an element's data records are spaces.
// Kept: three comparisons are no longer than an equality of arrays, and have no branch where a walk reads each element.
fn is_short(record: &[u8; RECORD]) -> bool
    ensures { result ≡ (eqb (get_or «record».now 31 0) 32 && eqb (get_or «record».now 32 0) 32) && eqb (get_or «record».now 33 0) 32 }
{
    let at = Element::RECORDS_START;
    (record[at] == b' ') & (record[at + 1] == b' ') & (record[at + 2] == b' ')
}

// The number of an element's data records. Where it is a written 0, as most are, a comparison tells so: a walk needs the number to find the next record,
// and what the processor foretells it does not wait for. Where it is another digit behind spaces, the column is known to have a number of at least 0.
#[tactic(auto, using(crate::proofs::Outlined::short_laws))]
fn stated_records(record: &[u8; RECORD]) -> usize
    ensures { result ≡ number_in «record».now 31 4 }
{
    let short = is_short(record);
    let last = record[Element::RECORDS_START + 3];
    if short & (last == b'0') {
        return 0;
    }
    if short & last.is_ascii_digit() {
        return reading::natural(record, Element::RECORDS_START, Element::RECORDS_WIDTH);
    }
    columns::number_at(record, Element::RECORDS_START, Element::RECORDS_WIDTH)
}

// `number` is that of the type, 1 to 8 for E1 to E8, and of the count.
#[tactic(auto, using(crate::proofs::Outlined::element_outlined))]
pub(crate) fn element_outline(record: &[u8; RECORD], number: usize) -> Outline
    requires { (1 ≤ number) × (number ≤ 8) }
    ensures { outline_said (Some result) ≡ outline_in (element_view (element_type number) «record».now) }
{
    let records = stated_records(record);
    Outline {
        kind: number,
        level: 0,
        data_records: records,
    }
}

#[tactic(auto, using(crate::proofs::Outlined::grid_outline_laws))]
pub(crate) fn grid_outline(record: &[u8; RECORD]) -> Outline
    ensures { outline_said (Some result) ≡ outline_in (grid_view «record».now) }
{
    let records = columns::number_at(record, GridHeader::RECORDS_START, GridHeader::RECORDS_WIDTH);
    let repeat = columns::number_at(record, GridHeader::REPEAT_START, GridHeader::REPEAT_WIDTH);
    let states = rules::grid_states(repeat, records);
    Outline {
        kind: GRID_OR_NET,
        level: 0,
        data_records: states,
    }
}

#[tactic(auto, using(crate::proofs::Outlined::net_outlined))]
pub(crate) fn net_outline(record: &[u8; RECORD]) -> Outline
    ensures { outline_said (Some result) ≡ outline_in (net_view «record».now) }
{
    let records = columns::number_at(record, NetHeader::RECORDS_START, NetHeader::RECORDS_WIDTH);
    Outline {
        kind: GRID_OR_NET,
        level: 0,
        data_records: records,
    }
}
