// What an edit is to change, or why it is refused: nothing is stored here. A refusal after judging is at record 0.
ghost use Rattle.std.specs.Prelude.{◌≡◌, Ok, [], ◌-◌, ◌≤◌, take, get_or};
ghost use Rattle.files.specs.Records.{records_of};
ghost use Rattle.files.specs.declared.Stride.TheVariants.{Plain};
ghost use Rattle.records.specs.Entry.{entry_of};
ghost use Rattle.judge.specs.Sheet.{sheet_said, opened_in};
ghost use Rattle.edit.specs.Plans.{EntryFound, HasAbove, AboveRead, InsertionPlanned, RemovalPlanned, planned, planned_there};

use super::counts::Change;
use super::{counts, refusals};
use files::Stride;
use format::{Reason, Refusal};
use judge::Sheet;
use records::Entry;

// The header above an item, by its index in the file, and what it states: its total, and its count of the item's kind.
#[derive(Clone, Copy, PartialEq, Eq, Debug)]
pub(crate) struct Above {
    pub header: usize,
    pub total: usize,
    pub count: usize,
}

// A place of an accepted sheet, the file in the first `used` bytes of a buffer, by its record number; and the sheet as it was opened there.
#[derive(Clone, Copy)]
struct Place<'a> {
    buffer: &'a [u8],
    used: usize,
    number: usize,
    sheet: Sheet,
    ghost opened: { sheet_said (Ok sheet) ≡ opened_in used buffer.now (number - 1) },
}

impl Place<'_> {
    // The header or item at the place, where there is one.
    fn entry(&self) -> Option<Entry>
        requires { 1 ≤ self.now.number }
        ensures { EntryFound result (entry_of (get_or (records_of Plain (take self.now.used self.now.buffer.now)) (self.now.number - 1) [])) }
    {
        let file = &self.buffer[..self.used];
        records::entry(files::record_at(file, Stride::Plain, self.number - 1)).ok()
    }

    // The header above an item of a level there, by the last header of each level.
    fn header_above(&self, level: usize, kind: usize) -> Above
        requires { HasAbove (take self.now.used self.now.buffer.now) self.now.sheet level kind }
        ensures { AboveRead (take self.now.used self.now.buffer.now) self.now.sheet level kind result }
    {
        let header = self.sheet.headers[level - 1] - 1;
        let record = files::record_at(&self.buffer[..self.used], Stride::Plain, header);
        Above {
            header,
            total: counts::stated_total(record),
            count: records::stated_count(record, kind),
        }
    }

    // 11 to 15 in their order, or the counts of one item more.
    fn insertion(&self, block: &[u8]) -> Result<Change, Reason>
        ensures { InsertionPlanned self.now.buffer.now self.now.used self.now.number block.now (planned_there result) }
    {
        let sheet = self.sheet;
        let records = self.used / files::RECORD;
        refusals::check_place(sheet.part, records + 1, sheet.due, self.number)?;
        let item = edit_block::read_block(block).ok_or(Reason::Block)?;
        let next = self.entry().map_or(0, |next| next.level);
        refusals::check_level(sheet.open_level, item.level, next)?;
        let above = self.header_above(item.level, item.kind);
        let length = block.len();
        let all = records + length / files::RECORD;
        let free = self.buffer.len() - self.used;
        refusals::check_room(above, item.kind, all, free, length)?;
        Ok(Change {
            header: above.header,
            kind: item.kind,
            total: above.total + 1,
            count: above.count + 1,
            stated_elements: sheet.items + 1,
            stated_records: all - sheet.part,
            start: files::RECORD * (self.number - 1),
            length,
        })
    }

    // 11, or the counts of one item less.
    fn removal(&self) -> Result<Change, Reason>
        ensures { RemovalPlanned self.now.buffer.now self.now.used self.now.number (planned_there result) }
    {
        let sheet = self.sheet;
        let records = self.used / files::RECORD;
        refusals::check_place(sheet.part, records, sheet.due, self.number)?;
        let item = self
            .entry()
            .filter(|item| item.kind != 0)
            .ok_or(Reason::Place)?;
        let above = self.header_above(item.level, item.kind);
        let gone = item.data_records + 1;
        Ok(Change {
            header: above.header,
            kind: item.kind,
            total: above.total.saturating_sub(1),
            count: above.count.saturating_sub(1),
            stated_elements: sheet.items.saturating_sub(1),
            stated_records: records - sheet.part - gone,
            start: files::RECORD * (self.number - 1),
            length: files::RECORD * gone,
        })
    }
}

// Judges first; a refusal of judging is the answer.
pub(crate) fn insertion(
    buffer: &[u8],
    used: usize,
    number: usize,
    block: &[u8],
) -> Result<Change, Refusal>
    ensures { InsertionPlanned buffer.now used number block.now (planned result) }
{
    let sheet = judge::open_sheet(buffer, used, number.saturating_sub(1))?;
    let place = Place {
        buffer,
        used,
        number,
        sheet,
    };
    place.insertion(block).map_err(|reason| reason.at(0))
}

pub(crate) fn removal(buffer: &[u8], used: usize, number: usize) -> Result<Change, Refusal>
    ensures { RemovalPlanned buffer.now used number (planned result) }
{
    let sheet = judge::open_sheet(buffer, used, number.saturating_sub(1))?;
    let place = Place {
        buffer,
        used,
        number,
        sheet,
    };
    place.removal().map_err(|reason| reason.at(0))
}
