// A block that is to be inserted: whether it is exactly one item that passes but for nesting.
#![tactic(auto)]

ghost use Rattle.std.specs.Prelude.{◌≡◌, map, ℕ, ◌-◌};
ghost use Rattle.format.specs.Record.{view};
ghost use Rattle.format.specs.Edit.{block_item};
ghost use Rattle.format.specs.Answers.{block_answer};
ghost use Rattle.files.specs.Records.{records_of};
ghost use Rattle.files.specs.declared.Stride.TheVariants.{Plain};
ghost use Rattle.records.specs.Entry.{to_data, entry_said};
ghost use Rattle.edit_block.specs.Steps.{is_item, data_walk};

use files::{RECORD, Stride};
use format::BlockItem;
use records::{Entry, Held};

// The first record of a block: an item in order, of level 2 to 9, that states the data records behind it.
#[tactic(auto, unfolding(crate::specs::Steps::is_item))]
fn is_item(entry: &Entry, behind: usize) -> bool
    ensures { result ≡ is_item (entry_said (Ok entry.now)) behind }
{
    (entry.kind != 0)
        & (2..=9).contains(&entry.level)
        & entry.rule_kept
        & (entry.data_records == behind)
}

// Whether the data records of a block, all but its first record, are in order. What the item opens does not matter to them.
fn data_in_order(block: &[u8], held: Held) -> bool
    ensures { (opened : ℕ) → result ≡ data_walk (map view (records_of Plain block.now)) (to_data held) opened 1 }
{
    let n = block.len() / RECORD;
    for index in 1..n {
        let record = files::record_at(block, Stride::Plain, index);
        if records::check_data(record, held, n - index - 1).is_err() {
            return false;
        }
    }
    true
}

// The item that a block is.
#[tactic(auto, using(crate::proofs::Items::block_laws))]
pub fn read_block(block: &[u8]) -> Option<BlockItem>
    ensures { block_answer result ≡ block_item block.now }
{
    if block.len() % RECORD != 0 {
        return None;
    }
    if block.is_empty() {
        return None;
    }
    let Ok(entry) = records::entry(files::record_at(block, Stride::Plain, 0)) else {
        return None;
    };
    if !is_item(&entry, block.len() / RECORD - 1) {
        return None;
    }
    data_in_order(block, entry.held).then_some(BlockItem {
        kind: entry.kind,
        level: entry.level,
    })
}
