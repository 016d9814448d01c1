// Data records: "Points or heights after the last used one are not judged", so they stay as they are. Attributes have no judged column.
ghost use Rattle.std.specs.Prelude.{◌≡◌, ◌≤◌};
ghost use Rattle.format.specs.Record.{data_columns};
ghost use Rattle.format.specs.Normal.{normal_record};
ghost use Rattle.records.specs.Entry.{to_data};
ghost use Rattle.normal.specs.Rewriting.{first_sevens};

use super::rewriting;
use files::RECORD;
use layouts::{DataGrid, DataNote, Layout};
use records::Held;

// The first columns of twelve, each of seven bytes: points and heights lie alike.
fn rewrite_first(record: &mut [u8; RECORD], columns: usize)
    requires { columns ≤ 12 }
    ensures { «record».new ≡ first_sevens columns «record».old }
{
    rewriting::rewrite_columns(record, &DataGrid::table()[..columns]);
}

// A data record, by what the data records of its item hold and how many of them come after it.
#[tactic(auto, using(crate::proofs::Lies::each_lies))]
pub(crate) fn data(record: &mut [u8; RECORD], held: Held, behind: usize)
    ensures { «record».new ≡ normal_record (data_columns (to_data held) behind) «record».old }
{
    if held == Held::Notes {
        return rewriting::rewrite::<DataNote>(record);
    }
    rewrite_first(record, records::columns_used(held, behind));
}
