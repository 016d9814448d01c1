// The nineteen layouts. "Each of the nineteen layouts carries its own column widths, and they add up to 84."
//
// A layout is a type that owns two constants for each of its columns, NAME_WIDTH and NAME_START, in bytes: a column starts where the one
// before it ends, and END is where the last one ends. The blank column, X, is named BLANK. What the constants say together is its `impl Layout`.
#![tactic(auto)]

ghost use Rattle.std.specs.Prelude.{◌≡◌, true, List};
ghost use Rattle.format.specs.Layout.{Col};
ghost use Rattle.layouts.specs.Lies.{all_lie};
ghost use Rattle.layouts.specs.Tables.{spans_of, tabled, Table};

mod data_2d;
mod data_3d;
mod data_attribute;
mod data_grid;
mod data_net;
mod data_note;
mod element_record;
mod grid_header;
mod header_record;
mod index_a;
mod index_b;
mod index_c;
mod net_header;
mod sheet_a;
mod sheet_b;
mod sheet_c;
mod sheet_d;
mod sheet_e;
mod sheet_f;

pub use data_2d::Data2D;
pub use data_3d::Data3D;
pub use data_attribute::DataAttribute;
pub use data_grid::DataGrid;
pub use data_net::DataNet;
pub use data_note::DataNote;
pub use element_record::Element;
pub use grid_header::GridHeader;
pub use header_record::Header;
pub use index_a::IndexA;
pub use index_b::IndexB;
pub use index_c::IndexC;
pub use net_header::NetHeader;
pub use sheet_a::SheetA;
pub use sheet_b::SheetB;
pub use sheet_c::SheetC;
pub use sheet_d::SheetD;
pub use sheet_e::SheetE;
pub use sheet_f::SheetF;

// A column: its start in the record, from 0, and its width, in bytes.
#[derive(Clone, Copy, PartialEq, Eq, Debug)]
pub struct Span(pub usize, pub usize);

// What stands in a column of a table; text is in none. An integer: it must be well formed, and inside its range or list. An integer or spaces: spaces
// alone are taken too, and the integer may have any sign. A blank: it is not judged, and the normal form leaves it as it is.
#[derive(Clone, Copy, PartialEq, Eq, Debug)]
pub enum Form {
    Integer,
    IntegerOrSpaces,
    Blank,
}

// A column of a table: start and width in bytes, what stands in it, and the least and the greatest number allowed: of a list its ends; of an
// integer or spaces, those of any sign in its width; 0 of a blank.
// Kept: 0 of a blank, as `low_in` and `high_in` of specs/Tables have it.
#[derive(Clone, Copy, PartialEq, Eq, Debug)]
pub struct TableColumn {
    pub start: usize,
    pub width: usize,
    pub form: Form,
    pub low: i64,
    pub high: i64,
}

// One of the nineteen layouts: where its last column ends, all of its columns, and its table, those of its columns that are no text, in the order of
// the layout. The data of attributes is text alone: its table is empty.
// Kept: each type lists its own columns and its end, since document 01 has each of the nineteen layouts carry its own widths, and no `impl` may come from a
// macro.
pub trait Layout {
    ghost columns: { List Col };

    fn end() -> usize
        ensures { result ≡ 84 };

    fn spans() -> &'static [Span]
        ensures { result.now ≡ spans_of columns };

    fn table() -> &'static [TableColumn]
        ensures { Table columns result.now };

    // the columns that may hold a number lie in a record and can be written
    ghost lie: { all_lie (tabled columns) ≡ true };
}

// A column of a table, in one line: start, width => what stands in it, least, greatest.
macro_rules! column {
    ($start:expr, $width:expr => $form:ident, $low:expr, $high:expr) => {
        TableColumn { start: $start, width: $width, form: Form::$form, low: $low, high: $high }
    };
}

use column;
