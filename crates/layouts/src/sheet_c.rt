ghost use Rattle.format.specs.Layout.{sheet_c};
ghost use Rattle.layouts.specs.Lies.{lie_sheet_c};

use super::{Form, Layout, Span, TableColumn, column};

// Sheet c: eight A8, 20X.
#[derive(Clone, Copy)]
pub struct SheetC {}

impl SheetC {
    pub const NEIGHBOUR_1_WIDTH: usize = 8;

    pub const NEIGHBOUR_2_WIDTH: usize = 8;

    pub const NEIGHBOUR_3_WIDTH: usize = 8;

    pub const NEIGHBOUR_4_WIDTH: usize = 8;

    pub const NEIGHBOUR_5_WIDTH: usize = 8;

    pub const NEIGHBOUR_6_WIDTH: usize = 8;

    pub const NEIGHBOUR_7_WIDTH: usize = 8;

    pub const NEIGHBOUR_8_WIDTH: usize = 8;

    pub const BLANK_WIDTH: usize = 20;

    pub const NEIGHBOUR_1_START: usize = 0;

    pub const NEIGHBOUR_2_START: usize = Self::NEIGHBOUR_1_START + Self::NEIGHBOUR_1_WIDTH;

    pub const NEIGHBOUR_3_START: usize = Self::NEIGHBOUR_2_START + Self::NEIGHBOUR_2_WIDTH;

    pub const NEIGHBOUR_4_START: usize = Self::NEIGHBOUR_3_START + Self::NEIGHBOUR_3_WIDTH;

    pub const NEIGHBOUR_5_START: usize = Self::NEIGHBOUR_4_START + Self::NEIGHBOUR_4_WIDTH;

    pub const NEIGHBOUR_6_START: usize = Self::NEIGHBOUR_5_START + Self::NEIGHBOUR_5_WIDTH;

    pub const NEIGHBOUR_7_START: usize = Self::NEIGHBOUR_6_START + Self::NEIGHBOUR_6_WIDTH;

    pub const NEIGHBOUR_8_START: usize = Self::NEIGHBOUR_7_START + Self::NEIGHBOUR_7_WIDTH;

    pub const BLANK_START: usize = Self::NEIGHBOUR_8_START + Self::NEIGHBOUR_8_WIDTH;

    pub const END: usize = Self::BLANK_START + Self::BLANK_WIDTH;
}

impl Layout for SheetC {
    ghost columns = { sheet_c };

    ghost lie = { lie_sheet_c };

    fn end() -> usize {
        Self::END
    }

    #[tactic(auto, unfolding(crate::specs::Tables::spans_of, format::specs::Layout::sheet_c))]
    fn spans() -> &'static [Span] {
        &[
            Span(Self::NEIGHBOUR_1_START, Self::NEIGHBOUR_1_WIDTH),
            Span(Self::NEIGHBOUR_2_START, Self::NEIGHBOUR_2_WIDTH),
            Span(Self::NEIGHBOUR_3_START, Self::NEIGHBOUR_3_WIDTH),
            Span(Self::NEIGHBOUR_4_START, Self::NEIGHBOUR_4_WIDTH),
            Span(Self::NEIGHBOUR_5_START, Self::NEIGHBOUR_5_WIDTH),
            Span(Self::NEIGHBOUR_6_START, Self::NEIGHBOUR_6_WIDTH),
            Span(Self::NEIGHBOUR_7_START, Self::NEIGHBOUR_7_WIDTH),
            Span(Self::NEIGHBOUR_8_START, Self::NEIGHBOUR_8_WIDTH),
            Span(Self::BLANK_START, Self::BLANK_WIDTH),
        ]
    }

    fn table() -> &'static [TableColumn] {
        &[column!(Self::BLANK_START, Self::BLANK_WIDTH => Blank, 0, 0)]
    }
}
