ghost use Rattle.format.specs.Layout.{data_grid};
ghost use Rattle.layouts.specs.Lies.{lie_data_grid};

use super::{Form, Layout, Span, TableColumn, column};

// Data grid: twelve I7 (any sign).
#[derive(Clone, Copy)]
pub struct DataGrid {}

impl DataGrid {
    pub const HEIGHT_1_WIDTH: usize = 7;

    pub const HEIGHT_2_WIDTH: usize = 7;

    pub const HEIGHT_3_WIDTH: usize = 7;

    pub const HEIGHT_4_WIDTH: usize = 7;

    pub const HEIGHT_5_WIDTH: usize = 7;

    pub const HEIGHT_6_WIDTH: usize = 7;

    pub const HEIGHT_7_WIDTH: usize = 7;

    pub const HEIGHT_8_WIDTH: usize = 7;

    pub const HEIGHT_9_WIDTH: usize = 7;

    pub const HEIGHT_10_WIDTH: usize = 7;

    pub const HEIGHT_11_WIDTH: usize = 7;

    pub const HEIGHT_12_WIDTH: usize = 7;

    pub const HEIGHT_1_START: usize = 0;

    pub const HEIGHT_2_START: usize = Self::HEIGHT_1_START + Self::HEIGHT_1_WIDTH;

    pub const HEIGHT_3_START: usize = Self::HEIGHT_2_START + Self::HEIGHT_2_WIDTH;

    pub const HEIGHT_4_START: usize = Self::HEIGHT_3_START + Self::HEIGHT_3_WIDTH;

    pub const HEIGHT_5_START: usize = Self::HEIGHT_4_START + Self::HEIGHT_4_WIDTH;

    pub const HEIGHT_6_START: usize = Self::HEIGHT_5_START + Self::HEIGHT_5_WIDTH;

    pub const HEIGHT_7_START: usize = Self::HEIGHT_6_START + Self::HEIGHT_6_WIDTH;

    pub const HEIGHT_8_START: usize = Self::HEIGHT_7_START + Self::HEIGHT_7_WIDTH;

    pub const HEIGHT_9_START: usize = Self::HEIGHT_8_START + Self::HEIGHT_8_WIDTH;

    pub const HEIGHT_10_START: usize = Self::HEIGHT_9_START + Self::HEIGHT_9_WIDTH;

    pub const HEIGHT_11_START: usize = Self::HEIGHT_10_START + Self::HEIGHT_10_WIDTH;

    pub const HEIGHT_12_START: usize = Self::HEIGHT_11_START + Self::HEIGHT_11_WIDTH;

    pub const END: usize = Self::HEIGHT_12_START + Self::HEIGHT_12_WIDTH;
}

impl Layout for DataGrid {
    ghost columns = { data_grid };

    ghost lie = { lie_data_grid };

    fn end() -> usize {
        Self::END
    }

    #[tactic(auto, unfolding(crate::specs::Tables::spans_of, format::specs::Layout::data_grid))]
    fn spans() -> &'static [Span] {
        &[
            Span(Self::HEIGHT_1_START, Self::HEIGHT_1_WIDTH),
            Span(Self::HEIGHT_2_START, Self::HEIGHT_2_WIDTH),
            Span(Self::HEIGHT_3_START, Self::HEIGHT_3_WIDTH),
            Span(Self::HEIGHT_4_START, Self::HEIGHT_4_WIDTH),
            Span(Self::HEIGHT_5_START, Self::HEIGHT_5_WIDTH),
            Span(Self::HEIGHT_6_START, Self::HEIGHT_6_WIDTH),
            Span(Self::HEIGHT_7_START, Self::HEIGHT_7_WIDTH),
            Span(Self::HEIGHT_8_START, Self::HEIGHT_8_WIDTH),
            Span(Self::HEIGHT_9_START, Self::HEIGHT_9_WIDTH),
            Span(Self::HEIGHT_10_START, Self::HEIGHT_10_WIDTH),
            Span(Self::HEIGHT_11_START, Self::HEIGHT_11_WIDTH),
            Span(Self::HEIGHT_12_START, Self::HEIGHT_12_WIDTH),
        ]
    }

    fn table() -> &'static [TableColumn] {
        &[
            column!(Self::HEIGHT_1_START, Self::HEIGHT_1_WIDTH => Integer, -999999, 9999999),
            column!(Self::HEIGHT_2_START, Self::HEIGHT_2_WIDTH => Integer, -999999, 9999999),
            column!(Self::HEIGHT_3_START, Self::HEIGHT_3_WIDTH => Integer, -999999, 9999999),
            column!(Self::HEIGHT_4_START, Self::HEIGHT_4_WIDTH => Integer, -999999, 9999999),
            column!(Self::HEIGHT_5_START, Self::HEIGHT_5_WIDTH => Integer, -999999, 9999999),
            column!(Self::HEIGHT_6_START, Self::HEIGHT_6_WIDTH => Integer, -999999, 9999999),
            column!(Self::HEIGHT_7_START, Self::HEIGHT_7_WIDTH => Integer, -999999, 9999999),
            column!(Self::HEIGHT_8_START, Self::HEIGHT_8_WIDTH => Integer, -999999, 9999999),
            column!(Self::HEIGHT_9_START, Self::HEIGHT_9_WIDTH => Integer, -999999, 9999999),
            column!(Self::HEIGHT_10_START, Self::HEIGHT_10_WIDTH => Integer, -999999, 9999999),
            column!(Self::HEIGHT_11_START, Self::HEIGHT_11_WIDTH => Integer, -999999, 9999999),
            column!(Self::HEIGHT_12_START, Self::HEIGHT_12_WIDTH => Integer, -999999, 9999999),
        ]
    }
}
