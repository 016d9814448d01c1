ghost use Rattle.format.specs.Layout.{data_2d};
ghost use Rattle.layouts.specs.Lies.{lie_data_2d};

use super::{Form, Layout, Span, TableColumn, column};

// Data 2D: six points of two I7 (any sign).
#[derive(Clone, Copy)]
pub struct Data2D {}

impl Data2D {
    pub const X_1_WIDTH: usize = 7;

    pub const Y_1_WIDTH: usize = 7;

    pub const X_2_WIDTH: usize = 7;

    pub const Y_2_WIDTH: usize = 7;

    pub const X_3_WIDTH: usize = 7;

    pub const Y_3_WIDTH: usize = 7;

    pub const X_4_WIDTH: usize = 7;

    pub const Y_4_WIDTH: usize = 7;

    pub const X_5_WIDTH: usize = 7;

    pub const Y_5_WIDTH: usize = 7;

    pub const X_6_WIDTH: usize = 7;

    pub const Y_6_WIDTH: usize = 7;

    pub const X_1_START: usize = 0;

    pub const Y_1_START: usize = Self::X_1_START + Self::X_1_WIDTH;

    pub const X_2_START: usize = Self::Y_1_START + Self::Y_1_WIDTH;

    pub const Y_2_START: usize = Self::X_2_START + Self::X_2_WIDTH;

    pub const X_3_START: usize = Self::Y_2_START + Self::Y_2_WIDTH;

    pub const Y_3_START: usize = Self::X_3_START + Self::X_3_WIDTH;

    pub const X_4_START: usize = Self::Y_3_START + Self::Y_3_WIDTH;

    pub const Y_4_START: usize = Self::X_4_START + Self::X_4_WIDTH;

    pub const X_5_START: usize = Self::Y_4_START + Self::Y_4_WIDTH;

    pub const Y_5_START: usize = Self::X_5_START + Self::X_5_WIDTH;

    pub const X_6_START: usize = Self::Y_5_START + Self::Y_5_WIDTH;

    pub const Y_6_START: usize = Self::X_6_START + Self::X_6_WIDTH;

    pub const END: usize = Self::Y_6_START + Self::Y_6_WIDTH;
}

impl Layout for Data2D {
    ghost columns = { data_2d };

    ghost lie = { lie_data_2d };

    fn end() -> usize {
        Self::END
    }

    #[tactic(auto, unfolding(crate::specs::Tables::spans_of, format::specs::Layout::data_2d))]
    fn spans() -> &'static [Span] {
        &[
            Span(Self::X_1_START, Self::X_1_WIDTH),
            Span(Self::Y_1_START, Self::Y_1_WIDTH),
            Span(Self::X_2_START, Self::X_2_WIDTH),
            Span(Self::Y_2_START, Self::Y_2_WIDTH),
            Span(Self::X_3_START, Self::X_3_WIDTH),
            Span(Self::Y_3_START, Self::Y_3_WIDTH),
            Span(Self::X_4_START, Self::X_4_WIDTH),
            Span(Self::Y_4_START, Self::Y_4_WIDTH),
            Span(Self::X_5_START, Self::X_5_WIDTH),
            Span(Self::Y_5_START, Self::Y_5_WIDTH),
            Span(Self::X_6_START, Self::X_6_WIDTH),
            Span(Self::Y_6_START, Self::Y_6_WIDTH),
        ]
    }

    fn table() -> &'static [TableColumn] {
        &[
            column!(Self::X_1_START, Self::X_1_WIDTH => Integer, -999999, 9999999),
            column!(Self::Y_1_START, Self::Y_1_WIDTH => Integer, -999999, 9999999),
            column!(Self::X_2_START, Self::X_2_WIDTH => Integer, -999999, 9999999),
            column!(Self::Y_2_START, Self::Y_2_WIDTH => Integer, -999999, 9999999),
            column!(Self::X_3_START, Self::X_3_WIDTH => Integer, -999999, 9999999),
            column!(Self::Y_3_START, Self::Y_3_WIDTH => Integer, -999999, 9999999),
            column!(Self::X_4_START, Self::X_4_WIDTH => Integer, -999999, 9999999),
            column!(Self::Y_4_START, Self::Y_4_WIDTH => Integer, -999999, 9999999),
            column!(Self::X_5_START, Self::X_5_WIDTH => Integer, -999999, 9999999),
            column!(Self::Y_5_START, Self::Y_5_WIDTH => Integer, -999999, 9999999),
            column!(Self::X_6_START, Self::X_6_WIDTH => Integer, -999999, 9999999),
            column!(Self::Y_6_START, Self::Y_6_WIDTH => Integer, -999999, 9999999),
        ]
    }
}
