ghost use Rattle.format.specs.Layout.{data_net};
ghost use Rattle.layouts.specs.Lies.{lie_data_net};

use super::{Form, Layout, Span, TableColumn, column};

// Data net: four points of three I7 (any sign).
#[derive(Clone, Copy)]
pub struct DataNet {}

impl DataNet {
    pub const X_1_WIDTH: usize = 7;

    pub const Y_1_WIDTH: usize = 7;

    pub const Z_1_WIDTH: usize = 7;

    pub const X_2_WIDTH: usize = 7;

    pub const Y_2_WIDTH: usize = 7;

    pub const Z_2_WIDTH: usize = 7;

    pub const X_3_WIDTH: usize = 7;

    pub const Y_3_WIDTH: usize = 7;

    pub const Z_3_WIDTH: usize = 7;

    pub const X_4_WIDTH: usize = 7;

    pub const Y_4_WIDTH: usize = 7;

    pub const Z_4_WIDTH: usize = 7;

    pub const X_1_START: usize = 0;

    pub const Y_1_START: usize = Self::X_1_START + Self::X_1_WIDTH;

    pub const Z_1_START: usize = Self::Y_1_START + Self::Y_1_WIDTH;

    pub const X_2_START: usize = Self::Z_1_START + Self::Z_1_WIDTH;

    pub const Y_2_START: usize = Self::X_2_START + Self::X_2_WIDTH;

    pub const Z_2_START: usize = Self::Y_2_START + Self::Y_2_WIDTH;

    pub const X_3_START: usize = Self::Z_2_START + Self::Z_2_WIDTH;

    pub const Y_3_START: usize = Self::X_3_START + Self::X_3_WIDTH;

    pub const Z_3_START: usize = Self::Y_3_START + Self::Y_3_WIDTH;

    pub const X_4_START: usize = Self::Z_3_START + Self::Z_3_WIDTH;

    pub const Y_4_START: usize = Self::X_4_START + Self::X_4_WIDTH;

    pub const Z_4_START: usize = Self::Y_4_START + Self::Y_4_WIDTH;

    pub const END: usize = Self::Z_4_START + Self::Z_4_WIDTH;
}

impl Layout for DataNet {
    ghost columns = { data_net };

    ghost lie = { lie_data_net };

    fn end() -> usize {
        Self::END
    }

    #[tactic(auto, unfolding(crate::specs::Tables::spans_of, format::specs::Layout::data_net))]
    fn spans() -> &'static [Span] {
        &[
            Span(Self::X_1_START, Self::X_1_WIDTH),
            Span(Self::Y_1_START, Self::Y_1_WIDTH),
            Span(Self::Z_1_START, Self::Z_1_WIDTH),
            Span(Self::X_2_START, Self::X_2_WIDTH),
            Span(Self::Y_2_START, Self::Y_2_WIDTH),
            Span(Self::Z_2_START, Self::Z_2_WIDTH),
            Span(Self::X_3_START, Self::X_3_WIDTH),
            Span(Self::Y_3_START, Self::Y_3_WIDTH),
            Span(Self::Z_3_START, Self::Z_3_WIDTH),
            Span(Self::X_4_START, Self::X_4_WIDTH),
            Span(Self::Y_4_START, Self::Y_4_WIDTH),
            Span(Self::Z_4_START, Self::Z_4_WIDTH),
        ]
    }

    fn table() -> &'static [TableColumn] {
        &[
            column!(Self::X_1_START, Self::X_1_WIDTH => Integer, -999999, 9999999),
            column!(Self::Y_1_START, Self::Y_1_WIDTH => Integer, -999999, 9999999),
            column!(Self::Z_1_START, Self::Z_1_WIDTH => Integer, -999999, 9999999),
            column!(Self::X_2_START, Self::X_2_WIDTH => Integer, -999999, 9999999),
            column!(Self::Y_2_START, Self::Y_2_WIDTH => Integer, -999999, 9999999),
            column!(Self::Z_2_START, Self::Z_2_WIDTH => Integer, -999999, 9999999),
            column!(Self::X_3_START, Self::X_3_WIDTH => Integer, -999999, 9999999),
            column!(Self::Y_3_START, Self::Y_3_WIDTH => Integer, -999999, 9999999),
            column!(Self::Z_3_START, Self::Z_3_WIDTH => Integer, -999999, 9999999),
            column!(Self::X_4_START, Self::X_4_WIDTH => Integer, -999999, 9999999),
            column!(Self::Y_4_START, Self::Y_4_WIDTH => Integer, -999999, 9999999),
            column!(Self::Z_4_START, Self::Z_4_WIDTH => Integer, -999999, 9999999),
        ]
    }
}
