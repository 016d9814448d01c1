ghost use Rattle.format.specs.Layout.{net_header};
ghost use Rattle.layouts.specs.Lies.{lie_net_header};

use super::{Form, Layout, Span, TableColumn, column};

// Net header: A2 "T ", I4, I2, I4, I4, level I2, I2, triangles I6 (at least 1), records I6, A4, A4, A4, I2, 38X.
#[derive(Clone, Copy)]
pub struct NetHeader {}

impl NetHeader {
    pub const TYPE_WIDTH: usize = 2;

    pub const CLASS_WIDTH: usize = 4;

    pub const AREA_CODE_WIDTH: usize = 2;

    pub const INFORMATION_WIDTH: usize = 4;

    pub const NUMBER_WIDTH: usize = 4;

    pub const LEVEL_WIDTH: usize = 2;

    pub const FIGURE_WIDTH: usize = 2;

    pub const TRIANGLES_WIDTH: usize = 6;

    pub const RECORDS_WIDTH: usize = 6;

    pub const ACQUIRED_WIDTH: usize = 4;

    pub const UPDATED_WIDTH: usize = 4;

    pub const DELETED_WIDTH: usize = 4;

    pub const ACCURACY_WIDTH: usize = 2;

    pub const BLANK_WIDTH: usize = 38;

    pub const TYPE_START: usize = 0;

    pub const CLASS_START: usize = Self::TYPE_START + Self::TYPE_WIDTH;

    pub const AREA_CODE_START: usize = Self::CLASS_START + Self::CLASS_WIDTH;

    pub const INFORMATION_START: usize = Self::AREA_CODE_START + Self::AREA_CODE_WIDTH;

    pub const NUMBER_START: usize = Self::INFORMATION_START + Self::INFORMATION_WIDTH;

    pub const LEVEL_START: usize = Self::NUMBER_START + Self::NUMBER_WIDTH;

    pub const FIGURE_START: usize = Self::LEVEL_START + Self::LEVEL_WIDTH;

    pub const TRIANGLES_START: usize = Self::FIGURE_START + Self::FIGURE_WIDTH;

    pub const RECORDS_START: usize = Self::TRIANGLES_START + Self::TRIANGLES_WIDTH;

    pub const ACQUIRED_START: usize = Self::RECORDS_START + Self::RECORDS_WIDTH;

    pub const UPDATED_START: usize = Self::ACQUIRED_START + Self::ACQUIRED_WIDTH;

    pub const DELETED_START: usize = Self::UPDATED_START + Self::UPDATED_WIDTH;

    pub const ACCURACY_START: usize = Self::DELETED_START + Self::DELETED_WIDTH;

    pub const BLANK_START: usize = Self::ACCURACY_START + Self::ACCURACY_WIDTH;

    pub const END: usize = Self::BLANK_START + Self::BLANK_WIDTH;
}

impl Layout for NetHeader {
    ghost columns = { net_header };

    ghost lie = { lie_net_header };

    fn end() -> usize {
        Self::END
    }

    #[tactic(auto, unfolding(crate::specs::Tables::spans_of, format::specs::Layout::net_header))]
    fn spans() -> &'static [Span] {
        &[
            Span(Self::TYPE_START, Self::TYPE_WIDTH),
            Span(Self::CLASS_START, Self::CLASS_WIDTH),
            Span(Self::AREA_CODE_START, Self::AREA_CODE_WIDTH),
            Span(Self::INFORMATION_START, Self::INFORMATION_WIDTH),
            Span(Self::NUMBER_START, Self::NUMBER_WIDTH),
            Span(Self::LEVEL_START, Self::LEVEL_WIDTH),
            Span(Self::FIGURE_START, Self::FIGURE_WIDTH),
            Span(Self::TRIANGLES_START, Self::TRIANGLES_WIDTH),
            Span(Self::RECORDS_START, Self::RECORDS_WIDTH),
            Span(Self::ACQUIRED_START, Self::ACQUIRED_WIDTH),
            Span(Self::UPDATED_START, Self::UPDATED_WIDTH),
            Span(Self::DELETED_START, Self::DELETED_WIDTH),
            Span(Self::ACCURACY_START, Self::ACCURACY_WIDTH),
            Span(Self::BLANK_START, Self::BLANK_WIDTH),
        ]
    }

    fn table() -> &'static [TableColumn] {
        &[
            column!(Self::CLASS_START, Self::CLASS_WIDTH => Integer, 0, 9999),
            column!(Self::AREA_CODE_START, Self::AREA_CODE_WIDTH => Integer, 0, 99),
            column!(Self::INFORMATION_START, Self::INFORMATION_WIDTH => Integer, 0, 9999),
            column!(Self::NUMBER_START, Self::NUMBER_WIDTH => Integer, 0, 9999),
            column!(Self::LEVEL_START, Self::LEVEL_WIDTH => Integer, 0, 99),
            column!(Self::FIGURE_START, Self::FIGURE_WIDTH => Integer, 0, 99),
            column!(Self::TRIANGLES_START, Self::TRIANGLES_WIDTH => Integer, 1, 999999),
            column!(Self::RECORDS_START, Self::RECORDS_WIDTH => Integer, 0, 999999),
            column!(Self::ACCURACY_START, Self::ACCURACY_WIDTH => Integer, 0, 99),
            column!(Self::BLANK_START, Self::BLANK_WIDTH => Blank, 0, 0),
        ]
    }
}
