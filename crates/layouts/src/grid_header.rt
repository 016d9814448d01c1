ghost use Rattle.format.specs.Layout.{grid_header};
ghost use Rattle.layouts.specs.Lies.{lie_grid_header};

use super::{Form, Layout, Span, TableColumn, column};

// Grid header: A2 "G ", I4, I2, I4, I4, level I2, rows I4, columns I4 (both at least 1), records I4, cell sizes I7, I7
// (at least 1), origin I7, I7 (any sign), A4, A4, A4, I2, I2, 9X, repeat I1 (1..9).
#[derive(Clone, Copy)]
pub struct GridHeader {}

impl GridHeader {
    pub const TYPE_WIDTH: usize = 2;

    pub const CLASS_WIDTH: usize = 4;

    pub const AREA_CODE_WIDTH: usize = 2;

    pub const INFORMATION_WIDTH: usize = 4;

    pub const NUMBER_WIDTH: usize = 4;

    pub const LEVEL_WIDTH: usize = 2;

    pub const ROWS_WIDTH: usize = 4;

    pub const COLUMNS_WIDTH: usize = 4;

    pub const RECORDS_WIDTH: usize = 4;

    pub const CELL_ROWS_WIDTH: usize = 7;

    pub const CELL_COLUMNS_WIDTH: usize = 7;

    pub const ORIGIN_X_WIDTH: usize = 7;

    pub const ORIGIN_Y_WIDTH: usize = 7;

    pub const ACQUIRED_WIDTH: usize = 4;

    pub const UPDATED_WIDTH: usize = 4;

    pub const DELETED_WIDTH: usize = 4;

    pub const FIGURE_WIDTH: usize = 2;

    pub const ACCURACY_WIDTH: usize = 2;

    pub const BLANK_WIDTH: usize = 9;

    pub const REPEAT_WIDTH: usize = 1;

    pub const TYPE_START: usize = 0;

    pub const CLASS_START: usize = Self::TYPE_START + Self::TYPE_WIDTH;

    pub const AREA_CODE_START: usize = Self::CLASS_START + Self::CLASS_WIDTH;

    pub const INFORMATION_START: usize = Self::AREA_CODE_START + Self::AREA_CODE_WIDTH;

    pub const NUMBER_START: usize = Self::INFORMATION_START + Self::INFORMATION_WIDTH;

    pub const LEVEL_START: usize = Self::NUMBER_START + Self::NUMBER_WIDTH;

    pub const ROWS_START: usize = Self::LEVEL_START + Self::LEVEL_WIDTH;

    pub const COLUMNS_START: usize = Self::ROWS_START + Self::ROWS_WIDTH;

    pub const RECORDS_START: usize = Self::COLUMNS_START + Self::COLUMNS_WIDTH;

    pub const CELL_ROWS_START: usize = Self::RECORDS_START + Self::RECORDS_WIDTH;

    pub const CELL_COLUMNS_START: usize = Self::CELL_ROWS_START + Self::CELL_ROWS_WIDTH;

    pub const ORIGIN_X_START: usize = Self::CELL_COLUMNS_START + Self::CELL_COLUMNS_WIDTH;

    pub const ORIGIN_Y_START: usize = Self::ORIGIN_X_START + Self::ORIGIN_X_WIDTH;

    pub const ACQUIRED_START: usize = Self::ORIGIN_Y_START + Self::ORIGIN_Y_WIDTH;

    pub const UPDATED_START: usize = Self::ACQUIRED_START + Self::ACQUIRED_WIDTH;

    pub const DELETED_START: usize = Self::UPDATED_START + Self::UPDATED_WIDTH;

    pub const FIGURE_START: usize = Self::DELETED_START + Self::DELETED_WIDTH;

    pub const ACCURACY_START: usize = Self::FIGURE_START + Self::FIGURE_WIDTH;

    pub const BLANK_START: usize = Self::ACCURACY_START + Self::ACCURACY_WIDTH;

    pub const REPEAT_START: usize = Self::BLANK_START + Self::BLANK_WIDTH;

    pub const END: usize = Self::REPEAT_START + Self::REPEAT_WIDTH;
}

impl Layout for GridHeader {
    ghost columns = { grid_header };

    ghost lie = { lie_grid_header };

    fn end() -> usize {
        Self::END
    }

    #[tactic(auto, unfolding(crate::specs::Tables::spans_of, format::specs::Layout::grid_header))]
    fn spans() -> &'static [Span] {
        &[
            Span(Self::TYPE_START, Self::TYPE_WIDTH),
            Span(Self::CLASS_START, Self::CLASS_WIDTH),
            Span(Self::AREA_CODE_START, Self::AREA_CODE_WIDTH),
            Span(Self::INFORMATION_START, Self::INFORMATION_WIDTH),
            Span(Self::NUMBER_START, Self::NUMBER_WIDTH),
            Span(Self::LEVEL_START, Self::LEVEL_WIDTH),
            Span(Self::ROWS_START, Self::ROWS_WIDTH),
            Span(Self::COLUMNS_START, Self::COLUMNS_WIDTH),
            Span(Self::RECORDS_START, Self::RECORDS_WIDTH),
            Span(Self::CELL_ROWS_START, Self::CELL_ROWS_WIDTH),
            Span(Self::CELL_COLUMNS_START, Self::CELL_COLUMNS_WIDTH),
            Span(Self::ORIGIN_X_START, Self::ORIGIN_X_WIDTH),
            Span(Self::ORIGIN_Y_START, Self::ORIGIN_Y_WIDTH),
            Span(Self::ACQUIRED_START, Self::ACQUIRED_WIDTH),
            Span(Self::UPDATED_START, Self::UPDATED_WIDTH),
            Span(Self::DELETED_START, Self::DELETED_WIDTH),
            Span(Self::FIGURE_START, Self::FIGURE_WIDTH),
            Span(Self::ACCURACY_START, Self::ACCURACY_WIDTH),
            Span(Self::BLANK_START, Self::BLANK_WIDTH),
            Span(Self::REPEAT_START, Self::REPEAT_WIDTH),
        ]
    }

    fn table() -> &'static [TableColumn] {
        &[
            column!(Self::CLASS_START, Self::CLASS_WIDTH => Integer, 0, 9999),
            column!(Self::AREA_CODE_START, Self::AREA_CODE_WIDTH => Integer, 0, 99),
            column!(Self::INFORMATION_START, Self::INFORMATION_WIDTH => Integer, 0, 9999),
            column!(Self::NUMBER_START, Self::NUMBER_WIDTH => Integer, 0, 9999),
            column!(Self::LEVEL_START, Self::LEVEL_WIDTH => Integer, 0, 99),
            column!(Self::ROWS_START, Self::ROWS_WIDTH => Integer, 1, 9999),
            column!(Self::COLUMNS_START, Self::COLUMNS_WIDTH => Integer, 1, 9999),
            column!(Self::RECORDS_START, Self::RECORDS_WIDTH => Integer, 0, 9999),
            column!(Self::CELL_ROWS_START, Self::CELL_ROWS_WIDTH => Integer, 1, 9999999),
            column!(Self::CELL_COLUMNS_START, Self::CELL_COLUMNS_WIDTH => Integer, 1, 9999999),
            column!(Self::ORIGIN_X_START, Self::ORIGIN_X_WIDTH => Integer, -999999, 9999999),
            column!(Self::ORIGIN_Y_START, Self::ORIGIN_Y_WIDTH => Integer, -999999, 9999999),
            column!(Self::FIGURE_START, Self::FIGURE_WIDTH => Integer, 0, 99),
            column!(Self::ACCURACY_START, Self::ACCURACY_WIDTH => Integer, 0, 99),
            column!(Self::BLANK_START, Self::BLANK_WIDTH => Blank, 0, 0),
            column!(Self::REPEAT_START, Self::REPEAT_WIDTH => Integer, 1, 9),
        ]
    }
}
