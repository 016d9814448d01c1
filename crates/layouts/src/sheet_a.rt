ghost use Rattle.format.specs.Layout.{sheet_a};
ghost use Rattle.layouts.specs.Lies.{lie_sheet_a};

use super::{Form, Layout, Span, TableColumn, column};

// Sheet a: A2 "M ", A8, A20, level I5, A30, revisions I2, version I1 (1), blank use I1, 15X.
#[derive(Clone, Copy)]
pub struct SheetA {}

impl SheetA {
    pub const TYPE_WIDTH: usize = 2;

    pub const SHEET_WIDTH: usize = 8;

    pub const SHEET_NAME_WIDTH: usize = 20;

    pub const LEVEL_WIDTH: usize = 5;

    pub const TITLE_WIDTH: usize = 30;

    pub const REVISIONS_WIDTH: usize = 2;

    pub const VERSION_WIDTH: usize = 1;

    pub const BLANK_USE_WIDTH: usize = 1;

    pub const BLANK_WIDTH: usize = 15;

    pub const TYPE_START: usize = 0;

    pub const SHEET_START: usize = Self::TYPE_START + Self::TYPE_WIDTH;

    pub const SHEET_NAME_START: usize = Self::SHEET_START + Self::SHEET_WIDTH;

    pub const LEVEL_START: usize = Self::SHEET_NAME_START + Self::SHEET_NAME_WIDTH;

    pub const TITLE_START: usize = Self::LEVEL_START + Self::LEVEL_WIDTH;

    pub const REVISIONS_START: usize = Self::TITLE_START + Self::TITLE_WIDTH;

    pub const VERSION_START: usize = Self::REVISIONS_START + Self::REVISIONS_WIDTH;

    pub const BLANK_USE_START: usize = Self::VERSION_START + Self::VERSION_WIDTH;

    pub const BLANK_START: usize = Self::BLANK_USE_START + Self::BLANK_USE_WIDTH;

    pub const END: usize = Self::BLANK_START + Self::BLANK_WIDTH;
}

impl Layout for SheetA {
    ghost columns = { sheet_a };

    ghost lie = { lie_sheet_a };

    fn end() -> usize {
        Self::END
    }

    #[tactic(auto, unfolding(crate::specs::Tables::spans_of, format::specs::Layout::sheet_a))]
    fn spans() -> &'static [Span] {
        &[
            Span(Self::TYPE_START, Self::TYPE_WIDTH),
            Span(Self::SHEET_START, Self::SHEET_WIDTH),
            Span(Self::SHEET_NAME_START, Self::SHEET_NAME_WIDTH),
            Span(Self::LEVEL_START, Self::LEVEL_WIDTH),
            Span(Self::TITLE_START, Self::TITLE_WIDTH),
            Span(Self::REVISIONS_START, Self::REVISIONS_WIDTH),
            Span(Self::VERSION_START, Self::VERSION_WIDTH),
            Span(Self::BLANK_USE_START, Self::BLANK_USE_WIDTH),
            Span(Self::BLANK_START, Self::BLANK_WIDTH),
        ]
    }

    fn table() -> &'static [TableColumn] {
        &[
            column!(Self::LEVEL_START, Self::LEVEL_WIDTH => Integer, 500, 10000),
            column!(Self::REVISIONS_START, Self::REVISIONS_WIDTH => Integer, 0, 99),
            column!(Self::VERSION_START, Self::VERSION_WIDTH => Integer, 1, 1),
            column!(Self::BLANK_USE_START, Self::BLANK_USE_WIDTH => Integer, 0, 9),
            column!(Self::BLANK_START, Self::BLANK_WIDTH => Blank, 0, 0),
        ]
    }
}
