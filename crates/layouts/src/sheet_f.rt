ghost use Rattle.format.specs.Layout.{sheet_f};
ghost use Rattle.layouts.specs.Lies.{lie_sheet_f};

use super::{Form, Layout, Span, TableColumn, column};

// Sheet f: three times (A4, A4, I5, I1, I4, I4), 18X.
#[derive(Clone, Copy)]
pub struct SheetF {}

impl SheetF {
    pub const COURSE_1_WIDTH: usize = 4;

    pub const FLOWN_1_WIDTH: usize = 4;

    pub const SCALE_1_WIDTH: usize = 5;

    pub const PHOTOGRAPHS_1_WIDTH: usize = 1;

    pub const FIRST_PHOTOGRAPH_1_WIDTH: usize = 4;

    pub const LAST_PHOTOGRAPH_1_WIDTH: usize = 4;

    pub const COURSE_2_WIDTH: usize = 4;

    pub const FLOWN_2_WIDTH: usize = 4;

    pub const SCALE_2_WIDTH: usize = 5;

    pub const PHOTOGRAPHS_2_WIDTH: usize = 1;

    pub const FIRST_PHOTOGRAPH_2_WIDTH: usize = 4;

    pub const LAST_PHOTOGRAPH_2_WIDTH: usize = 4;

    pub const COURSE_3_WIDTH: usize = 4;

    pub const FLOWN_3_WIDTH: usize = 4;

    pub const SCALE_3_WIDTH: usize = 5;

    pub const PHOTOGRAPHS_3_WIDTH: usize = 1;

    pub const FIRST_PHOTOGRAPH_3_WIDTH: usize = 4;

    pub const LAST_PHOTOGRAPH_3_WIDTH: usize = 4;

    pub const BLANK_WIDTH: usize = 18;

    pub const COURSE_1_START: usize = 0;

    pub const FLOWN_1_START: usize = Self::COURSE_1_START + Self::COURSE_1_WIDTH;

    pub const SCALE_1_START: usize = Self::FLOWN_1_START + Self::FLOWN_1_WIDTH;

    pub const PHOTOGRAPHS_1_START: usize = Self::SCALE_1_START + Self::SCALE_1_WIDTH;

    pub const FIRST_PHOTOGRAPH_1_START: usize = Self::PHOTOGRAPHS_1_START
        + Self::PHOTOGRAPHS_1_WIDTH;

    pub const LAST_PHOTOGRAPH_1_START: usize = Self::FIRST_PHOTOGRAPH_1_START
        + Self::FIRST_PHOTOGRAPH_1_WIDTH;

    pub const COURSE_2_START: usize = Self::LAST_PHOTOGRAPH_1_START + Self::LAST_PHOTOGRAPH_1_WIDTH;

    pub const FLOWN_2_START: usize = Self::COURSE_2_START + Self::COURSE_2_WIDTH;

    pub const SCALE_2_START: usize = Self::FLOWN_2_START + Self::FLOWN_2_WIDTH;

    pub const PHOTOGRAPHS_2_START: usize = Self::SCALE_2_START + Self::SCALE_2_WIDTH;

    pub const FIRST_PHOTOGRAPH_2_START: usize = Self::PHOTOGRAPHS_2_START
        + Self::PHOTOGRAPHS_2_WIDTH;

    pub const LAST_PHOTOGRAPH_2_START: usize = Self::FIRST_PHOTOGRAPH_2_START
        + Self::FIRST_PHOTOGRAPH_2_WIDTH;

    pub const COURSE_3_START: usize = Self::LAST_PHOTOGRAPH_2_START + Self::LAST_PHOTOGRAPH_2_WIDTH;

    pub const FLOWN_3_START: usize = Self::COURSE_3_START + Self::COURSE_3_WIDTH;

    pub const SCALE_3_START: usize = Self::FLOWN_3_START + Self::FLOWN_3_WIDTH;

    pub const PHOTOGRAPHS_3_START: usize = Self::SCALE_3_START + Self::SCALE_3_WIDTH;

    pub const FIRST_PHOTOGRAPH_3_START: usize = Self::PHOTOGRAPHS_3_START
        + Self::PHOTOGRAPHS_3_WIDTH;

    pub const LAST_PHOTOGRAPH_3_START: usize = Self::FIRST_PHOTOGRAPH_3_START
        + Self::FIRST_PHOTOGRAPH_3_WIDTH;

    pub const BLANK_START: usize = Self::LAST_PHOTOGRAPH_3_START + Self::LAST_PHOTOGRAPH_3_WIDTH;

    pub const END: usize = Self::BLANK_START + Self::BLANK_WIDTH;
}

impl Layout for SheetF {
    ghost columns = { sheet_f };

    ghost lie = { lie_sheet_f };

    fn end() -> usize {
        Self::END
    }

    #[tactic(auto, unfolding(crate::specs::Tables::spans_of, format::specs::Layout::sheet_f))]
    fn spans() -> &'static [Span] {
        &[
            Span(Self::COURSE_1_START, Self::COURSE_1_WIDTH),
            Span(Self::FLOWN_1_START, Self::FLOWN_1_WIDTH),
            Span(Self::SCALE_1_START, Self::SCALE_1_WIDTH),
            Span(Self::PHOTOGRAPHS_1_START, Self::PHOTOGRAPHS_1_WIDTH),
            Span(
                Self::FIRST_PHOTOGRAPH_1_START,
                Self::FIRST_PHOTOGRAPH_1_WIDTH,
            ),
            Span(Self::LAST_PHOTOGRAPH_1_START, Self::LAST_PHOTOGRAPH_1_WIDTH),
            Span(Self::COURSE_2_START, Self::COURSE_2_WIDTH),
            Span(Self::FLOWN_2_START, Self::FLOWN_2_WIDTH),
            Span(Self::SCALE_2_START, Self::SCALE_2_WIDTH),
            Span(Self::PHOTOGRAPHS_2_START, Self::PHOTOGRAPHS_2_WIDTH),
            Span(
                Self::FIRST_PHOTOGRAPH_2_START,
                Self::FIRST_PHOTOGRAPH_2_WIDTH,
            ),
            Span(Self::LAST_PHOTOGRAPH_2_START, Self::LAST_PHOTOGRAPH_2_WIDTH),
            Span(Self::COURSE_3_START, Self::COURSE_3_WIDTH),
            Span(Self::FLOWN_3_START, Self::FLOWN_3_WIDTH),
            Span(Self::SCALE_3_START, Self::SCALE_3_WIDTH),
            Span(Self::PHOTOGRAPHS_3_START, Self::PHOTOGRAPHS_3_WIDTH),
            Span(
                Self::FIRST_PHOTOGRAPH_3_START,
                Self::FIRST_PHOTOGRAPH_3_WIDTH,
            ),
            Span(Self::LAST_PHOTOGRAPH_3_START, Self::LAST_PHOTOGRAPH_3_WIDTH),
            Span(Self::BLANK_START, Self::BLANK_WIDTH),
        ]
    }

    fn table() -> &'static [TableColumn] {
        &[
            column!(Self::SCALE_1_START, Self::SCALE_1_WIDTH => Integer, 0, 99999),
            column!(Self::PHOTOGRAPHS_1_START, Self::PHOTOGRAPHS_1_WIDTH => Integer, 0, 9),
            column!(Self::FIRST_PHOTOGRAPH_1_START, Self::FIRST_PHOTOGRAPH_1_WIDTH => Integer, 0, 9999),
            column!(Self::LAST_PHOTOGRAPH_1_START, Self::LAST_PHOTOGRAPH_1_WIDTH => Integer, 0, 9999),
            column!(Self::SCALE_2_START, Self::SCALE_2_WIDTH => Integer, 0, 99999),
            column!(Self::PHOTOGRAPHS_2_START, Self::PHOTOGRAPHS_2_WIDTH => Integer, 0, 9),
            column!(Self::FIRST_PHOTOGRAPH_2_START, Self::FIRST_PHOTOGRAPH_2_WIDTH => Integer, 0, 9999),
            column!(Self::LAST_PHOTOGRAPH_2_START, Self::LAST_PHOTOGRAPH_2_WIDTH => Integer, 0, 9999),
            column!(Self::SCALE_3_START, Self::SCALE_3_WIDTH => Integer, 0, 99999),
            column!(Self::PHOTOGRAPHS_3_START, Self::PHOTOGRAPHS_3_WIDTH => Integer, 0, 9),
            column!(Self::FIRST_PHOTOGRAPH_3_START, Self::FIRST_PHOTOGRAPH_3_WIDTH => Integer, 0, 9999),
            column!(Self::LAST_PHOTOGRAPH_3_START, Self::LAST_PHOTOGRAPH_3_WIDTH => Integer, 0, 9999),
            column!(Self::BLANK_START, Self::BLANK_WIDTH => Blank, 0, 0),
        ]
    }
}
