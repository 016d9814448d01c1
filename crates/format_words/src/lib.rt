// What a program may show of the format: the words of a refusal, the columns of a layout. The meaning stands in specs/Words.antt.
#![tactic(auto)]

// A column of a layout: start and width, in bytes, the letter for what may stand in it, and the least and the greatest number that it may hold.
#[derive(Clone, Copy, PartialEq, Eq, Debug)]
pub struct Described {
    pub start: usize,
    pub width: usize,
    pub letter: u8,
    pub least: i64,
    pub greatest: i64,
}
