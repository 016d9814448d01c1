// The tables of the layouts' columns, one row to a column, in the order of the record.

// A column: a letter for what may stand in it, its start and its width in bytes, the least and the greatest number that it may hold, and its name.
//
// The letters: A text, X blank (neither is judged), I an integer, L an integer of a list, whose ends are the least and the greatest, S an integer
// or spaces alone. Text and blanks have 0 for both numbers; a blank has no name.
// Kept: a letter and no enum, since `Described`, which the C interface hands on, has the letter.
#[derive(Clone, Copy, PartialEq, Eq, Debug)]
pub struct Row(
    pub u8,
    pub usize,
    pub usize,
    pub i64,
    pub i64,
    pub &'static [u8],
);

// Index a.
pub const INDEX_A: [Row; 13] = [
    Row(b'A', 0, 2, 0, 0, b"type"),
    Row(b'I', 2, 2, 1, 19, b"system"),
    Row(b'A', 4, 30, 0, 0, b"planning agency"),
    Row(b'I', 34, 3, 0, 999, b"sheets"),
    Row(b'I', 37, 2, 0, 99, b"b records"),
    Row(b'I', 39, 4, 0, 9999, b"c records"),
    Row(b'I', 43, 1, 0, 1, b"shift flag"),
    Row(b'I', 44, 1, 0, 1, b"break flag"),
    Row(b'I', 45, 4, 0, 9999, b"year"),
    Row(b'A', 49, 30, 0, 0, b"regulation"),
    Row(b'I', 79, 1, 1, 1, b"version"),
    Row(b'I', 80, 1, 0, 9, b"blank use"),
    Row(b'X', 81, 3, 0, 0, b""),
];

// Index b.
pub const INDEX_B: [Row; 11] = [
    Row(b'A', 0, 8, 0, 0, b"sheet 1"),
    Row(b'A', 8, 8, 0, 0, b"sheet 2"),
    Row(b'A', 16, 8, 0, 0, b"sheet 3"),
    Row(b'A', 24, 8, 0, 0, b"sheet 4"),
    Row(b'A', 32, 8, 0, 0, b"sheet 5"),
    Row(b'A', 40, 8, 0, 0, b"sheet 6"),
    Row(b'A', 48, 8, 0, 0, b"sheet 7"),
    Row(b'A', 56, 8, 0, 0, b"sheet 8"),
    Row(b'A', 64, 8, 0, 0, b"sheet 9"),
    Row(b'A', 72, 8, 0, 0, b"sheet 10"),
    Row(b'X', 80, 4, 0, 0, b""),
];

// Index c.
pub const INDEX_C: [Row; 14] = [
    Row(b'I', 0, 4, 0, 9999, b"class used"),
    Row(b'I', 4, 4, 0, 9999, b"standard class"),
    Row(b'I', 8, 1, 0, 1, b"area used"),
    Row(b'I', 9, 1, 0, 1, b"line used"),
    Row(b'I', 10, 1, 0, 1, b"circle used"),
    Row(b'I', 11, 1, 0, 1, b"arc used"),
    Row(b'I', 12, 1, 0, 1, b"point used"),
    Row(b'I', 13, 1, 0, 1, b"direction used"),
    Row(b'I', 14, 1, 0, 1, b"note used"),
    Row(b'I', 15, 1, 0, 1, b"attribute used"),
    Row(b'I', 16, 1, 0, 1, b"grid and net used"),
    Row(b'I', 17, 1, 0, 1, b"direction"),
    Row(b'L', 18, 1, 0, 3, b"dimension"),
    Row(b'A', 19, 65, 0, 0, b"description"),
];

// Sheet a.
pub const SHEET_A: [Row; 9] = [
    Row(b'A', 0, 2, 0, 0, b"type"),
    Row(b'A', 2, 8, 0, 0, b"sheet"),
    Row(b'A', 10, 20, 0, 0, b"sheet name"),
    Row(b'L', 30, 5, 500, 10000, b"level"),
    Row(b'A', 35, 30, 0, 0, b"title"),
    Row(b'I', 65, 2, 0, 99, b"revisions"),
    Row(b'I', 67, 1, 1, 1, b"version"),
    Row(b'I', 68, 1, 0, 9, b"blank use"),
    Row(b'X', 69, 15, 0, 0, b""),
];

// Sheet b.
pub const SHEET_B: [Row; 13] = [
    Row(b'I', 0, 7, -999999, 9999999, b"lower left X"),
    Row(b'I', 7, 7, -999999, 9999999, b"lower left Y"),
    Row(b'I', 14, 7, -999999, 9999999, b"upper right X"),
    Row(b'I', 21, 7, -999999, 9999999, b"upper right Y"),
    Row(b'X', 28, 3, 0, 0, b""),
    Row(b'I', 31, 6, 0, 999999, b"element count"),
    Row(b'I', 37, 7, 0, 9999999, b"record count"),
    Row(b'I', 44, 3, 0, 999, b"unit"),
    Row(b'I', 47, 7, -999999, 9999999, b"upper left X"),
    Row(b'I', 54, 7, -999999, 9999999, b"upper left Y"),
    Row(b'I', 61, 7, -999999, 9999999, b"lower right X"),
    Row(b'I', 68, 7, -999999, 9999999, b"lower right Y"),
    Row(b'X', 75, 9, 0, 0, b""),
];

// Sheet c.
pub const SHEET_C: [Row; 9] = [
    Row(b'A', 0, 8, 0, 0, b"neighbour 1"),
    Row(b'A', 8, 8, 0, 0, b"neighbour 2"),
    Row(b'A', 16, 8, 0, 0, b"neighbour 3"),
    Row(b'A', 24, 8, 0, 0, b"neighbour 4"),
    Row(b'A', 32, 8, 0, 0, b"neighbour 5"),
    Row(b'A', 40, 8, 0, 0, b"neighbour 6"),
    Row(b'A', 48, 8, 0, 0, b"neighbour 7"),
    Row(b'A', 56, 8, 0, 0, b"neighbour 8"),
    Row(b'X', 64, 20, 0, 0, b""),
];

// Sheet d.
pub const SHEET_D: [Row; 10] = [
    Row(b'A', 0, 4, 0, 0, b"made"),
    Row(b'A', 4, 4, 0, 0, b"surveyed"),
    Row(b'I', 8, 1, 0, 9, b"courses"),
    Row(b'I', 9, 1, 0, 9, b"f records"),
    Row(b'A', 10, 30, 0, 0, b"device"),
    Row(b'A', 40, 30, 0, 0, b"approval"),
    Row(b'I', 70, 1, 0, 2, b"datum"),
    Row(b'L', 71, 1, 0, 9, b"first code"),
    Row(b'L', 72, 1, 0, 9, b"second code"),
    Row(b'X', 73, 11, 0, 0, b""),
];

// Sheet e.
pub const SHEET_E: [Row; 10] = [
    Row(b'A', 0, 40, 0, 0, b"surveying agency"),
    Row(b'I', 40, 4, -999, 9999, b"lower left X"),
    Row(b'I', 44, 4, -999, 9999, b"lower left Y"),
    Row(b'I', 48, 4, -999, 9999, b"upper right X"),
    Row(b'I', 52, 4, -999, 9999, b"upper right Y"),
    Row(b'I', 56, 4, -999, 9999, b"upper left X"),
    Row(b'I', 60, 4, -999, 9999, b"upper left Y"),
    Row(b'I', 64, 4, -999, 9999, b"lower right X"),
    Row(b'I', 68, 4, -999, 9999, b"lower right Y"),
    Row(b'X', 72, 12, 0, 0, b""),
];

// Sheet f.
pub const SHEET_F: [Row; 19] = [
    Row(b'A', 0, 4, 0, 0, b"course 1"),
    Row(b'A', 4, 4, 0, 0, b"flown 1"),
    Row(b'I', 8, 5, 0, 99999, b"scale 1"),
    Row(b'I', 13, 1, 0, 9, b"photographs 1"),
    Row(b'I', 14, 4, 0, 9999, b"first photograph 1"),
    Row(b'I', 18, 4, 0, 9999, b"last photograph 1"),
    Row(b'A', 22, 4, 0, 0, b"course 2"),
    Row(b'A', 26, 4, 0, 0, b"flown 2"),
    Row(b'I', 30, 5, 0, 99999, b"scale 2"),
    Row(b'I', 35, 1, 0, 9, b"photographs 2"),
    Row(b'I', 36, 4, 0, 9999, b"first photograph 2"),
    Row(b'I', 40, 4, 0, 9999, b"last photograph 2"),
    Row(b'A', 44, 4, 0, 0, b"course 3"),
    Row(b'A', 48, 4, 0, 0, b"flown 3"),
    Row(b'I', 52, 5, 0, 99999, b"scale 3"),
    Row(b'I', 57, 1, 0, 9, b"photographs 3"),
    Row(b'I', 58, 4, 0, 9999, b"first photograph 3"),
    Row(b'I', 62, 4, 0, 9999, b"last photograph 3"),
    Row(b'X', 66, 18, 0, 0, b""),
];

// Header.
pub const HEADER: [Row; 22] = [
    Row(b'A', 0, 2, 0, 0, b"type"),
    Row(b'I', 2, 4, 0, 9999, b"class"),
    Row(b'I', 6, 2, 0, 99, b"area code"),
    Row(b'I', 8, 4, 0, 9999, b"information"),
    Row(b'I', 12, 4, 0, 9999, b"number"),
    Row(b'I', 16, 2, 0, 99, b"level"),
    Row(b'I', 18, 5, 0, 99999, b"total"),
    Row(b'I', 23, 5, 0, 99999, b"groups"),
    Row(b'I', 28, 5, 0, 99999, b"area"),
    Row(b'I', 33, 5, 0, 99999, b"line"),
    Row(b'I', 38, 5, 0, 99999, b"circle"),
    Row(b'I', 43, 5, 0, 99999, b"arc"),
    Row(b'I', 48, 5, 0, 99999, b"point"),
    Row(b'I', 53, 5, 0, 99999, b"direction"),
    Row(b'I', 58, 5, 0, 99999, b"note"),
    Row(b'I', 63, 5, 0, 99999, b"attribute"),
    Row(b'I', 68, 1, 0, 9, b"grid and net"),
    Row(b'A', 69, 4, 0, 0, b"acquired"),
    Row(b'A', 73, 4, 0, 0, b"updated"),
    Row(b'A', 77, 4, 0, 0, b"deleted"),
    Row(b'I', 81, 2, 0, 99, b"method"),
    Row(b'X', 83, 1, 0, 0, b""),
];

// Element.
pub const ELEMENT: [Row; 24] = [
    Row(b'A', 0, 2, 0, 0, b"type"),
    Row(b'I', 2, 4, 0, 9999, b"class"),
    Row(b'I', 6, 2, 0, 99, b"area code"),
    Row(b'I', 8, 4, 0, 9999, b"information"),
    Row(b'I', 12, 4, 0, 9999, b"number"),
    Row(b'I', 16, 2, 0, 99, b"level"),
    Row(b'I', 18, 2, 0, 99, b"figure"),
    Row(b'I', 20, 1, 0, 6, b"data kind"),
    Row(b'I', 21, 2, 0, 99, b"accuracy"),
    Row(b'I', 23, 1, 0, 2, b"note kind"),
    Row(b'I', 24, 2, -9, 9, b"shift"),
    Row(b'I', 26, 1, 0, 9, b"break"),
    Row(b'I', 27, 4, 0, 9999, b"data count"),
    Row(b'I', 31, 4, 0, 9999, b"records"),
    Row(b'I', 35, 7, -999999, 9999999, b"X"),
    Row(b'I', 42, 7, -999999, 9999999, b"Y"),
    Row(b'S', 49, 7, -999999, 9999999, b"value"),
    Row(b'I', 56, 2, 0, 99, b"attribute class"),
    Row(b'A', 58, 7, 0, 0, b"attribute format"),
    Row(b'A', 65, 4, 0, 0, b"acquired"),
    Row(b'A', 69, 4, 0, 0, b"updated"),
    Row(b'A', 73, 4, 0, 0, b"deleted"),
    Row(b'X', 77, 6, 0, 0, b""),
    Row(b'I', 83, 1, 1, 9, b"repeat"),
];

// Grid header.
pub const GRID_HEADER: [Row; 20] = [
    Row(b'A', 0, 2, 0, 0, b"type"),
    Row(b'I', 2, 4, 0, 9999, b"class"),
    Row(b'I', 6, 2, 0, 99, b"area code"),
    Row(b'I', 8, 4, 0, 9999, b"information"),
    Row(b'I', 12, 4, 0, 9999, b"number"),
    Row(b'I', 16, 2, 0, 99, b"level"),
    Row(b'I', 18, 4, 1, 9999, b"rows"),
    Row(b'I', 22, 4, 1, 9999, b"columns"),
    Row(b'I', 26, 4, 0, 9999, b"records"),
    Row(b'I', 30, 7, 1, 9999999, b"cell rows"),
    Row(b'I', 37, 7, 1, 9999999, b"cell columns"),
    Row(b'I', 44, 7, -999999, 9999999, b"origin X"),
    Row(b'I', 51, 7, -999999, 9999999, b"origin Y"),
    Row(b'A', 58, 4, 0, 0, b"acquired"),
    Row(b'A', 62, 4, 0, 0, b"updated"),
    Row(b'A', 66, 4, 0, 0, b"deleted"),
    Row(b'I', 70, 2, 0, 99, b"figure"),
    Row(b'I', 72, 2, 0, 99, b"accuracy"),
    Row(b'X', 74, 9, 0, 0, b""),
    Row(b'I', 83, 1, 1, 9, b"repeat"),
];

// Net header.
pub const NET_HEADER: [Row; 14] = [
    Row(b'A', 0, 2, 0, 0, b"type"),
    Row(b'I', 2, 4, 0, 9999, b"class"),
    Row(b'I', 6, 2, 0, 99, b"area code"),
    Row(b'I', 8, 4, 0, 9999, b"information"),
    Row(b'I', 12, 4, 0, 9999, b"number"),
    Row(b'I', 16, 2, 0, 99, b"level"),
    Row(b'I', 18, 2, 0, 99, b"figure"),
    Row(b'I', 20, 6, 1, 999999, b"triangles"),
    Row(b'I', 26, 6, 0, 999999, b"records"),
    Row(b'A', 32, 4, 0, 0, b"acquired"),
    Row(b'A', 36, 4, 0, 0, b"updated"),
    Row(b'A', 40, 4, 0, 0, b"deleted"),
    Row(b'I', 44, 2, 0, 99, b"accuracy"),
    Row(b'X', 46, 38, 0, 0, b""),
];

// Data 3D, and data net.
pub const DATA_3D: [Row; 12] = [
    Row(b'I', 0, 7, -999999, 9999999, b"X 1"),
    Row(b'I', 7, 7, -999999, 9999999, b"Y 1"),
    Row(b'I', 14, 7, -999999, 9999999, b"Z 1"),
    Row(b'I', 21, 7, -999999, 9999999, b"X 2"),
    Row(b'I', 28, 7, -999999, 9999999, b"Y 2"),
    Row(b'I', 35, 7, -999999, 9999999, b"Z 2"),
    Row(b'I', 42, 7, -999999, 9999999, b"X 3"),
    Row(b'I', 49, 7, -999999, 9999999, b"Y 3"),
    Row(b'I', 56, 7, -999999, 9999999, b"Z 3"),
    Row(b'I', 63, 7, -999999, 9999999, b"X 4"),
    Row(b'I', 70, 7, -999999, 9999999, b"Y 4"),
    Row(b'I', 77, 7, -999999, 9999999, b"Z 4"),
];

// Data 2D.
pub const DATA_2D: [Row; 12] = [
    Row(b'I', 0, 7, -999999, 9999999, b"X 1"),
    Row(b'I', 7, 7, -999999, 9999999, b"Y 1"),
    Row(b'I', 14, 7, -999999, 9999999, b"X 2"),
    Row(b'I', 21, 7, -999999, 9999999, b"Y 2"),
    Row(b'I', 28, 7, -999999, 9999999, b"X 3"),
    Row(b'I', 35, 7, -999999, 9999999, b"Y 3"),
    Row(b'I', 42, 7, -999999, 9999999, b"X 4"),
    Row(b'I', 49, 7, -999999, 9999999, b"Y 4"),
    Row(b'I', 56, 7, -999999, 9999999, b"X 5"),
    Row(b'I', 63, 7, -999999, 9999999, b"Y 5"),
    Row(b'I', 70, 7, -999999, 9999999, b"X 6"),
    Row(b'I', 77, 7, -999999, 9999999, b"Y 6"),
];

// Data note.
pub const DATA_NOTE: [Row; 6] = [
    Row(b'I', 0, 1, 0, 1, b"writing direction"),
    Row(b'I', 1, 7, -999999, 9999999, b"direction"),
    Row(b'I', 8, 5, 0, 99999, b"letter size"),
    Row(b'I', 13, 5, 0, 99999, b"letter spacing"),
    Row(b'I', 18, 2, 0, 99, b"line weight"),
    Row(b'A', 20, 64, 0, 0, b"text"),
];

// Data attribute.
pub const DATA_ATTRIBUTE: [Row; 1] = [Row(b'A', 0, 84, 0, 0, b"free")];

// Data grid.
pub const DATA_GRID: [Row; 12] = [
    Row(b'I', 0, 7, -999999, 9999999, b"height 1"),
    Row(b'I', 7, 7, -999999, 9999999, b"height 2"),
    Row(b'I', 14, 7, -999999, 9999999, b"height 3"),
    Row(b'I', 21, 7, -999999, 9999999, b"height 4"),
    Row(b'I', 28, 7, -999999, 9999999, b"height 5"),
    Row(b'I', 35, 7, -999999, 9999999, b"height 6"),
    Row(b'I', 42, 7, -999999, 9999999, b"height 7"),
    Row(b'I', 49, 7, -999999, 9999999, b"height 8"),
    Row(b'I', 56, 7, -999999, 9999999, b"height 9"),
    Row(b'I', 63, 7, -999999, 9999999, b"height 10"),
    Row(b'I', 70, 7, -999999, 9999999, b"height 11"),
    Row(b'I', 77, 7, -999999, 9999999, b"height 12"),
];
