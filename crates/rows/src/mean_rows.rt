// METHOD 2.2 to 2.4: the tables of 2x12, 3x3 and 3x5 as they are stored, oldest value first: the rows for the start of a run, the middle row, the rows
// for its end. The shorter rows are filled up with zeros. 2x12 has its middle row alone.

use crate::StoredTable;

// 2x12, in 24ths.
pub const TWO_BY_TWELVE: StoredTable = StoredTable {
    side: 6,
    row_step: 1,
    step: 1,
    width: 0,
    rows: &[1, 2, 2, 2, 2, 2, 2, 2, 2, 2, 2, 2, 1],
    middle: 24,
    ends: 24,
};

// 3x3, in 27ths.
pub const THREE_BY_THREE: StoredTable = StoredTable {
    side: 2,
    row_step: 1,
    step: refusals::MONTHS_OF_YEAR,
    width: 5,
    rows: &[
        // none before
        11, 11, 5, 0, 0,
        // one before
        7, 10, 7, 3, 0,
        // the middle row
        3, 6, 9, 6, 3,
        // one after
        3, 7, 10, 7, 0,
        // none after
        5, 11, 11, 0, 0,
    ],
    middle: 27,
    ends: 27,
};

// 3x5, in 60ths.
pub const THREE_BY_FIVE: StoredTable = StoredTable {
    side: 3,
    row_step: 1,
    step: refusals::MONTHS_OF_YEAR,
    width: 7,
    rows: &[
        // none before
        17, 17, 17, 9, 0, 0, 0,
        // one before
        15, 15, 15, 11, 4, 0, 0,
        // two before
        9, 13, 13, 13, 8, 4, 0,
        // the middle row
        4, 8, 12, 12, 12, 8, 4,
        // two after
        4, 8, 13, 13, 13, 9, 0,
        // one after
        4, 11, 15, 15, 15, 0, 0,
        // none after
        9, 17, 17, 17, 0, 0, 0,
    ],
    middle: 60,
    ends: 60,
};
