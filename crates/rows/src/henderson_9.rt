// METHOD 2.5 and 2.6: Henderson's 9 terms over 2,431, between Musgrave's four rows for the start and four for the end, in millionths.

use crate::{ENDS_HENDERSON, StoredTable};

pub const HENDERSON_9: StoredTable = StoredTable {
    side: 4,
    row_step: 1,
    step: 1,
    width: 9,
    rows: &[
        // none before
        579723, 424292, 185356, -33835, -155536, 0, 0, 0, 0,
        // one before
        297863, 354447, 281868, 125783, -10556, -49405, 0, 0, 0,
        // two before
        85905, 242438, 315465, 259329, 119687, -209, -22615, 0, 0,
        // three before
        -29954, 102671, 255042, 323907, 263608, 119804, -4255, -30823, 0,
        // the middle row
        -99, -24, 288, 648, 805, 648, 288, -24, -99,
        // three after
        -30823, -4255, 119804, 263608, 323907, 255042, 102671, -29954, 0,
        // two after
        -22615, -209, 119687, 259329, 315465, 242438, 85905, 0, 0,
        // one after
        -49405, -10556, 125783, 281868, 354447, 297863, 0, 0, 0,
        // none after
        -155536, -33835, 185356, 424292, 579723, 0, 0, 0, 0,
    ],
    middle: 2431,
    ends: ENDS_HENDERSON,
};
