// METHOD 2.8: the stored rows of 3x9, oldest value first: the full row in 27ths, the others over 748,440. Six rows each for none, one, .. five values
// before: for five, four, .. none after. The shorter rows are filled up with zeros.

use crate::StoredTable;

pub const THREE_BY_NINE: StoredTable = StoredTable {
    side: 5,
    row_step: 6,
    step: refusals::MONTHS_OF_YEAR,
    width: 11,
    rows: &[
        // none before, five after
        138600, 138600, 138600, 138600, 110880, 83160, 0, 0, 0, 0, 0,
        // none before, four after
        155232, 155232, 155232, 155232, 127512, 0, 0, 0, 0, 0, 0,
        // none before, three after
        187110, 187110, 187110, 187110, 0, 0, 0, 0, 0, 0, 0,
        // none before, two after
        249480, 249480, 249480, 0, 0, 0, 0, 0, 0, 0, 0,
        // none before, one after
        374220, 374220, 0, 0, 0, 0, 0, 0, 0, 0, 0,
        // none before, none after
        748440, 0, 0, 0, 0, 0, 0, 0, 0, 0, 0,
        // one before, five after
        118800, 118800, 118800, 118800, 118800, 91080, 63360, 0, 0, 0, 0,
        // one before, four after
        129360, 129360, 129360, 129360, 129360, 101640, 0, 0, 0, 0, 0,
        // one before, three after
        149688, 149688, 149688, 149688, 149688, 0, 0, 0, 0, 0, 0,
        // one before, two after
        187110, 187110, 187110, 187110, 0, 0, 0, 0, 0, 0, 0,
        // one before, one after
        249480, 249480, 249480, 0, 0, 0, 0, 0, 0, 0, 0,
        // one before, none after
        374220, 374220, 0, 0, 0, 0, 0, 0, 0, 0, 0,
        // two before, five after
        103950, 103950, 103950, 103950, 103950, 103950, 76230, 48510, 0, 0, 0,
        // two before, four after
        110880, 110880, 110880, 110880, 110880, 110880, 83160, 0, 0, 0, 0,
        // two before, three after
        124740, 124740, 124740, 124740, 124740, 124740, 0, 0, 0, 0, 0,
        // two before, two after
        149688, 149688, 149688, 149688, 149688, 0, 0, 0, 0, 0, 0,
        // two before, one after
        187110, 187110, 187110, 187110, 0, 0, 0, 0, 0, 0, 0,
        // two before, none after
        249480, 249480, 249480, 0, 0, 0, 0, 0, 0, 0, 0,
        // three before, five after
        92400, 92400, 92400, 92400, 92400, 92400, 92400, 64680, 36960, 0, 0,
        // three before, four after
        97020, 97020, 97020, 97020, 97020, 97020, 97020, 69300, 0, 0, 0,
        // three before, three after
        106920, 106920, 106920, 106920, 106920, 106920, 106920, 0, 0, 0, 0,
        // three before, two after
        124740, 124740, 124740, 124740, 124740, 124740, 0, 0, 0, 0, 0,
        // three before, one after
        149688, 149688, 149688, 149688, 149688, 0, 0, 0, 0, 0, 0,
        // three before, none after
        187110, 187110, 187110, 187110, 0, 0, 0, 0, 0, 0, 0,
        // four before, five after
        58212, 85932, 85932, 85932, 85932, 85932, 85932, 85932, 58212, 30492, 0,
        // four before, four after
        61600, 89320, 89320, 89320, 89320, 89320, 89320, 89320, 61600, 0, 0,
        // four before, three after
        69300, 97020, 97020, 97020, 97020, 97020, 97020, 97020, 0, 0, 0,
        // four before, two after
        83160, 110880, 110880, 110880, 110880, 110880, 110880, 0, 0, 0, 0,
        // four before, one after
        101640, 129360, 129360, 129360, 129360, 129360, 0, 0, 0, 0, 0,
        // four before, none after
        127512, 155232, 155232, 155232, 155232, 0, 0, 0, 0, 0, 0,
        // five before, five after
        1, 2, 3, 3, 3, 3, 3, 3, 3, 2, 1,
        // five before, four after
        30492, 58212, 85932, 85932, 85932, 85932, 85932, 85932, 85932, 58212, 0,
        // five before, three after
        36960, 64680, 92400, 92400, 92400, 92400, 92400, 92400, 92400, 0, 0,
        // five before, two after
        48510, 76230, 103950, 103950, 103950, 103950, 103950, 103950, 0, 0, 0,
        // five before, one after
        63360, 91080, 118800, 118800, 118800, 118800, 118800, 0, 0, 0, 0,
        // five before, none after
        83160, 110880, 138600, 138600, 138600, 138600, 0, 0, 0, 0, 0,
    ],
    middle: 27,
    ends: 748440,
};
