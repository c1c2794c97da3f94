// A closed day whose transactions cross two grounds, one of them settled late, beside the serial run that it comes out as.

use crate::calls::{
    ABORTED, DONE, begin, commit, decide, play, prewrite, range, read, settle, validate, value,
};
use crate::fixtures::{K, Memory, R, V, W};
use image::Sparse;
use policy::Near;

// A cell of ground 0 and one of ground 1, before the day and after it.
const TWO_GROUNDS: [[u32; 4]; 2] = [[K, V + 7, W + 50, R], [K + 0x2000, V + 9, W, R + 80]];

const AFTERWARDS: [[u32; 4]; 2] = [
    [K, V + 0xFFFC, W + 82, R + 83],
    [K + 0x2000, V + 5, W + 81, R + 82],
];

// Transaction 1 is settled at ground 1 only after 2 and 3 have read the cell there that it writes. 3 would have to come before 1 at ground
// 1 and after it at ground 0, so it is aborted.
//
// At the end nothing is owed a settlement. The committed transactions by stamp are 2 at 1, 1 at 81, 4 at 82 and 5 at 83: the next test
// runs them one after another in this order, and they read the same and leave the same cells.
#[test]
fn a_day_across_two_grounds_settled_late(rt: HostRuntime) {
    let mut words = TWO_GROUNDS;
    let mut memory = Memory::<5, 8, 5, 3, 2>::blank();
    let mut register = memory.register(Sparse::new(words.as_flattened_mut()), Near);
    play(
        &rt,
        &mut register,
        &[
            (begin(1), DONE),
            (read(1, 0), value(7, 50)),
            (prewrite(1, 8192, 5), DONE),
            (validate(1, 0), range(51, 268_435_455)),
            (validate(1, 1), range(81, 268_435_455)),
            (decide(1), commit(81)),
            (settle(1, 0), DONE),
            (begin(2), DONE),
            (read(2, 8192), value(9, 0)),
            (validate(2, 1), range(1, 80)),
            (decide(2), commit(1)),
            (settle(2, 1), DONE),
            (begin(3), DONE),
            (read(3, 8192), value(9, 0)),
            (prewrite(3, 0, -3), DONE),
            (validate(3, 0), range(82, 268_435_455)),
            (validate(3, 1), range(1, 80)),
            (decide(3), ABORTED),
            (settle(1, 1), DONE),
            (settle(3, 0), DONE),
            (settle(3, 1), DONE),
            (begin(4), DONE),
            (read(4, 8192), value(5, 81)),
            (prewrite(4, 0, -4), DONE),
            (validate(4, 1), range(82, 268_435_455)),
            (validate(4, 0), range(82, 268_435_455)),
            (decide(4), commit(82)),
            (settle(4, 1), DONE),
            (settle(4, 0), DONE),
            (begin(5), DONE),
            (read(5, 0), value(-4, 82)),
            (validate(5, 0), range(83, 268_435_455)),
            (decide(5), commit(83)),
            (settle(5, 0), DONE),
        ],
    );
    assert_eq!(rt; words, AFTERWARDS);
}

// Here they are numbered in that order: 1, 2, 3 and 4.
#[test]
fn the_same_transactions_one_after_another(rt: HostRuntime) {
    let mut words = TWO_GROUNDS;
    let mut memory = Memory::<4, 6, 4, 2, 0>::blank();
    let mut register = memory.register(Sparse::new(words.as_flattened_mut()), Near);
    play(
        &rt,
        &mut register,
        &[
            (begin(1), DONE),
            (read(1, 8192), value(9, 0)),
            (validate(1, 1), range(1, 268_435_455)),
            (decide(1), commit(1)),
            (settle(1, 1), DONE),
            (begin(2), DONE),
            (read(2, 0), value(7, 50)),
            (prewrite(2, 8192, 5), DONE),
            (validate(2, 0), range(51, 268_435_455)),
            (validate(2, 1), range(81, 268_435_455)),
            (decide(2), commit(81)),
            (settle(2, 0), DONE),
            (settle(2, 1), DONE),
            (begin(3), DONE),
            (read(3, 8192), value(5, 81)),
            (prewrite(3, 0, -4), DONE),
            (validate(3, 0), range(82, 268_435_455)),
            (validate(3, 1), range(82, 268_435_455)),
            (decide(3), commit(82)),
            (settle(3, 0), DONE),
            (settle(3, 1), DONE),
            (begin(4), DONE),
            (read(4, 0), value(-4, 82)),
            (validate(4, 0), range(83, 268_435_455)),
            (decide(4), commit(83)),
            (settle(4, 0), DONE),
        ],
    );
    assert_eq!(rt; words, AFTERWARDS);
}
