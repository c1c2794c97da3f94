// Of two settlements that come the other way round, the larger stamp stays.

use crate::calls::{
    DONE, begin, commit, decide, play, prewrite, range, read, settle, validate, value,
};
use crate::fixtures::{K, Memory, R, V, W};
use image::Sparse;
use policy::Near;

#[test]
fn two_writers_settled_the_other_way_round(rt: HostRuntime) {
    let mut words = [K, V, W, R];
    let mut memory = Memory::<2, 2, 0, 2, 1>::blank();
    let mut register = memory.register(Sparse::new(&mut words), Near);
    play(
        &rt,
        &mut register,
        &[
            (begin(1), DONE),
            (begin(2), DONE),
            (prewrite(1, 0, 10), DONE),
            (prewrite(2, 0, 20), DONE),
            (validate(2, 0), range(1, 1024)),
            (validate(1, 0), range(1025, 268_435_455)),
            (decide(1), commit(1025)),
            (decide(2), commit(1)),
            (settle(1, 0), DONE),
            (settle(2, 0), DONE),
        ],
    );
    assert_eq!(rt; words, [K, V + 10, W + 1025, R]);
}

#[test]
fn two_readers_settled_the_other_way_round(rt: HostRuntime) {
    let mut words = [[K, V, W, R], [K + 4, V, W + 40, R]];
    let mut memory = Memory::<2, 2, 3, 0, 0>::blank();
    let mut register = memory.register(Sparse::new(words.as_flattened_mut()), Near);
    play(
        &rt,
        &mut register,
        &[
            (begin(1), DONE),
            (begin(2), DONE),
            (read(1, 0), value(0, 0)),
            (read(1, 4), value(0, 40)),
            (read(2, 0), value(0, 0)),
            (validate(1, 0), range(41, 268_435_455)),
            (validate(2, 0), range(1, 268_435_455)),
            (decide(1), commit(41)),
            (decide(2), commit(1)),
            (settle(1, 0), DONE),
            (settle(2, 0), DONE),
        ],
    );
    assert_eq!(rt; words, [[K, V, W, R + 41], [K + 4, V, W + 40, R + 41]]);
}
