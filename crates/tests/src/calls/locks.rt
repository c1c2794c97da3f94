use crate::calls::{
    ABORTED, ALL, DONE, begin, commit, decide, play, prewrite, range, read, validate, value,
    withdraw,
};
use crate::fixtures::{Memory, THREE_CELLS};
use base::Refusal;
use image::Sparse;
use policy::Near;

#[test]
fn a_withdrawal_leaves_the_lock(rt: HostRuntime) {
    let mut words = THREE_CELLS;
    let mut memory = Memory::<2, 2, 2, 2, 1>::blank();
    let mut register = memory.register(Sparse::new(&mut words), Near);
    play(
        &rt,
        &mut register,
        &[
            (begin(1), DONE),
            (prewrite(1, 0, 5), DONE),
            (withdraw(1), ABORTED),
            (begin(2), DONE),
            (prewrite(2, 0, 6), DONE),
            (validate(2, 0), range(1, 1024)),
        ],
    );
}

#[test]
fn a_decision_leaves_the_lock(rt: HostRuntime) {
    let mut words = THREE_CELLS;
    let mut memory = Memory::<2, 2, 2, 2, 1>::blank();
    let mut register = memory.register(Sparse::new(&mut words), Near);
    play(
        &rt,
        &mut register,
        &[
            (begin(1), DONE),
            (prewrite(1, 0, 5), DONE),
            (validate(1, 0), ALL),
            (decide(1), commit(1)),
            (begin(2), DONE),
            (read(2, 0), value(0, 0)),
            (validate(2, 0), ABORTED),
        ],
    );
}

// The lock of an Aborted row is met by nobody: there is no room for a note, and none is needed.
#[test]
fn a_failed_validation_ends_the_lock(rt: HostRuntime) {
    let mut words = THREE_CELLS;
    words[2] = 0xEFFF_FFFF;
    let mut memory = Memory::<2, 2, 2, 2, 0>::blank();
    let mut register = memory.register(Sparse::new(&mut words), Near);
    play(
        &rt,
        &mut register,
        &[
            (begin(1), DONE),
            (begin(2), DONE),
            (prewrite(1, 0, 5), DONE),
            (prewrite(1, 4, 5), DONE),
            (read(2, 4), Err(Refusal::NoRoom)),
            (validate(1, 0), ABORTED),
            (read(2, 4), value(0, 0)),
            (validate(2, 0), ALL),
        ],
    );
}

// The second read of a key, and the second prewrite, need no line and no note: the book of notes is full by then, with 1 before 2,
// 1 before 3 and 3 apart 2.
#[test]
fn a_second_access_writes_nothing(rt: HostRuntime) {
    let mut words = THREE_CELLS;
    let mut memory = Memory::<3, 3, 1, 2, 3>::blank();
    let mut register = memory.register(Sparse::new(&mut words), Near);
    play(
        &rt,
        &mut register,
        &[
            (begin(1), DONE),
            (begin(2), DONE),
            (begin(3), DONE),
            (read(1, 0), value(0, 0)),
            (prewrite(2, 0, 5), DONE),
            (prewrite(3, 0, 6), DONE),
            (read(1, 0), value(0, 0)),
            (prewrite(2, 0, 7), DONE),
            (validate(2, 0), range(1, 1024)),
            (validate(3, 0), range(1025, 2048)),
            (validate(1, 0), ABORTED),
        ],
    );
}
