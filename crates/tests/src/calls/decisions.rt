use crate::calls::{
    ABORTED, ALL, DONE, begin, commit, decide, play, prewrite, read, validate, value,
};
use crate::fixtures::{Memory, THREE_CELLS};
use base::{Refusal, TOP};
use image::Sparse;
use policy::{Near, Whole};

// Key 0 has no stamp left, so its row is Aborted; the decision waits for the other row all the same.
#[test]
fn a_decision_waits_for_every_row(rt: HostRuntime) {
    let mut words = THREE_CELLS;
    words[2] = 0xE000_0000 + TOP;
    let mut memory = Memory::<1, 2, 2, 0, 0>::blank();
    let mut register = memory.register(Sparse::new(&mut words), Whole);
    play(
        &rt,
        &mut register,
        &[
            (begin(1), DONE),
            (read(1, 0), value(0, TOP)),
            (read(1, 8192), value(0, 0)),
            (decide(1), Err(Refusal::StillRunning)),
            (validate(1, 0), ABORTED),
            (validate(1, 0), Err(Refusal::NotRunning)),
            (read(1, 0), Err(Refusal::NotRunning)),
            (prewrite(1, 0, 1), Err(Refusal::NotRunning)),
            (decide(1), Err(Refusal::StillRunning)),
            (validate(1, 1), ALL),
            (decide(1), ABORTED),
            (decide(1), Err(Refusal::AlreadyDecided)),
        ],
    );
}

#[test]
fn who_touched_nothing_commits_at_0(rt: HostRuntime) {
    let mut words = THREE_CELLS;
    let mut memory = Memory::<1, 0, 0, 0, 0>::blank();
    let mut register = memory.register(Sparse::new(&mut words), Near);
    play(
        &rt,
        &mut register,
        &[(begin(1), DONE), (decide(1), commit(0))],
    );
}
