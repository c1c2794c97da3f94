use crate::calls::{
    ALL, DONE, Response, begin, commit, decide, play, prewrite, read, settle, validate, value,
};
use crate::fixtures::{Memory, THREE_CELLS};
use base::Refusal;
use image::Sparse;
use policy::Near;
use protocol::Call;
use std::process::Abort;

// What is left after some settlements, each of which is to be refused: 1 is settled at ground 0, and 2 is open.
fn left_after(rt: &impl Abort, refused: &[(Call, Response)]) -> ([u32; 12], Memory<2, 2, 1, 1, 1>) {
    let mut words = THREE_CELLS;
    let mut memory = Memory::<2, 2, 1, 1, 1>::blank();
    let mut register = memory.register(Sparse::new(&mut words), Near);
    play(
        rt,
        &mut register,
        &[
            (begin(1), DONE),
            (begin(2), DONE),
            (prewrite(1, 0, 5), DONE),
            (validate(1, 0), ALL),
            (decide(1), commit(1)),
            (settle(1, 0), DONE),
            (read(2, 0), value(5, 1)),
        ],
    );
    play(rt, &mut register, refused);
    (words, memory)
}

#[test]
fn a_refused_settlement_leaves_all(rt: HostRuntime) {
    let refused = [
        (settle(3, 0), Err(Refusal::NeverBegun)),
        (settle(2, 0), Err(Refusal::NotDecided)),
        (settle(1, 1), Err(Refusal::NoRow)),
        (settle(1, 0), Err(Refusal::AlreadySettled)),
    ];
    let (words, memory) = left_after(&rt, &refused);
    let (words_without, without) = left_after(&rt, &[]);
    assert_eq!(rt; words, words_without);
    assert_eq!(rt; memory.transactions, without.transactions);
    assert_eq!(rt; memory.rows, without.rows);
    assert_eq!(rt; memory.reads, without.reads);
    assert_eq!(rt; memory.writes, without.writes);
    assert_eq!(rt; memory.notes, without.notes);
}
