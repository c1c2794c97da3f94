use crate::calls::{
    ABORTED, ALL, DONE, begin, play, prewrite, range, read, validate, value, withdraw,
};
use crate::fixtures::{Memory, THREE_CELLS};
use base::{Refusal, Stamp};
use image::Sparse;
use lines::access::ReadLine;
use lines::transaction::{Decision, Transaction};
use policy::Near;

#[test]
fn books_of_no_room_refuse_a_first_call(rt: HostRuntime) {
    let mut words = THREE_CELLS;
    let mut memory = Memory::<1, 0, 0, 0, 0>::blank();
    let mut register = memory.register(Sparse::new(&mut words), Near);
    play(
        &rt,
        &mut register,
        &[
            (begin(1), DONE),
            (read(1, 0), Err(Refusal::NoRoom)),
            (prewrite(1, 0, 1), Err(Refusal::NoRoom)),
            (validate(1, 0), Err(Refusal::NoRow)),
        ],
    );
    let mut words = THREE_CELLS;
    let mut memory = Memory::<0, 0, 0, 0, 0>::blank();
    let mut register = memory.register(Sparse::new(&mut words), Near);
    play(&rt, &mut register, &[(begin(1), Err(Refusal::NoRoom))]);
}

#[test]
fn books_of_one_line_take_one(rt: HostRuntime) {
    let mut words = THREE_CELLS;
    let mut memory = Memory::<1, 1, 1, 1, 1>::blank();
    let mut register = memory.register(Sparse::new(&mut words), Near);
    play(
        &rt,
        &mut register,
        &[
            (begin(1), DONE),
            (begin(2), Err(Refusal::NoRoom)),
            (read(1, 0), value(0, 0)),
            (read(1, 0), value(0, 0)),
            (read(1, 4), Err(Refusal::NoRoom)),
            (prewrite(1, 8192, 1), Err(Refusal::NoRoom)),
            (prewrite(1, 0, 1), DONE),
            (prewrite(1, 0, 2), DONE),
            (prewrite(1, 4, 1), Err(Refusal::NoRoom)),
            (validate(1, 0), ALL),
        ],
    );
}

// Three notes do not fit into a book of two, so none is written; one still does.
#[test]
fn notes_are_counted_before_they_are_written(rt: HostRuntime) {
    let mut words = THREE_CELLS;
    let mut memory = Memory::<4, 4, 4, 4, 2>::blank();
    let mut register = memory.register(Sparse::new(&mut words), Near);
    for transaction in 1..5_u32 {
        play(&rt, &mut register, &[(begin(transaction), DONE)]);
    }
    for reader in 1..4_u32 {
        play(&rt, &mut register, &[(read(reader, 0), value(0, 0))]);
    }
    play(
        &rt,
        &mut register,
        &[
            (read(3, 4), value(0, 0)),
            (prewrite(4, 0, 9), Err(Refusal::NoRoom)),
            (prewrite(4, 4, 9), DONE),
            (validate(1, 0), ALL),
            (validate(3, 0), range(1, 1024)),
            (validate(4, 0), range(1025, 268_435_455)),
        ],
    );
}

// What is lent stays as it was where a call was refused, and past what the accepted calls wrote.
#[test]
fn lent_memory_is_written_line_by_line(rt: HostRuntime) {
    let mut words = THREE_CELLS;
    let mut memory = Memory::<3, 3, 3, 3, 3>::blank();
    let blank = Memory::<3, 3, 3, 3, 3>::blank();
    let mut register = memory.register(Sparse::new(&mut words), Near);
    play(
        &rt,
        &mut register,
        &[
            (begin(5000), Err(Refusal::BadNumber)),
            (read(1, 0), Err(Refusal::NeverBegun)),
            (begin(9), DONE),
            (read(9, 4), value(0, 0)),
            (read(9, 8), Err(Refusal::NoSuchKey)),
            (withdraw(9), ABORTED),
            (prewrite(9, 0, 1), Err(Refusal::AlreadyDecided)),
        ],
    );
    let withdrawn = Transaction {
        number: 9,
        decision: Some(Decision::Aborted),
    };
    let read = ReadLine {
        transaction: 9,
        key: 4,
        value: 0,
        seen: Stamp::in_word(0),
    };
    assert_eq!(rt; memory.transactions.first().copied(), Some(withdrawn));
    assert_eq!(rt; memory.transactions[1..], blank.transactions[1..]);
    assert_eq!(rt; memory.rows[1..], blank.rows[1..]);
    assert_eq!(rt; memory.reads.first().copied(), Some(read));
    assert_eq!(rt; memory.reads[1..], blank.reads[1..]);
    assert_eq!(rt; memory.writes, blank.writes);
    assert_eq!(rt; memory.notes, blank.notes);
}
