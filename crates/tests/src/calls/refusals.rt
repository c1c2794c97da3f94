use crate::calls::{
    ABORTED, ALL, DONE, begin, commit, decide, play, prewrite, read, validate, value, withdraw,
};
use crate::fixtures::{Memory, THREE_CELLS};
use base::Refusal;
use image::Sparse;
use policy::{Near, Policy};
use register::Register;
use std::process::Abort;
use store::Store;

// Every call but begin and settle refuses a transaction with the same refusal, whatever key or ground it names.
fn refuse_all<S: Store, P: Policy>(
    rt: &impl Abort,
    register: &mut Register<'_, S, P>,
    transaction: u32,
    refusal: Refusal,
) {
    let calls = [
        read(transaction, 0),
        read(transaction, 8),
        prewrite(transaction, 0, 1),
        prewrite(transaction, 8, 1),
        validate(transaction, 0),
        validate(transaction, 1),
        validate(transaction, 65_535),
        decide(transaction),
        withdraw(transaction),
    ];
    for call in calls {
        assert_eq!(rt; register.call(call), Err(refusal), "{call:?}");
    }
}

#[test]
fn begin_looks_at_the_number_and_then_at_its_book(rt: HostRuntime) {
    let mut words = THREE_CELLS;
    let mut memory = Memory::<3, 0, 0, 0, 0>::blank();
    let mut register = memory.register(Sparse::new(&mut words), Near);
    play(
        &rt,
        &mut register,
        &[
            (begin(0), Err(Refusal::BadNumber)),
            (begin(4096), Err(Refusal::BadNumber)),
            (begin(u32::MAX), Err(Refusal::BadNumber)),
            (begin(7), DONE),
            (begin(7), Err(Refusal::BadNumber)),
            (begin(6), Err(Refusal::BadNumber)),
            (begin(9), DONE),
            (begin(4094), DONE),
            (begin(4094), Err(Refusal::BadNumber)),
            (begin(4095), Err(Refusal::NoRoom)),
        ],
    );
}

#[test]
fn who_was_never_begun_or_is_decided(rt: HostRuntime) {
    let mut words = THREE_CELLS;
    let mut memory = Memory::<2, 2, 2, 2, 2>::blank();
    let mut register = memory.register(Sparse::new(&mut words), Near);
    play(&rt, &mut register, &[(begin(2), DONE)]);
    for transaction in [0, 1, 3, 4096, u32::MAX] {
        refuse_all(&rt, &mut register, transaction, Refusal::NeverBegun);
    }
    play(
        &rt,
        &mut register,
        &[
            (read(2, 0), value(0, 0)),
            (validate(2, 0), ALL),
            (decide(2), commit(1)),
            (begin(3), DONE),
            (prewrite(3, 0, 5), DONE),
            (withdraw(3), ABORTED),
        ],
    );
    refuse_all(&rt, &mut register, 2, Refusal::AlreadyDecided);
    refuse_all(&rt, &mut register, 3, Refusal::AlreadyDecided);
}

// A key that is not there is met first, then a row that is not Running, then an earlier prewrite at any ground; room is looked at last.
#[test]
fn accesses_are_checked_in_order(rt: HostRuntime) {
    let mut words = THREE_CELLS;
    let mut memory = Memory::<2, 1, 0, 1, 0>::blank();
    let mut register = memory.register(Sparse::new(&mut words), Near);
    play(
        &rt,
        &mut register,
        &[
            (begin(1), DONE),
            (begin(2), DONE),
            (read(1, 8), Err(Refusal::NoSuchKey)),
            (read(1, 0), Err(Refusal::NoRoom)),
            (prewrite(1, 0, -3), DONE),
            (prewrite(2, 8, 1), Err(Refusal::NoSuchKey)),
            (prewrite(2, 4, 1), Err(Refusal::NoRoom)),
            (read(1, 0), Err(Refusal::ReadAfterPrewrite)),
            (read(1, 8192), Err(Refusal::ReadAfterPrewrite)),
            (read(1, 8), Err(Refusal::NoSuchKey)),
            (validate(1, 0), ALL),
            (read(1, 0), Err(Refusal::NotRunning)),
            (read(1, 8), Err(Refusal::NoSuchKey)),
            (read(1, 8192), Err(Refusal::ReadAfterPrewrite)),
            (prewrite(1, 0, 4), Err(Refusal::NotRunning)),
            (prewrite(1, 4, 4), Err(Refusal::NotRunning)),
            (prewrite(1, 8, 4), Err(Refusal::NoSuchKey)),
        ],
    );
}

#[test]
fn a_validation_asks_for_a_row_and_then_for_its_state(rt: HostRuntime) {
    let mut words = THREE_CELLS;
    let mut memory = Memory::<2, 2, 2, 2, 2>::blank();
    let mut register = memory.register(Sparse::new(&mut words), Near);
    play(
        &rt,
        &mut register,
        &[
            (begin(1), DONE),
            (validate(1, 0), Err(Refusal::NoRow)),
            (read(1, 4), value(0, 0)),
            (validate(1, 1), Err(Refusal::NoRow)),
            (validate(1, 8), Err(Refusal::NoRow)),
            (validate(1, 65_535), Err(Refusal::NoRow)),
            (validate(1, 0), ALL),
            (validate(1, 0), Err(Refusal::NotRunning)),
            (validate(1, 1), Err(Refusal::NoRow)),
        ],
    );
}
