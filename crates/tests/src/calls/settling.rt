use crate::calls::{
    ABORTED, ALL, DONE, begin, commit, decide, play, prewrite, range, read, settle, validate,
    value, withdraw,
};
use crate::fixtures::{K, Memory, R, THREE_CELLS, V, W};
use base::{Refusal, TOP};
use image::Sparse;
use lines::row::{Row, State};
use policy::Near;

// A row of transaction 1.
fn row(ground: u16, state: State, lower: i32, upper: i32) -> Row {
    Row {
        transaction: 1,
        ground,
        state,
        lower,
        upper,
    }
}

// Looked at in this order: was it begun, is it decided, has it a row here, is the row finished.
#[test]
fn a_settlement_is_checked_in_order(rt: HostRuntime) {
    let mut words = THREE_CELLS;
    words[6] = W + TOP;
    let mut memory = Memory::<2, 3, 1, 3, 0>::blank();
    let mut register = memory.register(Sparse::new(&mut words), Near);
    for transaction in [0, 1, 4096, u32::MAX] {
        play(
            &rt,
            &mut register,
            &[(settle(transaction, 0), Err(Refusal::NeverBegun))],
        );
    }
    play(
        &rt,
        &mut register,
        &[
            (begin(1), DONE),
            (settle(1, 0), Err(Refusal::NotDecided)),
            (prewrite(1, 0, 5), DONE),
            (settle(1, 0), Err(Refusal::NotDecided)),
            (validate(1, 0), ALL),
            (settle(1, 0), Err(Refusal::NotDecided)),
            (decide(1), commit(1)),
            (settle(1, 1), Err(Refusal::NoRow)),
            (settle(1, 8), Err(Refusal::NoRow)),
            (settle(1, 65_535), Err(Refusal::NoRow)),
            (settle(1, 0), DONE),
            (settle(1, 0), Err(Refusal::AlreadySettled)),
            (settle(1, 1), Err(Refusal::NoRow)),
            // The validation finishes the row at ground 0, so only the other is left to settle.
            (begin(2), DONE),
            (prewrite(2, 4, 5), DONE),
            (prewrite(2, 8192, 5), DONE),
            (validate(2, 0), ABORTED),
            (settle(2, 0), Err(Refusal::NotDecided)),
            (withdraw(2), ABORTED),
            (settle(2, 0), Err(Refusal::AlreadySettled)),
            (settle(2, 1), DONE),
            (settle(2, 1), Err(Refusal::AlreadySettled)),
        ],
    );
}

// A Running row and a Validated one, both settled as aborted: bounds and cells stay.
#[test]
fn an_aborted_transaction_moves_no_cell(rt: HostRuntime) {
    let cells = [[K, V + 7, W + 50, R + 60], [K + 0x2000, V + 9, W, R + 80]];
    let mut words = cells;
    let mut memory = Memory::<1, 2, 1, 2, 0>::blank();
    let mut register = memory.register(Sparse::new(words.as_flattened_mut()), Near);
    play(
        &rt,
        &mut register,
        &[
            (begin(1), DONE),
            (read(1, 0), value(7, 50)),
            (prewrite(1, 0, 5), DONE),
            (prewrite(1, 8192, 5), DONE),
            (validate(1, 1), range(81, 268_435_455)),
            (withdraw(1), ABORTED),
            (settle(1, 0), DONE),
            (settle(1, 1), DONE),
        ],
    );
    assert_eq!(rt; words, cells);
    let rows = [
        row(0, State::Aborted, 0, 268_435_455),
        row(1, State::Aborted, 81, 268_435_455),
    ];
    assert_eq!(rt; memory.rows, rows);
}

// Ground 0 leaves 51 to TOP and ground 1 leaves 81 to TOP, so all is committed at 81. A read stamp of 90 is the larger and stays; a cell
// that was only prewritten keeps its read stamp, and one that was only read its value and write stamp.
#[test]
fn a_committed_transaction_takes_its_stamp_everywhere(rt: HostRuntime) {
    let mut words = [
        [K, V + 7, W + 50, R + 60],
        [K + 4, V + 8, W, R + 90],
        [K + 0x2000, V + 9, W + 80, R],
        [K + 0x2004, V, W, R + 3],
    ];
    let mut memory = Memory::<1, 2, 3, 2, 0>::blank();
    let mut register = memory.register(Sparse::new(words.as_flattened_mut()), Near);
    play(
        &rt,
        &mut register,
        &[
            (begin(1), DONE),
            (read(1, 0), value(7, 50)),
            (read(1, 4), value(8, 0)),
            (read(1, 8192), value(9, 80)),
            (prewrite(1, 8192, -1), DONE),
            (prewrite(1, 8196, 5), DONE),
            (validate(1, 0), range(51, 268_435_455)),
            (validate(1, 1), range(81, 268_435_455)),
            (decide(1), commit(81)),
            (settle(1, 0), DONE),
            (settle(1, 1), DONE),
        ],
    );
    let settled = [
        [K, V + 7, W + 50, R + 81],
        [K + 4, V + 8, W, R + 90],
        [K + 0x2000, V + 0xFFFF, W + 81, R + 81],
        [K + 0x2004, V + 5, W + 81, R + 3],
    ];
    assert_eq!(rt; words, settled);
    let rows = [
        row(0, State::Committed, 81, 81),
        row(1, State::Committed, 81, 81),
    ];
    assert_eq!(rt; memory.rows, rows);
}
