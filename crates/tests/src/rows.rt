use base::{Refusal, Stamp};
use book::Book;
use lines::access::{AccessKey, READS, WRITES};
use lines::lock::lock_stands;
use lines::note::{Effect, NOTES, Note, Order};
use lines::row::{Event, ROWS, Row, RowKey, State};
use lines::transaction::TRANSACTIONS;
use std::process::Abort;
use std::test::Fail;

const PASS: Event = Event::Pass { lower: 5, upper: 9 };

fn row(state: State, lower: i32, upper: i32) -> Row {
    Row {
        transaction: 2,
        ground: 1,
        state,
        lower,
        upper,
    }
}

// An event that moves a row with bounds 3 and 12.
fn moves(rt: &impl Abort, from: State, event: Event, to: Row) {
    let mut it = row(from, 3, 12);
    assert_eq!(rt; it.meet(event), Ok(()));
    assert_eq!(rt; it, to);
}

// An event that is refused and leaves the row as it was.
fn refuses(rt: &impl Abort, from: State, event: Event, refusal: Refusal) {
    let mut it = row(from, 3, 12);
    assert_eq!(rt; it.meet(event), Err(refusal));
    assert_eq!(rt; it, row(from, 3, 12));
}

#[test]
fn rows_move_pair_by_pair(rt: HostRuntime) -> Result<(), Fail> {
    let commit = Event::Commit {
        stamp: Stamp::in_word(7),
    };
    moves(&rt, State::Running, PASS, row(State::Validated, 5, 9));
    moves(&rt, State::Running, Event::Fail, row(State::Aborted, 3, 12));
    moves(
        &rt,
        State::Running,
        Event::Abort,
        row(State::Aborted, 3, 12),
    );
    refuses(&rt, State::Running, commit, Refusal::StillRunning);
    refuses(&rt, State::Validated, PASS, Refusal::NotRunning);
    refuses(&rt, State::Validated, Event::Fail, Refusal::NotRunning);
    moves(
        &rt,
        State::Validated,
        Event::Abort,
        row(State::Aborted, 3, 12),
    );
    moves(&rt, State::Validated, commit, row(State::Committed, 7, 7));
    Ok(())
}

#[test]
fn finished_rows_stay(rt: HostRuntime) -> Result<(), Fail> {
    let commit = Event::Commit {
        stamp: Stamp::in_word(7),
    };
    for state in [State::Committed, State::Aborted] {
        refuses(&rt, state, PASS, Refusal::NotRunning);
        refuses(&rt, state, Event::Fail, Refusal::NotRunning);
        refuses(&rt, state, Event::Abort, Refusal::AlreadySettled);
        refuses(&rt, state, commit, Refusal::AlreadySettled);
    }
    Ok(())
}

// What follows for transaction 1 from a note, where the other party's row, with bounds 3 and 12, is Running, Validated, Committed or Aborted.
fn follows(
    rt: &impl Abort,
    first: u32,
    second: u32,
    order: Order,
    running: Option<Effect>,
    passed: Option<Effect>,
) {
    let note = Note {
        key: 8192,
        first,
        second,
        order,
    };
    for (state, effect) in [
        (State::Running, running),
        (State::Validated, passed),
        (State::Committed, passed),
        (State::Aborted, None),
    ] {
        assert_eq!(rt;
            note.effect(1, &row(state, 3, 12)),
            effect,
            "{note:?}, {state:?}"
        );
    }
}

#[test]
fn notes_take_effect_by_the_other_row(rt: HostRuntime) {
    let below = Some(Effect::LowerBelow(3));
    let above = Some(Effect::RaiseAbove(12));
    let before = Some(Effect::JoinBefore);
    let after = Some(Effect::JoinAfter);
    follows(&rt, 1, 2, Order::Before, after, below);
    follows(&rt, 2, 1, Order::Before, before, above);
    follows(&rt, 1, 2, Order::Apart, after, above);
    follows(&rt, 2, 1, Order::Apart, after, above);
    follows(&rt, 2, 3, Order::Before, None, None);
}

// A row at ground 1.
fn row_of(transaction: u32, state: State) -> Row {
    Row {
        transaction,
        ..row(state, 3, 12)
    }
}

// Whether a line of a transaction at a key stands as a lock.
fn stands(rows: &Book<Row>, transaction: u32, key: u16) -> bool {
    lock_stands(rows, AccessKey { transaction, key })
}

#[test]
fn locks_stand_by_the_row(rt: HostRuntime) -> Result<(), Fail> {
    let mut memory = [Row::new(RowKey {
        transaction: 9,
        ground: 0,
    }); 4];
    let mut rows = Book::new(&mut memory, ROWS);
    rows.add(row_of(1, State::Running))?;
    rows.add(row_of(2, State::Validated))?;
    rows.add(row_of(3, State::Committed))?;
    rows.add(row_of(4, State::Aborted))?;
    assert_eq!(rt; stands(&rows, 1, 8192), true);
    assert_eq!(rt; stands(&rows, 2, 16383), true);
    assert_eq!(rt; stands(&rows, 3, 8192), false);
    assert_eq!(rt; stands(&rows, 4, 8192), false);
    assert_eq!(rt; stands(&rows, 1, 8191), false);
    assert_eq!(rt; stands(&rows, 1, 16384), false);
    assert_eq!(rt; stands(&rows, 5, 8192), false);
    Ok(())
}

#[test]
fn new_rows_are_running(rt: HostRuntime) {
    let it = Row {
        transaction: 7,
        ground: 3,
        state: State::Running,
        lower: 0,
        upper: 268435455,
    };
    assert_eq!(rt;
        Row::new(RowKey {
            transaction: 7,
            ground: 3
        }),
        it
    );
}

#[test]
fn limits(rt: HostRuntime) {
    assert_eq!(rt; TRANSACTIONS, 64);
    assert_eq!(rt; ROWS, 256);
    assert_eq!(rt; READS, 512);
    assert_eq!(rt; WRITES, 512);
    assert_eq!(rt; NOTES, 4096);
}
