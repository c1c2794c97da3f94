// A store of another make serves a register as well. This one keeps more than its cells: a count of what it refused.

use crate::calls::{
    ALL, DONE, begin, commit, decide, play, prewrite, range, read, settle, validate, value,
};
use crate::fixtures::{K, Memory, R, THREE_CELLS, V, W};
use base::{Refusal, Stamp};
use image::Sparse;
use policy::Near;
use store::{Cell, Store};

// A store that counts, in a number lent to it, how many puts it refused.
#[derive(Drop)]
struct Counting<'a, S> {
    store: S,
    refused: &'a mut u32,
}

impl<'a, S: Store> Store for Counting<'a, S> {
    ghost cells = { λ s. S.Store.cells s.store };

    fn fetch(&self, key: u16) -> Option<Cell> {
        self.store.fetch(key)
    }

    fn put(&mut self, key: u16, cell: Cell) -> Result<(), Refusal> {
        let answer = self.store.put(key, cell);
        if answer.is_err() {
            *self.refused = self.refused.saturating_add(1);
        }
        answer
    }
}

// A put past the set counts and changes no cell, and so it is where the cell is one that the set has elsewhere.
#[test]
fn a_refused_put_counts(rt: HostRuntime) {
    let mut words = [K, V + 7, W + 50, R];
    let mut refused = 0;
    let mut store = Counting {
        store: Sparse::new(&mut words),
        refused: &mut refused,
    };
    let cell = Cell {
        value: -1,
        write: Stamp::in_word(51),
        read: Stamp::in_word(0),
    };
    assert_eq!(rt; store.put(1, cell), Err(Refusal::NoSuchKey));
    assert_eq!(rt; store.put(8192, cell), Err(Refusal::NoSuchKey));
    assert_eq!(rt; store.fetch(1), None);
    assert_eq!(rt; store.put(0, cell), Ok(()));
    assert_eq!(rt; store.fetch(0), Some(cell));
    assert_eq!(rt; refused, 2);
    assert_eq!(rt; words, [K, V + 0xFFFF, W + 51, R]);
}

// A register puts only at keys that it has fetched, so no put of a day is refused.
#[test]
fn a_day_over_a_store_that_counts(rt: HostRuntime) {
    let mut words = THREE_CELLS;
    let mut refused = 0;
    let store = Counting {
        store: Sparse::new(&mut words),
        refused: &mut refused,
    };
    let mut memory = Memory::<2, 2, 1, 1, 0>::blank();
    let mut register = memory.register(store, Near);
    play(
        &rt,
        &mut register,
        &[
            (begin(1), DONE),
            (prewrite(1, 8, 1), Err(Refusal::NoSuchKey)),
            (prewrite(1, 8192, -7), DONE),
            (validate(1, 1), ALL),
            (decide(1), commit(1)),
            (settle(1, 1), DONE),
            (begin(2), DONE),
            (read(2, 8192), value(-7, 1)),
            (validate(2, 1), range(2, 268_435_455)),
            (decide(2), commit(2)),
            (settle(2, 1), DONE),
        ],
    );
    assert_eq!(rt; refused, 0);
    let settled = [K + 0x2000, V + 0xFFF9, W + 1, R + 2];
    assert_eq!(rt; words.last_chunk().copied(), Some(settled));
}
