use base::{Refusal, Stamp};
use image::{Cause, Fault, Flat, Sparse, check_boundary, check_flat, check_sparse};
use std::alloc::{AllocError, Global};
use std::test::Fail;
use store::{Cell, Split, Store};
use survey::printing::check_image;

const V: u32 = 0x9000_0000;

const W: u32 = 0xE000_0000;

const R: u32 = 0xF000_0000;

const K: u32 = 0x8000_0000;

fn cell(value: i16) -> Cell {
    Cell {
        value,
        write: Stamp::in_word(3),
        read: Stamp::in_word(5),
    }
}

// A fault of the whole, or of a line.
fn whole(cause: Cause) -> Result<(), Fault> {
    Err(Fault { cause, line: None })
}

fn at(cause: Cause, line: usize) -> Result<(), Fault> {
    Err(Fault {
        cause,
        line: Some(line),
    })
}

#[test]
fn a_cell_is_three_words(rt: HostRuntime) {
    let mut words = [V, W, R];
    let mut store = Flat::new(0, &mut words);
    assert_eq!(rt; store.put(0, cell(-20)), Ok(()));
    assert_eq!(rt; store.fetch(0), Some(cell(-20)));
    assert_eq!(rt; words.as_slice(), [0x9000_FFEC, W + 3, R + 5].as_slice());
}

#[test]
fn each_fault_of_a_flat_store(rt: HostRuntime) -> Result<(), Fail> {
    assert_eq!(rt; check_flat(7, &[V, W, R, V, W, R]), Ok(()));
    assert_eq!(rt; check_flat(0, &[V, W, R, V]), whole(Cause::PartLine));
    assert_eq!(rt;
        check_flat(0, vec![in rt.alloc(); 0; 24_579]?.as_slice()),
        whole(Cause::TooMany)
    );
    assert_eq!(rt; check_flat(8, &[V, W, R]), whole(Cause::GroundAbove7));
    assert_eq!(rt; check_flat(0, &[V, W, R, V, R, R]), at(Cause::WrongKind, 1));
    assert_eq!(rt;
        check_flat(0, &[V, W, R, V + 65536, W, R]),
        at(Cause::StrayBits, 1)
    );
    let mut bad = [V, W, R, V, R, R];
    let mut store = Flat::new(0, &mut bad);
    assert_eq!(rt; store.fetch(0), None);
    assert_eq!(rt; store.put(0, cell(1)), Err(Refusal::NoSuchKey));
    assert_eq!(rt; bad.as_slice(), [V, W, R, V, R, R].as_slice());
    Ok(())
}

#[test]
fn each_fault_of_a_sparse_store(rt: HostRuntime) -> Result<(), Fail> {
    assert_eq!(rt; check_sparse(&[K, V, W, R, K + 9, V, W, R]), Ok(()));
    assert_eq!(rt; check_sparse(&[K, V, W]), whole(Cause::PartLine));
    assert_eq!(rt;
        check_sparse(vec![in rt.alloc(); 0; 16_388]?.as_slice()),
        whole(Cause::TooMany)
    );
    assert_eq!(rt; check_sparse(&[V, V, W, R]), at(Cause::WrongKind, 0));
    assert_eq!(rt;
        check_sparse(&[K, V, W, R, K + 65536, V, W, R]),
        at(Cause::StrayBits, 1)
    );
    assert_eq!(rt;
        check_sparse(&[K, V, W, R, K, V, W, R]),
        at(Cause::KeysNotRising, 1)
    );
    assert_eq!(rt; check_image(&[K, V, W, R], 0), Ok(()));
    assert_eq!(rt; check_image(&[K, V, W, R], 3), whole(Cause::PartLine));
    let mut bad = [K + 9, V, W, R, K, V, W, R];
    let store = Sparse::new(&mut bad);
    assert_eq!(rt; store.fetch(9), None);
    Ok(())
}

#[test]
fn a_boundary_above_8_sends_all_left(rt: HostRuntime) {
    assert_eq!(rt; check_boundary(8), Ok(()));
    assert_eq!(rt; check_boundary(9), whole(Cause::BoundaryAbove8));
    assert_eq!(rt;
        Refusal::from(Fault {
            cause: Cause::BoundaryAbove8,
            line: None,
        }),
        Refusal::BadStore
    );
    let mut left = [V + 1, W + 3, R + 5];
    let mut right = [V + 2, W, R];
    let store = Split::new(9, Flat::new(7, &mut left), Flat::new(7, &mut right));
    assert_eq!(rt; store.fetch(57_344), Some(cell(1)));
}

// The memory of a flat store with n zero cells.
fn zero_cells(heap: Global, n: usize) -> Result<Vec<u32>, AllocError> {
    let mut words = Vec::new(heap);
    for _ in 0..n {
        words.push(V)?;
        words.push(W)?;
        words.push(R)?;
    }
    Ok(words)
}

#[test]
fn flat_stores_of_all_keys_and_of_none(rt: HostRuntime) -> Result<(), Fail> {
    let mut words = zero_cells(rt.alloc(), 8192)?;
    let mut store = Flat::new(3, words.as_mut_slice());
    assert_eq!(rt; store.put(32_767, cell(-1)), Ok(()));
    assert_eq!(rt; store.fetch(32_767), Some(cell(-1)));
    assert!(rt; store.fetch(24_576).is_some());
    assert_eq!(rt; store.fetch(24_575), None);
    assert_eq!(rt; store.fetch(32_768), None);
    let mut none = [];
    let mut empty = Flat::new(0, &mut none);
    assert_eq!(rt; empty.fetch(0), None);
    assert_eq!(rt; empty.put(0, cell(1)), Err(Refusal::NoSuchKey));
    Ok(())
}

#[test]
fn a_split_of_splits(rt: HostRuntime) {
    let mut a = [V, W, R];
    let mut b = [K + 8192, V, W, R, K + 16_388, V, W, R];
    let mut c = [V, W, R, V, W, R];
    let inner = Split::new(3, Sparse::new(&mut b), Flat::new(7, &mut c));
    let mut store = Split::new(1, Flat::new(0, &mut a), inner);
    assert_eq!(rt; store.put(0, cell(10)), Ok(()));
    assert_eq!(rt; store.put(16_388, cell(-20)), Ok(()));
    assert_eq!(rt; store.put(57_345, cell(30)), Ok(()));
    assert_eq!(rt; store.put(16_389, cell(40)), Err(Refusal::NoSuchKey));
    assert_eq!(rt; store.fetch(0), Some(cell(10)));
    assert_eq!(rt; store.fetch(16_388), Some(cell(-20)));
    assert_eq!(rt; store.fetch(57_345), Some(cell(30)));
    assert_eq!(rt; store.fetch(57_346), None);
    drop(store);
    assert_eq!(rt;
        b.as_slice(),
        [K + 8192, V, W, R, K + 16_388, 0x9000_FFEC, W + 3, R + 5].as_slice()
    );
}
