// Words in, words out.

use crate::fixtures::{K, Memory, R, THREE_CELLS, V, W};
use image::Sparse;
use policy::Near;
use service::serve;
use std::process::Abort;
use std::test::Fail;

mod days;
mod streams;

// Serves words on a new register over three zero cells, and tells the cells that are left. The answers are to be these.
fn answers<const ANSWERS: usize>(
    rt: &(impl Abort + AllocGlobal),
    words: &[u32],
    wanted: [u32; ANSWERS],
) -> Result<[u32; 12], Fail> {
    let mut cells = THREE_CELLS;
    let mut memory = Memory::<1, 1, 1, 2, 0>::blank();
    let mut register = memory.register(Sparse::new(&mut cells), Near);
    let mut out = Vec::new(rt.alloc());
    serve(&mut register, words, &mut out)?;
    assert_eq!(rt; out.as_slice(), wanted.as_slice());
    Ok(cells)
}

#[test]
fn a_reader_alone(rt: HostRuntime) -> Result<(), Fail> {
    let words = [
        0x1001_0000,
        0x2001_0000,
        0x4001_0000,
        0x5001_0000,
        0x7001_0000,
    ];
    let wanted = [
        0xA000_0000,
        0x9000_0000,
        0xB000_0000,
        0xB000_0001,
        0xBFFF_FFFF,
        0xB000_0001,
        0xA000_0000,
    ];
    let cells = answers(&rt, &words, wanted)?;
    assert_eq!(rt; cells.first_chunk().copied(), Some([K, V, W, R + 1]));
    Ok(())
}

// The second of three pairs is refused, so the third is not made. One pair stood.
#[test]
fn pairs_end_at_the_first_refusal(rt: HostRuntime) -> Result<(), Fail> {
    let words = [
        0x1001_0000,
        0x3001_0003,
        K,
        V + 5,
        K + 8,
        V + 6,
        K + 4,
        V + 7,
        0x4001_0000,
        0x5001_0000,
        0x7001_0000,
    ];
    let wanted = [
        0xA000_0000,
        0xD001_000B,
        0xB000_0001,
        0xBFFF_FFFF,
        0xB000_0001,
        0xA000_0000,
    ];
    let cells = answers(&rt, &words, wanted)?;
    assert_eq!(rt;
        cells,
        [K, V + 5, W + 1, R, K + 4, V, W, R, K + 0x2000, V, W, R]
    );
    Ok(())
}

// A kind that begins no message, an argument where there is none, no pair and 65 of them, and two pairs of which one is cut short. The words
// behind a head that is passed over are each looked at as a head; the last of them is one.
#[test]
fn a_malformed_message_passes_over_one_word(rt: HostRuntime) -> Result<(), Fail> {
    let words = [
        0xF000_0000,
        0x1001_0001,
        0x1001_0000,
        0x3001_0000,
        0x3001_0041,
        0x3001_0002,
        K,
        V + 5,
        0x2001_0000,
    ];
    let wanted = [
        0xD000_000C,
        0xD000_000C,
        0xA000_0000,
        0xD000_000C,
        0xD000_000C,
        0xD000_000C,
        0xD000_000C,
        0xD000_000C,
        0x9000_0000,
        0xB000_0000,
    ];
    assert_eq!(rt; answers(&rt, &words, wanted)?, THREE_CELLS);
    Ok(())
}

// Answers are added to those that are there; no words add none.
#[test]
fn no_words_have_no_answer(rt: HostRuntime) -> Result<(), Fail> {
    let mut memory = Memory::<1, 0, 0, 0, 0>::blank();
    let mut register = memory.register(Sparse::new(&mut []), Near);
    let mut out = Vec::new(rt.alloc());
    serve(&mut register, &[0x1001_0000], &mut out)?;
    serve(&mut register, &[], &mut out)?;
    assert_eq!(rt; out.as_slice(), [0xA000_0000].as_slice());
    serve(&mut register, &[0x5001_0000], &mut out)?;
    assert_eq!(rt; out.as_slice(), [0xA000_0000, 0xB000_0000].as_slice());
    Ok(())
}
