// The limits of the books, past which no line is written though memory is lent for it.

use crate::calls::{ABORTED, DONE, begin, play, prewrite, read, value, withdraw};
use crate::fixtures::{Memory, THREE_CELLS, eight_grounds};
use base::Refusal;
use image::{Flat, Sparse};
use policy::Near;

// Memory for more lines than a book's limit is used up to the limit.
#[test]
fn the_sixty_fifth_is_not_begun(rt: HostRuntime) {
    let mut words = THREE_CELLS;
    let mut memory = Memory::<70, 1, 1, 1, 1>::blank();
    let mut register = memory.register(Sparse::new(&mut words), Near);
    for transaction in 1..65_u32 {
        play(&rt, &mut register, &[(begin(transaction), DONE)]);
    }
    play(
        &rt,
        &mut register,
        &[
            (begin(65), Err(Refusal::NoRoom)),
            (withdraw(64), ABORTED),
            (begin(65), Err(Refusal::NoRoom)),
        ],
    );
}

#[test]
fn two_hundred_and_fifty_six_rows(rt: HostRuntime) {
    let mut words = eight_grounds();
    let mut memory = Memory::<64, 300, 300, 0, 0>::blank();
    let mut register = memory.register(Sparse::new(&mut words), Near);
    for transaction in 1..33_u32 {
        play(&rt, &mut register, &[(begin(transaction), DONE)]);
        for ground in 0..8_u16 {
            let call = read(transaction, 8192 * ground);
            play(&rt, &mut register, &[(call, value(0, 0))]);
        }
    }
    let refused = [(begin(33), DONE), (read(33, 0), Err(Refusal::NoRoom))];
    play(&rt, &mut register, &refused);
}

// 64 transactions read eight cells each, and prewrite them: 512 cells of ground 0, of three words each, and one more.
#[test]
fn five_hundred_and_twelve_reads_and_writes(rt: HostRuntime) {
    let mut words = [0; 1539];
    for cell in 0..513_usize {
        words[3 * cell] = 0x9000_0000;
        words[3 * cell + 1] = 0xE000_0000;
        words[3 * cell + 2] = 0xF000_0000;
    }
    let mut memory = Memory::<64, 64, 520, 520, 0>::blank();
    let mut register = memory.register(Flat::new(0, &mut words), Near);
    for transaction in 1..65_u32 {
        play(&rt, &mut register, &[(begin(transaction), DONE)]);
    }
    for key in 0..512_u16 {
        let call = read(u32::from(key / 8) + 1, key);
        play(&rt, &mut register, &[(call, value(0, 0))]);
    }
    for key in 0..512_u16 {
        let call = prewrite(u32::from(key / 8) + 1, key, 1);
        play(&rt, &mut register, &[(call, DONE)]);
    }
    let refused = [
        (prewrite(64, 512, 1), Err(Refusal::NoRoom)),
        (prewrite(64, 511, 2), DONE),
    ];
    play(&rt, &mut register, &refused);
}

// All 64 prewrite two keys, which takes 2 times 2,016 notes; the first eleven prewrite a third, which takes 55, three a fourth, which takes
// three, and four a fifth, which takes six. That is 4,096, though memory is lent for more: after it one note does not fit, and none does.
#[test]
fn four_thousand_and_ninety_six_notes(rt: HostRuntime) {
    let mut words = eight_grounds();
    let mut memory = Memory::<64, 256, 1, 192, 4100>::blank();
    let mut register = memory.register(Sparse::new(&mut words), Near);
    for transaction in 1..65_u32 {
        play(&rt, &mut register, &[(begin(transaction), DONE)]);
    }
    for (ground, writers) in [(0, 65_u32), (1, 65), (2, 12), (3, 4), (4, 5)] {
        for transaction in 1..writers {
            let call = prewrite(transaction, 8192 * ground, 1);
            play(&rt, &mut register, &[(call, DONE)]);
        }
    }
    let refused = [
        (prewrite(1, 40_960, 1), DONE),
        (prewrite(2, 40_960, 1), Err(Refusal::NoRoom)),
        (prewrite(12, 0, 2), DONE),
    ];
    play(&rt, &mut register, &refused);
}
