use crate::calls::{
    ABORTED, ALL, DONE, begin, commit, decide, play, prewrite, range, read, validate, value,
};
use crate::fixtures::{Memory, THREE_CELLS, eight_grounds};
use base::{Refusal, TOP};
use image::{Flat, Sparse};
use policy::Near;
use store::Split;

// The write stamp of ground g is 10 ((g + 4) mod 8), and its value -32,768 + g: as low as a value can be, and on each ground another. The
// largest lower bound, 71, is that of ground 3.
#[test]
fn one_transaction_touches_eight_grounds(rt: HostRuntime) {
    let mut words = eight_grounds();
    for ground in 0..8_u32 {
        words[4 * ground as usize + 1] = 0x9000_8000 + ground;
        words[4 * ground as usize + 2] = 0xE000_0000 + 10 * ((ground + 4) % 8);
    }
    let mut memory = Memory::<1, 8, 8, 8, 0>::blank();
    let mut register = memory.register(Sparse::new(&mut words), Near);
    play(&rt, &mut register, &[(begin(1), DONE)]);
    for ground in 0..8_u16 {
        let stamp = 10 * ((u32::from(ground) + 4) % 8);
        let wanted = value(-32_768 + ground as i16, stamp);
        play(&rt, &mut register, &[(read(1, 8192 * ground), wanted)]);
    }
    for ground in 0..8_u16 {
        play(
            &rt,
            &mut register,
            &[(prewrite(1, 8192 * ground, -7), DONE)],
        );
    }
    play(&rt, &mut register, &[(validate(1, 8), Err(Refusal::NoRow))]);
    for ground in 0..8_u16 {
        let lower = 10 * ((i32::from(ground) + 4) % 8) + 1;
        play(
            &rt,
            &mut register,
            &[
                (decide(1), Err(Refusal::StillRunning)),
                (validate(1, ground), range(lower, TOP as i32)),
            ],
        );
    }
    play(&rt, &mut register, &[(decide(1), commit(71))]);
}

// The seventh ground has no stamp left: one Aborted row outweighs seven that passed.
#[test]
fn one_ground_of_eight_aborts(rt: HostRuntime) {
    let mut words = eight_grounds();
    words[4 * 6 + 2] = 0xE000_0000 + TOP;
    let mut memory = Memory::<1, 8, 0, 8, 0>::blank();
    let mut register = memory.register(Sparse::new(&mut words), Near);
    play(&rt, &mut register, &[(begin(1), DONE)]);
    for ground in 0..8_u16 {
        play(&rt, &mut register, &[(prewrite(1, 8192 * ground, 9), DONE)]);
    }
    for ground in 0..8_u16 {
        let verdict = if ground == 6 { ABORTED } else { ALL };
        play(&rt, &mut register, &[(validate(1, ground), verdict)]);
    }
    play(&rt, &mut register, &[(decide(1), ABORTED)]);
}

// Each of two reads what the other is about to write. At either ground the one that is validated first takes 1 to 1,024; a note of the
// other ground plays no part.
#[test]
fn ranges_of_two_grounds_do_not_meet(rt: HostRuntime) {
    let mut words = THREE_CELLS;
    let mut memory = Memory::<2, 4, 2, 2, 2>::blank();
    let mut register = memory.register(Sparse::new(&mut words), Near);
    play(
        &rt,
        &mut register,
        &[
            (begin(1), DONE),
            (begin(2), DONE),
            (read(1, 0), value(0, 0)),
            (read(2, 8192), value(0, 0)),
            (prewrite(1, 8192, 5), DONE),
            (prewrite(2, 0, 6), DONE),
            (validate(1, 0), range(1, 1024)),
            (validate(2, 1), range(1, 1024)),
            (validate(1, 1), range(1025, 268_435_455)),
            (decide(1), ABORTED),
            (validate(2, 0), range(1025, 268_435_455)),
            (decide(2), ABORTED),
        ],
    );
}

#[test]
fn a_register_over_a_split_store(rt: HostRuntime) {
    let mut left = [0x9000_0007, 0xE000_0000, 0xF000_0000];
    let mut right = [0x8000_2000, 0x9000_FFFF, 0xE000_0003, 0xF000_0000];
    let store = Split::new(1, Flat::new(0, &mut left), Sparse::new(&mut right));
    let mut memory = Memory::<1, 2, 2, 2, 0>::blank();
    let mut register = memory.register(store, Near);
    play(
        &rt,
        &mut register,
        &[
            (begin(1), DONE),
            (read(1, 0), value(7, 0)),
            (read(1, 8192), value(-1, 3)),
            (read(1, 1), Err(Refusal::NoSuchKey)),
            (read(1, 8193), Err(Refusal::NoSuchKey)),
            (validate(1, 0), ALL),
            (validate(1, 1), range(4, 268_435_455)),
            (decide(1), commit(4)),
        ],
    );
}
