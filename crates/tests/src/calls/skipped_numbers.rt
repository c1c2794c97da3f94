// Numbers may be skipped. A validation keeps what notes say of others by their numbers; here three leave the same remainder by 64.

use crate::calls::{DONE, begin, commit, decide, play, prewrite, range, read, validate, value};
use crate::fixtures::{K, Memory, R, V, W};
use image::Sparse;
use policy::Near;

// The second of two writers makes way for the first, and the reader before them keeps what lies below both.
#[test]
fn three_numbers_of_one_rest_meet(rt: HostRuntime) {
    let mut words = [K, V + 7, W, R + 100];
    let mut memory = Memory::<3, 3, 1, 2, 3>::blank();
    let mut register = memory.register(Sparse::new(&mut words), Near);
    play(
        &rt,
        &mut register,
        &[
            (begin(1), DONE),
            (begin(65), DONE),
            (begin(129), DONE),
            (read(65, 0), value(7, 0)),
            (prewrite(129, 0, -7), DONE),
            (prewrite(1, 0, 5), DONE),
            (validate(1, 0), range(101, 1124)),
            (validate(129, 0), range(1125, 2148)),
            (validate(65, 0), range(1, 100)),
            (decide(65), commit(1)),
            (decide(1), commit(101)),
            (decide(129), commit(1125)),
        ],
    );
}
