use crate::calls::{DONE, begin, play};
use crate::fixtures::{K, Memory, R, V, W};
use base::Refusal;
use image::{Flat, Sparse};
use policy::Near;
use service::whole_day;
use std::test::Fail;
use store::Split;

// A read of -1 on the right side and a write of -7 on the left, committed at 4. The register that comes back goes on.
#[test]
fn a_whole_day_over_a_split_store(rt: HostRuntime) -> Result<(), Fail> {
    let mut left = [V + 7, W, R];
    let mut right = [K + 0x2000, V + 0xFFFF, W + 3, R];
    let store = Split::new(1, Flat::new(0, &mut left), Sparse::new(&mut right));
    let mut memory = Memory::<2, 2, 1, 1, 0>::blank();
    let words = [
        0x1001_0000,
        0x2001_2000,
        0x3001_0001,
        K,
        V + 0xFFF9,
        0x4001_0000,
        0x4001_0001,
        0x5001_0000,
        0x7001_0000,
        0x7001_0001,
    ];
    let wanted = [
        0xA000_0000,
        0x9000_FFFF,
        0xB000_0003,
        0xA000_0001,
        0xB000_0001,
        0xBFFF_FFFF,
        0xB000_0004,
        0xBFFF_FFFF,
        0xB000_0004,
        0xA000_0000,
        0xA000_0000,
    ];
    let mut out = Vec::new(rt.alloc());
    let mut register = whole_day(store, Near, memory.books(), &words, &mut out)?;
    assert_eq!(rt; out.as_slice(), wanted.as_slice());
    play(
        &rt,
        &mut register,
        &[(begin(1), Err(Refusal::BadNumber)), (begin(2), DONE)],
    );
    assert_eq!(rt; left, [V + 0xFFF9, W + 4, R]);
    assert_eq!(rt; right, [K + 0x2000, V + 0xFFFF, W + 3, R + 4]);
    Ok(())
}
