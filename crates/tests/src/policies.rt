use policy::{Near, Policy, Whole};

#[test]
fn whole_takes_all(rt: HostRuntime) {
    assert_eq!(rt; Whole.choose(1, 268_435_455, &[5], &[9]), (1, 268_435_455));
    assert_eq!(rt; Whole.choose(9, 3, &[5], &[]), (9, 3));
}

#[test]
fn near_leaves_the_rest_to_its_neighbours(rt: HostRuntime) {
    assert_eq!(rt; Near.choose(1, 268_435_455, &[], &[]), (1, 268_435_455));
    assert_eq!(rt; Near.choose(1, 268_435_455, &[0], &[]), (1, 1024));
    assert_eq!(rt; Near.choose(1, 268_435_455, &[], &[7]), (1, 1024));
    assert_eq!(rt; Near.choose(1, 1023, &[], &[7]), (1, 1023));
    assert_eq!(rt; Near.choose(1, 1025, &[], &[7]), (1, 1024));
    assert_eq!(rt; Near.choose(9, 3, &[0], &[7]), (9, 3));
}

#[test]
fn near_at_the_ends_of_32_bits(rt: HostRuntime) {
    assert_eq!(rt;
        Near.choose(i32::MAX, i32::MAX, &[0], &[]),
        (i32::MAX, i32::MAX)
    );
    assert_eq!(rt;
        Near.choose(i32::MAX - 1, i32::MAX, &[0], &[]),
        (i32::MAX - 1, i32::MAX)
    );
    assert_eq!(rt;
        Near.choose(i32::MIN, i32::MAX, &[0], &[]),
        (i32::MIN, i32::MIN + 1023)
    );
    assert_eq!(rt;
        Near.choose(i32::MAX, i32::MIN, &[0], &[]),
        (i32::MAX, i32::MIN)
    );
}
