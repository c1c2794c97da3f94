use crate::calls::{
    ABORTED, DONE, Response, begin, commit, decide, play, prewrite, range, read, validate, value,
};
use crate::fixtures::{Memory, THREE_CELLS};
use base::Refusal;
use image::Sparse;
use policy::{Near, Policy, Whole};
use protocol::Call;
use std::process::Abort;

// What a transaction does with key 0.
#[derive(Clone, Copy)]
enum Access {
    Reads,
    Writes,
}

// When the one that is validated second makes its access.
#[derive(Clone, Copy)]
enum Turn {
    BeforeTheFirst,
    AfterTheFirst,
    AfterTheVerdict,
}

fn access_of(transaction: u32, access: Access) -> (Call, Response) {
    match access {
        Access::Reads => (read(transaction, 0), value(0, 0)),
        Access::Writes => (prewrite(transaction, 0, -7), DONE),
    }
}

// What a transaction's validation and its decision are answered.
#[derive(Clone, Copy)]
struct Verdict {
    validation: Response,
    decision: Response,
}

fn passes(lower: i32, upper: i32) -> Verdict {
    Verdict {
        validation: range(lower, upper),
        decision: commit(lower.unsigned_abs()),
    }
}

const FAILS: Verdict = Verdict {
    validation: ABORTED,
    decision: ABORTED,
};

fn judged(transaction: u32, verdict: Verdict) -> [(Call, Response); 3] {
    [
        (decide(transaction), Err(Refusal::StillRunning)),
        (validate(transaction, 0), verdict.validation),
        (decide(transaction), verdict.decision),
    ]
}

// Two transactions each make an access to key 0; the first is validated and decided, then the second. That is tried in each order in
// which the accesses can come, and either may have the smaller number. The verdicts are the same but where the second comes after the
// first verdict.
fn meet<P: Policy + Copy>(
    rt: &impl Abort,
    policy: P,
    accesses: [Access; 2],
    verdicts: [Verdict; 2],
    late: [Verdict; 2],
) {
    for turn in [
        Turn::BeforeTheFirst,
        Turn::AfterTheFirst,
        Turn::AfterTheVerdict,
    ] {
        for (first, second) in [(1, 2), (2, 1)] {
            let mut words = THREE_CELLS;
            let mut memory = Memory::<2, 2, 2, 2, 1>::blank();
            let mut register = memory.register(Sparse::new(&mut words), policy);
            play(rt, &mut register, &[(begin(1), DONE), (begin(2), DONE)]);
            let one = access_of(first, accesses[0]);
            let two = access_of(second, accesses[1]);
            match turn {
                Turn::BeforeTheFirst => {
                    play(rt, &mut register, &[two, one]);
                    play(rt, &mut register, &judged(first, verdicts[0]));
                    play(rt, &mut register, &judged(second, verdicts[1]));
                }
                Turn::AfterTheFirst => {
                    play(rt, &mut register, &[one, two]);
                    play(rt, &mut register, &judged(first, verdicts[0]));
                    play(rt, &mut register, &judged(second, verdicts[1]));
                }
                Turn::AfterTheVerdict => {
                    play(rt, &mut register, &[one]);
                    play(rt, &mut register, &judged(first, late[0]));
                    play(rt, &mut register, &[two]);
                    play(rt, &mut register, &judged(second, late[1]));
                }
            }
        }
    }
}

// Both policies, where the second finds no stamp left under Whole, and under Near where it comes late.
fn meet_both(rt: &impl Abort, accesses: [Access; 2], near: [Verdict; 2]) {
    let none_left = [passes(1, 268_435_455), FAILS];
    meet(rt, Near, accesses, near, none_left);
    meet(rt, Whole, accesses, none_left, none_left);
}

#[test]
fn two_readers_do_not_meet(rt: HostRuntime) {
    let all = [passes(1, 268_435_455), passes(1, 268_435_455)];
    meet(&rt, Near, [Access::Reads, Access::Reads], all, all);
    meet(&rt, Whole, [Access::Reads, Access::Reads], all, all);
}

#[test]
fn a_reader_leaves_later_stamps_to_a_writer(rt: HostRuntime) {
    let near = [passes(1, 1024), passes(1025, 268_435_455)];
    meet_both(&rt, [Access::Reads, Access::Writes], near);
}

#[test]
fn a_writer_leaves_no_earlier_stamps_to_a_reader(rt: HostRuntime) {
    meet_both(
        &rt,
        [Access::Writes, Access::Reads],
        [passes(1, 1024), FAILS],
    );
}

#[test]
fn two_writers_take_stamps_apart(rt: HostRuntime) {
    let near = [passes(1, 1024), passes(1025, 268_435_455)];
    meet_both(&rt, [Access::Writes, Access::Writes], near);
}
