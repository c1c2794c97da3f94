use crate::errand::{EAST, run};
use crate::fixtures::{K, Memory, R, V, W};
use base::{Refusal, Stamp};
use client::{Slip, Ticket, begin};
use image::Sparse;
use lines::row::State;
use lines::transaction::Decision;
use policy::{Near, Policy};
use register::Register;
use std::process::Abort;
use store::Store;

// The offsets east of two plots, 20 decimetres and 5.
const PLOTS: [[u32; 4]; 2] = [[K, V + 20, W, R], [K + 0x2000, V + 5, W + 3, R]];

// A ticket, which the register is to give.
fn ticket_of<S: Store, P: Policy>(
    rt: &impl Abort,
    register: &mut Register<'_, S, P>,
    number: u32,
) -> Ticket {
    match begin(register, number) {
        Ok(ticket) => ticket,
        Err(refusal) => panic!(rt; "begin is refused: {refusal}"),
    }
}

// The slip of a withdrawal, which the register is to accept.
fn withdrawn<S: Store, P: Policy>(
    rt: &impl Abort,
    register: &mut Register<'_, S, P>,
    ticket: Ticket,
) -> Slip {
    match ticket.withdraw(register) {
        Ok(slip) => slip,
        Err((_ticket, refusal)) => panic!(rt; "withdraw is refused: {refusal}"),
    }
}

// Ground 1 asks for 4 or more, so both graves are moved at 4.
#[test]
fn an_errand_across_two_grounds(rt: HostRuntime) {
    let mut words = PLOTS;
    let mut memory = Memory::<1, 2, 2, 2, 0>::blank();
    let mut register = memory.register(Sparse::new(words.as_flattened_mut()), Near);
    let ticket = ticket_of(&rt, &mut register, 1);
    match run(&mut register, ticket, 45) {
        Ok(ending) => {
            assert_eq!(rt; ending, (Ok(Decision::Committed(Stamp::in_word(4))), 2));
        }
        Err((_ticket, refusal)) => panic!(rt; "{refusal}"),
    }
    let moved = [
        [K, V + 0xFFE7, W + 4, R + 4],
        [K + 0x2000, V + 0xFFD8, W + 4, R + 4],
    ];
    assert_eq!(rt; words, moved);
}

// There is room for the first prewrite and not for the second. The rows of both grounds are settled as aborted, and no cell has moved.
#[test]
fn a_refused_errand_withdraws(rt: HostRuntime) {
    let mut words = PLOTS;
    let mut memory = Memory::<1, 2, 2, 1, 0>::blank();
    let mut register = memory.register(Sparse::new(words.as_flattened_mut()), Near);
    let ticket = ticket_of(&rt, &mut register, 1);
    match run(&mut register, ticket, 45) {
        Ok(ending) => assert_eq!(rt; ending, (Err(Refusal::NoRoom), 2)),
        Err((_ticket, refusal)) => panic!(rt; "{refusal}"),
    }
    assert_eq!(rt; words, PLOTS);
    for row in &memory.rows {
        assert_eq!(rt; row.state, State::Aborted);
    }
}

#[test]
fn a_refused_decision_hands_the_ticket_back(rt: HostRuntime) {
    let mut words = PLOTS;
    let mut memory = Memory::<1, 1, 1, 0, 0>::blank();
    let mut register = memory.register(Sparse::new(words.as_flattened_mut()), Near);
    let ticket = ticket_of(&rt, &mut register, 1);
    assert_eq!(rt;
        ticket.read(&mut register, EAST[0]),
        Ok((20, Stamp::in_word(0)))
    );
    match ticket.decide(&mut register) {
        Ok(_decided) => panic!(rt; "a row is still Running"),
        Err(kept) => {
            let (ticket, refusal) = kept;
            assert_eq!(rt; refusal, Refusal::StillRunning);
            assert_eq!(rt;
                ticket.validate(&mut register, 0),
                Ok(Some((1, 268_435_455)))
            );
            let slip = withdrawn(&rt, &mut register, ticket);
            assert_eq!(rt; slip.settle_rest(&mut register), 1);
        }
    }
}

// The number that is withdrawn in one register is open in the other, where it has a row.
#[test]
fn a_slip_settles_nothing_that_is_undecided(rt: HostRuntime) {
    let mut words = PLOTS;
    let mut memory = Memory::<1, 1, 1, 0, 0>::blank();
    let mut register = memory.register(Sparse::new(words.as_flattened_mut()), Near);
    let ticket = ticket_of(&rt, &mut register, 1);
    assert_eq!(rt;
        ticket.read(&mut register, EAST[0]),
        Ok((20, Stamp::in_word(0)))
    );
    let mut elsewhere = Memory::<1, 0, 0, 0, 0>::blank();
    let mut other = elsewhere.register(Sparse::new(&mut []), Near);
    let ticket_there = ticket_of(&rt, &mut other, 1);
    let slip = withdrawn(&rt, &mut other, ticket_there);
    assert_eq!(rt; slip.settle_rest(&mut register), 0);
    let slip = withdrawn(&rt, &mut register, ticket);
    assert_eq!(rt; slip.settle_rest(&mut register), 1);
}
