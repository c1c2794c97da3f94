// Calls on a register with the answers that they are to have.

use base::{Refusal, Stamp, TOP};
use policy::Policy;
use protocol::{Call, Reply};
use register::Register;
use std::process::Abort;
use store::Store;

mod counting;
mod decisions;
mod grounds;
mod late_day;
mod limits;
mod locks;
mod other_way_round;
mod pairs;
mod refusals;
mod rooms;
mod settling;
mod skipped_numbers;
mod unsettled;

/// What a call is answered.
pub type Response = Result<Reply, Refusal>;

pub const DONE: Response = Ok(Reply::Done);

pub const ABORTED: Response = Ok(Reply::Aborted);

/// Every stamp but 0.
pub const ALL: Response = Ok(Reply::Range {
    lower: 1,
    upper: TOP as i32,
});

pub fn begin(transaction: u32) -> Call {
    Call::Begin { transaction }
}

pub fn read(transaction: u32, key: u16) -> Call {
    Call::Read { transaction, key }
}

pub fn prewrite(transaction: u32, key: u16, value: i16) -> Call {
    Call::Prewrite {
        transaction,
        key,
        value,
    }
}

pub fn validate(transaction: u32, ground: u16) -> Call {
    Call::Validate {
        transaction,
        ground,
    }
}

pub fn decide(transaction: u32) -> Call {
    Call::Decide { transaction }
}

pub fn withdraw(transaction: u32) -> Call {
    Call::Withdraw { transaction }
}

pub fn settle(transaction: u32, ground: u16) -> Call {
    Call::Settle {
        transaction,
        ground,
    }
}

pub fn value(value: i16, stamp: u32) -> Response {
    Ok(Reply::Value {
        value,
        stamp: Stamp::in_word(stamp),
    })
}

pub fn range(lower: i32, upper: i32) -> Response {
    Ok(Reply::Range { lower, upper })
}

pub fn commit(stamp: u32) -> Response {
    Ok(Reply::Committed {
        stamp: Stamp::in_word(stamp),
    })
}

/// Makes some calls, each of which is to have its answer.
pub fn play<S: Store, P: Policy>(
    rt: &impl Abort,
    register: &mut Register<'_, S, P>,
    script: &[(Call, Response)],
) {
    for (i, (call, response)) in script.iter().enumerate() {
        assert_eq!(rt; register.call(*call), *response, "call {i}, {call:?}");
    }
}
