//! A clerk's errand, as code that holds a ticket and a slip is written: the graves of one plot are moved west, on two grounds at once.

use base::Refusal;
use client::Ticket;
use lines::transaction::Decision;
use policy::Policy;
use register::Register;
use store::Store;

#[cfg(test)]
mod tests;

/// The key of the offset east of plot 0 of ground 0, and that of plot 0 of ground 1.
pub const EAST: [u16; 2] = [0, 8192];

/// How an errand ended: the decision, or why it was withdrawn; and how many rows were settled at its end.
pub type Ending = (Result<Decision, Refusal>, usize);

/// A ticket that was neither decided nor withdrawn, with the refusal.
pub type Kept = (Ticket, Refusal);

// What the errand asks of the register before it is decided: all reads, then all prewrites, then each ground. The first refusal ends it.
fn move_west<S: Store, P: Policy>(
    register: &mut Register<'_, S, P>,
    ticket: &Ticket,
    decimetres: i16,
) -> Result<(), Refusal> {
    let (here, _) = ticket.read(register, EAST[0])?;
    let (beside, _) = ticket.read(register, EAST[1])?;
    ticket.prewrite(register, EAST[0], here.saturating_sub(decimetres))?;
    ticket.prewrite(register, EAST[1], beside.saturating_sub(decimetres))?;
    ticket.validate(register, 0)?;
    ticket.validate(register, 1)?;
    Ok(())
}

/// Moves both graves west, decides, and settles all grounds by the slip. Where something is refused it withdraws, and settles what it has
/// touched by then. The ticket comes back where neither is accepted.
pub fn run<S: Store, P: Policy>(
    register: &mut Register<'_, S, P>,
    ticket: Ticket,
    decimetres: i16,
) -> Result<Ending, Kept> {
    if let Err(refusal) = move_west(register, &ticket, decimetres) {
        let slip = ticket.withdraw(register)?;
        return Ok((Err(refusal), slip.settle_rest(register)));
    }
    let (decision, slip) = ticket.decide(register)?;
    Ok((Ok(decision), slip.settle_rest(register)))
}
