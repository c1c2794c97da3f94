ghost use Rattle.serial.specs.Agreement.{Local};
ghost use Rattle.serial.specs.Crossing.{CrossingSays};
ghost use Rattle.serial.specs.Days.{DaysAreCalls};
ghost use Rattle.serial.specs.OnDays.{DaysAreSerial};
ghost use Rattle.serial.specs.Promise.{Promise};

/// Of every day, whatever calls were made on a register that was new, under a policy that keeps its meaning: committed transactions are
/// serial in the order of (stamp, number); wherever a transaction is alone from its begin to its decide it commits, while stamps last;
/// and a validation depends on its ground alone. A law, as the others here: it does nothing.
pub fn promise_holds()
    ensures { Promise }
{}

/// Any calls on a new register make a day of which the promise speaks, and the history of a day leads to one register.
pub fn days_are_calls()
    ensures { DaysAreCalls }
{}

/// What the promise says of a day on which two transactions cross two grounds, one settles late and a third reads between them.
pub fn promise_speaks()
    ensures { CrossingSays }
{}

/// A validation depends on its ground alone, on any two registers that agree there and whose rows keep to the limits of their bounds,
/// whether a day led to them or not, and under any policy.
pub fn validation_is_local()
    ensures { Local }
{}

/// On each worked day the serial order tells every committed reader what it was answered and, where nothing is owed, ends with the
/// values in the cells.
pub fn days_are_serial()
    ensures { DaysAreSerial }
{}
