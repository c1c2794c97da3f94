ghost use Rattle.std.specs.Prelude.{◌≡◌, OnErr};
ghost use Rattle.protocol.specs.Calls.{read};
ghost use Rattle.register.specs.Registers.{model, Keeps};

use crate::access::{add_line, add_notes};
use crate::register::Register;
use base::{Refusal, Stamp};
use lines::access::{AccessKey, ReadLine};
use lines::note::Side;
use policy::Policy;
use store::Store;

impl<'a, S: Store, P: Policy> Register<'a, S, P> {
    /// Reads a cell, of any key: answers its value, -32,768 to 32,767, and write stamp, 0 to TOP, which stay the same for the transaction
    /// however often it reads. Refused with 3, 4, 11, 5, 7 and 2, in this order.
    pub fn read(&mut self, transaction: u32, key: u16) -> Result<(i16, Stamp), Refusal>
        ensures model { ◌≡◌ (model S.cells self.new, result) (read (model S.cells self.old) transaction key) }
        ensures refused { OnErr result (self.new ≡ self.old) }
        ensures keeps { Keeps self.old self.new }
        ensures store { self.new.store ≡ self.old.store }
    {
        self.check_open(transaction)?;
        let cell = self.check_key(key)?;
        let access = AccessKey { transaction, key };
        let needs_row = self.check_not_stopped(access)?;
        self.check_unwritten(transaction)?;
        if let Some(line) = self.reads.find_last(access) {
            return Ok((line.value, line.seen));
        }
        self.check_read_room(access, needs_row)?;
        add_notes(
            &mut self.notes,
            self.writes.lines(),
            &self.rows,
            access,
            Side::Earlier,
        );
        self.rows.add_needed(access.row_key(), needs_row);
        add_line(
            &mut self.reads,
            ReadLine {
                transaction,
                key,
                value: cell.value,
                seen: cell.write,
            },
        );
        Ok((cell.value, cell.write))
    }
}
