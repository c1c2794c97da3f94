ghost use Rattle.std.specs.Prelude.{◌≡◌, OnErr};
ghost use Rattle.protocol.specs.Calls.{prewrite};
ghost use Rattle.register.specs.Registers.{model, Keeps};

use crate::access::{add_line, add_notes};
use crate::register::Register;
use base::Refusal;
use lines::access::{AccessKey, WriteLine};
use lines::note::Side;
use policy::Policy;
use store::Store;

impl<'a, S: Store, P: Policy> Register<'a, S, P> {
    /// Says what a transaction will write into a cell: any key, any value. A second prewrite of a key replaces the value. Refused with 3,
    /// 4, 11, 5 and 2, in this order.
    pub fn prewrite(&mut self, transaction: u32, key: u16, value: i16) -> Result<(), Refusal>
        ensures model { ◌≡◌ (model S.cells self.new, result) (prewrite (model S.cells self.old) transaction key value) }
        ensures refused { OnErr result (self.new ≡ self.old) }
        ensures keeps { Keeps self.old self.new }
        ensures store { self.new.store ≡ self.old.store }
    {
        self.check_open(transaction)?;
        self.check_key(key)?;
        let access = AccessKey { transaction, key };
        let needs_row = self.check_not_stopped(access)?;
        let line = WriteLine {
            transaction,
            key,
            value,
        };
        if let Some(place) = self.writes.search_last(access) {
            // The place is one of the book's, so the line is set.
            self.writes.set(place, line);
            return Ok(());
        }
        self.check_prewrite_room(access, needs_row)?;
        add_notes(
            &mut self.notes,
            self.reads.lines(),
            &self.rows,
            access,
            Side::Later,
        );
        add_notes(
            &mut self.notes,
            self.writes.lines(),
            &self.rows,
            access,
            Side::Apart,
        );
        self.rows.add_needed(access.row_key(), needs_row);
        add_line(&mut self.writes, line);
        Ok(())
    }
}
