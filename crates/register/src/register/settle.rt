ghost use Rattle.std.specs.Prelude.{◌≡◌, OnErr};
ghost use Rattle.store.specs.Stores.{Puts};
ghost use Rattle.protocol.specs.Calls.{settle};
ghost use Rattle.register.specs.Registers.{model, Keeps, KeepsButRowsAndCells};

use crate::ending::{settle_reads, settle_writes};
use crate::register::Register;
use base::Refusal;
use lines::row::{Event, RowKey};
use policy::Policy;
use store::Store;

impl<'a, S: Store, P: Policy> Register<'a, S, P> {
    /// Settles a decided transaction at a ground, 0 to 7 (above it has no row): its row there is finished, and where it is committed, its
    /// stamp and values go into the cells that it read and wrote there, where its stamp is the larger. Refused with 3, 9, 6 and 10, in
    /// this order; and with 8 where a committed transaction's row is Running, which no day brings about.
    #[tactic(auto, using(store::specs::Stores::none))]
    pub fn settle(&mut self, transaction: u32, ground: u16) -> Result<(), Refusal>
        ensures model { ◌≡◌ (model S.cells self.new, result) (settle (model S.cells self.old) transaction ground) }
        ensures refused { OnErr result (self.new ≡ self.old) }
        ensures keeps { Keeps self.old self.new }
        ensures rest { KeepsButRowsAndCells self.old self.new }
        ensures store { Puts S.beside self.old.store self.new.store }
    {
        let event = self.check_decided(transaction)?;
        let own = RowKey {
            transaction,
            ground,
        };
        let Some((place, row)) = self.rows.locate(own) else {
            return Err(Refusal::NoRow);
        };
        self.rows.move_row(place, row, event)?;
        if let Event::Commit { stamp } = event {
            settle_reads(&mut self.store, own, self.reads.lines(), stamp);
            settle_writes(&mut self.store, own, self.writes.lines(), stamp);
        }
        Ok(())
    }
}
