// What the notes of a ground say of a transaction and of all others there.

ghost use Rattle.std.specs.Prelude.{◌≡◌, ◌%◌, false, slice_index_or};
ghost use Rattle.register.specs.Relations.{relation_of};
ghost use Rattle.register.specs.Slots.{is_for, slot_with, empty_slot, place_of, entered, AreTold};

use crate::gathered::Gathered;
use crate::relation::{Relation, other_party, side_at};
use lines::note::{Note, Side};
use lines::row::{Row, RowKey};
use lines::transaction::TRANSACTIONS;

// What the notes say of the transaction and of the first of those whose slot it is that they name; of nobody yet where it is empty.
#[derive(Clone, Copy)]
struct Slot {
    of: Option<u32>,
    relation: Relation,
}

// The slot that is a transaction's by its number. There are as many as a register has transactions.
fn slot_of(transaction: u32) -> usize
    ensures { result ≡ transaction % 64 }
{
    transaction as usize % TRANSACTIONS
}

impl Slot {
    // Whether it is empty, or this one's.
    fn is_for(self, other: u32) -> bool
        ensures { result ≡ is_for self other }
    {
        self.of.is_none_or(|of| of == other)
    }

    // It after one more note, which says this of one whom it is for.
    fn with(self, other: u32, side: Side) -> Slot
        ensures { result ≡ slot_with self other side }
    {
        Slot {
            of: Some(other),
            relation: self.relation.with(Some(side)),
        }
    }
}

// What the notes say of the transaction and of one whose slot is another's.
#[derive(Clone, Copy)]
struct Entry {
    of: u32,
    relation: Relation,
}

// Where the entry of another lies, if it has one.
fn place_of(entries: &[Entry], other: u32) -> Option<usize>
    ensures { result ≡ place_of entries.now other }
{
    entries.iter().position(|entry| entry.of == other)
}

// Enters what one more note says of another. Where it has no entry and there is no room for one more, it is left out.
// Apart, so that the pass over the notes stays short.
#[inline(never)]
fn enter(entries: &mut Gathered<Entry, TRANSACTIONS>, of: u32, side: Side)
    ensures { entries.new ≡ entered entries.old of side }
{
    if let Some(place) = place_of(entries.as_slice(), of) {
        let relation = entries.as_slice()[place].relation.with(Some(side));
        entries.set(place, Entry { of, relation });
    } else if entries.as_slice().len() < TRANSACTIONS {
        let relation = Relation::none().with(Some(side));
        entries.push(Entry { of, relation });
    }
}

/// What notes say of a transaction at its ground and of each other, found in one pass over them: in the other's slot, or in an entry where
/// that is taken. There is room for as many entries as a register has transactions; of one that finds none the notes are asked anew.
#[derive(Drop)]
pub struct Relations<'n> {
    own: RowKey,
    notes: &'n [Note],
    slots: [Slot; TRANSACTIONS],
    entries: Gathered<Entry, TRANSACTIONS>,
    ghost told: { ∥ AreTold slots entries notes.now own ∥₁ },
}

impl<'n> Relations<'n> {
    ghost use Rattle.register.specs.Lookups.{relation_in};

    /// What the notes say of the transaction at its ground.
    pub fn of_notes(notes: &'n [Note], own: RowKey) -> Relations<'n>
        ensures { relation_in result ≡ relation_of notes.now own.transaction own.ground }
    {
        let empty = Slot {
            of: None,
            relation: Relation::none(),
        };
        let mut slots = [empty; TRANSACTIONS];
        let mut entries: Gathered<Entry, TRANSACTIONS> = Gathered::new(Entry {
            of: 0,
            relation: Relation::none(),
        });
        for note in notes {
            if let Some(side) = side_at(note, own) {
                let other = other_party(note, own.transaction);
                let slot = slot_of(other);
                if slots[slot].is_for(other) {
                    slots[slot] = slots[slot].with(other, side);
                } else {
                    enter(&mut entries, other, side);
                }
            }
        }
        Relations {
            own,
            notes,
            slots,
            entries,
        }
    }

    /// What they say of it and of the one whose row the other is.
    pub fn to(&self, other: &Row) -> Relation
        ensures { result ≡ relation_in self.now other.now }
    {
        if other.ground != self.own.ground {
            return Relation::none();
        }
        let slot = self.slots[slot_of(other.transaction)];
        if slot.is_for(other.transaction) {
            slot.relation
        } else {
            self.beside(other)
        }
    }

    // What they say of it and of one at its ground whose slot is another's. Where it has no entry, no note speaks of it, unless one was
    // left out. Apart, since most have a slot.
    #[inline(never)]
    fn beside(&self, other: &Row) -> Relation
        requires here { other.now.ground ≡ self.now.own.ground }
        requires taken { is_for (slice_index_or self.now.slots (other.now.transaction % 64) empty_slot) other.now.transaction ≡ false }
        ensures { result ≡ relation_in self.now other.now }
    {
        if let Some(place) = place_of(self.entries.as_slice(), other.transaction) {
            self.entries.as_slice()[place].relation
        } else if self.entries.as_slice().len() < TRANSACTIONS {
            Relation::none()
        } else {
            Relation::between(self.notes, self.own, other)
        }
    }
}
