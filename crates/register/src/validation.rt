// What a validation takes of the stamps that are left to a transaction at a ground, beside the rows that notes name with it.

ghost use Rattle.std.specs.Prelude.{◌≡◌, ◌≤◌, ◌<◌, [], ◌∷◌, ◌++◌, cond, pos, ◌≤ℤ◌, length, IfSome};
ghost use Rattle.std.specs.List.{AllByRecursion};
ghost use Rattle.base.specs.declared.stamp.TheConstants.{TOP};
ghost use Rattle.book.specs.Books.{Stays, lines_of};
ghost use Rattle.lines.specs.Rows.{IsBounded};
ghost use Rattle.protocol.specs.Among.{raised_above, lowered_below};
ghost use Rattle.register.specs.Lookups.{relation_in};
ghost use Rattle.register.specs.Registers.{IsOfStamps};
ghost use Rattle.register.specs.Relations.{
  relation_of,
  floors_by,
  ceilings_by,
  lists_by,
  floors_beside,
  ceilings_beside,
  befores_beside,
  afters_beside,
  choice,
  choice_beside,
  rows_beside,
  event_of,
};

use crate::gathered::Gathered;
use crate::range::Range;
use crate::relation::{Lists, Relation, names};
use crate::row_book::RowBook;
use crate::slots::Relations;
use lines::note::Note;
use lines::row::{Event, ROWS, Row, RowKey};
use policy::Policy;

// Adds the lower bound of a row to those of the rows before, if it is one.
fn gather_before(befores: &mut Gathered<i32, ROWS>, lists: Lists, row: &Row)
    requires { length befores.old < 256 }
    ensures { befores.new ≡ befores.old ++ cond lists.before (row.now.lower ∷ []) [] }
{
    if lists.before {
        befores.push(row.lower);
    }
}

// Adds the upper bound of a row to those of the rows after, if it is one.
fn gather_after(afters: &mut Gathered<i32, ROWS>, lists: Lists, row: &Row)
    requires { length afters.old < 256 }
    ensures { afters.new ≡ afters.old ++ cond lists.after (row.now.upper ∷ []) [] }
{
    if lists.after {
        afters.push(row.upper);
    }
}

// What a policy takes of a range, given the lowers of the rows before and the uppers of the rows after; nothing of an empty one.
fn choose<P: Policy>(
    policy: &P,
    range: Range,
    befores: &[i32],
    afters: &[i32],
) -> Option<(i32, i32)>
    requires stamps { (pos 0 ≤ℤ range.lower) × (range.upper ≤ℤ pos TOP) }
    ensures taken { result ≡ choice (P.chosen policy.now) range.lower range.upper befores.now afters.now }
    ensures stamps { IfSome result IsOfStamps }
{
    if range.is_empty() {
        return None;
    }
    Some(policy.choose(range.lower, range.upper, befores, afters))
}

// What one more row leaves of a range; its bounds go into the lists that it is on.
fn look_at(
    range: Range,
    relation: Relation,
    row: &Row,
    befores: &mut Gathered<i32, ROWS>,
    afters: &mut Gathered<i32, ROWS>,
) -> Range
    requires few { (length befores.old < 256) × (length afters.old < 256) }
    requires bounded { IsBounded row.now }
    ensures lower { result.lower ≡ raised_above range.lower (floors_by relation row.now) }
    ensures upper { result.upper ≡ lowered_below range.upper (ceilings_by relation row.now) }
    ensures befores { befores.new ≡ befores.old ++ cond (lists_by relation row.now).before (row.now.lower ∷ []) [] }
    ensures afters { afters.new ≡ afters.old ++ cond (lists_by relation row.now).after (row.now.upper ∷ []) [] }
{
    let lists = relation.lists(row);
    gather_before(befores, lists, row);
    gather_after(afters, lists, row);
    relation.narrow(range, row)
}

// What rows leave of a range, each of which is gone over once; the bounds of those that have to make way go into the two lists.
fn look_over(
    range: Range,
    relations: &Relations,
    rows: &[Row],
    befores: &mut Gathered<i32, ROWS>,
    afters: &mut Gathered<i32, ROWS>,
) -> Range
    requires empty { (befores.old ≡ []) × (afters.old ≡ []) }
    requires few { length rows.now ≤ 256 }
    requires bounded { AllByRecursion IsBounded rows.now }
    ensures lower { result.lower ≡ raised_above range.lower (floors_beside (relation_in relations.now) rows.now) }
    ensures upper { result.upper ≡ lowered_below range.upper (ceilings_beside (relation_in relations.now) rows.now) }
    ensures befores { befores.new ≡ befores_beside (relation_in relations.now) rows.now }
    ensures afters { afters.new ≡ afters_beside (relation_in relations.now) rows.now }
{
    let mut left = range;
    for row in rows {
        left = look_at(left, relations.to(row), row, befores, afters);
    }
    left
}

// What a transaction takes of a range beside the rows of its ground, of which some note speaks. The policy is shown those that have to
// make way in the order of the row book.
// Apart, since what notes say and the two lists lie in arrays, and most validations have no note.
#[inline(never)]
fn take_beside<P: Policy>(
    policy: &P,
    range: Range,
    notes: &[Note],
    own: RowKey,
    rows: &mut RowBook,
) -> Option<(i32, i32)>
    requires stamps { (pos 0 ≤ℤ range.lower) × (range.upper ≤ℤ pos TOP) }
    ensures taken { result ≡ choice_beside (relation_of notes.now own.transaction own.ground) (P.chosen policy.now)
        range.lower range.upper (lines_of rows.old.book) }
    ensures rows { lines_of rows.new.book
        ≡ rows_beside (relation_of notes.now own.transaction own.ground) result (lines_of rows.old.book) }
    ensures stays { Stays rows.old.book rows.new.book }
    ensures stamps { IfSome result IsOfStamps }
{
    let relations = Relations::of_notes(notes, own);
    let mut befores: Gathered<i32, ROWS> = Gathered::new(0);
    let mut afters: Gathered<i32, ROWS> = Gathered::new(0);
    let left = look_over(range, &relations, rows.lines(), &mut befores, &mut afters);
    let taken = choose(policy, left, befores.as_slice(), afters.as_slice())?;
    if !befores.as_slice().is_empty() || !afters.as_slice().is_empty() {
        rows.make_way(&relations, taken);
    }
    Some(taken)
}

/// What a transaction takes at its ground of a range of stamps, and which rows make way for it: what the policy chooses of what the notes
/// leave, or nothing where they leave none. Where no note names the transaction, all is left and no row is looked at.
pub fn take<P: Policy>(
    policy: &P,
    range: Range,
    notes: &[Note],
    own: RowKey,
    rows: &mut RowBook,
) -> Option<(i32, i32)>
    requires stamps { (pos 0 ≤ℤ range.lower) × (range.upper ≤ℤ pos TOP) }
    ensures taken { result ≡ choice_beside (relation_of notes.now own.transaction own.ground) (P.chosen policy.now)
        range.lower range.upper (lines_of rows.old.book) }
    ensures rows { lines_of rows.new.book
        ≡ rows_beside (relation_of notes.now own.transaction own.ground) result (lines_of rows.old.book) }
    ensures stays { Stays rows.old.book rows.new.book }
    ensures stamps { IfSome result IsOfStamps }
{
    if notes.iter().any(|note| names(note, own.transaction)) {
        take_beside(policy, range, notes, own, rows)
    } else {
        choose(policy, range, &[], &[])
    }
}

/// What a validation's answer is for the row: it passes with the range taken, or fails where nothing is.
pub fn event_of(taken: Option<(i32, i32)>) -> Event
    ensures { result ≡ event_of taken }
{
    match taken {
        Some((lower, upper)) => Event::Pass { lower, upper },
        None => Event::Fail,
    }
}
