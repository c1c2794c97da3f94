use base::Refusal;
use book::{Book, Line};
use std::process::Abort;
use std::test::Fail;

// A line with its key, and a mark to tell lines of one key apart.
#[derive(Clone, Copy, PartialEq, Debug)]
struct Entry(u32, u8);

impl Line for Entry {
    type Key = u32;

    ghost keyed = { λ x. x.0 };

    fn key(&self) -> u32 {
        self.0
    }
}

// What stands in memory before a book is kept there.
const OLD: Entry = Entry(99, 0);

// Adds a line for which there is no room.
fn refused(rt: &impl Abort, book: &mut Book<Entry>) {
    assert_eq!(rt; book.add(Entry(7, 7)), Err(Refusal::NoRoom));
}

#[test]
fn empty(rt: HostRuntime) {
    let mut memory = [OLD; 2];
    let book = Book::new(&mut memory, 2);
    assert_eq!(rt; book.len(), 0);
    assert_eq!(rt; book.free(), 2);
    assert_eq!(rt; book.get(0), None);
    assert_eq!(rt; book.search(99), None);
    assert_eq!(rt; book.largest(), None);
    assert_eq!(rt; memory, [OLD, OLD]);
}

#[test]
fn full(rt: HostRuntime) -> Result<(), Fail> {
    let mut memory = [OLD; 2];
    let mut book = Book::new(&mut memory, 2);
    book.add(Entry(1, 0))?;
    book.add(Entry(2, 0))?;
    assert_eq!(rt; book.free(), 0);
    refused(&rt, &mut book);
    assert_eq!(rt; book.len(), 2);
    assert_eq!(rt; memory, [Entry(1, 0), Entry(2, 0)]);
    Ok(())
}

#[test]
fn limit_below_memory(rt: HostRuntime) -> Result<(), Fail> {
    let mut memory = [OLD; 2];
    let mut book = Book::new(&mut memory, 1);
    assert_eq!(rt; book.free(), 1);
    book.add(Entry(1, 0))?;
    refused(&rt, &mut book);
    assert_eq!(rt; memory, [Entry(1, 0), OLD]);
    Ok(())
}

#[test]
fn limit_above_memory(rt: HostRuntime) -> Result<(), Fail> {
    let mut memory = [OLD; 1];
    let mut book = Book::new(&mut memory, 256);
    assert_eq!(rt; book.free(), 1);
    book.add(Entry(1, 0))?;
    refused(&rt, &mut book);
    assert_eq!(rt; memory, [Entry(1, 0)]);
    Ok(())
}

#[test]
fn no_room(rt: HostRuntime) {
    let mut memory = [OLD; 1];
    refused(&rt, &mut Book::new(&mut memory, 0));
    assert_eq!(rt; memory, [OLD]);
    refused(&rt, &mut Book::new(&mut [], 1));
    assert_eq!(rt; u16::from(Refusal::NoRoom), 2);
}

#[test]
fn finds(rt: HostRuntime) -> Result<(), Fail> {
    let mut memory = [OLD; 4];
    let mut book = Book::new(&mut memory, 4);
    book.add(Entry(5, 0))?;
    book.add(Entry(8, 1))?;
    book.add(Entry(8, 2))?;
    assert_eq!(rt; book.search(8), Some(1));
    assert_eq!(rt; book.search(6), None);
    assert_eq!(rt; book.largest(), Some(8));
    assert_eq!(rt; book.lines().len(), 3);
    Ok(())
}

#[test]
fn replaces(rt: HostRuntime) -> Result<(), Fail> {
    let mut memory = [OLD; 3];
    let mut book = Book::new(&mut memory, 3);
    book.add(Entry(1, 0))?;
    book.add(Entry(2, 0))?;
    assert!(rt; book.set(1, Entry(3, 1)));
    assert_eq!(rt; book.get(1), Some(Entry(3, 1)));
    assert!(rt; !book.set(2, Entry(4, 0)));
    assert_eq!(rt; book.get(2), None);
    assert_eq!(rt; memory, [Entry(1, 0), Entry(3, 1), OLD]);
    Ok(())
}
