use base::Refusal;
use std::alloc::{AllocError, Global};
use std::process::Abort;
use std::test::Fail;
use wire::message::{Message, pair_at};

// Reads words that begin with no message.
fn refused(rt: &impl Abort, words: &[u32]) {
    let (message, passed) = Message::read(words);
    assert_eq!(rt; message, Err(Refusal::Malformed));
    assert_eq!(rt; passed, words.len().min(1));
}

#[test]
fn each_bad_form_is_refused(rt: HostRuntime) {
    refused(&rt, &[]);
    refused(&rt, &[0x0001_0000]);
    refused(&rt, &[0x8000_0000, 0x1001_0000]);
    refused(&rt, &[0xF000_0000]);
    refused(&rt, &[0x1001_0001]);
    refused(&rt, &[0x5001_0001]);
    refused(&rt, &[0x6001_8000]);
    refused(&rt, &[0x3001_0000]);
    refused(&rt, &[0x3001_0001]);
    refused(&rt, &[0x3001_0001, 0x8000_0000]);
    refused(&rt, &[0x3001_0001, 0x9000_0000, 0x9000_0000]);
    refused(&rt, &[0x3001_0001, 0x8001_0000, 0x9000_0000]);
    refused(&rt, &[0x3001_0001, 0x8000_0000, 0x8000_0000]);
    refused(&rt, &[0x3001_0001, 0x8000_0000, 0x9800_0000]);
}

// A prewrite head that claims `count` pairs, and 65 good pairs after it.
fn prewrite_of(heap: Global, count: u32) -> Result<Vec<u32>, AllocError> {
    let mut words = Vec::new(heap);
    words.push(0x3001_0000 | count)?;
    for _ in 0..65 {
        words.push(0x8000_0000)?;
        words.push(0x9000_0000)?;
    }
    Ok(words)
}

#[test]
fn a_prewrite_has_64_pairs_at_most(rt: HostRuntime) -> Result<(), Fail> {
    refused(&rt, prewrite_of(rt.alloc(), 65)?.as_slice());
    reads_and_writes(&rt, prewrite_of(rt.alloc(), 64)?.as_slice(), 129)
}

// Reads words that begin with a message of `taken` words, and writes the message again.
fn reads_and_writes(rt: &impl Abort, words: &[u32], taken: usize) -> Result<(), Fail> {
    let (message, passed) = Message::read(words);
    assert_eq!(rt; passed, taken);
    let written = message?.words().ok_or("it has no words")?;
    assert_eq!(rt; Some(&written.head), words.first());
    assert_eq!(rt; Some(written.pairs), words.get(1..taken));
    Ok(())
}

#[test]
fn good_messages_come_back(rt: HostRuntime) -> Result<(), Fail> {
    reads_and_writes(&rt, &[0x1FFF_0000, 0x1001_0000], 1)?;
    reads_and_writes(&rt, &[0x2001_FFFF], 1)?;
    reads_and_writes(
        &rt,
        &[
            0x3002_0002,
            0x8000_0000,
            0x9000_FFF9,
            0x8000_0400,
            0x9000_0001,
            0,
        ],
        5,
    )?;
    reads_and_writes(&rt, &[0x4001_FFFF], 1)?;
    reads_and_writes(&rt, &[0x5000_0000], 1)?;
    reads_and_writes(&rt, &[0x6001_0000], 1)?;
    reads_and_writes(&rt, &[0x7001_0008], 1)
}

#[test]
fn a_message_that_no_words_say_is_not_written(rt: HostRuntime) {
    assert!(rt; Message::Begin { transaction: 4096 }.words().is_none());
    assert!(rt;
        Message::Prewrite {
            transaction: 1,
            pairs: &[],
        }
        .words()
        .is_none()
    );
    assert!(rt;
        Message::Prewrite {
            transaction: 1,
            pairs: &[0x8000_0000],
        }
        .words()
        .is_none()
    );
}

#[test]
fn pairs_are_read_with_their_sign(rt: HostRuntime) -> Result<(), Fail> {
    let words = [
        0x3002_0002,
        0x8000_0000,
        0x9000_FFF9,
        0x8000_0400,
        0x9000_7FFF,
    ];
    let (message, _) = Message::read(&words);
    let Message::Prewrite { transaction, pairs } = message? else {
        return Err(Fail::new("no prewrite"));
    };
    assert_eq!(rt; transaction, 2);
    assert_eq!(rt; pair_at(pairs, 0), Some((0, -7)));
    assert_eq!(rt; pair_at(pairs, 1), Some((1024, 32_767)));
    assert_eq!(rt; pair_at(pairs, 2), None);
    Ok(())
}
