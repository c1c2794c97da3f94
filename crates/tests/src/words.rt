use base::value::{bits_of, value_of};
use base::{Field, Place, Refusal, Stamp, TOP};
use image::{Cause, Fault};
use std::test::Fail;
use survey::offset::{Direction, Offset};
use wire::bytes::fill_words;
use wire::word::{
    StampKind, WordFault, aborted_word, done_word, key_in, key_word, refusal_word, stamp_in,
    stamp_word, value_in, value_word,
};

#[test]
fn values_follow_the_chart(rt: HostRuntime) {
    let chart: [(u16, i16); 6] = [
        (0, 0),
        (1, 1),
        (0x7FFF, 32_767),
        (0x8000, -32_768),
        (0xFFFE, -2),
        (0xFFFF, -1),
    ];
    for (bits, value) in chart {
        assert_eq!(rt; value_of(bits), value);
        assert_eq!(rt; bits_of(value), bits);
    }
    assert_eq!(rt; value_in(0x9000_8000), Ok(-32_768));
    assert_eq!(rt; value_in(0x9000_7FFF), Ok(32_767));
    assert_eq!(rt; value_word(-7), 0x9000_FFF9);
}

#[test]
fn keys_have_three_parts(rt: HostRuntime) -> Result<(), Fail> {
    let corners: [(u16, u16, u16, Field); 5] = [
        (0, 0, 0, Field::East),
        (3, 0, 0, Field::Status),
        (8191, 0, 2047, Field::Status),
        (8204, 1, 3, Field::East),
        (65535, 7, 2047, Field::Status),
    ];
    for (key, ground, plot, field) in corners {
        let place = Place::new(ground, plot, field).ok_or("no such place")?;
        assert_eq!(rt; u16::from(place), key);
        assert_eq!(rt; Place::from(key), place);
    }
    assert_eq!(rt; Place::new(8, 0, Field::North), None);
    assert_eq!(rt; Place::new(0, 2048, Field::Holder), None);
    Ok(())
}

#[test]
fn stamps_end_at_top(rt: HostRuntime) -> Result<(), Fail> {
    let top = Stamp::new(TOP).ok_or("TOP is a stamp")?;
    assert_eq!(rt; Stamp::new(TOP + 1), None);
    assert_eq!(rt; top.bound(), 268_435_455);
    assert_eq!(rt; top.above(), 268_435_456);
    assert_eq!(rt; Stamp::in_word(0).below(), -1);
    assert_eq!(rt; Stamp::from_bound(268_435_455), Some(top));
    assert_eq!(rt; Stamp::from_bound(268_435_456), None);
    assert_eq!(rt; Stamp::from_bound(-1), None);
    assert_eq!(rt; stamp_in(StampKind::Write, 0xEFFF_FFFF), Ok(top));
    assert_eq!(rt;
        stamp_in(StampKind::Read, 0xEFFF_FFFF),
        Err(WordFault::WrongKind)
    );
    assert_eq!(rt; stamp_word(StampKind::Read, top), 0xFFFF_FFFF);
    Ok(())
}

#[test]
fn bad_words_are_told_apart(rt: HostRuntime) {
    assert_eq!(rt; key_in(key_word(8204)), Ok(8204));
    assert_eq!(rt; key_in(0x8001_0000), Err(WordFault::StrayBits));
    assert_eq!(rt; key_in(0x9000_0000), Err(WordFault::WrongKind));
    assert_eq!(rt; value_in(0x9800_0000), Err(WordFault::StrayBits));
    assert_eq!(rt; value_in(0x0000_0000), Err(WordFault::WrongKind));
}

#[test]
fn answers_have_their_words(rt: HostRuntime) {
    assert_eq!(rt; done_word(0), 0xA000_0000);
    assert_eq!(rt; done_word(64), 0xA000_0040);
    assert_eq!(rt;
        stamp_word(StampKind::Answer, Stamp::in_word(1)),
        0xB000_0001
    );
    assert_eq!(rt; aborted_word(), 0xC000_0000);
    assert_eq!(rt; refusal_word(0, Refusal::Malformed), 0xD000_000C);
    assert_eq!(rt; refusal_word(1, Refusal::NoSuchKey), 0xD001_000B);
}

#[test]
fn bytes_come_lowest_first(rt: HostRuntime) {
    let bytes = [0, 0, 1, 0x10, 0xFF, 0xFF, 0, 0x90, 7];
    let mut words = [1, 2, 3];
    assert_eq!(rt; fill_words(&mut words, &bytes), 1);
    assert_eq!(rt; words, [0x1001_0000, 0x9000_FFFF, 3]);
    let mut few = [1];
    assert_eq!(rt; fill_words(&mut few, &bytes), 1);
    assert_eq!(rt; few, [0x1001_0000]);
    assert_eq!(rt; fill_words(&mut few, &bytes[..3]), 3);
    assert_eq!(rt; few, [0x1001_0000]);
}

#[test]
fn refusals_say_their_cause(rt: HostRuntime) -> Result<(), Fail> {
    assert_eq!(rt; u16::from(Refusal::BadNumber), 1);
    assert_eq!(rt; u16::from(Refusal::BadStore), 13);
    assert_eq!(rt;
        Refusal::NoSuchKey.to_string(rt.alloc())?.as_str(),
        "the store has no such key"
    );
    Ok(())
}

#[test]
fn faults_say_their_cause_and_line(rt: HostRuntime) -> Result<(), Fail> {
    let heap = rt.alloc();
    let cause = Cause::StrayBits;
    assert_eq!(rt; cause.to_string(heap)?.as_str(), "a word has stray bits");
    let fault = Fault { cause, line: None };
    assert_eq!(rt; fault.to_string(heap)?.as_str(), "a word has stray bits");
    let fault = Fault {
        cause,
        line: Some(40),
    };
    assert_eq!(rt;
        fault.to_string(heap)?.as_str(),
        "a word has stray bits, line 40 (the first is 0)"
    );
    Ok(())
}

#[test]
fn west_is_told_as_west(rt: HostRuntime) {
    let offset = Offset::east(-32_768);
    assert_eq!(rt;
        offset,
        Offset {
            direction: Direction::West,
            metres: 3276,
            decimetres: 8,
        }
    );
    assert_eq!(rt;
        Offset::north(-1),
        Offset {
            direction: Direction::South,
            metres: 0,
            decimetres: 1,
        }
    );
    assert_eq!(rt;
        Offset::east(32_767),
        Offset {
            direction: Direction::East,
            metres: 3276,
            decimetres: 7,
        }
    );
}
