use std::alloc::Global;
use std::io;
use std::process::Abort;
use std::test::Fail;
use survey::printing::run;

// The bytes of words, lowest first.
fn bytes_of(heap: Global, words: &[u32]) -> io::Result<Vec<u8>> {
    let mut bytes = Vec::new(heap);
    for word in words {
        bytes.extend_from_slice(&word.to_le_bytes())?;
    }
    Ok(bytes)
}

// Whether an image of these bytes prints one text among the errors and nothing else.
fn is_refused(rt: &impl Abort, heap: Global, bytes: &[u8], text: &str) -> Result<(), Fail> {
    let mut input = bytes;
    let mut out = Vec::new(heap);
    let mut errors = Vec::new(heap);
    assert!(rt; !run(heap, &mut input, &mut out, &mut errors)?);
    assert!(rt; out.is_empty());
    assert_eq!(rt; errors.as_slice(), text.as_bytes());
    Ok(())
}

#[test]
fn bad_images_are_refused_with_their_fault(rt: HostRuntime) -> Result<(), Fail> {
    let heap = rt.alloc();
    let good = [0x8000_0000, 0x9000_0001, 0xE000_0000, 0xF000_0000];
    let mut bytes = bytes_of(heap, &good)?;
    bytes.push(7)?;
    is_refused(
        &rt,
        heap,
        &bytes,
        "refusal 13, this makes no good store: the words end within a line\n",
    )?;
    is_refused(
        &rt,
        heap,
        &bytes_of(heap, &good[..3])?,
        "refusal 13, this makes no good store: the words end within a line\n",
    )?;
    is_refused(
        &rt,
        heap,
        &bytes_of(heap, &[0x9000_0000, 0x9000_0001, 0xE000_0000, 0xF000_0000])?,
        "refusal 13, this makes no good store: a word is of a wrong kind, line 0 (the first is 0)\n",
    )?;
    is_refused(
        &rt,
        heap,
        &bytes_of(
            heap,
            &[
                0x8000_0000,
                0x9000_0001,
                0xE000_0000,
                0xF000_0000,
                0x8000_0001,
                0x9001_0001,
                0xE000_0000,
                0xF000_0000,
            ],
        )?,
        "refusal 13, this makes no good store: a word has stray bits, line 1 (the first is 0)\n",
    )?;
    is_refused(
        &rt,
        heap,
        &bytes_of(
            heap,
            &[
                0x8000_0001,
                0x9000_0001,
                0xE000_0000,
                0xF000_0000,
                0x8000_0001,
                0x9000_0001,
                0xE000_0000,
                0xF000_0000,
            ],
        )?,
        "refusal 13, this makes no good store: the keys do not rise, line 1 (the first is 0)\n",
    )?;
    is_refused(
        &rt,
        heap,
        vec![in heap; 0u8; 65_552]?.as_slice(),
        "refusal 13, this makes no good store: there are too many lines\n",
    )
}

#[test]
fn an_image_is_printed(rt: HostRuntime) -> Result<(), Fail> {
    let heap = rt.alloc();
    let bytes = bytes_of(
        heap,
        &[
            0x8000_0000,
            0x9000_FFC9,
            0xE000_0000,
            0xF000_0000,
            0x8000_FFFE,
            0x9000_8000,
            0xE000_0000,
            0xF000_0000,
        ],
    )?;
    let mut input = bytes.as_slice();
    let mut out = Vec::new(heap);
    let mut errors = Vec::new(heap);
    assert!(rt; run(heap, &mut input, &mut out, &mut errors)?);
    assert!(rt; errors.is_empty());
    let text = "ground 0  plot    0     5.5 m west   north missing   holder missing  status missing
ground 7  plot 2047  east missing    north missing   holder  -32768  status missing
plots 2, grounds 2, fields 2, missing 6
";
    assert_eq!(rt; out.as_slice(), text.as_bytes());
    Ok(())
}

// A writer that takes so many bytes and then none.
#[derive(Drop)]
struct Narrow {
    room: usize,
}

impl io::Write for Narrow {
    fn write(&mut self, bytes: &[u8]) -> io::Result<usize> {
        let taken = bytes.len().min(self.room);
        if taken == 0 {
            return Err(io::Error::from(io::ErrorKind::StorageFull));
        }
        self.room -= taken;
        Ok(taken)
    }

    fn flush(&mut self) -> io::Result<()> {
        Ok(())
    }
}

#[test]
fn a_writer_that_fails_ends_the_printing(rt: HostRuntime) -> Result<(), Fail> {
    let heap = rt.alloc();
    let bytes = bytes_of(heap, &[0x8000_0000, 0x9000_FFC9, 0xE000_0000, 0xF000_0000])?;
    for room in [0, 10, 85, 120] {
        let mut input = bytes.as_slice();
        let mut out = Narrow { room };
        let mut errors = Vec::new(heap);
        let result = run(heap, &mut input, &mut out, &mut errors);
        assert_eq!(rt;
            result.err().map(|e| e.kind()),
            Some(io::ErrorKind::StorageFull)
        );
        assert_eq!(rt; out.room, 0);
        assert!(rt; errors.is_empty());
    }
    Ok(())
}
