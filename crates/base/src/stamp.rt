ghost use Rattle.std.specs.Prelude.{◌≤◌};
ghost use Rattle.base.specs.declared.stamp.TheConstants.{TOP};

/// The largest stamp.
pub const TOP: u32 = 268_435_455;

/// A stamp is a place in the serial order, from 0 to TOP. No value of this type lies above TOP.
#[derive(Clone, Copy, PartialEq, Eq, Debug)]
pub struct Stamp {
    number: u32,
    ghost within: { number ≤ TOP },
}

impl Stamp {
    ghost use Rattle.std.specs.Prelude.{◌≡◌, ◌%◌, ◌^◌, pos, ◌+ℤ◌, ◌-ℤ◌};
    ghost use Rattle.base.specs.Stamps.{stamp, stamp_at, stamp_of_bound, nearest_stamp};

    /// The stamp of a number, or nothing where the number lies above TOP.
    pub fn new(number: u32) -> Option<Self>
        ensures { result ≡ stamp_at number }
    {
        if number <= TOP {
            Some(Stamp { number })
        } else {
            None
        }
    }

    /// The stamp in the low 28 bits of a word.
    pub fn in_word(word: u32) -> Self
        ensures { result ≡ stamp (word % 2 ^ 28) }
    {
        Stamp {
            number: word % 0x1000_0000,
        }
    }

    /// The stamp that a bound is, or nothing for one below 0 or above TOP.
    pub fn from_bound(bound: i32) -> Option<Self>
        ensures { result ≡ stamp_of_bound bound }
    {
        Stamp::new(u32::try_from(bound).ok()?)
    }

    /// The stamp nearest to a bound: 0 for one below 0, TOP for one above TOP.
    pub fn nearest(bound: i32) -> Self
        ensures { result ≡ nearest_stamp bound }
    {
        let number = u32::try_from(bound).unwrap_or(0);
        Stamp {
            number: number.min(TOP),
        }
    }

    /// The stamp's number.
    pub fn number(self) -> u32
        ensures { result ≡ self.number }
    {
        self.number
    }

    /// The stamp as a bound, 0 to TOP.
    pub fn bound(self) -> i32
        ensures { result ≡ pos self.number }
    {
        let Stamp { number } = self;
        number as i32
    }

    /// The lowest bound above the stamp, 1 to TOP + 1.
    pub fn above(self) -> i32
        ensures { result ≡ pos self.number +ℤ pos 1 }
    {
        self.bound() + 1
    }

    /// The highest bound below the stamp, -1 to TOP - 1.
    pub fn below(self) -> i32
        ensures { result ≡ pos self.number -ℤ pos 1 }
    {
        self.bound() - 1
    }
}
