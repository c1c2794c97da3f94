ghost use Rattle.std.specs.Prelude.{◌≡◌, ◌≤◌, length};
ghost use Rattle.survey.specs.declared.offset.Direction.TheVariants.{East, West, North, South};
ghost use Rattle.survey.specs.Offsets.{direction_name, offset_of, offset_value};
ghost use Rattle.survey.specs.Texts.{offset_text};

use crate::column::{push_left, push_right};
use arrayvec::ArrayString;
use itoa::Buffer;

/// Room for the text of any offset, in bytes.
pub const OFFSET_TEXT: usize = 19;

/// Which way a grave lies from the chapel door.
#[derive(Clone, Copy, PartialEq, Eq, Debug)]
pub enum Direction {
    East,
    West,
    North,
    South,
}

/// How far a grave lies from the chapel door along one axis: in a direction, whole metres and decimetres more, which are 0 to 3,276 and
/// 0 to 9 where a value says them.
#[derive(Clone, Copy, PartialEq, Eq, Debug)]
pub struct Offset {
    pub direction: Direction,
    pub metres: u16,
    pub decimetres: u16,
}

// A value in decimetres as an offset in one of two opposite directions.
fn offset_of(value: i16, ahead: Direction, behind: Direction) -> Offset
    ensures { result ≡ offset_of ahead behind value }
{
    let size = value.unsigned_abs();
    let direction = if value < 0 { behind } else { ahead };
    Offset {
        direction,
        metres: size / 10,
        decimetres: size % 10,
    }
}

impl Offset {
    /// What a value of the field east says: east, or west where it is negative.
    pub fn east(value: i16) -> Offset
        ensures value { result ≡ offset_of East West value }
        ensures back { offset_value result ≡ value }
    {
        offset_of(value, Direction::East, Direction::West)
    }

    /// What a value of the field north says: north, or south where it is negative.
    pub fn north(value: i16) -> Offset
        ensures value { result ≡ offset_of North South value }
        ensures back { offset_value result ≡ value }
    {
        offset_of(value, Direction::North, Direction::South)
    }
}

impl Direction {
    /// The direction in a word of at most 5 bytes.
    pub fn name(self) -> &'static str
        ensures name { result.now ≡ direction_name self }
        ensures short { length result.now ≤ 5 }
    {
        match self {
            Direction::East => "east",
            Direction::West => "west",
            Direction::North => "north",
            Direction::South => "south",
        }
    }
}

impl Offset {
    /// The offset as it is said aloud: metres in four places, a point, decimetres, and the direction in five.
    pub fn text(self) -> ArrayString<{ OFFSET_TEXT }>
        ensures { result.bytes ≡ offset_text self }
    {
        let mut text = ArrayString::new();
        push_right(&mut text, 4, Buffer::new().format(self.metres));
        text.push_str(".");
        text.push_str(Buffer::new().format(self.decimetres));
        text.push_str(" m ");
        push_left(&mut text, 5, self.direction.name());
        text
    }
}
