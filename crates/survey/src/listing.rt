ghost use Rattle.std.specs.Prelude.{◌≡◌, ◌+◌, ◌≤◌, ◌++◌, length};
ghost use Rattle.arrayvec.specs.ArrayString.{array_string_len};
ghost use Rattle.survey.specs.Texts.{listing_text, number_column, offset_column};

use crate::column::{push_left, push_right};
use crate::offset::Offset;
use crate::plot::Plot;
use arrayvec::ArrayString;
use itoa::Buffer;

/// Room for the line of any plot, in bytes.
pub const LISTING_TEXT: usize = 99;

/// A plot with its ground and its number on that.
#[derive(Clone, Copy, PartialEq, Eq, Debug)]
pub struct Listing {
    pub burial_ground: u16,
    pub number: u16,
    pub plot: Plot,
}

// Adds the column of an offset, or what stands there where it is missing.
fn push_offset<const N: usize>(line: &mut ArrayString<N>, offset: Option<Offset>, missing: &str)
    requires room { array_string_len line.old + 21 ≤ N }
    requires short { length missing.now ≤ 14 }
    ensures bytes { line.new.bytes ≡ line.old.bytes ++ offset_column missing.now offset }
    ensures len { array_string_len line.new ≤ array_string_len line.old + 21 }
{
    line.push_str("  ");
    match offset {
        Some(offset) => line.push_str(offset.text().as_str()),
        None => push_left(line, 14, missing),
    }
}

// Adds the column of a number after its name, or that it is missing.
fn push_number<const N: usize>(line: &mut ArrayString<N>, name: &str, number: Option<i16>)
    requires room { array_string_len line.old + 16 ≤ N }
    requires short { length name.now ≤ 6 }
    ensures bytes { line.new.bytes ≡ line.old.bytes ++ number_column name.now number }
    ensures len { array_string_len line.new ≤ array_string_len line.old + 16 }
{
    line.push_str("  ");
    line.push_str(name);
    match number {
        Some(number) => {
            line.push_str(" ");
            push_right(line, 7, Buffer::new().format(number));
        }
        None => line.push_str(" missing"),
    }
}

impl Listing {
    /// The plot's line: its ground and number, and its four fields in columns.
    pub fn text(self) -> ArrayString<{ LISTING_TEXT }>
        ensures { result.bytes ≡ listing_text self }
    {
        let mut text = ArrayString::new();
        text.push_str("ground ");
        text.push_str(Buffer::new().format(self.burial_ground));
        text.push_str("  plot ");
        push_right(&mut text, 4, Buffer::new().format(self.number));
        push_offset(&mut text, self.plot.east.map(Offset::east), "east missing");
        push_offset(
            &mut text,
            self.plot.north.map(Offset::north),
            "north missing",
        );
        push_number(&mut text, "holder", self.plot.holder);
        push_number(&mut text, "status", self.plot.status);
        text.push_str("\n");
        text
    }
}
