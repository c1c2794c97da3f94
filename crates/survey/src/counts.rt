ghost use Rattle.std.specs.Prelude.{◌≡◌};
ghost use Rattle.survey.specs.Texts.{counts_text};

use arrayvec::ArrayString;
use itoa::Buffer;

/// Room for the line of any counts, in bytes.
pub const COUNTS_TEXT: usize = 135;

/// How many plots were told, on how many grounds, and how many fields these have.
#[derive(Clone, Copy, PartialEq, Eq, Debug)]
pub struct Counts {
    pub plots: usize,
    pub grounds: usize,
    pub fields: usize,
}

impl Counts {
    /// The line of counts; the fields that the plots lack, of four each, are counted as missing.
    pub fn text(self) -> ArrayString<{ COUNTS_TEXT }>
        ensures { result.bytes ≡ counts_text self }
    {
        let missing = (4 * self.plots as u128).saturating_sub(self.fields as u128);
        let mut text = ArrayString::new();
        text.push_str("plots ");
        text.push_str(Buffer::new().format(self.plots));
        text.push_str(", grounds ");
        text.push_str(Buffer::new().format(self.grounds));
        text.push_str(", fields ");
        text.push_str(Buffer::new().format(self.fields));
        text.push_str(", missing ");
        text.push_str(Buffer::new().format(missing));
        text.push_str("\n");
        text
    }
}
