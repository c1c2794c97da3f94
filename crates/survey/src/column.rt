ghost use Rattle.std.specs.Prelude.{◌≡◌, ◌+◌, ◌-◌, ◌≤◌, ◌++◌, length};
ghost use Rattle.arrayvec.specs.ArrayString.{array_string_len};
ghost use Rattle.survey.specs.Columns.{at_left, at_right, spaces};

use arrayvec::ArrayString;

// Adds spaces.
fn push_spaces<const N: usize>(line: &mut ArrayString<N>, count: usize)
    requires { array_string_len line.old + count ≤ N }
    ensures bytes { line.new.bytes ≡ line.old.bytes ++ spaces count }
    ensures len { array_string_len line.new ≡ array_string_len line.old + count }
{
    for _i in 0..count {
        line.push_str(" ");
    }
}

// Adds a text at the right of a column of so many places, after the spaces that it leaves.
pub(crate) fn push_right<const N: usize>(line: &mut ArrayString<N>, width: usize, text: &str)
    requires { array_string_len line.old + (width - length text.now) + length text.now ≤ N }
    ensures bytes { line.new.bytes ≡ line.old.bytes ++ at_right width text.now }
    ensures len { array_string_len line.new ≡ array_string_len line.old + (width - length text.now) + length text.now }
{
    push_spaces(line, width.saturating_sub(text.len()));
    line.push_str(text);
}

// Adds a text at the left of a column of so many places, before the spaces that it leaves.
pub(crate) fn push_left<const N: usize>(line: &mut ArrayString<N>, width: usize, text: &str)
    requires { array_string_len line.old + (width - length text.now) + length text.now ≤ N }
    ensures bytes { line.new.bytes ≡ line.old.bytes ++ at_left width text.now }
    ensures len { array_string_len line.new ≡ array_string_len line.old + (width - length text.now) + length text.now }
{
    line.push_str(text);
    push_spaces(line, width.saturating_sub(text.len()));
}
