// Bytes of the text: the classes of a byte, the byte at an offset, and where a name stands.
#![tactic(auto)]

ghost use Rattle.std.specs.Prelude.{◌≡◌, get_or};
ghost use Rattle.spec_text.specs.Bytes.{is_digit, is_name_byte};
ghost use Rattle.read_bytes.specs.BytesModel.{is_end};

mod name_part;

pub use name_part::NamePart;

// What ends a field that is not the last of its line, and what ends a line.
pub const TAB: u8 = 9;

pub const LF: u8 = 10;

// A byte of a number.
pub fn is_digit(b: u8) -> bool
    ensures { result ≡ is_digit b }
{
    matches!(b, b'0'..=b'9')
}

// A byte of a name.
pub fn is_name_byte(b: u8) -> bool
    ensures { result ≡ is_name_byte b }
{
    matches!(b, b'a'..=b'z' | b'A'..=b'Z' | b'0'..=b'9' | b'_')
}

// A tab or a line feed.
pub fn is_end(b: u8) -> bool
    ensures { result ≡ is_end b }
{
    matches!(b, TAB | LF)
}

// The byte at i, and 0 past the end.
// Kept: 0 and no Option, since no word begins with it: so the end of a text is no case of its own.
pub fn byte_at(text: &[u8], i: usize) -> u8
    ensures { result ≡ get_or text.now i 0 }
{
    text.get(i).copied().unwrap_or(0)
}
