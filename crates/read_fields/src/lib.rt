// A cursor over the fields of a line: it goes by value, and each step hands back the next one, or None where it finds
// something else.
#![tactic(auto)]

ghost use Rattle.std.specs.Prelude.{◌≡◌, ◌<◌, ◌≤◌, drop, length, position};
ghost use Rattle.spec_text.specs.Bytes.{same};
ghost use Rattle.read_bytes.specs.BytesModel.{is_end};
ghost use Rattle.read_fields.specs.FieldsModel.{field_at, start_at, field_from, number_from, hash_of, name_from, mix, end_from, past_byte, past_end, next_at};

use read_bytes::NamePart;

// The most bytes of a name.
const LONGEST_NAME: usize = 63;

// The most digits of a number that begins with 0.
const LONGEST_ZERO: usize = 1;

// Where the next field starts, and whether there is one.
// Kept: without the text, of which each Number, Name and Kind would have a slice more. And `more` is no Option of `at`:
// with no field left, `at` is where the next line starts, and `line_end` hands it on.
#[derive(Clone, Copy, PartialEq, Eq)]
pub struct Cursor {
    pub at: usize,
    pub more: bool,
}

// A number, and the cursor past it.
// Kept: a struct for each thing that a step takes, and no generic one: `name.part` says more than `name.value.part`.
#[derive(Clone, Copy, PartialEq, Eq)]
pub struct Number {
    pub value: u32,
    pub next: Cursor,
}

// A name: where it stands, its hash, and the cursor past it.
#[derive(Clone, Copy, PartialEq, Eq)]
pub struct Name {
    pub part: NamePart,
    pub hash: usize,
    pub next: Cursor,
}

// Whether the field at an offset has these bytes.
// Kept: a loop, since a text of short lines takes a sixth longer to read with `field(text, at) == word` (4.53 ns a byte
// in place of 3.85).
pub fn is_field(text: &[u8], at: usize, word: &[u8]) -> bool
    ensures { result ≡ same (field_at text.now at) word.now }
{
    let rest = rest(text, at);
    if rest.len() < word.len() {
        return false;
    }
    for (i, b) in word.iter().enumerate() {
        if rest[i] != *b || read_bytes::is_end(*b) {
            return false;
        }
    }
    rest.len() == word.len() || read_bytes::is_end(rest[word.len()])
}

// The hash of a name.
pub fn hash(name: &[u8]) -> usize
    ensures value { result ≡ hash_of name.now }
    ensures bound { result < 4096 }
{
    let mut hash = 0;
    for b in name {
        hash = mixed(hash, *b);
    }
    hash
}

// A hash with one more byte.
fn mixed(hash: usize, b: u8) -> usize
    requires { hash < 4096 }
    ensures value { result ≡ mix hash b }
    ensures bound { result < 4096 }
{
    (hash * 1597 + usize::from(b)) % 4096
}

// The text from an offset on.
// Kept: empty past the end, as `drop` in the definitions, and no Option: field and is_field need it so.
fn rest(text: &[u8], at: usize) -> &[u8]
    ensures { result.now ≡ drop at text.now }
{
    text.get(at..).unwrap_or(&[])
}

// Where a tab or LF stands, the first one.
fn first_end(text: &[u8]) -> Option<usize>
    ensures { result ≡ position is_end text.now }
{
    text.iter().position(|b| read_bytes::is_end(*b))
}

// The field at an offset.
// Kept: no Option, since the definition has a field at each offset: past the end it is empty.
#[tactic(auto, using(crate::proofs::Fields::field_found, crate::proofs::Fields::field_all))]
pub fn field(text: &[u8], at: usize) -> &[u8]
    ensures { result.now ≡ field_at text.now at }
{
    let rest = rest(text, at);
    match first_end(rest) {
        Some(len) => &rest[..len],
        None => rest,
    }
}

// The cursor past the byte b at an offset, where that is a tab or LF.
fn past(b: u8, end: usize) -> Option<Cursor>
    requires { end < 18446744073709551615 }
    ensures { result ≡ past_byte b end }
{
    let more = match b {
        read_bytes::TAB => true,
        read_bytes::LF => false,
        _ => return None,
    };
    Some(Cursor { at: end + 1, more })
}

// The cursor past the byte at an offset, where the text has one there.
fn past_end(text: &[u8], end: usize) -> Option<Cursor>
    ensures { result ≡ past_end text.now end }
{
    past(*text.get(end)?, end)
}

// The cursor after the byte at an offset, which ends a field.
pub fn next(text: &[u8], end: usize) -> Cursor
    requires { end ≤ length text.now }
    ensures { result ≡ next_at text.now end }
{
    Cursor {
        at: end + 1,
        more: read_bytes::byte_at(text, end) == read_bytes::TAB,
    }
}

impl Cursor {
    // At the first field of the line that starts at an offset.
    pub fn start(at: usize) -> Cursor
        ensures { result ≡ start_at at }
    {
        Cursor { at, more: true }
    }

    // The field that has these bytes.
    #[tactic(auto, using(crate::proofs::Takes::field_taken, crate::proofs::Fields::same_length, crate::proofs::Fields::field_within))]
    pub fn field(self, text: &[u8], word: &[u8]) -> Option<Cursor>
        ensures { result ≡ field_from word.now text.now self }
    {
        if self.more && is_field(text, self.at, word) {
            past_end(text, self.at + word.len())
        } else {
            None
        }
    }

    // A number, written with no leading zero.
    // Kept: a loop, here and in `name`, which finds the end and the value at once: `position` and a fold would go over the
    // bytes twice. And a cast, which cuts nothing, since value is at most largest: `try_from` has an error that cannot come.
    #[tactic(auto, using(crate::proofs::Takes::number_broken, crate::proofs::Takes::number_above, crate::proofs::Fields::run_here))]
    pub fn number(self, text: &[u8], largest: u32) -> Option<Number>
        ensures { result ≡ number_from largest text.now self }
    {
        if !self.more {
            return None;
        }
        let digits = rest(text, self.at);
        let mut value: u64 = 0;
        for (len, b) in digits.iter().enumerate() {
            if !read_bytes::is_digit(*b) {
                if len == 0 || LONGEST_ZERO < len && digits[0] == b'0' {
                    return None;
                }
                let next = past(*b, self.at + len)?;
                return Some(Number {
                    value: value as u32,
                    next,
                });
            }
            value = value * 10 + u64::from(*b - b'0');
            if u64::from(largest) < value {
                return None;
            }
        }
        None
    }

    // A name, with its hash.
    #[tactic(auto, using(crate::proofs::Takes::name_broken, crate::proofs::Fields::run_here))]
    pub fn name(self, text: &[u8]) -> Option<Name>
        ensures { result ≡ name_from text.now self }
    {
        if !self.more {
            return None;
        }
        if read_bytes::is_digit(read_bytes::byte_at(text, self.at)) {
            return None;
        }
        let name = rest(text, self.at);
        let mut hash = 0;
        for (len, b) in name.iter().enumerate() {
            if !read_bytes::is_name_byte(*b) {
                if len == 0 || LONGEST_NAME < len {
                    return None;
                }
                let next = past(*b, self.at + len)?;
                return Some(Name {
                    part: NamePart {
                        offset: self.at,
                        len,
                    },
                    hash,
                    next,
                });
            }
            hash = mixed(hash, *b);
        }
        None
    }

    // The end of the line: no field is left.
    pub fn line_end(self) -> Option<Cursor>
        ensures { result ≡ end_from self }
    {
        if self.more { None } else { Some(self) }
    }
}
