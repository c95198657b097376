// Reads the line of a row again: its span and its name, and its parameters one after the other.
#![tactic(auto)]

ghost use Rattle.std.specs.Prelude.{◌≡◌, true, ◌≤◌, drop, length};
ghost use Rattle.std.specs.Iterator.{YieldsFirstRef, item_count};
ghost use Rattle.read_row.specs.RowModel.{parts_from, before_params, params_of, line_start, line_of_row};
ghost use Rattle.read_row.specs.Left.{bytes_of, left_in, fields_left, fields_after};

use read_fields::Cursor;
use read_line::Line;
use spec_text::line_kind;

// The fields that are left of a line, one after the other: the text from the next one on, if there is one.
#[derive(Drop)]
pub struct Fields<'a> {
    rest: Option<&'a [u8]>,
}

impl<'a> Iterator for Fields<'a> {
    type Item = &'a [u8];

    ghost can_next = { λ _. Unit };

    ghost next_gives = { YieldsFirstRef fields_left };

    ghost remaining = { item_count fields_left };

    fn next(&mut self) -> Option<&'a [u8]> {
        let rest = self.rest?;
        let field = read_fields::field(rest, 0);
        self.rest = past_tab(rest, field.len());
        Some(field)
    }
}

// The text past the tab at an offset, if there is one.
fn past_tab(text: &[u8], end: usize) -> Option<&[u8]>
    ensures { left_in result ≡ fields_after (drop end text.now) }
{
    match text.get(end..)? {
        [read_bytes::TAB, rest @ ..] => Some(rest),
        _ => None,
    }
}

// How many fields stand before the parameters in a line of a kind, from where its row says: the word and the span of a
// lambda, else the name and the count.
fn before_params(kind: usize) -> usize
    ensures { result ≡ before_params kind }
{
    if kind == line_kind::LAMBDA { 3 } else { 2 }
}

// The parameters of row i.
pub fn params<'a>(text: &'a [u8], work: &[u32], i: usize) -> Fields<'a>
    ensures { fields_left result ≡ bytes_of (params_of text.now work.now i) }
{
    let before = before_params(work_rows::kind(work, i));
    let mut fields = Fields {
        rest: text.get(work_rows::offset(work, i)..),
    };
    for _ in 0..before {
        fields.next();
    }
    fields
}

// The cursor past the field where it stands, if it stands at one.
fn past_field(text: &[u8], c: Cursor) -> Cursor
    ensures parts { parts_from text.now result ≡ drop 1 (parts_from text.now c) }
    ensures within { result.more ≡ true → result.at ≤ length text.now }
{
    if c.more && c.at <= text.len() {
        let field = read_fields::field(text, c.at);
        read_fields::next(text, c.at + field.len())
    } else {
        Cursor { more: false, ..c }
    }
}

// The cursor at the first parameter of row i, for who asks where its parameters stand: `params` has their bytes alone.
pub fn first_param(text: &[u8], work: &[u32], i: usize) -> Cursor
    ensures parts { parts_from text.now result ≡ params_of text.now work.now i }
    ensures within { result.more ≡ true → result.at ≤ length text.now }
{
    let fields = before_params(work_rows::kind(work, i));
    let mut c = Cursor::start(work_rows::offset(work, i));
    for _ in 0..fields {
        c = past_field(text, c);
    }
    c
}

// Where the line starts that an offset is on: past the last line feed before it.
fn line_start(text: &[u8], at: usize) -> usize
    ensures { result ≡ line_start text.now at }
{
    let before = text.get(..at).unwrap_or(text);
    match before.iter().rposition(|b| *b == read_bytes::LF) {
        Some(i) => i + 1,
        None => 0,
    }
}

// The line of row i.
#[tactic(auto, unfolding(crate::specs::RowModel::line_of_row))]
pub fn line_of_row(text: &[u8], work: &[u32], i: usize) -> Line
    ensures { result ≡ line_of_row text.now work.now i }
{
    read_line::line_at(text, line_start(text, work_rows::offset(work, i))).unwrap_or_default()
}
