// Where a name stands in the text.
ghost use Rattle.std.specs.Prelude.{◌≡◌};
ghost use Rattle.spec_text.specs.Bytes.{part_of};

// The offset of a name's first byte, and its length.
// Kept: no Option where there is no name, since the documents say: "an absent one is 0, 0".
#[derive(Clone, Copy, PartialEq, Eq, Default)]
pub struct NamePart {
    pub offset: usize,
    pub len: usize,
}

impl NamePart {
    // Its bytes in the text; none where it is not inside.
    pub fn of(self, text: &[u8]) -> &[u8]
        ensures { result.now ≡ part_of text.now self.offset self.len }
    {
        self.offset
            .checked_add(self.len)
            .and_then(|end| text.get(self.offset..end))
            .unwrap_or(&[])
    }
}
