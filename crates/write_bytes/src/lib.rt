// Bytes written to a buffer one after the other, as many as there is room for; numbers in decimal.
#![tactic(auto)]

ghost use Rattle.std.specs.Prelude.{◌≤◌, length};

// A buffer that is filled from its start, so far.
#[derive(Drop)]
pub struct Output<'a> {
    bytes: &'a mut [u8],
    len: usize,
    ghost inside: { len ≤ length bytes.now },
}

impl<'a> Output<'a> {
    ghost use Rattle.std.specs.Prelude.{◌≡◌, ◌<◌, [], ◌∷◌, slice_set};
    ghost use Rattle.spec_text.specs.Writing.{digits, decimal_of};
    ghost use Rattle.write_bytes.specs.OutputModel.{Pushed, written};

    // An output to a buffer, with nothing pushed yet.
    pub fn new(bytes: &'a mut [u8]) -> Output<'a>
        ensures same_buffer { result.bytes.ghost_name ≡ bytes.entry.ghost_name }
        ensures same_bytes { result.bytes.now ≡ bytes.old }
        ensures empty { result.len ≡ 0 }
    {
        Output { bytes, len: 0 }
    }

    // How many bytes are pushed.
    pub fn len(&self) -> usize
        ensures { result ≡ self.now.len }
    {
        self.len
    }

    // The bytes that are pushed.
    pub fn written(&self) -> &[u8]
        ensures { result.now ≡ written self.now }
    {
        &self.bytes[..self.len]
    }

    // Takes all that is pushed off again.
    pub fn clear(&mut self)
        ensures same_buffer { self.new.bytes ≡ self.old.bytes }
        ensures empty { self.new.len ≡ 0 }
    {
        self.len = 0;
    }

    // Another byte at i, if one is pushed there.
    pub fn set(&mut self, i: usize, byte: u8)
        ensures same_buffer { self.new.bytes.ghost_name ≡ self.old.bytes.ghost_name }
        ensures same_len { self.new.len ≡ self.old.len }
        ensures set { i < self.old.len → written self.new ≡ slice_set (written self.old) i byte }
        ensures past { self.old.len ≤ i → written self.new ≡ written self.old }
    {
        if i < self.len {
            self.bytes[i] = byte;
        }
    }

    // Pushes bytes, as many as there is room for.
    pub fn push(&mut self, bytes: &[u8])
        ensures { Pushed self.old bytes.now self.new }
    {
        let fit = (self.bytes.len() - self.len).min(bytes.len());
        // Kept: a loop, since a copy of a slice would be memmove in the machine code, which a board would have to link.
        for (i, to) in self.bytes[self.len..self.len + fit].iter_mut().enumerate() {
            *to = bytes[i];
        }
        self.len += fit;
    }

    // Pushes one byte.
    pub fn push_byte(&mut self, b: u8)
        ensures { Pushed self.old (b ∷ []) self.new }
    {
        self.push(&[b]);
    }

    // Pushes a number of at most so many digits.
    // Kept: a contract says what `write!` wrote only to a String, on the heap; and Display writes any number of digits.
    pub fn push_digits(&mut self, left: usize, n: usize)
        ensures { Pushed self.old (digits left n) self.new }
    {
        if left == 0 {
            return;
        }
        if n < 10 {
            self.push_byte(b'0' + n as u8);
            return;
        }
        self.push_digits(left - 1, n / 10);
        self.push_byte(b'0' + (n % 10) as u8);
    }

    // Pushes a tab and a number.
    pub fn push_number(&mut self, n: usize)
        ensures { Pushed self.old (9 ∷ decimal_of n) self.new }
    {
        self.push_byte(b'\t');
        self.push_digits(10, n);
    }
}
