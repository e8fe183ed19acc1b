// The text of a line, as it is put together.
ghost use Rattle.std.specs.Prelude.{◌≡◌, ◌≤◌, ◌+◌, ◌*◌, ◌++◌, ◌∷◌, ◌==◌, [], length};
ghost use Rattle.std.specs.Fmt.{decimal};
ghost use Rattle.std.specs.List.{position_or_len};
ghost use Rattle.hex.specs.Hex.{encode_lower};
ghost use Rattle.bench_io.specs.Texts.{hex_text, field_text};

use arrayvec::ArrayVec;
use itoa::Buffer;
use std::marker::Model;

/// The text of one line, in a buffer that holds the longest one.
#[derive(Drop)]
pub struct LineText {
    bytes: ArrayVec<u8, 16640>,
}

impl Model for LineText {
    ghost use Rattle.std.specs.Prelude.{◌≤◌, List, ℕ, length};

    ghost Value = { List ℕ };

    ghost view = { λ text. text.bytes.items };

    ghost invariant = { λ text. length text.bytes.items ≤ 16640 };
}

impl LineText {
    /// No text.
    pub fn new() -> LineText
        ensures { result ≡ [] }
    {
        LineText {
            bytes: ArrayVec::new(),
        }
    }

    /// Its bytes.
    pub fn as_bytes(&self) -> &[u8]
        ensures { result.now ≡ self.now }
    {
        self.bytes.as_slice()
    }

    /// Takes all of it out.
    pub fn clear(&mut self)
        ensures { self.new ≡ [] }
    {
        self.bytes.clear();
    }

    /// Appends bytes that fit.
    pub fn append(&mut self, bytes: &[u8])
        requires { length self.old + length bytes.now ≤ 16640 }
        ensures { self.new ≡ self.old ++ bytes.now }
    {
        self.bytes.try_extend_from_slice(bytes).unwrap();
    }

    /// Appends a byte as two lower case hexadecimal digits.
    pub fn append_byte(&mut self, byte: u8)
        requires { length self.old + 2 ≤ 16640 }
        ensures text { self.new ≡ self.old ++ encode_lower (byte ∷ []) }
        ensures long { length self.new ≡ length self.old + 2 }
    {
        let mut digits = [0; 2];
        hex::encode_to_slice(&[byte], &mut digits).unwrap();
        self.append(&digits);
    }

    /// Appends bytes as two lower case hexadecimal digits each.
    pub fn append_hex(&mut self, bytes: &[u8])
        requires few { length bytes.now ≤ 544 }
        requires fits { length self.old + 2 * length bytes.now ≤ 16640 }
        ensures text { self.new ≡ self.old ++ encode_lower bytes.now }
        ensures long { length self.new ≡ length self.old + 2 * length bytes.now }
    {
        for byte in bytes {
            self.append_byte(*byte);
        }
    }

    /// Appends a label and a decimal number behind it.
    pub fn append_number(&mut self, label: &[u8], number: u32)
        requires short { length label.now ≤ 16 }
        requires fits { length self.old ≤ 12000 }
        ensures text { self.new ≡ self.old ++ (label.now ++ decimal number) }
        ensures long { length self.new ≤ length self.old + 26 }
    {
        let mut digits = Buffer::new();
        self.append(label);
        self.append(digits.format(number).as_bytes());
    }

    /// Appends a label and a decimal count behind it.
    pub fn append_count(&mut self, label: &[u8], count: usize)
        requires short { length label.now ≤ 16 }
        requires fits { length self.old ≤ 12000 }
        ensures text { self.new ≡ self.old ++ (label.now ++ decimal count) }
        ensures long { length self.new ≤ length self.old + 56 }
    {
        let mut digits = Buffer::new();
        self.append(label);
        self.append(digits.format(count).as_bytes());
    }

    /// Appends a label, `0x` and the eight hexadecimal digits of a number behind it.
    pub fn append_mask(&mut self, label: &[u8], number: u32)
        requires short { length label.now ≤ 16 }
        requires fits { length self.old ≤ 12000 }
        ensures text { self.new ≡ self.old ++ (label.now ++ hex_text number) }
        ensures long { length self.new ≤ length self.old + 26 }
    {
        self.append(label);
        self.append(b"0x");
        self.append_hex(&number.to_be_bytes());
    }

    /// Appends a label and a text behind it that has zeros behind it.
    pub fn append_field(&mut self, label: &[u8], field: &[u8; 32])
        requires short { length label.now ≤ 16 }
        requires fits { length self.old ≤ 12000 }
        ensures text { self.new ≡ self.old ++ (label.now ++ field_text field.now) }
        ensures long { length self.new ≤ length self.old + 48 }
    {
        self.append(label);
        self.append(before_zero(field));
    }
}

// The bytes before the first zero, or all of them.
fn before_zero(bytes: &[u8]) -> &[u8]
    ensures text { result.now ≡ field_text bytes.now }
    ensures short { length result.now ≤ length bytes.now }
{
    &bytes[..text_len(bytes)]
}

// How many bytes stand before the first zero.
fn text_len(bytes: &[u8]) -> usize
    ensures before { result ≡ position_or_len (λ byte. byte == 0) bytes.now }
    ensures within { result ≤ length bytes.now }
{
    for (i, byte) in bytes.iter().enumerate() {
        if *byte == 0 {
            return i;
        }
    }
    bytes.len()
}
