// The columns of a body, from the first to the last: numbers with their lowest byte first, and bytes of a fixed length.
ghost use Rattle.std.specs.Prelude.{
  ◌≡◌,
  ◌≤◌,
  ◌+◌,
  ◌++◌,
  ◌∷◌,
  ◌↔◌,
  [],
  List,
  ℕ,
  length,
  take,
  drop,
  slice_index,
  IsSome,
  IfSome,
};
ghost use Rattle.ec_types.specs.LittleEndian.{u16_bytes, u32_bytes, u16_at, u32_at};

use byteorder::{ByteOrder, LittleEndian};
use ec_packet::Packet;
use std::marker::Model;

// The columns that are not read yet, seen as their bytes.
#[derive(Drop)]
pub struct Columns<'a> {
    rest: &'a [u8],
}

impl<'a> Model for Columns<'a> {
    ghost use Rattle.std.specs.Prelude.{List, ℕ};

    ghost Value = { List ℕ };

    ghost view = { λ columns. columns.rest.now };
}

// The number of two bytes.
fn two(bytes: &[u8]) -> u16
    requires { length bytes.now ≡ 2 }
    ensures value { result ≡ u16_at 0 bytes.now }
    ensures spelled { bytes.now ≡ u16_bytes result }
{
    LittleEndian::read_u16(bytes)
}

// The number of four bytes.
fn four(bytes: &[u8]) -> u32
    requires { length bytes.now ≡ 4 }
    ensures value { result ≡ u32_at 0 bytes.now }
    ensures spelled { bytes.now ≡ u32_bytes result }
{
    LittleEndian::read_u32(bytes)
}

impl<'a> Columns<'a> {
    // The columns of a body.
    pub fn new(bytes: &'a [u8]) -> Columns<'a>
        ensures { result ≡ bytes.now }
    {
        Columns { rest: bytes }
    }

    // The columns of a body, if it has this length.
    pub fn of(bytes: &'a [u8], count: usize) -> Option<Columns<'a>>
        ensures some { IsSome result ↔ (length bytes.now ≡ count) }
        ensures all { IfSome result (λ columns. columns ≡ bytes.now) }
    {
        if bytes.len() == count {
            Some(Columns::new(bytes))
        } else {
            None
        }
    }

    // A number of one byte.
    pub fn u8(&mut self) -> u8
        requires { 1 ≤ length self.old }
        ensures value { result ≡ slice_index self.old 0 }
        ensures rest { self.new ≡ drop 1 self.old }
        ensures spelled { self.old ≡ result ∷ self.new }
    {
        let number = self.rest[0];
        self.rest = &self.rest[1..];
        number
    }

    // A number of two bytes.
    pub fn u16(&mut self) -> u16
        requires { 2 ≤ length self.old }
        ensures value { result ≡ u16_at 0 self.old }
        ensures rest { self.new ≡ drop 2 self.old }
        ensures spelled { self.old ≡ u16_bytes result ++ self.new }
    {
        let (number, rest) = self.rest.split_at(2);
        self.rest = rest;
        two(number)
    }

    // A number of four bytes.
    pub fn u32(&mut self) -> u32
        requires { 4 ≤ length self.old }
        ensures value { result ≡ u32_at 0 self.old }
        ensures rest { self.new ≡ drop 4 self.old }
        ensures spelled { self.old ≡ u32_bytes result ++ self.new }
    {
        let (number, rest) = self.rest.split_at(4);
        self.rest = rest;
        four(number)
    }

    // Bytes of a fixed length.
    pub fn bytes<const N: usize>(&mut self) -> [u8; N]
        requires { N ≤ length self.old }
        ensures value { result ≡ take N self.old }
        ensures rest { self.new ≡ drop N self.old }
        ensures spelled { self.old ≡ result ++ self.new }
    {
        let (front, rest) = self.rest.split_at(N);
        self.rest = rest;
        let mut bytes = [0; N];
        bytes.copy_from_slice(front);
        bytes
    }

    // The bytes that are left, where they stand.
    pub fn all(&self) -> &'a [u8]
        ensures { result.now ≡ self.now }
    {
        self.rest
    }

    // The bytes that are left.
    pub fn rest(&self) -> Packet
        requires { length self.now ≤ 544 }
        ensures { result ≡ self.now }
    {
        let mut packet = Packet::new();
        packet.extend(self.rest);
        packet
    }
}

// Appends a number of two bytes.
pub fn put_u16(out: &mut Packet, number: u16)
    requires { length out.old + 2 ≤ 544 }
    ensures { out.new ≡ out.old ++ u16_bytes number }
{
    let mut bytes = [0; 2];
    LittleEndian::write_u16(&mut bytes, number);
    out.extend(&bytes);
}

// Appends a number of four bytes.
pub fn put_u32(out: &mut Packet, number: u32)
    requires { length out.old + 4 ≤ 544 }
    ensures { out.new ≡ out.old ++ u32_bytes number }
{
    let mut bytes = [0; 4];
    LittleEndian::write_u32(&mut bytes, number);
    out.extend(&bytes);
}
