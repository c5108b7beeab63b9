// The settings record of document 01: its fields. The table of its rules is specs/Table.antt; `checking` goes through it.
#![tactic(auto)]

ghost use Rattle.std.specs.Prelude.{◌≡◌, get_or};
ghost use Rattle.settings.specs.Record.{field_at, signed_at};

pub mod at; // the offsets by name
pub mod fields; // the fields by name

pub use fields::Settings;

// How many bytes a record has; `entry` says the same of any record entered twice.
pub const LENGTH: usize = 32;

// What is wrong with a record: the offset of its first fault.
#[derive(Clone, Copy, PartialEq, Eq)]
pub struct Fault {
    pub at: u8,
}

// The byte at an offset, and 0 past the end: so that no caller owes a bound.
pub fn byte(s: &[u8], at: usize) -> u8
    ensures { result ≡ get_or s.now at 0 }
{
    s.get(at).copied().unwrap_or(0)
}

// The field at an offset: 16 bits, the upper byte first. The offset after a u8 is reckoned in more bits, so that it cannot overflow.
pub fn field(s: &[u8], at: u8) -> u16
    ensures { result ≡ field_at s.now at }
{
    let i = usize::from(at);
    u16::from_be_bytes([byte(s, i), byte(s, i + 1)])
}

// The signed field at an offset: two's complement.
pub fn signed_field(s: &[u8], at: u8) -> i16
    ensures { result ≡ signed_at s.now at }
{
    whole::signed(field(s, at))
}
