// The check of a settings record: the rules of the table, specs/Table.antt of `settings`, one after the other.
#![tactic(auto, unfolding(settings::specs::Check::checked_by))]

ghost use Rattle.std.specs.Prelude.{◌≡◌, length};
ghost use Rattle.settings.specs.Record.{record_length};
ghost use Rattle.settings.specs.Table.{Unsigned, Signed, Squares, Below, OffOrFrom, Byte, differential_rows, distance_rows, angle_rows, direction_rows, tail_rows};
ghost use Rattle.settings.specs.Check.{holds, judged, checked_by, checked};

use settings::{Fault, LENGTH, at, byte, field, signed_field};

// The limits that have a name in the table.
const MOST_ENDS: u16 = 6;

const MOST_SLOPE: u16 = 100;

const MOST_COUNTS: u16 = 42000;

const MOST_REPLICA: u16 = 20000;

const MOST_REACH: u16 = 2000;

const MOST_K_REAL: u16 = 1000;

const MOST_K_IMAGINARY: i16 = 500;

const MOST_ANGLE: u16 = 1000;

const LEAST_SQUARES: u64 = 998000;

const MOST_SQUARES: u64 = 1002000;

const MOST_LIMIT: i16 = 20000;

const MOST_RESISTIVE_REACH: u16 = 1000;

// What a test finds: nothing where the rule is kept, else a fault at an offset.
fn judged(kept: bool, at: u8) -> Result<(), Fault>
    ensures { result ≡ judged kept at }
{
    if kept { Ok(()) } else { Err(Fault { at }) }
}

// One function for each kind of rule. A rule is tested only where the earlier ones are kept: so each test is a branch, and a good record
// passes it in a few instructions.

// The field at an offset is from a least to a greatest number. `inline(always)`, here and at `tail_part`: as calls of their own the two
// make the check of a good record a tenth longer.
#[inline(always)]
fn unsigned_rule(s: &[u8], at: u8, low: u16, high: u16) -> Result<(), Fault>
    ensures { result ≡ judged (holds s.now (Unsigned at low high)) at }
{
    judged((low..=high).contains(&field(s, at)), at)
}

// The same of a signed field.
fn signed_rule(s: &[u8], at: u8, low: i16, high: i16) -> Result<(), Fault>
    ensures { result ≡ judged (holds s.now (Signed at low high)) at }
{
    judged((low..=high).contains(&signed_field(s, at)), at)
}

// The sum of the squares of two fields is from a least to a greatest number; a fault is at the later one.
fn squares_rule(s: &[u8], x: u8, y: u8, low: u64, high: u64) -> Result<(), Fault>
    ensures { result ≡ judged (holds s.now (Squares x y low high)) y }
{
    let first = u64::from(field(s, x));
    let second = u64::from(field(s, y));
    let sum = first * first + second * second;
    judged((low..=high).contains(&sum), y)
}

// A signed field is below another; a fault is at the later one.
fn below_rule(s: &[u8], x: u8, y: u8) -> Result<(), Fault>
    ensures { result ≡ judged (holds s.now (Below x y)) y }
{
    judged(signed_field(s, x) < signed_field(s, y), y)
}

// A field is 0, or from the number of another to a greatest one; a fault is at its own offset.
fn off_or_from_rule(s: &[u8], x: u8, y: u8, high: u16) -> Result<(), Fault>
    ensures { result ≡ judged (holds s.now (OffOrFrom x y high)) y }
{
    let low = field(s, x);
    let v = field(s, y);
    judged(v == 0 || (low..=high).contains(&v), y)
}

// The byte at an offset is from a least to a greatest number.
fn byte_rule(s: &[u8], at: u8, low: u8, high: u8) -> Result<(), Fault>
    ensures { result ≡ judged (holds s.now (Byte at low high)) at }
{
    judged((low..=high).contains(&byte(s, usize::from(at))), at)
}

// The parts of the table, one function each: its rules in its order, up to the first that is broken.

// N, and the differential's settings.
fn differential_part(s: &[u8]) -> Result<(), Fault>
    ensures { result ≡ checked_by differential_rows s.now }
{
    unsigned_rule(s, at::ENDS, 2, MOST_ENDS)?;
    unsigned_rule(s, at::SLOPE, 1, MOST_SLOPE)?;
    unsigned_rule(s, at::PICKUP, 1, MOST_COUNTS)
}

// The line's impedance, the reach and k.
fn distance_part(s: &[u8]) -> Result<(), Fault>
    ensures { result ≡ checked_by distance_rows s.now }
{
    unsigned_rule(s, at::REPLICA_REAL, 0, MOST_REPLICA)?;
    unsigned_rule(s, at::REPLICA_IMAGINARY, 1, MOST_REPLICA)?;
    unsigned_rule(s, at::REACH, 1, MOST_REACH)?;
    unsigned_rule(s, at::K_REAL, 0, MOST_K_REAL)?;
    signed_rule(s, at::K_IMAGINARY, -MOST_K_IMAGINARY, MOST_K_IMAGINARY)
}

// The line angle D.
fn angle_part(s: &[u8]) -> Result<(), Fault>
    ensures { result ≡ checked_by angle_rows s.now }
{
    unsigned_rule(s, at::ANGLE_REAL, 0, MOST_ANGLE)?;
    unsigned_rule(s, at::ANGLE_IMAGINARY, 0, MOST_ANGLE)?;
    squares_rule(
        s,
        at::ANGLE_REAL,
        at::ANGLE_IMAGINARY,
        LEAST_SQUARES,
        MOST_SQUARES,
    )
}

// zf, zr and the pickup of 3I2.
fn direction_part(s: &[u8]) -> Result<(), Fault>
    ensures { result ≡ checked_by direction_rows s.now }
{
    signed_rule(s, at::FORWARD_LIMIT, -MOST_LIMIT, MOST_LIMIT)?;
    signed_rule(s, at::REVERSE_LIMIT, -MOST_LIMIT, MOST_LIMIT)?;
    below_rule(s, at::FORWARD_LIMIT, at::REVERSE_LIMIT)?;
    unsigned_rule(s, at::NEGATIVE_SEQUENCE_PICKUP, 1, MOST_COUNTS)
}

// The second reach, the resistive reach, and the bytes that are zero so far.
#[inline(always)]
fn tail_part(s: &[u8]) -> Result<(), Fault>
    ensures { result ≡ checked_by tail_rows s.now }
{
    off_or_from_rule(s, at::REACH, at::SECOND_REACH, MOST_REACH)?;
    unsigned_rule(s, at::RESISTIVE_REACH, 0, MOST_RESISTIVE_REACH)?;
    byte_rule(s, 30, 0, 0)?;
    byte_rule(s, 31, 0, 0)
}

// The first fault of a record: the parts of the table, in its order.
#[tactic(auto, using(settings::proofs::Good::in_parts))]
pub fn check(s: &[u8]) -> Result<(), Fault>
    requires { length s.now ≡ record_length }
    ensures { result ≡ checked s.now }
{
    let record = s.as_array::<LENGTH>().unwrap(); // an array, so that no byte's place is tested
    differential_part(record)?;
    distance_part(record)?;
    angle_part(record)?;
    direction_part(record)?;
    tail_part(record)
}
