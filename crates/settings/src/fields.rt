// The fields of a settings record by name, as numbers to reckon with. Ranges in specs/Fields.antt says how large each is in a good record.
ghost use Rattle.std.specs.Prelude.{◌≡◌, pos};
ghost use Rattle.settings.specs.Record.{field_at};
ghost use Rattle.settings.specs.Fields.{Ranges, Ranges-prop, ends, slope, pickup, replica_real, replica_imaginary, reach, k_real, k_imaginary, angle_real, angle_imaginary, forward_limit, reverse_limit, negative_sequence_pickup, second_reach, resistive_reach};

use crate::at;

// An unsigned field, among signed numbers.
fn counted(s: &[u8], at: u8) -> i64
    ensures { result ≡ pos (field_at s.now at) }
{
    i64::from(crate::field(s, at))
}

// N, the ends of the line.
pub fn ends(s: &[u8]) -> u64
    ensures { result ≡ ends s.now }
{
    u64::from(crate::field(s, at::ENDS))
}

// K, percent.
pub fn slope(s: &[u8]) -> u64
    ensures { result ≡ slope s.now }
{
    u64::from(crate::field(s, at::SLOPE))
}

// The differential's pickup, counts.
pub fn pickup(s: &[u8]) -> u64
    ensures { result ≡ pickup s.now }
{
    u64::from(crate::field(s, at::PICKUP))
}

// The replica impedance Z, thousandths.
pub fn replica_real(s: &[u8]) -> i64
    ensures { result ≡ pos (replica_real s.now) }
{
    counted(s, at::REPLICA_REAL)
}

pub fn replica_imaginary(s: &[u8]) -> i64
    ensures { result ≡ pos (replica_imaginary s.now) }
{
    counted(s, at::REPLICA_IMAGINARY)
}

// r, thousandths of the replica.
pub fn reach(s: &[u8]) -> i64
    ensures { result ≡ pos (reach s.now) }
{
    counted(s, at::REACH)
}

// k, thousandths.
pub fn k_real(s: &[u8]) -> i64
    ensures { result ≡ pos (k_real s.now) }
{
    counted(s, at::K_REAL)
}

pub fn k_imaginary(s: &[u8]) -> i64
    ensures { result ≡ k_imaginary s.now }
{
    i64::from(crate::signed_field(s, at::K_IMAGINARY))
}

// The line angle D.
pub fn angle_real(s: &[u8]) -> i64
    ensures { result ≡ pos (angle_real s.now) }
{
    counted(s, at::ANGLE_REAL)
}

pub fn angle_imaginary(s: &[u8]) -> i64
    ensures { result ≡ pos (angle_imaginary s.now) }
{
    counted(s, at::ANGLE_IMAGINARY)
}

// zf and zr.
pub fn forward_limit(s: &[u8]) -> i64
    ensures { result ≡ forward_limit s.now }
{
    i64::from(crate::signed_field(s, at::FORWARD_LIMIT))
}

pub fn reverse_limit(s: &[u8]) -> i64
    ensures { result ≡ reverse_limit s.now }
{
    i64::from(crate::signed_field(s, at::REVERSE_LIMIT))
}

// The pickup of 3I2, counts.
pub fn negative_sequence_pickup(s: &[u8]) -> i64
    ensures { result ≡ pos (negative_sequence_pickup s.now) }
{
    counted(s, at::NEGATIVE_SEQUENCE_PICKUP)
}

// The second reach, thousandths of the replica; 0 where the second zone is off (document 02, CR 2).
pub fn second_reach(s: &[u8]) -> i64
    ensures { result ≡ pos (second_reach s.now) }
{
    counted(s, at::SECOND_REACH)
}

// R, the resistive reach, tenths of a voltage count for a current count; 0 where the quadrilaterals are off (document 02, CR 7).
pub fn resistive_reach(s: &[u8]) -> u64
    ensures { result ≡ resistive_reach s.now }
{
    u64::from(crate::field(s, at::RESISTIVE_REACH))
}

// A good settings record: its bytes, and that each field lies in its range.
#[derive(Clone, Copy)]
pub struct Settings<'a> {
    pub bytes: &'a [u8],
    pub ghost good: { Ranges bytes.now } by { Ranges-prop bytes.now },
}

// The fields of a good record, each as the function of its name reads it.
impl Settings<'_> {
    pub fn ends(self) -> u64
        ensures { result ≡ ends self.entry.bytes.now }
    {
        ends(self.bytes)
    }

    pub fn slope(self) -> u64
        ensures { result ≡ slope self.entry.bytes.now }
    {
        slope(self.bytes)
    }

    pub fn pickup(self) -> u64
        ensures { result ≡ pickup self.entry.bytes.now }
    {
        pickup(self.bytes)
    }

    pub fn replica_real(self) -> i64
        ensures { result ≡ pos (replica_real self.entry.bytes.now) }
    {
        replica_real(self.bytes)
    }

    pub fn replica_imaginary(self) -> i64
        ensures { result ≡ pos (replica_imaginary self.entry.bytes.now) }
    {
        replica_imaginary(self.bytes)
    }

    pub fn reach(self) -> i64
        ensures { result ≡ pos (reach self.entry.bytes.now) }
    {
        reach(self.bytes)
    }

    pub fn k_real(self) -> i64
        ensures { result ≡ pos (k_real self.entry.bytes.now) }
    {
        k_real(self.bytes)
    }

    pub fn k_imaginary(self) -> i64
        ensures { result ≡ k_imaginary self.entry.bytes.now }
    {
        k_imaginary(self.bytes)
    }

    pub fn angle_real(self) -> i64
        ensures { result ≡ pos (angle_real self.entry.bytes.now) }
    {
        angle_real(self.bytes)
    }

    pub fn angle_imaginary(self) -> i64
        ensures { result ≡ pos (angle_imaginary self.entry.bytes.now) }
    {
        angle_imaginary(self.bytes)
    }

    pub fn forward_limit(self) -> i64
        ensures { result ≡ forward_limit self.entry.bytes.now }
    {
        forward_limit(self.bytes)
    }

    pub fn reverse_limit(self) -> i64
        ensures { result ≡ reverse_limit self.entry.bytes.now }
    {
        reverse_limit(self.bytes)
    }

    pub fn negative_sequence_pickup(self) -> i64
        ensures { result ≡ pos (negative_sequence_pickup self.entry.bytes.now) }
    {
        negative_sequence_pickup(self.bytes)
    }

    pub fn second_reach(self) -> i64
        ensures { result ≡ pos (second_reach self.entry.bytes.now) }
    {
        second_reach(self.bytes)
    }

    pub fn resistive_reach(self) -> u64
        ensures { result ≡ resistive_reach self.entry.bytes.now }
    {
        resistive_reach(self.bytes)
    }
}
