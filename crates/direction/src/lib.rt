// Sequence quantities, and the direction of a fault, source document 002's negative-sequence element. Only end 1 is used. Here v2 is 3V2 and
// i2 is 3I2.
#![tactic(auto)]

ghost use Rattle.std.specs.Prelude.{◌≡◌};
ghost use Rattle.whole.specs.Sizes.{Within};
ghost use Rattle.plane.specs.Sizes.{Inside};
ghost use Rattle.settings.specs.Table.{most_angle, most_limit};
ghost use Rattle.direction.specs.Sizes.{sequence_size, square_size};
ghost use Rattle.direction.specs.Direction.{angle, reaches_pickup, torque, side_of, direction_of, is_forward, direction_number};

use plane::Phasor;
use settings::Settings;

pub mod sequence; // 3V1, 3V2, 3I2

// Which way a fault lies from the relay.
#[derive(Clone, Copy, PartialEq, Eq)]
pub enum Direction {
    None,
    Forward,
    Reverse,
}

// What the negative sequence tells of a fault. It is two values, as in the definitions `reaches_pickup` and `direction_of` and in `Findings`:
// an Option of a Direction would have a None of its own beside `Direction::None`.
#[derive(Clone, Copy)]
pub struct Bearing {
    // whether 3I2 reaches its pickup
    pub unbalanced: bool,
    // which way the fault lies
    pub direction: Direction,
}

// The number of a direction in the decision record.
impl From<Direction> for u8 {
    ghost from_gives = { λ d n. n ≡ direction_number d };

    fn from(d: Direction) -> u8 {
        match d {
            Direction::None => 0,
            Direction::Forward => 1,
            Direction::Reverse => 2,
        }
    }
}

// Whether a fault lies ahead.
pub fn is_forward(d: Direction) -> bool
    ensures { result ≡ is_forward d }
{
    d == Direction::Forward
}

// Whether 3I2 reaches its pickup.
fn reaches_pickup(s: Settings, i2: Phasor) -> bool
    requires { Inside sequence_size i2 }
    ensures { result ≡ reaches_pickup s.entry.bytes.now i2 }
{
    let pickup = s.negative_sequence_pickup();
    pickup * pickup <= plane::square(i2)
}

// D, the line angle.
fn angle(s: Settings) -> Phasor
    ensures { (result ≡ angle s.entry.bytes.now) × Inside most_angle result }
{
    Phasor {
        re: s.angle_real(),
        im: s.angle_imaginary(),
    }
}

// T.
fn torque(d: Phasor, v2: Phasor, i2: Phasor) -> i64
    requires { Inside most_angle d × Inside sequence_size v2 × Inside sequence_size i2 }
    ensures { result ≡ torque d v2 i2 }
{
    plane::dot(v2, plane::times(d, i2))
}

// On which side of the two limits T lies; the square is |3I2|².
#[tactic(auto, using(crate::proofs::Sizes::limits), unfolding(crate::specs::Direction::side_of))]
fn side(zf: i64, zr: i64, t: i64, square: i64) -> Direction
    requires { Within most_limit zf × Within most_limit zr × Within square_size square }
    ensures { result ≡ side_of zf zr t square }
{
    if t < zf * square {
        Direction::Forward
    } else if zr * square < t {
        Direction::Reverse
    } else {
        Direction::None
    }
}

// Both by a good settings record, from 3V2 and 3I2. Only where 3I2 reaches its pickup has a fault a direction.
#[tactic(auto, unfolding(crate::specs::Direction::direction_of))]
pub fn of_fault(s: Settings, v2: Phasor, i2: Phasor) -> Bearing
    requires { Inside sequence_size v2 × Inside sequence_size i2 }
    ensures { (result.unbalanced ≡ reaches_pickup s.entry.bytes.now i2) × (result.direction ≡ direction_of s.entry.bytes.now v2 i2) }
{
    if !reaches_pickup(s, i2) {
        return Bearing {
            unbalanced: false,
            direction: Direction::None,
        };
    }
    let zf = s.forward_limit();
    let zr = s.reverse_limit();
    let t = torque(angle(s), v2, i2);
    Bearing {
        unbalanced: true,
        direction: side(zf, zr, t, plane::square(i2)),
    }
}
