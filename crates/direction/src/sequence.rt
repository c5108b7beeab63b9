// Sequence quantities, source document 002: 3V1, 3V2 and 3I2, formed at scale 16384 and rounded by it.
ghost use Rattle.std.specs.Prelude.{◌≡◌};
ghost use Rattle.plane.specs.Sizes.{Inside, AllInside, phasor_size};
ghost use Rattle.direction.specs.Sequence.{turned, sequence, positive_sequence, negative_sequence};
ghost use Rattle.direction.specs.Sizes.{sequence_size, polarising_size, Turn};

use plane::{Phases, Phasor};

// The scale at which a is taken.
const SCALE: i64 = 16384;

// a, a third of a turn forward.
pub const A: Phasor = Phasor {
    re: -8192,
    im: 14189,
};

// a², its conjugate.
pub const A2: Phasor = Phasor {
    re: -8192,
    im: -14189,
};

// f p for f = a or a², rounded.
pub fn turned(f: Phasor, p: Phasor) -> Phasor
    requires { Turn f × Inside sequence_size p }
    ensures { (result ≡ turned f p) × Inside polarising_size result }
{
    plane::rounded(plane::times(f, p), SCALE)
}

// xa + f xb + g xc, rounded.
fn sequence(f: Phasor, g: Phasor, x: Phases<Phasor>) -> Phasor
    requires { Turn f × Turn g × AllInside phasor_size x }
    ensures { (result ≡ sequence f g x) × Inside sequence_size result }
{
    let first = plane::scaled(SCALE, x.a);
    let second = plane::times(f, x.b);
    let third = plane::times(g, x.c);
    plane::rounded(first + second + third, SCALE)
}

// 3V1.
pub fn positive_sequence(v: Phases<Phasor>) -> Phasor
    requires { AllInside phasor_size v }
    ensures { (result ≡ positive_sequence v) × Inside sequence_size result }
{
    sequence(A, A2, v)
}

// 3V2 or 3I2.
pub fn negative_sequence(i: Phases<Phasor>) -> Phasor
    requires { AllInside phasor_size i }
    ensures { (result ≡ negative_sequence i) × Inside sequence_size result }
{
    sequence(A2, A, i)
}
