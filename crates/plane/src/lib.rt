// Complex numbers with whole parts: phasors, impedances and the turns between the phases, and what document 01 does with two of them.
#![tactic(auto)]

ghost use Rattle.std.specs.Prelude.{◌≡◌, ◌*◌, ◌^◌, pos, nat_abs, ◌<ℤ◌};
ghost use Rattle.whole.specs.Sizes.{Within};
ghost use Rattle.plane.specs.Plane.{plus, minus, times, scaled, rounded, dot, cross, squared, squared_magnitude, minus_j};
ghost use Rattle.plane.specs.Sizes.{Inside, Multiply};

use std::ops::{Add, Sub};

// A voltage or a current in counts, or any other complex number. How large it is stands in each contract, and not in the type: the
// definitions work with complex numbers of any size.
#[derive(Clone, Copy)]
pub struct Phasor {
    pub re: i64,
    pub im: i64,
}

// The same quantity in the three phases.
#[derive(Clone, Copy)]
pub struct Phases<T> {
    pub a: T,
    pub b: T,
    pub c: T,
}

// p + q.
impl Add for Phasor {
    type Output = Phasor;

    ghost can_add = { λ p q. Inside (2 ^ 61) p × Inside (2 ^ 61) q };

    ghost add_gives = { λ p q r. r ≡ plus p q };

    #[tactic(auto, unfolding(crate::specs::Plane::plus))]
    fn add(self, q: Phasor) -> Phasor {
        let re = self.re + q.re;
        let im = self.im + q.im;
        Phasor { re, im }
    }
}

// p - q.
impl Sub for Phasor {
    type Output = Phasor;

    ghost can_sub = { λ p q. Inside (2 ^ 61) p × Inside (2 ^ 61) q };

    ghost sub_gives = { λ p q r. r ≡ minus p q };

    #[tactic(auto, unfolding(crate::specs::Plane::minus))]
    fn sub(self, q: Phasor) -> Phasor {
        let re = self.re - q.re;
        let im = self.im - q.im;
        Phasor { re, im }
    }
}

// p q.
pub fn times(p: Phasor, q: Phasor) -> Phasor
    requires { Multiply p q }
    ensures { result ≡ times p q }
{
    let re = p.re * q.re - p.im * q.im;
    let im = p.re * q.im + p.im * q.re;
    Phasor { re, im }
}

// n p, for a whole number n.
pub fn scaled(n: i64, p: Phasor) -> Phasor
    requires { Within (2 ^ 20) n × Inside (2 ^ 42) p }
    ensures { result ≡ scaled n p }
{
    let re = n * p.re;
    let im = n * p.im;
    Phasor { re, im }
}

// Each component rounded by d.
#[tactic(auto, unfolding(crate::specs::Plane::rounded))]
pub fn rounded(p: Phasor, d: i64) -> Phasor
    requires { (pos 0 <ℤ d) × Inside (2 ^ 62) p × Within (2 ^ 61) d }
    ensures { result ≡ rounded (nat_abs d) p }
{
    let re = whole::round_by(p.re, d);
    let im = whole::round_by(p.im, d);
    Phasor { re, im }
}

// -j p, which rounds nothing.
#[tactic(auto, unfolding(crate::specs::Plane::minus_j))]
pub fn minus_j(p: Phasor) -> Phasor
    requires { Inside (2 ^ 62) p }
    ensures { result ≡ minus_j p }
{
    let re = p.im;
    let im = -p.re;
    Phasor { re, im }
}

// Re(p q*).
pub fn dot(p: Phasor, q: Phasor) -> i64
    requires { Multiply p q }
    ensures { result ≡ dot p q }
{
    p.re * q.re + p.im * q.im
}

// Im(p q*).
pub fn cross(p: Phasor, q: Phasor) -> i64
    requires { Multiply p q }
    ensures { result ≡ cross p q }
{
    p.im * q.re - p.re * q.im
}

// |p|².
pub fn square(p: Phasor) -> i64
    requires { Inside (4 * 10 ^ 8) p }
    ensures { result ≡ squared p }
{
    dot(p, p)
}

// |p|² as an unsigned number, to take a root of.
pub fn squared_magnitude(p: Phasor) -> u64
    requires { Inside (4 * 10 ^ 8) p }
    ensures { result ≡ squared_magnitude p }
{
    square(p) as u64
}
