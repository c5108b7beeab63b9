// Whole-number arithmetic of the relay: rounding by a divisor, the root rounded down and up, 16 bits as a signed number and back, and
// yes and no as bits.
#![tactic(auto)]

ghost use Rattle.std.specs.Prelude.{◌≡◌, [], ◌∷◌, ◌+◌, ◌*◌, ◌<◌, ◌^◌, pos, nat_abs, ◌<ℤ◌};
ghost use Rattle.whole.specs.Sizes.{Within};
ghost use Rattle.whole.specs.Round.{round_by};
ghost use Rattle.whole.specs.Root.{floor_root, root_up};
ghost use Rattle.whole.specs.Bits.{bits};
ghost use Rattle.whole.specs.TwosComplement.{signed, unsigned};

// x rounded by d: how many times d goes into x, to the nearest whole number; a tie goes up. `div_euclid` rounds down, also below
// zero, where the machine's own quotient goes toward it.
pub fn round_by(x: i64, d: i64) -> i64
    requires { (pos 0 <ℤ d) × Within (2 ^ 62) x × Within (2 ^ 61) d }
    ensures { result ≡ round_by (nat_abs d) x }
{
    (x + d / 2).div_euclid(d)
}

// The root rounded down: a magnitude, from its square.
//
// The root of zero is zero. For any other number, take the root of a quarter of it, by this same function, and double that. This is the
// root, or one too small: if the square of one more is still at most the number, add one. For 8: a quarter is 2, whose root is 1. Doubled
// it is 2. 3 times 3 is 9, above 8, so the root is 2. For 32: a quarter is 8, whose root is 2. Doubled it is 4. 5 times 5 is 25, not above
// 32, so the root is 5.
//
// Each call asks the next one for the root of a quarter of its own number, cut to a whole one. After 32 quarters any number is zero, so
// there are at most 33 calls. Adding one is enough, because twice the root of the quarter is at most the root, and two more is above it.
//
// It stands in place of the library's `isqrt` because document 02's CR 3 asks for this very function, and docs/HAND-CHECKS.md prints it.
pub fn floor_root(x: u64) -> u64
    ensures { result ≡ floor_root x }
{
    if x == 0 {
        0
    } else {
        let r = 2 * floor_root(x / 4);
        if (r + 1) * (r + 1) <= x { r + 1 } else { r }
    }
}

// The root rounded up: the smallest number whose square is at least x. Restraint is measured so, and never comes out too small.
pub fn root_up(x: u64) -> u64
    ensures { result ≡ root_up x }
{
    let r = floor_root(x);
    if r * r < x { r + 1 } else { r }
}

// 16 bits as a signed number, two's complement: a settings field, or a sample.
pub fn signed(v: u16) -> i16
    ensures { result ≡ signed v }
{
    v.cast_signed()
}

// And back, the same 16 bits.
pub fn unsigned(z: i16) -> u16
    ensures { result ≡ unsigned z }
{
    z.cast_unsigned()
}

// Three bits: the first weighs 1, the second 2, the third 4.
pub fn three_bits(a: bool, b: bool, c: bool) -> u8
    ensures { (result ≡ bits (a ∷ b ∷ c ∷ [])) × (result < 8) }
{
    u8::from(a) + 2 * u8::from(b) + 4 * u8::from(c)
}

// Three bits, and three above them.
pub fn six_bits(low: u8, high: u8) -> u8
    requires { (low < 8) × (high < 8) }
    ensures { result ≡ low + 8 * high }
{
    low + 8 * high
}
