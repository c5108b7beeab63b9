// What is found in a window: the trip rule on it, and the 32 bytes of the decision record that tell it.
#![tactic(auto)]

ghost use Rattle.std.specs.Prelude.{◌≡◌, ◌<◌, ◌^◌, cond};
ghost use Rattle.findings.specs.DecisionRecord.{balanced_fault, trip, word, decision_bytes};
ghost use Rattle.findings.specs.Sizes.{FindingsSized};

use differential::Comparison;
use direction::Direction;
use plane::Phases;

// How many bytes a decision has.
pub const LENGTH: usize = 32;

// What is found in a window.
#[derive(Clone, Copy)]
pub struct Findings {
    // the phases that operate: a 1, b 2, c 4
    pub operating: u8,
    // the quadrilateral ground loops that see a fault ahead: A 1, B 2, C 4 (document 02, CR 7)
    pub quadrilaterals: u8,
    // the loops that assert: AG 1, BG 2, CG 4, AB 8, BC 16, CA 32
    pub asserting: u8,
    // the loops that assert at the second reach, in the same order; 0 where it is off (document 02, CR 2)
    pub overreaching: u8,
    // whether 3I2 reaches its pickup, and which way the fault lies: two values, as the definitions `trip` and `balanced_fault` take them
    pub unbalanced: bool,
    pub direction: Direction,
    // the slope at which each phase changes (document 02, CR 6)
    pub changes: Phases<u8>,
    // what is compared in each phase
    pub comparisons: Phases<Comparison>,
}

// A balanced fault, which has no direction: 3I2 is below its pickup, and AB, BC and CA all assert in the first zone (document 02, CR 4).
fn balanced_fault(asserting: u8, unbalanced: bool) -> bool
    ensures { result ≡ balanced_fault asserting unbalanced }
{
    !unbalanced && asserting / 8 % 8 == 7
}

// The trip rule.
fn trip(f: Findings) -> bool
    ensures { cond result 1 0 ≡ trip f.operating f.quadrilaterals f.asserting f.direction f.unbalanced }
{
    f.operating != 0
        || f.quadrilaterals != 0
        || balanced_fault(f.asserting, f.unbalanced)
        || direction::is_forward(f.direction) && f.asserting != 0
}

// A number of 32 bits in four bytes, the highest first.
fn word(n: u64) -> [u8; 4]
    requires { n < 2 ^ 32 }
    ensures { result ≡ word n }
{
    (n as u32).to_be_bytes()
}

// The decision record of what was found.
pub fn bytes(f: Findings) -> [u8; LENGTH]
    requires { FindingsSized f }
    ensures { result ≡ decision_bytes f }
{
    let Phases { a, b, c } = f.comparisons;
    let mut r = [0; LENGTH];
    r[..8].copy_from_slice(&[
        u8::from(trip(f)),
        whole::six_bits(f.operating, f.quadrilaterals),
        f.asserting,
        u8::from(f.direction),
        f.overreaching,
        f.changes.a,
        f.changes.b,
        f.changes.c,
    ]);
    r[8..12].copy_from_slice(&word(a.restraint));
    r[12..16].copy_from_slice(&word(b.restraint));
    r[16..20].copy_from_slice(&word(c.restraint));
    r[20..24].copy_from_slice(&word(differential::magnitude(a)));
    r[24..28].copy_from_slice(&word(differential::magnitude(b)));
    r[28..].copy_from_slice(&word(differential::magnitude(c)));
    r
}
