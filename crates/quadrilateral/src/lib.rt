// The quadrilateral ground loops, document 02, CR 7 (source document 002, "Creating Quadrilateral Ground Distance Characteristics"): the top
// by the reactance, the sides by the resistance, the bottom by the direction. Only end 1 is used.
#![tactic(auto)]

ghost use Rattle.std.specs.Prelude.{◌≡◌, ◌≤◌, ◌<◌, pos, nat_abs};
ghost use Rattle.whole.specs.Sizes.{Within};
ghost use Rattle.plane.specs.Plane.{cross};
ghost use Rattle.plane.specs.Sizes.{Inside, AllInside, phasor_size};
ghost use Rattle.settings.specs.Table.{most_replica, most_reach, most_resistive_reach};
ghost use Rattle.settings.specs.Fields.{reach, resistive_reach};
ghost use Rattle.distance.specs.Sizes.{loop_voltage_size, residual_size, LoopInside, SixInside};
ghost use Rattle.distance.specs.Constants.{replica};
ghost use Rattle.distance.specs.Mho.{residual};
ghost use Rattle.quadrilateral.specs.Sizes.{drop_size, side_size};
ghost use Rattle.quadrilateral.specs.Quadrilateral.{below_top, between_sides, sees, seeing, quadrilaterals_of};

use direction::Direction;
use distance::constants;
use distance::mho::{Loop, SixLoops};
use plane::{Phases, Phasor};
use settings::Settings;

// Z and the reach are in thousandths, their product in millionths.
const REACH_SCALE: i64 = 1000000;

// R is in tenths.
const TENTHS: u64 = 10;

// |Im[p (ZI)*]|: it is |n| for V, and |q| for Ir. Here zi is Z I.
#[tactic(auto, using(crate::proofs::Sizes::side_within))]
fn across(p: Phasor, zi: Phasor) -> u64
    requires { Inside residual_size p × Inside drop_size zi }
    ensures { (result ≡ nat_abs (cross p zi)) × (result ≤ side_size) }
{
    plane::cross(p, zi).unsigned_abs()
}

// Whether V lies below the reactance line at reach r.
fn below_top(r: i64, zi: Phasor, v: Phasor, ir: Phasor) -> bool
    requires { Within most_reach r × Inside drop_size zi × Inside loop_voltage_size v × Inside residual_size ir }
    ensures { result ≡ below_top r zi v ir }
{
    let short = plane::scaled(r, zi) - plane::scaled(REACH_SCALE, v);
    0 < plane::cross(short, ir)
}

// Whether a loop lies between its sides, from |n| and |q|.
#[tactic(auto, unfolding(crate::specs::Quadrilateral::between_sides))]
fn between_sides(limit: u64, n: u64, q: u64) -> bool
    requires { (limit ≤ most_resistive_reach) × (n ≤ side_size) × (q ≤ side_size) }
    ensures { result ≡ between_sides limit n q }
{
    q != 0 && TENTHS * n <= limit * q
}

// Whether a ground loop sees a fault, whichever way that lies.
#[tactic(auto, using(crate::proofs::Sizes::sizes), unfolding(crate::specs::Quadrilateral::sees))]
fn sees(z: Phasor, r: i64, limit: u64, ir: Phasor, l: Loop) -> bool
    requires { Inside most_replica z × Within most_reach r × (limit ≤ most_resistive_reach) × Inside residual_size ir × LoopInside l }
    ensures { result ≡ sees z r limit ir l }
{
    let zi = plane::times(z, l.i);
    below_top(r, zi, l.v, ir) && between_sides(limit, across(l.v, zi), across(ir, zi))
}

// The three that see one by a good settings record: A 1, B 2, C 4.
#[tactic(auto, unfolding(crate::specs::Quadrilateral::seeing))]
fn seeing(s: Settings, ir: Phasor, l: SixLoops) -> u8
    requires { Inside residual_size ir × SixInside l }
    ensures seen { result ≡ seeing (replica s.entry.bytes.now) (pos (reach s.entry.bytes.now)) (resistive_reach s.entry.bytes.now) ir l }
    ensures three_bits { result < 8 }
{
    let z = constants::replica(s);
    let r = s.reach();
    let limit = s.resistive_reach();
    let seen = |l: Loop| sees(z, r, limit, ir, l);
    whole::three_bits(seen(l.ag), seen(l.bg), seen(l.cg))
}

// The same where they are on and the fault lies ahead, from the currents of end 1 and its loops; else none.
#[tactic(auto, unfolding(crate::specs::Quadrilateral::quadrilaterals_of))]
pub fn of_fault(s: Settings, i: Phases<Phasor>, l: SixLoops, d: Direction) -> u8
    requires { AllInside phasor_size i × SixInside l }
    ensures { (result ≡ quadrilaterals_of s.entry.bytes.now i l d) × (result < 8) }
{
    if s.resistive_reach() != 0 && direction::is_forward(d) {
        seeing(s, distance::mho::residual(i), l)
    } else {
        0
    }
}
