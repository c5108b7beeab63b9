// The six mho loops, source document 002, Equation 1.
ghost use Rattle.std.specs.Prelude.{◌≡◌, [], ◌∷◌};
ghost use Rattle.whole.specs.Sizes.{Within};
ghost use Rattle.whole.specs.Bits.{bits};
ghost use Rattle.plane.specs.Sizes.{Inside, AllInside, phasor_size};
ghost use Rattle.settings.specs.Table.{most_replica, most_reach};
ghost use Rattle.direction.specs.Sizes.{polarising_size};
ghost use Rattle.distance.specs.Sizes.{numerator_size, denominator_size, Compensates, residual_size, k_product_size, LoopInside, SixInside, RatioInside};
ghost use Rattle.distance.specs.Constants.{replica, compensation};
ghost use Rattle.distance.specs.Mho.{ratio_of, mho, asserts, residual, k_product, ground_loop, phase_loop, six_of, loops_of, loop_bits};

use crate::constants;
use direction::sequence;
use plane::{Phases, Phasor};
use settings::Settings;

// A loop: its voltage, its current and its polarising quantity. How large they are stands in the contracts, as `LoopInside`, and not in the
// type: the definition `ratio_of` and the theorem `no_polarising` are of a loop of any numbers.
#[derive(Clone, Copy)]
pub struct Loop {
    pub v: Phasor,
    pub i: Phasor,
    pub vp: Phasor,
}

// The three ground loops and the three phase loops. `SixInside` stands in the contracts too: `loops_of` is of phasors of any size.
#[derive(Clone, Copy)]
pub struct SixLoops {
    pub ag: Loop,
    pub bg: Loop,
    pub cg: Loop,
    pub ab: Loop,
    pub bc: Loop,
    pub ca: Loop,
}

// n and m of a loop. Where m is positive, the loop asserts from a reach of 1000000 n over m on. `RatioInside` stands in the contracts too:
// the theorem `mho_rule` is of any n and m.
#[derive(Clone, Copy)]
pub struct Ratio {
    pub n: i64,
    pub m: i64,
}

// The same quantity in each of two zones.
#[derive(Clone, Copy)]
pub struct Zones<T> {
    pub first: T,
    pub second: T,
}

// k is in thousandths.
const K_SCALE: i64 = 1000;

// Z and the reach are in thousandths too, their product in millionths.
const REACH_SCALE: i64 = 1000000;

// Ia+Ib+Ic.
pub fn residual(i: Phases<Phasor>) -> Phasor
    requires { AllInside phasor_size i }
    ensures { (result ≡ residual i) × Inside residual_size result }
{
    i.a + i.b + i.c
}

// The k product, rounded.
fn k_product(k: Phasor, i: Phases<Phasor>) -> Phasor
    requires { Compensates k × AllInside phasor_size i }
    ensures { (result ≡ k_product k i) × Inside k_product_size result }
{
    plane::rounded(plane::times(k, residual(i)), K_SCALE)
}

// A ground loop, from the phase's voltage and current, the k product and P.
#[tactic(auto, using(crate::proofs::Sizes::ground_loop_inside), unfolding(crate::specs::Mho::ground_loop))]
fn ground_loop(v: Phasor, i: Phasor, k: Phasor, p: Phasor) -> Loop
    requires { Inside phasor_size v × Inside phasor_size i × Inside k_product_size k × Inside polarising_size p }
    ensures { (result ≡ ground_loop v i k p) × LoopInside result }
{
    Loop { v, i: i + k, vp: p }
}

// The loop of phases x and y, from the voltages and the currents of both, and P.
#[tactic(auto, using(crate::proofs::Sizes::phase_loop_inside), unfolding(crate::specs::Mho::phase_loop))]
fn phase_loop(vx: Phasor, vy: Phasor, ix: Phasor, iy: Phasor, p: Phasor) -> Loop
    requires { Inside phasor_size vx × Inside phasor_size vy × Inside phasor_size ix × Inside phasor_size iy × Inside polarising_size p }
    ensures { (result ≡ phase_loop vx vy ix iy p) × LoopInside result }
{
    Loop {
        v: vx - vy,
        i: ix - iy,
        vp: plane::minus_j(p),
    }
}

// The six from the k product and what polarises AG, BG and CG: P, a²P and aP. A phase loop has that of the third phase.
fn six(v: Phases<Phasor>, i: Phases<Phasor>, k: Phasor, p: Phases<Phasor>) -> SixLoops
    requires { AllInside phasor_size v × AllInside phasor_size i × Inside k_product_size k × AllInside polarising_size p }
    ensures { (result ≡ six_of v i k p.a p.c p.b) × SixInside result }
{
    SixLoops {
        ag: ground_loop(v.a, i.a, k, p.a),
        bg: ground_loop(v.b, i.b, k, p.b),
        cg: ground_loop(v.c, i.c, k, p.c),
        ab: phase_loop(v.a, v.b, i.a, i.b, p.c),
        bc: phase_loop(v.b, v.c, i.b, i.c, p.a),
        ca: phase_loop(v.c, v.a, i.c, i.a, p.b),
    }
}

// The six loops by a good settings record, from the voltages and the currents of end 1.
#[tactic(auto, unfolding(crate::specs::Mho::loops_of))]
pub fn loops(s: Settings, v: Phases<Phasor>, i: Phases<Phasor>) -> SixLoops
    requires { AllInside phasor_size v × AllInside phasor_size i }
    ensures { (result ≡ loops_of (compensation s.entry.bytes.now) v i) × SixInside result }
{
    let k = k_product(constants::compensation(s), i);
    let p = sequence::positive_sequence(v);
    let ap = sequence::turned(sequence::A, p);
    let a2p = sequence::turned(sequence::A2, p);
    let polarising = Phases {
        a: p,
        b: a2p,
        c: ap,
    };
    six(v, i, k, polarising)
}

// n and m of a loop.
fn ratio_of(z: Phasor, l: Loop) -> Ratio
    requires { Inside most_replica z × LoopInside l }
    ensures { (result ≡ ratio_of z l) × RatioInside result }
{
    Ratio {
        n: plane::dot(l.v, l.vp),
        m: plane::dot(plane::times(z, l.i), l.vp),
    }
}

// The mho rule at reach r.
#[tactic(auto, using(crate::proofs::Sizes::reaches), unfolding(crate::specs::Mho::mho))]
fn mho(r: i64, n: i64, m: i64) -> bool
    requires { Within most_reach r × Within numerator_size n × Within denominator_size m }
    ensures { result ≡ mho r n m }
{
    0 < m && REACH_SCALE * n <= r * m
}

// Whether a loop with this n and m asserts at reach r.
#[tactic(auto, using(crate::proofs::Sizes::reaches), unfolding(crate::specs::Mho::asserts))]
fn asserts(r: i64, q: Ratio) -> bool
    requires { Within most_reach r × RatioInside q }
    ensures { result ≡ asserts r q }
{
    mho(r, q.n, q.m)
}

// The bits of six loops: AG 1, BG 2, CG 4, AB 8, BC 16, CA 32.
fn six_bits(ag: bool, bg: bool, cg: bool, ab: bool, bc: bool, ca: bool) -> u8
    ensures { result ≡ bits (ag ∷ bg ∷ cg ∷ ab ∷ bc ∷ ca ∷ []) }
{
    whole::six_bits(whole::three_bits(ag, bg, cg), whole::three_bits(ab, bc, ca))
}

// A loop in two zones, at the reach r of each: its n and m are formed once.
fn in_zones(z: Phasor, r: Zones<i64>, l: Loop) -> Zones<bool>
    requires { Inside most_replica z × Within most_reach r.first × Within most_reach r.second × LoopInside l }
    ensures first { result.first ≡ asserts r.first (ratio_of z l) }
    ensures second { result.second ≡ asserts r.second (ratio_of z l) }
{
    let q = ratio_of(z, l);
    Zones {
        first: asserts(r.first, q),
        second: asserts(r.second, q),
    }
}

// The six loop bits at the reach r of each zone, by a good settings record.
#[tactic(auto, unfolding(crate::specs::Mho::loop_bits))]
pub fn zone_bits(s: Settings, r: Zones<i64>, l: SixLoops) -> Zones<u8>
    requires { Within most_reach r.first × Within most_reach r.second × SixInside l }
    ensures first { result.first ≡ loop_bits (replica s.entry.bytes.now) r.first l }
    ensures second { result.second ≡ loop_bits (replica s.entry.bytes.now) r.second l }
{
    let z = constants::replica(s);
    let ag = in_zones(z, r, l.ag);
    let bg = in_zones(z, r, l.bg);
    let cg = in_zones(z, r, l.cg);
    let ab = in_zones(z, r, l.ab);
    let bc = in_zones(z, r, l.bc);
    let ca = in_zones(z, r, l.ca);
    Zones {
        first: six_bits(ag.first, bg.first, cg.first, ab.first, bc.first, ca.first),
        second: six_bits(
            ag.second, bg.second, cg.second, ab.second, bc.second, ca.second,
        ),
    }
}
