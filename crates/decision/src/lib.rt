// The decision on a window: what is found in it by the settings record in force, and what decide answers.
#![tactic(auto)]

ghost use Rattle.std.specs.Prelude.{◌≡◌, ◌≤◌, length};
ghost use Rattle.plane.specs.Sizes.{AllInside, phasor_size};
ghost use Rattle.samples.specs.Window.{window_length};
ghost use Rattle.settings.specs.Record.{record_length};
ghost use Rattle.settings.specs.Fields.{ends};
ghost use Rattle.distance.specs.Sizes.{SixInside};
ghost use Rattle.findings.specs.Sizes.{FindingsSized};
ghost use Rattle.decision.specs.Decide.{Decided};
ghost use Rattle.decision.specs.Decision.{asserting_bits, overreaching_bits, unbalanced_at, direction_at, findings, decision};

use answers::{Answer, Refusal};
use direction::Bearing;
use distance::mho::{SixLoops, Zones};
use findings::Findings;
use plane::{Phases, Phasor};
use settings::Settings;

// How many bytes a decision has.
pub const LENGTH: usize = findings::LENGTH;

// How many numbers a window has, by a good settings record.
pub fn window_length(s: Settings) -> usize
    ensures { (result ≡ window_length (ends s.entry.bytes.now)) × (result ≤ window_length 6) }
{
    samples::FRAMES * samples::channels(s.ends() as usize)
}

// Which of the six loops of end 1 assert in each zone, at the reaches in force. In the second zone none does where it is off.
#[tactic(auto, using(crate::proofs::Cases::at_reach, crate::proofs::Cases::at_second, crate::proofs::Cases::second_off))]
fn zones(s: Settings, l: SixLoops) -> Zones<u8>
    requires { SixInside l }
    ensures { (result.first ≡ asserting_bits s.entry.bytes.now l) × (result.second ≡ overreaching_bits s.entry.bytes.now l) }
{
    let reach = Zones {
        first: s.reach(),
        second: s.second_reach(),
    };
    let seen = distance::mho::zone_bits(s, reach, l);
    if reach.second == 0 {
        return Zones { second: 0, ..seen };
    }
    seen
}

// Whether 3I2 reaches its pickup, and the direction of a fault, from the voltages and the currents of end 1.
fn bearing(s: Settings, v: Phases<Phasor>, i: Phases<Phasor>) -> Bearing
    requires { AllInside phasor_size v × AllInside phasor_size i }
    ensures { (result.unbalanced ≡ unbalanced_at s.entry.bytes.now i) × (result.direction ≡ direction_at s.entry.bytes.now v i) }
{
    let v2 = direction::sequence::negative_sequence(v);
    let i2 = direction::sequence::negative_sequence(i);
    direction::of_fault(s, v2, i2)
}

// What is found in a window of the right length, by a good settings record.
fn findings_in(s: Settings, window: &[i16]) -> Findings
    requires { length window.now ≡ window_length (ends s.bytes.now) }
    ensures { (result ≡ findings s.entry.bytes.now window.now) × FindingsSized result }
{
    let ends = s.ends() as usize;
    let v = phasors::voltages(window, ends);
    let grid = phasors::currents(window, ends);
    let i = phasors::local(grid);
    let comparisons = differential::of_phases(grid, ends);
    let operating = differential::operating_bits(s, comparisons);
    let changes = differential::change::slopes_of_change(s, comparisons);
    let loops = distance::mho::loops(s, v, i);
    let Zones {
        first: asserting,
        second: overreaching,
    } = zones(s, loops);
    let Bearing {
        unbalanced,
        direction,
    } = bearing(s, v, i);
    let quadrilaterals = quadrilateral::of_fault(s, i, loops, direction);
    Findings {
        operating,
        quadrilaterals,
        asserting,
        overreaching,
        unbalanced,
        direction,
        changes,
        comparisons,
    }
}

// The decision on a window of the right length, by a good settings record.
fn decision(s: Settings, window: &[i16]) -> [u8; LENGTH]
    requires { length window.now ≡ window_length (ends s.bytes.now) }
    ensures { result ≡ decision s.entry.bytes.now window.now }
{
    findings::bytes(findings_in(s, window))
}

// The decision on a window, at the front of a lent buffer, by a good settings record.
#[tactic(auto, using(crate::proofs::Cases::place_fits, crate::proofs::Cases::decide_0))]
fn decide_by(s: Settings, window: &[i16], out: &mut [u8]) -> Answer
    ensures { Decided s.entry.bytes.now window.now out.old result out.new }
{
    if window.len() != window_length(s) {
        return Err(Refusal::OtherWindowLength);
    }
    if out.len() < LENGTH {
        return Err(Refusal::NoRoom);
    }
    if let Some(k) = samples::first_missing(window) {
        return Err(Refusal::MissingSample(k as u16));
    }
    let record = decision(s, window);
    lent::put(out, 0, &record);
    Ok(())
}

// The same by a record of 32 bytes: a slice whose length the compiler knows, so that no byte's place is tested.
#[tactic(auto, using(crate::proofs::Cases::good_front, crate::proofs::Cases::decided_front))]
pub fn decide(s: Settings, window: &[i16], out: &mut [u8]) -> Answer
    requires { length s.bytes.now ≡ record_length }
    ensures { Decided s.entry.bytes.now window.now out.old result out.new }
{
    let bytes = &s.bytes[0..settings::LENGTH];
    decide_by(Settings { bytes }, window, out)
}
