// Percentage differential (source documents 000 and 003): per phase, what flows into the line and is not let out again, against all that
// flows, and whether that is enough to operate.
#![tactic(auto)]

pub mod change; // the slope at which a phase changes

ghost use Rattle.std.specs.Prelude.{◌≡◌, ◌<◌, ◌≤◌};
ghost use Rattle.plane.specs.Sizes.{Inside, phasor_size};
ghost use Rattle.phasors.specs.Grid.{cell};
ghost use Rattle.phasors.specs.Sizes.{GridInside};
ghost use Rattle.settings.specs.Table.{most_slope, most_counts};
ghost use Rattle.settings.specs.Fields.{slope, pickup};
ghost use Rattle.differential.specs.Differential.{end_restraint, comparison, comparisons, magnitude, operates, operating_bits};
ghost use Rattle.differential.specs.Sizes.{Sized, AllSized, end_most, restraint_most};

use plane::{Phases, Phasor};
use settings::Settings;

// A magnitude in sixty-fourths of a count has 4096 times the square.
const SIXTY_FOURTHS_SQUARED: u64 = 4096;

// The slope is in percent and the restraint in sixty-fourths: 6400 squared.
const SLOPE_SCALE: u64 = 40960000;

// What is compared in one phase: the squared magnitude s of the differential, in counts, and the restraint U, in sixty-fourths of a count.
// That they are `Sized` stands in the contracts, and not in the type: the definitions compare numbers of any size.
#[derive(Clone, Copy)]
pub struct Comparison {
    pub square: u64,
    pub restraint: u64,
}

// What one end adds to the restraint: its magnitude in sixty-fourths of a count, rounded up.
#[tactic(auto, using(crate::proofs::Sizes::end_most_lem), unfolding(crate::specs::Differential::end_restraint))]
fn end_restraint(i: Phasor) -> u64
    requires { Inside phasor_size i }
    ensures { (result ≡ end_restraint i) × (result ≤ end_most) }
{
    whole::root_up(SIXTY_FOURTHS_SQUARED * plane::squared_magnitude(i))
}

// s and U of a phase, in one pass over its ends. By index, and not over a row: so a grid that is read end by phase, and a sum that begins at
// end 2, are refused for that (must-fail/end_by_phase.edit, local_end_left_out.edit).
fn of_phase(grid: &[[Phasor; 6]; 3], p: usize, ends: usize) -> Comparison
    requires { (p < 3) × (ends ≤ 6) × GridInside grid.now ends }
    ensures { (result ≡ comparison (cell grid.now p) ends) × Sized result }
{
    let mut sum = Phasor { re: 0, im: 0 };
    let mut restraint: u64 = 0;
    for e in 0..ends {
        let i = grid[p][e];
        sum = sum + i;
        restraint += end_restraint(i);
    }
    let square = plane::squared_magnitude(sum);
    Comparison { square, restraint }
}

// What is compared in each phase, from the currents of all ends.
pub fn of_phases(grid: [[Phasor; 6]; 3], ends: usize) -> Phases<Comparison>
    requires { (ends ≤ 6) × GridInside grid ends }
    ensures { (result ≡ comparisons (cell grid) ends) × AllSized result }
{
    Phases {
        a: of_phase(&grid, 0, ends),
        b: of_phase(&grid, 1, ends),
        c: of_phase(&grid, 2, ends),
    }
}

// The magnitude of the differential in sixty-fourths of a count, rounded down.
#[tactic(auto, using(crate::proofs::Sizes::magnitude_most), unfolding(crate::specs::Differential::magnitude))]
pub fn magnitude(x: Comparison) -> u64
    requires { Sized x }
    ensures { (result ≡ magnitude x) × (result ≤ restraint_most) }
{
    whole::floor_root(SIXTY_FOURTHS_SQUARED * x.square)
}

// Whether a phase operates at a slope, in percent, and with a pickup, in counts.
#[tactic(auto, unfolding(crate::specs::Differential::operates))]
pub fn operates(slope: u64, pickup: u64, x: Comparison) -> bool
    requires { (slope ≤ most_slope) × (pickup ≤ most_counts) × Sized x }
    ensures { result ≡ operates slope pickup x }
{
    let restrained = slope * x.restraint;
    pickup * pickup <= x.square && restrained * restrained < SLOPE_SCALE * x.square
}

// The phases that operate by a good settings record: a 1, b 2, c 4.
#[tactic(auto, unfolding(crate::specs::Differential::operating_bits))]
pub fn operating_bits(s: Settings, x: Phases<Comparison>) -> u8
    requires { AllSized x }
    ensures { (result ≡ operating_bits (slope s.entry.bytes.now) (pickup s.entry.bytes.now) x) × (result < 8) }
{
    let slope = s.slope();
    let pickup = s.pickup();
    whole::three_bits(
        operates(slope, pickup, x.a),
        operates(slope, pickup, x.b),
        operates(slope, pickup, x.c),
    )
}
