// The slope at which a phase changes (document 02, CR 6): "how far off can the slope be?"
ghost use Rattle.std.specs.Prelude.{◌≡◌, ◌≤◌};
ghost use Rattle.settings.specs.Table.{most_counts};
ghost use Rattle.settings.specs.Fields.{pickup};
ghost use Rattle.differential.specs.Differential.{slope_of_change, slopes_of_change};
ghost use Rattle.differential.specs.Sizes.{Sized, AllSized};

use crate::Comparison;
use plane::Phases;
use settings::Settings;

// How many numbers c can be: 0, and each slope of a settings record.
const CANDIDATES: u64 = 101;

// c of a phase, with a pickup, in counts: it operates exactly at the slopes from 1 to c. A phase that operates at a slope operates at every
// smaller one, so c is found by halving. It is at least `least` and below `least` + `width` throughout. Seven turns leave one number.
fn slope_of_change(pickup: u64, x: Comparison) -> u8
    requires { (pickup ≤ most_counts) × Sized x }
    ensures { result ≡ slope_of_change pickup x }
{
    let mut least: u64 = 0;
    let mut width: u64 = CANDIDATES;
    while 1 < width {
        let half = width / 2;
        width -= half;
        let slope = least + half;
        if crate::operates(slope, pickup, x) {
            least = slope;
        }
    }
    least as u8
}

// c of each phase, by a good settings record. Its slope has no part in it.
pub fn slopes_of_change(s: Settings, x: Phases<Comparison>) -> Phases<u8>
    requires { AllSized x }
    ensures { result ≡ slopes_of_change (pickup s.entry.bytes.now) x }
{
    let pickup = s.pickup();
    Phases {
        a: slope_of_change(pickup, x.a),
        b: slope_of_change(pickup, x.b),
        c: slope_of_change(pickup, x.c),
    }
}
