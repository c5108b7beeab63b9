// The settings that describe the line, as complex numbers, each in the range that a good record gives it.
ghost use Rattle.std.specs.Prelude.{◌≡◌};
ghost use Rattle.plane.specs.Sizes.{Inside};
ghost use Rattle.settings.specs.Table.{most_replica};
ghost use Rattle.distance.specs.Constants.{replica, compensation};
ghost use Rattle.distance.specs.Sizes.{Compensates};

use plane::Phasor;
use settings::Settings;

// Z, the replica impedance, thousandths.
pub fn replica(s: Settings) -> Phasor
    ensures { (result ≡ replica s.entry.bytes.now) × Inside most_replica result }
{
    Phasor {
        re: s.replica_real(),
        im: s.replica_imaginary(),
    }
}

// k, thousandths.
pub fn compensation(s: Settings) -> Phasor
    ensures { (result ≡ compensation s.entry.bytes.now) × Compensates result }
{
    Phasor {
        re: s.k_real(),
        im: s.k_imaginary(),
    }
}
