// The phasors of a window: the samples of a channel against the cosine table, the voltages, and the grid of currents, phase by end.
#![tactic(auto)]

ghost use Rattle.std.specs.Prelude.{◌≡◌, ◌*◌, ◌<◌, ◌≤◌, ◌^◌, length};
ghost use Rattle.plane.specs.Sizes.{Inside, AllInside, phasor_size};
ghost use Rattle.samples.specs.Window.{window_length};
ghost use Rattle.phasors.specs.Rate.{sixteen};
ghost use Rattle.phasors.specs.Sums.{sample, with_sample, phasor_of};
ghost use Rattle.phasors.specs.Sizes.{Summed, GridInside};
ghost use Rattle.phasors.specs.Grid.{Filled, local_of, voltages_of};

use plane::{Phases, Phasor};

// The cosines at scale 16384.
const COSINES: [i16; 16] = [
    16384, 15137, 11585, 6270, 0, -6270, -11585, -15137, -16384, -15137, -11585, -6270, 0, 6270,
    11585, 15137,
];

// The sines are the same table, read so many places on.
const SHIFT: usize = 12;

// By what the sums are rounded.
const DIVISOR: i64 = 131072;

// The sums with one sample more: x C to the real part, -x S to the imaginary.
fn with_sample(sums: Phasor, x: i16, c: i16, s: i16) -> Phasor
    requires { Inside (2 ^ 62) sums }
    ensures { result ≡ with_sample sums x c s }
{
    let x = i64::from(x);
    let re = sums.re + x * i64::from(c);
    let im = sums.im - x * i64::from(s);
    Phasor { re, im }
}

// The sums A and B of a channel, over whatever table of coefficients is lent.
fn sums(
    window: &[i16],
    channels: usize,
    channel: usize,
    coefficients: &[i16],
    shift: usize,
) -> Phasor
    requires { (channel < channels) × (length coefficients.now * channels ≤ length window.now) × (length coefficients.now ≤ 256) × (shift ≤ 256) }
    ensures { Summed coefficients.now shift (sample window.now channels channel) (length coefficients.now) result }
{
    let mut sums = Phasor { re: 0, im: 0 };
    for (n, &c) in coefficients.iter().enumerate() {
        let s = coefficients[(n + shift) % coefficients.len()];
        sums = with_sample(sums, window[n * channels + channel], c, s);
    }
    sums
}

// The phasor of a channel.
pub fn measure(window: &[i16], channels: usize, channel: usize) -> Phasor
    requires { (channel < channels) × (16 * channels ≤ length window.now) }
    ensures { (result ≡ phasor_of sixteen (sample window.now channels channel)) × Inside phasor_size result }
{
    plane::rounded(sums(window, channels, channel, &COSINES, SHIFT), DIVISOR)
}

// Va, Vb, Vc.
pub fn voltages(window: &[i16], ends: usize) -> Phases<Phasor>
    requires { (ends ≤ 6) × (window_length ends ≤ length window.now) }
    ensures { (result ≡ voltages_of sixteen window.now ends) × AllInside phasor_size result }
{
    let channels = samples::channels(ends);
    Phases {
        a: measure(window, channels, 0),
        b: measure(window, channels, 1),
        c: measure(window, channels, 2),
    }
}

// The currents of all ends, phase by end. The library takes no memory at run time, so the grid has room for as many ends as a line can
// have, and `ends` says how many of them are filled.
pub fn currents(window: &[i16], ends: usize) -> [[Phasor; 6]; 3]
    requires { (ends ≤ 6) × (window_length ends ≤ length window.now) }
    ensures { Filled sixteen window.now ends result × GridInside result ends }
{
    let channels = samples::channels(ends);
    let mut grid = [[Phasor { re: 0, im: 0 }; 6]; 3];
    for e in 0..ends {
        for (p, phase) in grid.iter_mut().enumerate() {
            phase[e] = measure(window, channels, 3 + 3 * e + p);
        }
    }
    grid
}

// Ia, Ib, Ic of end 1.
pub fn local(grid: [[Phasor; 6]; 3]) -> Phases<Phasor>
    ensures { result ≡ local_of grid }
{
    let [a, b, c] = grid;
    Phases {
        a: a[0],
        b: b[0],
        c: c[0],
    }
}
