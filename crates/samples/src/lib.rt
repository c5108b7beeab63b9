// A window of samples: its numbers out of big-endian bytes, and its first missing one.
#![tactic(auto)]

ghost use Rattle.std.specs.Prelude.{◌≡◌, ◌*◌, ◌≤◌, length, take};
ghost use Rattle.samples.specs.Window.{channels, window_length, numbers_of, first_missing};
ghost use Rattle.samples.specs.Sizes.{count};

// How many frames a window has: one cycle.
pub const FRAMES: usize = 16;

// How many numbers the longest window has, that of six ends.
pub const LONGEST: usize = 336;

// The number that stands where a sample is missing.
const MISSING: i16 = -32768;

// How many numbers a frame has: three voltages, and three currents of each end.
pub fn channels(ends: usize) -> usize
    requires { ends ≤ 6 }
    ensures { result ≡ channels ends }
{
    3 + 3 * ends
}

// How many numbers bytes hold: none where a byte is over, or where they are more than any window has.
pub fn count(bytes: &[u8]) -> usize
    ensures { (result ≡ count bytes.now) × (2 * result ≤ length bytes.now) × (result ≤ window_length 6) }
{
    let n = bytes.len() / 2;
    if 2 * n != bytes.len() {
        return 0;
    }
    if n <= LONGEST { n } else { 0 }
}

// The numbers of big-endian bytes, at the front of a lent slice that has room for them; of what stands behind them nothing is said.
// They are stored by index, since nothing is known of what is written through a zip with `iter_mut`.
pub fn numbers(bytes: &[u8], samples: &mut [i16])
    requires { count bytes.now ≤ length samples.old }
    ensures { take (count bytes.now) samples.new ≡ take (count bytes.now) (numbers_of bytes.now) }
{
    let (pairs, _) = bytes.as_chunks::<2>();
    for (i, pair) in pairs[..count(bytes)].iter().enumerate() {
        samples[i] = i16::from_be_bytes(*pair);
    }
}

// The first missing sample of a window, frame by frame, and in a frame channel by channel. `contains` takes many numbers at a time and the
// search takes one, so there is no search where none is missing. Nested loops left by a label are the form that document 01 names for it.
#[tactic(auto, using(crate::proofs::Missing::searched))]
pub fn first_missing(window: &[i16]) -> Option<usize>
    ensures { result ≡ first_missing window.now }
{
    if !window.contains(&MISSING) {
        return None;
    }
    let channels = window.len().div_ceil(FRAMES);
    let mut found = None;
    'search: for (f, frame) in window.chunks(channels).enumerate() {
        for (c, &x) in frame.iter().enumerate() {
            if x == MISSING {
                found = Some(f * channels + c);
                break 'search;
            }
        }
    }
    found
}
