// A frame fed to a relay whose record in force is good (document 02, CR 1): it is kept, and the newest 16 frames are decided on.
#![tactic(auto)]

ghost use Rattle.std.specs.Prelude.{◌≡◌, ◌+◌, ◌*◌, ◌≤◌, length};
ghost use Rattle.samples.specs.Window.{frames, numbers_of};
ghost use Rattle.settings.specs.Record.{record_length};
ghost use Rattle.settings.specs.Fields.{Ranges};
ghost use Rattle.stream.specs.Window.{moved_on};
ghost use Rattle.stream.specs.Stored.{stored_length, window_at, kept};
ghost use Rattle.decision.specs.Decision.{decision_length};
ghost use Rattle.feed.specs.Feed.{numbers_of_frame, record_of, KeptFrame, Fed};

use answers::{Answer, Refusal};
use samples::FRAMES;
use settings::Settings;
use stream::{FULL, Window};

// The record in force lies at the front of the state.
const RECORD: usize = 0;

const RECORD_END: usize = 32;

// How many numbers the longest frame has, that of six ends.
const LONGEST_FRAME: usize = samples::LONGEST / FRAMES;

// The record in force.
fn record(state: &[u8]) -> Settings<'_>
    requires { (record_length ≤ length state.now) × Ranges (record_of state.now) }
    ensures { result.bytes.now ≡ record_of state.now }
{
    Settings {
        bytes: &state[RECORD..RECORD_END],
    }
}

// How many numbers a frame has, by a good settings record.
fn frame_length(s: Settings) -> usize
    ensures { (result ≡ numbers_of_frame s.entry.bytes.now) × (result ≤ 21) }
{
    samples::channels(s.ends() as usize)
}

// The frame's bytes become numbers, which are kept in the window from `at` on. The window as it is now comes back.
fn keep_bytes(state: &mut [u8], at: usize, frame: &[u8], channels: usize) -> Window
    requires { (at + stored_length ≤ length state.old) × (channels ≤ 21) × (length frame.now ≡ 2 * channels) }
    ensures { (result ≡ moved_on frames channels (window_at state.old at) (numbers_of frame.now))
        × (state.new ≡ kept frames channels at state.old (numbers_of frame.now)) }
{
    let mut numbers = [0; LONGEST_FRAME];
    samples::numbers(frame, &mut numbers);
    stream::keep(state, at, &numbers[0..channels])
}

// A frame of the right length, with room for a decision, is kept. It is refused while there are fewer than 16; then the newest 16 are
// decided on.
fn kept(state: &mut [u8], at: usize, frame: &[u8], out: &mut [u8]) -> Answer
    requires { Ranges (record_of state.old) × (record_length ≤ at) × (at + stored_length ≤ length state.old) × (length frame.now ≡ 2 * numbers_of_frame (record_of state.old)) × (decision_length ≤ length out.old) }
    ensures { KeptFrame at state.old frame.now out.old result state.new out.new }
{
    let channels = frame_length(record(state));
    let window = keep_bytes(state, at, frame, channels);
    if window.count < FULL {
        return Err(Refusal::TooFewFrames);
    }
    let n = FRAMES * channels;
    let bytes = &state[RECORD..RECORD_END];
    decision::decide(Settings { bytes }, &window.numbers[0..n], out)
}

// What a frame is answered: its length is asked for, then the room for a decision, and else it is kept. The window lies from `at` on.
#[tactic(auto, using(crate::proofs::Cases::feed_3))]
pub fn feed(state: &mut [u8], at: usize, frame: &[u8], out: &mut [u8]) -> Answer
    requires { Ranges (record_of state.old) × (record_length ≤ at) × (at + stored_length ≤ length state.old) }
    ensures { Fed at state.old frame.now out.old result state.new out.new }
{
    if frame.len() != 2 * frame_length(record(state)) {
        return Err(Refusal::OtherFrameLength);
    }
    if out.len() < decision::LENGTH {
        return Err(Refusal::NoRoom);
    }
    kept(state, at, frame, out)
}
