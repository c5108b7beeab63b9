// The window that is fed frame by frame (document 02, CR 1). It lies in the relay's state as bytes. For each frame it is read, lent, moved on
// by that frame, and written back.
#![tactic(auto)]

ghost use Rattle.std.specs.Prelude.{◌≡◌, ◌+◌, ◌*◌, ◌≤◌, length};
ghost use Rattle.lent.specs.Lent.{over};
ghost use Rattle.samples.specs.Window.{frames, window_length};
ghost use Rattle.stream.specs.Window.{shifted, counted, moved_on, none, HasRoom};
ghost use Rattle.stream.specs.Stored.{stored_length, window_at, stored_first, stored, kept};

use samples::{FRAMES, LONGEST};

// The count of a window that has all its frames.
pub const FULL: u16 = FRAMES as u16;

// How many bytes a window takes in the state: its count and its numbers.
pub const STORED_LENGTH: usize = 2 + 2 * LONGEST;

// The frames, the oldest first, and how many were kept. A line of fewer ends uses the first of the numbers only.
#[derive(Clone, Copy)]
pub struct Window {
    pub numbers: [i16; LONGEST],
    pub count: u16,
}

impl Window {
    // The window of a fresh relay, and of one whose settings were just confirmed.
    pub fn empty() -> Window
        ensures { result ≡ none }
    {
        Window {
            numbers: [0; LONGEST],
            count: 0,
        }
    }

    // The window that lies in a relay's state from `at` on: the count and then the numbers, all 16-bit big-endian.
    #[tactic(auto, using(crate::proofs::Reading::read))]
    pub fn from_bytes(state: &[u8], at: usize) -> Window
        requires { at + stored_length ≤ length state.now }
        ensures { result ≡ window_at state.now at }
    {
        let count = u16::from_be_bytes([state[at], state[at + 1]]);
        let mut numbers = [0; LONGEST];
        samples::numbers(&state[at + 2..at + STORED_LENGTH], &mut numbers);
        Window { numbers, count }
    }

    // A window moved on by one frame, by value.
    pub fn with_frame(self, frame: &[i16]) -> Window
        requires { HasRoom frames (length frame.now) }
        ensures { result ≡ moved_on frames (length frame.now) self frame.now }
    {
        Window {
            numbers: shifted(self.numbers, frame),
            count: counted(self.count),
        }
    }

    // The window that is lent here is found moved on by one frame.
    pub fn moved_on(&mut self, frame: &[i16])
        requires { HasRoom frames (length frame.now) }
        ensures { self.new ≡ moved_on frames (length frame.now) self.old frame.now }
    {
        *self = self.with_frame(frame);
    }

    // The count and the first k numbers, written to where the window lies in a relay's state. The numbers are copied first: read where they
    // stand, they cost a second copy of the window (`keep` at three ends: 904 instructions for 799).
    #[tactic(auto, using(crate::proofs::Bytes::count_put, crate::proofs::Bytes::number_put))]
    fn put_first(self, k: usize, state: &mut [u8], at: usize)
        requires { (k ≤ window_length 6) × (at + 2 + 2 * k ≤ length state.old) }
        ensures { state.new ≡ over state.old at (stored_first k self) }
    {
        let numbers = self.numbers;
        lent::put(state, at, &self.count.to_be_bytes());
        for (i, x) in numbers[..k].iter().enumerate() {
            lent::put(state, at + 2 + 2 * i, &x.to_be_bytes());
        }
    }

    // A whole window written there.
    #[tactic(auto, using(crate::proofs::Storing::all_first))]
    pub fn put_bytes(self, state: &mut [u8], at: usize)
        requires { at + stored_length ≤ length state.old }
        ensures { state.new ≡ over state.old at (stored self) }
    {
        self.put_first(LONGEST, state, at);
    }
}

// The numbers with the oldest frame gone and the new one last. Those behind the frames stay.
#[tactic(auto, using(crate::proofs::Moving::moved))]
fn shifted(old: [i16; LONGEST], frame: &[i16]) -> [i16; LONGEST]
    requires { HasRoom frames (length frame.now) }
    ensures { result ≡ shifted frames (length frame.now) old frame.now }
{
    let channels = frame.len();
    let end = FRAMES * channels;
    let mut numbers = old;
    lent::put(&mut numbers, 0, &old[channels..end]);
    lent::put(&mut numbers, end - channels, frame);
    numbers
}

// One frame more, at most 16; a count above 16 reads as 16.
fn counted(count: u16) -> u16
    ensures { result ≡ counted frames count }
{
    if count < FULL { count + 1 } else { FULL }
}

// The window in a relay's state emptied: what a confirmation does.
pub fn clear(state: &mut [u8], at: usize)
    requires { at + stored_length ≤ length state.old }
    ensures { state.new ≡ over state.old at (stored none) }
{
    Window::empty().put_bytes(state, at);
}

// A frame kept in a relay's state. The window is read, lent, and written back as far as its frames go; the numbers behind them stand there
// already. The window as it is now comes back.
pub fn keep(state: &mut [u8], at: usize, frame: &[i16]) -> Window
    requires { (at + stored_length ≤ length state.old) × HasRoom frames (length frame.now) }
    ensures { (result ≡ moved_on frames (length frame.now) (window_at state.old at) frame.now)
        × (state.new ≡ kept frames (length frame.now) at state.old frame.now) }
{
    let mut w = Window::from_bytes(state, at);
    w.moved_on(frame);
    w.put_first(FRAMES * frame.len(), state, at);
    w
}
