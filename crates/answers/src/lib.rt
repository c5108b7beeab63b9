// The numbers given back (document 01, "Numbers given back"; 9 and 10 are of document 02, CR 1, and 11 to 13 of CR 5): each refusal by
// name, and the one number that C gets.
#![tactic(auto)]

ghost use Rattle.std.specs.Prelude.{◌≡◌, ◌<◌, Err};
ghost use Rattle.answers.specs.Answers.{number, place, given_back, number_in, place_in};

// What a call answers: done, or why it is refused.
pub type Answer = Result<(), Refusal>;

// Each refusal of the table. A place is an index in a window, an offset in a settings record, or the index of a record in an event file.
#[derive(Clone, Copy, PartialEq, Eq)]
pub enum Refusal {
    NoSettings,
    OtherWindowLength,
    NoRoom,
    MissingSample(u16),
    OtherEntryLength,
    OutOfRange(u8),
    NothingPending,
    Differs(u8),
    OtherFrameLength,
    TooFewFrames,
    InsideRecord(u32),
    OtherNumber(u32),
    BadFile,
    NoRelay,
}

pub const DONE: u64 = 0;

pub const NO_SETTINGS: u64 = 1;

pub const OTHER_WINDOW_LENGTH: u64 = 2;

pub const NO_ROOM: u64 = 3;

pub const MISSING_SAMPLE: u64 = 4;

pub const OTHER_ENTRY_LENGTH: u64 = 5;

pub const OUT_OF_RANGE: u64 = 6;

pub const NOTHING_PENDING: u64 = 7;

pub const DIFFERS: u64 = 8;

pub const OTHER_FRAME_LENGTH: u64 = 9;

pub const TOO_FEW_FRAMES: u64 = 10;

pub const INSIDE_RECORD: u64 = 11;

pub const OTHER_NUMBER: u64 = 12;

pub const BAD_FILE: u64 = 13;

pub const NO_RELAY: u64 = 17;

impl Refusal {
    // Its number.
    fn number(self) -> u64
        ensures equals { result ≡ number (Err self) }
        ensures below_place { result < 256 }
    {
        match self {
            Refusal::NoSettings => NO_SETTINGS,
            Refusal::OtherWindowLength => OTHER_WINDOW_LENGTH,
            Refusal::NoRoom => NO_ROOM,
            Refusal::MissingSample(_) => MISSING_SAMPLE,
            Refusal::OtherEntryLength => OTHER_ENTRY_LENGTH,
            Refusal::OutOfRange(_) => OUT_OF_RANGE,
            Refusal::NothingPending => NOTHING_PENDING,
            Refusal::Differs(_) => DIFFERS,
            Refusal::OtherFrameLength => OTHER_FRAME_LENGTH,
            Refusal::TooFewFrames => TOO_FEW_FRAMES,
            Refusal::InsideRecord(_) => INSIDE_RECORD,
            Refusal::OtherNumber(_) => OTHER_NUMBER,
            Refusal::BadFile => BAD_FILE,
            Refusal::NoRelay => NO_RELAY,
        }
    }

    // Its place: the index or the offset where the table has one, else 0.
    fn place(self) -> u32
        ensures { result ≡ place (Err self) }
    {
        match self {
            Refusal::MissingSample(at) => u32::from(at),
            Refusal::OutOfRange(at) | Refusal::Differs(at) => u32::from(at),
            Refusal::InsideRecord(at) | Refusal::OtherNumber(at) => at,
            _ => 0,
        }
    }
}

// What a place counts in what C gets.
const PLACE_WEIGHT: u64 = 256;

// What C gets: 256 times the place, plus the number.
pub fn given_back(a: Answer) -> u64
    ensures { result ≡ given_back a }
{
    match a {
        Ok(()) => DONE,
        Err(refusal) => PLACE_WEIGHT * u64::from(refusal.place()) + refusal.number(),
    }
}

// The number in what C gets.
pub fn number_in(r: u64) -> u64
    ensures { result ≡ number_in r }
{
    r % PLACE_WEIGHT
}

// The place in it.
pub fn place_in(r: u64) -> u64
    ensures { result ≡ place_in r }
{
    r / PLACE_WEIGHT
}
