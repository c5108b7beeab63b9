// The reader of event files (document 02, CR 5), in a lent slice: open, wanted, read up to where a frame is fed, and end.
#![tactic(auto)]

ghost use Rattle.std.specs.Prelude.{◌≡◌, ◌+◌, ◌-◌, ◌≤◌, length, drop, MatchResult};
ghost use Rattle.events.specs.Slice.{reader_length, hand_at, HoldsReading, HasEnded, Opened, wanted_in, AtEnd, wrong_in, finished, Settled, TookIn, Read, frame_end};

use answers::{Answer, Refusal};

// How many bytes a reader has; and where it holds the time and the frame of the last whole record.
pub const LENGTH: usize = 160;

pub const TIME: usize = 8;

pub const FRAME: usize = 12;

// Where its other parts lie: what the caller said of the file, what ended the reading, how many bytes of the record being read are in hand,
// the index of that record, and these bytes.
const ENDS: usize = 0;

const STATUS: usize = 1;

const ENDED: usize = 2;

const HELD: usize = 3;

const INDEX: usize = 4;

const HAND: usize = 56;

// What stands in ENDED where the reading has ended inside a record, or by a wrong number: the number of the refusal. It is a byte of the
// slice that C keeps, which one match reads, so an enum for it would be no plainer.
const INSIDE: u8 = answers::INSIDE_RECORD as u8;

const OTHER: u8 = answers::OTHER_NUMBER as u8;

// What a call of read comes to: the bytes are taken; or a record is whole, and its frame is to be fed.
#[derive(Clone, Copy)]
pub enum Step {
    Taken,
    Whole,
}

// A reading that has not ended: how many ends the file has; and of the record being read its length, its index, and how many of its bytes
// are in hand.
#[derive(Clone, Copy)]
struct Reading {
    ends: usize,
    long: usize,
    index: u32,
    held: usize,
    ghost few_ends: { ends ≤ 6 },
    ghost short: { long ≤ 62 },
    ghost in_hand: { held ≤ long },
}

impl Reading {
    // How many bytes are missing to the end of the record.
    fn missing(self) -> usize
        ensures { result ≡ self.long - self.held }
    {
        self.long - self.held
    }
}

// The reading, or the refusal that ended it.
#[tactic(auto, unfolding(crate::specs::Slice::is_reading, crate::specs::Slice::reader_of))]
fn reading_in(reader: &[u8; LENGTH]) -> Result<Reading, Refusal>
    ensures { MatchResult result (λ r. HoldsReading reader.now r.ends r.long r.index r.held) (λ e. HasEnded reader.now e) }
{
    let index = records::word(reader, INDEX);
    match reader[ENDED] {
        0 => {}
        INSIDE => return Err(Refusal::InsideRecord(index)),
        OTHER => return Err(Refusal::OtherNumber(index)),
        _ => return Err(Refusal::BadFile),
    }
    if !records::good_file(u64::from(reader[ENDS]), u64::from(reader[STATUS])) {
        return Err(Refusal::BadFile);
    }
    let ends = usize::from(reader[ENDS]);
    let long = records::record_length(ends, usize::from(reader[STATUS]));
    let held = usize::from(reader[HELD]);
    if long <= held {
        return Err(Refusal::BadFile);
    }
    Ok(Reading {
        ends,
        long,
        index,
        held,
    })
}

// How many bytes are missing to the end of the record being read; 0 where the reading has ended.
#[tactic(auto, using(crate::proofs::Standing::wanted_is, crate::proofs::Standing::none_wanted))]
pub fn wanted(reader: &[u8]) -> usize
    ensures { result ≡ wanted_in reader.now }
{
    let Some(reader) = reader.as_array::<LENGTH>() else {
        return 0;
    };
    match reading_in(reader) {
        Ok(reading) => reading.missing(),
        Err(_) => 0,
    }
}

// Puts a reader at the start of a file. What the caller says of a file that cannot be is remembered: all zero bytes.
pub fn open(reader: &mut [u8], ends: u64, status: u64) -> Answer
    ensures { Opened ends status reader.old result reader.new }
{
    let Some(reader) = reader.as_mut_array::<LENGTH>() else {
        return Err(Refusal::NoRelay);
    };
    *reader = [0; LENGTH];
    if !records::good_file(ends, status) {
        return Err(Refusal::BadFile);
    }
    reader[ENDS] = ends as u8;
    reader[STATUS] = status as u8;
    Ok(())
}

// At the end of a file: done between records; inside one a refusal, which the reader remembers.
#[tactic(auto, using(crate::proofs::Standing::end_between))]
pub fn end(reader: &mut [u8]) -> Answer
    ensures { AtEnd reader.old result reader.new }
{
    let Some(reader) = reader.as_mut_array::<LENGTH>() else {
        return Err(Refusal::NoRelay);
    };
    let reading = reading_in(reader)?;
    if reading.held == 0 {
        return Ok(());
    }
    reader[ENDED] = INSIDE;
    Err(Refusal::InsideRecord(reading.index))
}

// Whether the four bytes of the record's number are in hand, and it is not one above the index.
fn wrong_number(reader: &[u8; LENGTH], reading: Reading) -> bool
    ensures { result ≡ wrong_in reader.now reading.held reading.index }
{
    4 <= reading.held && u64::from(records::word(reader, HAND)) != u64::from(reading.index) + 1
}

// A whole record is in hand: the reader holds its time and its frame, and the next record is to be read, whose index is this one's number.
fn finish(reader: &mut [u8; LENGTH], ends: usize)
    requires { ends ≤ 6 }
    ensures { reader.new ≡ finished ends (drop hand_at reader.old) reader.old }
{
    let (front, hand) = reader.split_at_mut(HAND);
    let number = records::word(hand, 0);
    let time = records::word(hand, records::TIME);
    let to = records::BEFORE_CHANNELS + 2 * samples::channels(ends);
    front[HELD] = 0;
    lent::put(front, INDEX, &number.to_le_bytes());
    lent::put(front, TIME, &time.to_be_bytes());
    records::turn(front, FRAME, &hand[records::BEFORE_CHANNELS..to]);
}

// What the record being read comes to, with so many bytes of it in hand.
fn settle(reader: &mut [u8; LENGTH], reading: Reading) -> Result<Step, Refusal>
    ensures { Settled reading.ends reading.long reading.index reading.held reader.old result reader.new }
{
    if wrong_number(reader, reading) {
        reader[ENDED] = OTHER;
        return Err(Refusal::OtherNumber(reading.index));
    }
    if reading.held < reading.long {
        reader[HELD] = reading.held as u8;
        return Ok(Step::Taken);
    }
    finish(reader, reading.ends);
    Ok(Step::Whole)
}

// Takes in a piece that is wanted to its end.
fn take_in(reader: &mut [u8; LENGTH], mut reading: Reading, piece: &[u8]) -> Result<Step, Refusal>
    requires of_reader { HoldsReading reader.old reading.ends reading.long reading.index reading.held }
    requires wanted { reading.held + length piece.now ≤ reading.long }
    ensures { TookIn reader.old piece.now result reader.new }
{
    lent::put(reader, HAND + reading.held, piece);
    reading.held += piece.len();
    settle(reader, reading)
}

// Takes as many of the bytes lent as are wanted, no more.
pub fn read(reader: &mut [u8; LENGTH], bytes: &[u8]) -> Result<Step, Refusal>
    ensures { Read reader.old bytes.now result reader.new }
{
    let reading = reading_in(reader)?;
    let n = reading.missing().min(bytes.len());
    take_in(reader, reading, &bytes[..n])
}

// Where the frame ends that the reader holds.
pub fn frame_end(reader: &[u8; LENGTH]) -> usize
    ensures { (result ≡ frame_end reader.now) × (12 ≤ result) × (result ≤ reader_length) }
{
    let ends = usize::from(reader[ENDS]);
    if 6 < ends {
        return FRAME;
    }
    FRAME + 2 * samples::channels(ends)
}
