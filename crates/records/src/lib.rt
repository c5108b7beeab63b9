// A record of an event file (document 02, CR 5: binary data of C37.111-1999): its length, its numbers, and the writer.
#![tactic(auto)]

ghost use Rattle.std.specs.Prelude.{◌≡◌, ◌+◌, ◌≤◌, length};
ghost use Rattle.lent.specs.Lent.{over};
ghost use Rattle.records.specs.Record.{word_at, swapped, good_ends, good_file, record_length, narrow};
ghost use Rattle.records.specs.Writer.{Wrote};

use answers::{Answer, Refusal};

// How many ends a file may have, and how many status channels.
const FEWEST_ENDS: u64 = 2;

const MOST_ENDS: u64 = 6;

const MOST_STATUS: u64 = 96;

// Where the time stands, behind the sample number; and where the channels begin.
pub const TIME: usize = 4;

pub const BEFORE_CHANNELS: usize = 8;

// The number of the four bytes from `at` on, the low one first.
#[tactic(auto, unfolding(crate::specs::Record::word_at))]
pub fn word(bytes: &[u8], at: usize) -> u32
    requires { at + 4 ≤ length bytes.now }
    ensures { result ≡ word_at bytes.now at }
{
    u32::from_le_bytes([bytes[at], bytes[at + 1], bytes[at + 2], bytes[at + 3]])
}

// Writes channels over dst, from `at` on, the two bytes of each exchanged: from low byte first to high byte first, and back.
pub fn turn(dst: &mut [u8], at: usize, src: &[u8])
    requires { at + length src.now ≤ length dst.old }
    ensures { dst.new ≡ over dst.old at (swapped src.now) }
{
    let (pairs, _) = src.as_chunks::<2>();
    for (i, &[low, high]) in pairs.iter().enumerate() {
        dst[at + 2 * i] = high;
        dst[at + 2 * i + 1] = low;
    }
}

// Whether there are as many ends as a line has.
pub fn good_ends(ends: u64) -> bool
    ensures { result ≡ good_ends ends }
{
    (FEWEST_ENDS..=MOST_ENDS).contains(&ends)
}

// Whether the caller's word on a file can be so.
pub fn good_file(ends: u64, status: u64) -> bool
    ensures { result ≡ good_file ends status }
{
    good_ends(ends) && status <= MOST_STATUS
}

// How many bytes a record has.
pub fn record_length(ends: usize, status: usize) -> usize
    requires { (ends ≤ 6) × (status ≤ 96) }
    ensures { (result ≡ record_length (narrow ends status)) × (result ≤ 62) }
{
    BEFORE_CHANNELS + 2 * samples::channels(ends) + 2 * status.div_ceil(16)
}

// The record that a frame and its time make, when so many came before, at the front of a lent buffer; later bytes stay.
pub fn write(ends: u64, written: u64, time: u32, frame: &[u8], out: &mut [u8]) -> Answer
    ensures { Wrote ends written time frame.now out.old result out.new }
{
    if !good_ends(ends) {
        return Err(Refusal::BadFile);
    }
    let long = 2 * samples::channels(ends as usize);
    if frame.len() != long {
        return Err(Refusal::OtherFrameLength);
    }
    if out.len() < BEFORE_CHANNELS + long {
        return Err(Refusal::NoRoom);
    }
    // A number of 32 bits; after the last there is none.
    let Ok(number) = u32::try_from(written.saturating_add(1)) else {
        return Err(Refusal::OtherNumber(0));
    };
    lent::put(out, 0, &number.to_le_bytes());
    lent::put(out, TIME, &time.to_le_bytes());
    turn(out, BEFORE_CHANNELS, frame);
    Ok(())
}
