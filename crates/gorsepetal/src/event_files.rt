// What C calls, by way of gorsepetal_c, to read and to write event files (document 02, CR 5). The reader is a second lent state, beside the
// relay's own.
ghost use Rattle.std.specs.Prelude.{◌≡◌};
ghost use Rattle.gorsepetal.specs.Calls.{feed_answer, feed_state, feed_out, Unchanged};
ghost use Rattle.gorsepetal.specs.EventFiles.{held_frame, read_answer, read_state, read_reader, read_out, EventsOpened, EventsWanted, EventsRead, EventsEnded, EventsWritten};

use answers::{Answer, Refusal};
use events::{LENGTH, Step};

// Puts a reader at the start of a file with so many ends and status channels.
pub fn gorsepetal_events_open(reader: &mut [u8], ends: u64, status: u64) -> u64
    ensures { EventsOpened reader.old ends status result reader.new }
{
    answers::given_back(events::open(reader, ends, status))
}

// How many bytes are missing to the end of the record being read; 0 where the reading has ended. It is a count and no answer.
pub fn gorsepetal_events_wanted(reader: &[u8]) -> u64
    ensures { EventsWanted reader.now result × Unchanged reader.entry.now reader.exit.now }
{
    events::wanted(reader) as u64
}

// The frame that a reader holds is fed.
fn feed_held(state: &mut [u8], reader: &[u8; LENGTH], out: &mut [u8]) -> Answer
    ensures answer { result ≡ feed_answer state.old (held_frame reader.now) out.old }
    ensures state { state.new ≡ feed_state state.old (held_frame reader.now) out.old }
    ensures buffer { out.new ≡ feed_out state.old (held_frame reader.now) out.old }
{
    let to = events::frame_end(reader);
    crate::feed(state, &reader[events::FRAME..to], out)
}

#[tactic(auto, using(crate::proofs::EventCases::no_relay, crate::proofs::EventCases::no_reader, crate::proofs::EventCases::refused_answer, crate::proofs::EventCases::refused_state, crate::proofs::EventCases::refused_reader, crate::proofs::EventCases::refused_out, crate::proofs::EventCases::reader_is,))]
fn read(state: &mut [u8], reader: &mut [u8], bytes: &[u8], out: &mut [u8]) -> Answer
    ensures answer { result ≡ read_answer state.old reader.old bytes.now out.old }
    ensures state { state.new ≡ read_state state.old reader.old bytes.now out.old }
    ensures reader { reader.new ≡ read_reader state.old reader.old bytes.now }
    ensures buffer { out.new ≡ read_out state.old reader.old bytes.now out.old }
{
    if state.len() != crate::STATE_LENGTH {
        return Err(Refusal::NoRelay);
    }
    let Some(reader) = reader.as_mut_array::<LENGTH>() else {
        return Err(Refusal::NoRelay);
    };
    match events::read(reader, bytes) {
        Err(refusal) => Err(refusal),
        Ok(Step::Taken) => Ok(()),
        Ok(Step::Whole) => feed_held(state, reader, out),
    }
}

// A piece of the file: as many of its bytes are taken as are wanted. Where a record is whole now, its frame is fed.
pub fn gorsepetal_events_read(
    state: &mut [u8],
    reader: &mut [u8],
    bytes: &[u8],
    out: &mut [u8],
) -> u64
    ensures { EventsRead state.old reader.old bytes.now out.old result state.new reader.new out.new × Unchanged bytes.entry.now bytes.exit.now }
{
    answers::given_back(read(state, reader, bytes, out))
}

// The end of the file: whether it ends between records.
pub fn gorsepetal_events_end(reader: &mut [u8]) -> u64
    ensures { EventsEnded reader.old result reader.new }
{
    answers::given_back(events::end(reader))
}

// The record of a frame and its time, when so many were written before, at the front of a lent buffer.
pub fn gorsepetal_events_write(
    ends: u64,
    written: u64,
    time: u32,
    frame: &[u8],
    out: &mut [u8],
) -> u64
    ensures { EventsWritten ends written time frame.now out.old result out.new × Unchanged frame.entry.now frame.exit.now }
{
    answers::given_back(records::write(ends, written, time, frame, out))
}
