// What C calls: each call of the relay, with the contract that it has there. A static library, since a crate is a library for crates or one
// for C. A lent slice comes from C as a pointer and a length.
#![tactic(auto)]

ghost use Rattle.gorsepetal.specs.Calls.{Unchanged, Proposed, Confirmed, ReadBack, Decided, Fed};
ghost use Rattle.gorsepetal.specs.EventFiles.{EventsOpened, EventsWanted, EventsRead, EventsEnded, EventsWritten};

// A first entry: it becomes pending if it is good.
#[unsafe(no_mangle)]
pub extern "C" fn gorsepetal_propose(state: &mut [u8], entry: &[u8]) -> u64
    ensures { Proposed state.old entry.now result state.new × Unchanged entry.entry.now entry.exit.now }
{
    gorsepetal::gorsepetal_propose(state, entry)
}

// A second entry: the pending record comes into force if this one is the same 32 bytes, and the window is empty then.
#[unsafe(no_mangle)]
pub extern "C" fn gorsepetal_confirm(state: &mut [u8], entry: &[u8]) -> u64
    ensures { Confirmed state.old entry.now result state.new × Unchanged entry.entry.now entry.exit.now }
{
    gorsepetal::gorsepetal_confirm(state, entry)
}

// The record in force, at the front of a lent buffer.
#[unsafe(no_mangle)]
pub extern "C" fn gorsepetal_read_back(state: &[u8], out: &mut [u8]) -> u64
    ensures { ReadBack state.now out.old result out.new × Unchanged state.entry.now state.exit.now }
{
    gorsepetal::gorsepetal_read_back(state, out)
}

// The decision on a window of big-endian bytes, at the front of a lent buffer.
#[unsafe(no_mangle)]
pub extern "C" fn gorsepetal_decide(state: &[u8], samples: &[u8], out: &mut [u8]) -> u64
    ensures { Decided state.now samples.now out.old result out.new × Unchanged state.entry.now state.exit.now × Unchanged samples.entry.now samples.exit.now }
{
    gorsepetal::gorsepetal_decide(state, samples, out)
}

// One frame of big-endian bytes: it is kept in the window, and the newest 16 frames are decided on.
#[unsafe(no_mangle)]
pub extern "C" fn gorsepetal_feed(state: &mut [u8], frame: &[u8], out: &mut [u8]) -> u64
    ensures { Fed state.old frame.now out.old result state.new out.new × Unchanged frame.entry.now frame.exit.now }
{
    gorsepetal::gorsepetal_feed(state, frame, out)
}

// Puts a reader at the start of a file with so many ends and status channels.
#[unsafe(no_mangle)]
pub extern "C" fn gorsepetal_events_open(reader: &mut [u8], ends: u64, status: u64) -> u64
    ensures { EventsOpened reader.old ends status result reader.new }
{
    gorsepetal::event_files::gorsepetal_events_open(reader, ends, status)
}

// How many bytes are missing to the end of the record being read; 0 where the reading has ended. It is a count and no answer.
#[unsafe(no_mangle)]
pub extern "C" fn gorsepetal_events_wanted(reader: &[u8]) -> u64
    ensures { EventsWanted reader.now result × Unchanged reader.entry.now reader.exit.now }
{
    gorsepetal::event_files::gorsepetal_events_wanted(reader)
}

// A piece of the file: as many of its bytes are taken as are wanted. Where a record is whole now, its frame is fed.
#[unsafe(no_mangle)]
pub extern "C" fn gorsepetal_events_read(
    state: &mut [u8],
    reader: &mut [u8],
    bytes: &[u8],
    out: &mut [u8],
) -> u64
    ensures { EventsRead state.old reader.old bytes.now out.old result state.new reader.new out.new × Unchanged bytes.entry.now bytes.exit.now }
{
    gorsepetal::event_files::gorsepetal_events_read(state, reader, bytes, out)
}

// The end of the file: whether it ends between records.
#[unsafe(no_mangle)]
pub extern "C" fn gorsepetal_events_end(reader: &mut [u8]) -> u64
    ensures { EventsEnded reader.old result reader.new }
{
    gorsepetal::event_files::gorsepetal_events_end(reader)
}

// The record of a frame and its time, when so many were written before, at the front of a lent buffer.
#[unsafe(no_mangle)]
pub extern "C" fn gorsepetal_events_write(
    ends: u64,
    written: u64,
    time: u32,
    frame: &[u8],
    out: &mut [u8],
) -> u64
    ensures { EventsWritten ends written time frame.now out.old result out.new × Unchanged frame.entry.now frame.exit.now }
{
    gorsepetal::event_files::gorsepetal_events_write(ends, written, time, frame, out)
}
