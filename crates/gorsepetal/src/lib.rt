// What C calls, by way of gorsepetal_c. The relay's state is lent, and all zero bytes are a fresh relay: the main pair of records, the one
// in force and then the pending one; and the window that frames are fed to.
#![tactic(auto)]

ghost use Rattle.std.specs.Prelude.{◌≡◌, ◌*◌, ◌≤◌, length, Ok, Err, IfOk, IfErr};
ghost use Rattle.samples.specs.Window.{window_length};
ghost use Rattle.entry.specs.Pair.{record_length};
ghost use Rattle.entry.specs.Entry as entry_rule;
ghost use Rattle.gorsepetal.specs.State.{state_length, settings_of};
ghost use Rattle.gorsepetal.specs.Calls.{verdict, ready, propose_answer, propose_state, confirm_answer, confirm_state, read_back_answer, read_back_out, window_bytes, feed_answer, feed_state, feed_out, Unchanged, Proposed, Confirmed, ReadBack, DecidedNumbers, Decided, Fed};

pub mod event_files;

use answers::{Answer, Refusal};
use settings::Settings;

// The lengths that a caller needs. The state, a settings record and a decision, in bytes:
pub const STATE_LENGTH: usize = WINDOW + stream::STORED_LENGTH;

pub const RECORD_LENGTH: usize = entry::RECORD_LENGTH;

pub const DECISION_LENGTH: usize = decision::LENGTH;

// and the longest window, in numbers.
pub const LONGEST_WINDOW_NUMBERS: usize = samples::LONGEST;

// Where each part lies in the state: the main pair, with the record in force and the pending one, and then the window.
const MAIN: usize = 0;

const PENDING: usize = MAIN + RECORD_LENGTH;

const MAIN_END: usize = PENDING + RECORD_LENGTH;

const WINDOW: usize = MAIN_END;

// What propose answers to an entry. The length is tested here because the check wants 32 bytes; `entry::propose`, which takes any
// verdict, tests it too.
fn propose_answer(r: &[u8]) -> Answer
    ensures { result ≡ entry_rule.propose_answer (verdict r.now) r.now }
{
    if r.len() != RECORD_LENGTH {
        return Err(Refusal::OtherEntryLength);
    }
    checking::check(r).map_err(|fault| Refusal::OutOfRange(fault.at))
}

// Whether a stored record counts: done if propose would accept it, else the refusal for an absent one.
fn stored(r: &[u8], absent: Refusal) -> Answer
    requires { length r.now ≡ record_length }
    ensures { result ≡ entry_rule.of_stored (verdict r.now) (Err absent) }
{
    propose_answer(r).or(Err(absent))
}

// The record in force, to go by; or the refusal where this is no relay, or none is in force.
#[tactic(auto, using(crate::proofs::Cases::counts))]
fn in_force(state: &[u8]) -> Result<Settings<'_>, Refusal>
    ensures good { IfOk result (λ s. (ready state.now ≡ Ok tt) × (s.bytes.now ≡ (settings_of state.now).force)) }
    ensures lengths { IfOk result (λ s. (length state.now ≡ state_length) × (length s.bytes.now ≡ record_length)) }
    ensures none { IfErr result (λ refusal. ready state.now ≡ Err refusal) }
{
    if state.len() != STATE_LENGTH {
        return Err(Refusal::NoRelay);
    }
    let bytes = &state[MAIN..PENDING];
    stored(bytes, Refusal::NoSettings)?;
    Ok(Settings { bytes })
}

// The calls, each with the answer as a result; those that C gets give its number back.

fn propose(state: &mut [u8], entry: &[u8]) -> Answer
    ensures answer { result ≡ propose_answer state.old entry.now }
    ensures state { state.new ≡ propose_state state.old entry.now }
{
    if state.len() != STATE_LENGTH {
        return Err(Refusal::NoRelay);
    }
    entry::propose(state, MAIN, entry, propose_answer(entry))
}

// A first entry: it becomes pending if it is good.
pub fn gorsepetal_propose(state: &mut [u8], entry: &[u8]) -> u64
    ensures { Proposed state.old entry.now result state.new × Unchanged entry.entry.now entry.exit.now }
{
    answers::given_back(propose(state, entry))
}

fn confirm(state: &mut [u8], entry: &[u8]) -> Answer
    ensures answer { result ≡ confirm_answer state.old entry.now }
    ensures state { state.new ≡ confirm_state state.old entry.now }
{
    if state.len() != STATE_LENGTH {
        return Err(Refusal::NoRelay);
    }
    let standing = stored(&state[PENDING..MAIN_END], Refusal::NothingPending);
    let answer = entry::confirm(state, MAIN, entry, standing);
    if answer.is_ok() {
        stream::clear(state, WINDOW);
    }
    answer
}

// A second entry: the pending record comes into force if this one is the same 32 bytes, and the window is empty then.
pub fn gorsepetal_confirm(state: &mut [u8], entry: &[u8]) -> u64
    ensures { Confirmed state.old entry.now result state.new × Unchanged entry.entry.now entry.exit.now }
{
    answers::given_back(confirm(state, entry))
}

#[tactic(auto, using(crate::proofs::Cases::read_done, crate::proofs::Cases::read_out))]
fn read_back(state: &[u8], out: &mut [u8]) -> Answer
    ensures answer { result ≡ read_back_answer state.now out.old }
    ensures buffer { out.new ≡ read_back_out state.now out.old }
{
    let in_force = in_force(state)?;
    if out.len() < RECORD_LENGTH {
        return Err(Refusal::NoRoom);
    }
    lent::put(out, 0, in_force.bytes);
    Ok(())
}

// The record in force, at the front of a lent buffer.
pub fn gorsepetal_read_back(state: &[u8], out: &mut [u8]) -> u64
    ensures { ReadBack state.now out.old result out.new × Unchanged state.entry.now state.exit.now }
{
    answers::given_back(read_back(state, out))
}

// How many bytes a window has by the record in force; 0 where none is.
pub fn window_bytes(state: &[u8]) -> usize
    ensures { (result ≡ window_bytes state.now) × (result ≤ 2 * window_length 6) × Unchanged state.entry.now state.exit.now }
{
    match in_force(state) {
        Ok(settings) => 2 * decision::window_length(settings),
        Err(_) => 0,
    }
}

// The decision on a window of numbers, at the front of a lent buffer.
pub fn decide(state: &[u8], window: &[i16], out: &mut [u8]) -> Answer
    ensures { DecidedNumbers state.now window.now out.old result out.new × Unchanged state.entry.now state.exit.now × Unchanged window.entry.now window.exit.now }
{
    decision::decide(in_force(state)?, window, out)
}

// The same on a window of big-endian bytes.
pub fn gorsepetal_decide(state: &[u8], samples: &[u8], out: &mut [u8]) -> u64
    ensures { Decided state.now samples.now out.old result out.new × Unchanged state.entry.now state.exit.now × Unchanged samples.entry.now samples.exit.now }
{
    let n = samples::count(samples);
    let mut numbers = [0i16; LONGEST_WINDOW_NUMBERS];
    samples::numbers(samples, &mut numbers);
    answers::given_back(decide(state, &numbers[0..n], out))
}

fn feed(state: &mut [u8], frame: &[u8], out: &mut [u8]) -> Answer
    ensures answer { result ≡ feed_answer state.old frame.now out.old }
    ensures state { state.new ≡ feed_state state.old frame.now out.old }
    ensures buffer { out.new ≡ feed_out state.old frame.now out.old }
{
    in_force(state)?;
    feed::feed(state, WINDOW, frame, out)
}

// One frame of big-endian bytes: it is kept in the window, and the newest 16 frames are decided on.
pub fn gorsepetal_feed(state: &mut [u8], frame: &[u8], out: &mut [u8]) -> u64
    ensures { Fed state.old frame.now out.old result state.new out.new × Unchanged frame.entry.now frame.exit.now }
{
    answers::given_back(feed(state, frame, out))
}
