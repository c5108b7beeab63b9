// The two-entry rule (document 01, "Settings record"): nothing comes into force that was not said twice.
// It is stated over where the pair of records lies in a lent state, and over the verdict on a record.
#![tactic(auto)]

ghost use Rattle.std.specs.Prelude.{◌≡◌, ◌+◌, ◌≤◌, length};
ghost use Rattle.entry.specs.Pair.{record_length, pair_length, nothing, pair_at};
ghost use Rattle.entry.specs.Entry.{Proposed, Confirmed, propose_answer, confirm_answer};
ghost use Rattle.lent.specs.Lent.{over};

use answers::{Answer, Refusal};

pub const RECORD_LENGTH: usize = 32;

// The record in force, and then the pending one.
const PAIR_LENGTH: usize = 2 * RECORD_LENGTH;

// Nothing is pending in the pair at an offset.
fn clear(state: &mut [u8], at: usize)
    requires { at + pair_length ≤ length state.old }
    ensures { state.new ≡ over state.old (at + record_length) nothing }
{
    lent::put(state, at + RECORD_LENGTH, &[0; RECORD_LENGTH]);
}

// An entry judged by its length, and then by the verdict on it.
fn judged(entry: &[u8], verdict: Answer) -> Answer
    ensures { result ≡ propose_answer verdict entry.now }
{
    if entry.len() != RECORD_LENGTH {
        return Err(Refusal::OtherEntryLength);
    }
    verdict
}

// An entry proposed for the pair at an offset. The verdict on it is done where it is a good record, else its refusal.
pub fn propose(state: &mut [u8], at: usize, entry: &[u8], verdict: Answer) -> Answer
    requires { at + pair_length ≤ length state.old }
    ensures { Proposed verdict at state.old entry.now result state.new }
{
    let answer = judged(entry, verdict);
    if answer.is_ok() {
        lent::put(state, at + RECORD_LENGTH, entry);
    } else {
        clear(state, at);
    }
    answer
}

// Whether an entry confirms the pending record of the pair at an offset. `standing` is done where that record is a good one, else the
// refusal to give.
fn confirms(state: &[u8], at: usize, entry: &[u8], standing: Answer) -> Answer
    requires { at + pair_length ≤ length state.now }
    ensures { result ≡ confirm_answer standing (pair_at at state.now) entry.now }
{
    judged(entry, standing)?;
    let from = at + RECORD_LENGTH;
    let to = at + PAIR_LENGTH;
    match lent::first_difference(&state[from..to], entry) {
        Some(k) => Err(Refusal::Differs(k as u8)),
        None => Ok(()),
    }
}

// An entry that is to confirm the pending record: the same bytes come into force, and nothing is pending whatever it is.
pub fn confirm(state: &mut [u8], at: usize, entry: &[u8], standing: Answer) -> Answer
    requires { at + pair_length ≤ length state.old }
    ensures { Confirmed standing at state.old entry.now result state.new }
{
    let answer = confirms(state, at, entry, standing);
    if answer.is_ok() {
        lent::put(state, at, entry);
    }
    clear(state, at);
    answer
}
