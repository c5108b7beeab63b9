// What the window program does with its input (document 01, "Window program"): a proposal, a confirmation, then windows. It reads, calls
// and prints. Every refusal comes from a call, which is lent as many bytes as came.
#![tactic(auto)]

ghost use Rattle.std.specs.Prelude.{◌≡◌, List, ℕ, ◌≤◌, [], IfOk, OnOk, OnErr, IfSome, eqb, length, take};
ghost use Rattle.std.specs.Io.{ReadsAtMost};
ghost use Rattle.std.specs.Io.KnownBytes.{Consumes, Appends};
ghost use Rattle.session.specs.Taken.{Gives, Takes};
ghost use Rattle.session.specs.Session.{entry_text, Windowed, lines, session_text};

use gorsepetal::RECORD_LENGTH;
use std::io;
use std::io::{Read, Write};

// Room for the bytes of any window.
const WINDOW_ROOM: usize = 2 * gorsepetal::LONGEST_WINDOW_NUMBERS;

// An entry from the input, lent to a call, which is propose or confirm. The number given back and the state are as the call promises for
// some entry e; for which, a contract can say only where the input's bytes are known: the first 32 of them.
fn one_entry<R: Read, C: FnOnce(&mut [u8], &[u8]) -> u64>(
    input: &mut R,
    state: &mut [u8],
    call: C,
) -> io::Result<u64>
    requires { C.IsAlwaysCallable call }
    ensures ok { IfOk result (λ r. (e : List ℕ) × Gives C.FnOnce call state.old e r state.new
        × Takes (R.remaining input.old) (R.remaining input.new) RECORD_LENGTH e) }
    ensures err { OnErr result (state.new ≡ state.old) }
{
    let mut entry = [0u8; RECORD_LENGTH];
    let n = read_full(input, &mut entry)?;
    Ok(call(state, &entry[..n]))
}

// Whether an entry was accepted, by the number given back. The line of a refused one is printed; a good one prints nothing.
fn accepted<W: Write>(output: &mut W, r: u64) -> io::Result<bool>
    ensures good { IfOk result (λ good. good ≡ eqb r 0) }
    ensures line { OnOk result (Appends (W.contents output.old) (W.contents output.new) (entry_text r [])) }
{
    if r != answers::DONE {
        let mut line = [0u8; report::LINE_LENGTH];
        let n = report::settings_refused(&mut line, r);
        output.write_all(&line[..n])?;
    }
    Ok(r == answers::DONE)
}

// Reads until the room is full or the input ends, and answers how many bytes came to its front. (`read_exact` of the standard library
// fails where the input ends, and does not say how many came.)
pub fn read_full<R: Read>(input: &mut R, room: &mut [u8]) -> io::Result<usize>
    ensures front { ReadsAtMost result room.new }
    ensures taken { IfOk result (λ n. Takes (R.remaining input.old) (R.remaining input.new) (length room.old) (take n room.new)) }

    // What came before an error lies at the front of the room too.
    ensures err { OnErr result ((n : ℕ) × Consumes (R.remaining input.old) (R.remaining input.new) (take n room.new)) }
{
    let mut at = 0;
    while at < room.len() {
        let n = input.read(&mut room[at..])?;
        if n == 0 {
            break;
        }
        at += n;
    }
    Ok(at)
}

// Reads so many bytes to the front of the room, and answers how many came: fewer where the input ends.
fn read<R: Read>(input: &mut R, room: &mut [u8], bytes: usize) -> io::Result<usize>
    requires { bytes ≤ length room.old }
    ensures front { ReadsAtMost result room.new }
    ensures asked { IfOk result (λ n. n ≤ bytes) }
    ensures taken { IfOk result (λ n. Takes (R.remaining input.old) (R.remaining input.new) bytes (take n room.new)) }
{
    read_full(input, &mut room[..bytes])
}

// One window from the input, and its line. Answers false, and prints nothing, where the input has ended.
fn one_window<R: Read, W: Write>(
    input: &mut R,
    output: &mut W,
    state: &[u8],
    number: u64,
) -> io::Result<bool>
    ensures { IfOk result (λ more. Windowed (R.remaining input.old) (R.remaining input.new) state.now number
        (W.contents output.old) (W.contents output.new) more) }
{
    let mut samples = [0u8; WINDOW_ROOM];
    let n = read(input, &mut samples, gorsepetal::window_bytes(state))?;
    if n == 0 {
        return Ok(false);
    }
    let mut decision = [0u8; gorsepetal::DECISION_LENGTH];
    let r = gorsepetal::gorsepetal_decide(state, &samples[..n], &mut decision);
    let mut line = [0u8; report::LINE_LENGTH];
    let k = report::window_line(&mut line, number, r, &decision);
    output.write_all(&line[..k])?;
    Ok(true)
}

// Windows to the end of the input, numbered from 1, refused ones counted.
fn all_windows<R: Read, W: Write>(input: &mut R, output: &mut W, state: &[u8]) -> io::Result<()>
    ensures { OnOk result (IfSome (R.remaining input.old) (λ xs.
        Appends (W.contents output.old) (W.contents output.new) (lines state.now xs))) }
{
    for number in 1..u64::MAX {
        if !one_window(input, output, state, number)? {
            break;
        }
    }
    Ok(())
}

// The session on one input: after two good entries, its windows.
pub fn run<R: Read, W: Write>(input: &mut R, output: &mut W) -> io::Result<()>
    ensures { OnOk result (IfSome (R.remaining input.old) (λ xs.
        Appends (W.contents output.old) (W.contents output.new) (session_text xs))) }
{
    let mut state = [0u8; gorsepetal::STATE_LENGTH];
    let r = one_entry(input, &mut state, gorsepetal::gorsepetal_propose)?;
    if !accepted(output, r)? {
        return Ok(());
    }
    let r = one_entry(input, &mut state, gorsepetal::gorsepetal_confirm)?;
    if !accepted(output, r)? {
        return Ok(());
    }
    all_windows(input, output, &state)
}

#[cfg(test)]
mod tests {
    use super::*;

    // An input that fails.
    #[derive(Drop)]
    struct Broken;

    impl Read for Broken {
        fn read(&mut self, _room: &mut [u8]) -> io::Result<usize> {
            Err(io::Error::from(io::ErrorKind::Other))
        }
    }

    #[test]
    fn an_empty_input_is_a_cut_proposal(rt: HostRuntime) -> io::Result<()> {
        let mut input: &[u8] = b"";
        let mut output = Vec::new(rt.alloc());
        run(&mut input, &mut output)?;
        assert_eq!(rt; output.as_slice(), b"settings refused 5 at 0\n".as_slice());
        Ok(())
    }

    #[test]
    fn a_failed_read_is_no_cut_proposal(rt: HostRuntime) {
        let bytes: &[u8] = b"half a proposal";
        let mut input = bytes.chain(Broken);
        let mut output = Vec::new(rt.alloc());
        assert!(rt; run(&mut input, &mut output).is_err());
        assert_eq!(rt; output.len(), 0);
    }
}
