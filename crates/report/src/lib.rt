// The lines of the window program (document 01, "Window program"), each written at the front of a lent buffer whose later
// bytes stay.
#![tactic(auto)]

ghost use Rattle.std.specs.Prelude.{◌≡◌, ◌+◌, ◌*◌, ◌≤◌, length};
ghost use Rattle.report.specs.Printed.{decimal, printed};
ghost use Rattle.report.specs.Sizes.{most_digits, line_length};
ghost use Rattle.report.specs.Written.{Written};
ghost use Rattle.report.specs.Program.{settings_refused, window_refused, window_decided, window_line};

// Room for the longest line, that of a decided window: 30 bytes of words, and five numbers.
pub const LINE_LENGTH: usize = 30 + 5 * MOST_DIGITS;

// The most digits that a number has.
const MOST_DIGITS: usize = 20;

// Writes a number in decimal from `at` on, and answers where it ends.
fn put_number(out: &mut [u8], at: usize, n: u64) -> usize
    requires { at + most_digits ≤ length out.old }
    ensures { Written out.old at (decimal n) result out.new × (result ≤ at + most_digits) }
{
    let mut buffer = itoa::Buffer::new();
    let digits = buffer.format(n);
    lent::put(out, at, digits.as_bytes());
    at + digits.len()
}

// Writes a line, the words as they stand and the next number for each #, and answers its length. A # is one byte of the words, so a
// number needs room for 19 more. It is no `impl Display`, whose `fmt` may fail: `settings_refused_contract` and `window_line_contract`
// promise the line, at the front of a lent buffer, on each call.
fn put_line(out: &mut [u8], words: &[u8], numbers: &[u64]) -> usize
    requires { length words.now + 19 * length numbers.now ≤ length out.old }
    ensures { Written out.old 0 (printed words.now numbers.now) result out.new }
{
    let mut at = 0;
    let mut left = numbers.iter();
    for &byte in words {
        if byte == b'#'
            && let Some(&number) = left.next()
        {
            at = put_number(out, at, number);
        } else {
            out[at] = byte;
            at += 1;
        }
    }
    at
}

// The line of a refused entry, for which r was given back.
pub fn settings_refused(out: &mut [u8], r: u64) -> usize
    requires { line_length ≤ length out.old }
    ensures { Written out.old 0 (settings_refused r) result out.new }
{
    let numbers = [answers::number_in(r), answers::place_in(r)];
    put_line(out, b"settings refused # at #\n", &numbers)
}

// The line of a refused window, for which r was given back.
fn window_refused(out: &mut [u8], number: u64, r: u64) -> usize
    requires { line_length ≤ length out.old }
    ensures { Written out.old 0 (window_refused number r) result out.new }
{
    let numbers = [number, answers::number_in(r), answers::place_in(r)];
    put_line(out, b"window # refused # at #\n", &numbers)
}

// The line of a decided window.
fn window_decided(out: &mut [u8], number: u64, trip: u8, diff: u8, mho: u8, dir: u8) -> usize
    requires { line_length ≤ length out.old }
    ensures { Written out.old 0 (window_decided number trip diff mho dir) result out.new }
{
    let numbers = [number, trip.into(), diff.into(), mho.into(), dir.into()];
    put_line(out, b"window # trip # diff # mho # dir #\n", &numbers)
}

// The line of a window, by what decide gave back and, if that is 0, by the decision.
pub fn window_line(
    out: &mut [u8],
    number: u64,
    r: u64,
    decision: &[u8; gorsepetal::DECISION_LENGTH],
) -> usize
    requires { line_length ≤ length out.old }
    ensures { Written out.old 0 (window_line number r decision.now) result out.new × (decision.exit.now ≡ decision.entry.now) }
{
    if r != answers::DONE {
        return window_refused(out, number, r);
    }
    let [trip, diff, mho, dir, ..] = *decision;
    window_decided(out, number, trip, diff, mho, dir)
}
