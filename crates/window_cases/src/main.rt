// The window program's session on each file that data/names lists, in that order, with a heading before each: what it prints is
// compared with what an independent program expects.
#![tactic(auto)]

use std::io::Write;
use std::rt::Files;
use std::{fs, io, str};

// Room for the list of names.
const NAMES: usize = 8192;

// The session on the file of this name.
fn case<R: Files, W: Write>(rt: &R, output: &mut W, name: &[u8]) -> io::Result<()> {
    output.write_all(b"case ")?;
    output.write_all(name)?;
    output.write_all(b"\n")?;
    let Ok(path) = str::from_utf8(name) else {
        return output.write_all(b"cannot be opened\n");
    };
    let Ok(mut file) = fs::open(rt, path) else {
        return output.write_all(b"cannot be opened\n");
    };
    session::run(&mut file, output)
}

// Each name of a list, one to a line. What has no line end is no name.
fn cases<R: Files, W: Write>(rt: &R, output: &mut W, names: &[u8]) -> io::Result<()> {
    for line in names.split_inclusive(|&byte| byte == b'\n') {
        if let Some(name) = line.strip_suffix(b"\n") {
            case(rt, output, name)?;
        }
    }
    Ok(())
}

fn main(rt: HostRuntime) -> io::Result<()> {
    let mut output = rt.stdout();
    let Ok(mut file) = fs::open(&rt, "names") else {
        return output.write_all(b"names cannot be opened\n");
    };
    let mut names = [0u8; NAMES];
    let n = session::read_full(&mut file, &mut names)?;
    cases(&rt, &mut output, &names[..n])
}
