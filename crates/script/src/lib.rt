// A script of calls with their answers, in the format that oracle/README.md describes. Each call is
// made through the public entries, its answer is written as text, and that is compared with what
// stands in the script. The first difference ends the run, and so does a line that cannot be read.
#![tactic(auto)]

ghost use Rattle.std.specs.Prelude.{◌≡◌, ◌<◌, ◌≤◌, length, vec_len, IfOk, IfSome, IfNone};

mod call;
mod host;
mod player;
mod run_on;
#[cfg(test)]
mod tests;

use player::{Player, Stop, compared};
use std::alloc::{AllocError, Global};
use std::io;
use std::io::Read;

// One byte more than a script may have.
const TOO_MANY_BYTES: u64 = 1_048_576;

// Stays: a closure is no plainer than `aloud`, which is one line of difference.
/// Runs the script that stands on standard input. Its comments are printed where `aloud`, and at the
/// end the totals.
pub fn replay(rt: &(impl Input + Print + AllocGlobal), aloud: bool) -> io::Result<()> {
    match read(rt.alloc(), rt.reader())? {
        Some(script) => play(rt, rt.alloc(), &script, aloud),
        None => println!(rt; "the script has more than 1,048,575 bytes"),
    }
}

// All that there is to read; none where that is too much.
fn read<R: Read + Drop>(alloc: Global, reader: R) -> io::Result<Option<Vec<u8>>>
    ensures fits { IfOk result (λ found. IfSome found (λ script. vec_len script < 1048576)) }
    ensures whole { IfOk result (λ found. IfSome found (λ script. IfSome (R.remaining reader) (λ bytes. script.items ≡ bytes))) }
    ensures too_many { IfOk result (λ found. IfNone found (IfSome (R.remaining reader) (λ bytes. 1048576 ≤ length bytes))) }
{
    let mut script = Vec::new(alloc);
    let count = reader.take(TOO_MANY_BYTES).read_to_end(&mut script)?;
    if (count as u64) < TOO_MANY_BYTES {
        Ok(Some(script))
    } else {
        Ok(None)
    }
}

fn play(rt: &impl Print, alloc: Global, script: &[u8], aloud: bool) -> io::Result<()> {
    let mut player = Player::new(alloc)?;
    for (k, line) in script.split(|byte| *byte == b'\n').enumerate() {
        if line.starts_with(b"#") {
            if aloud {
                rt.write_all(line)?;
                rt.write_all(b"\n")?;
            }
            continue;
        }
        if let Err(stop) = player.play(line) {
            return stopped(rt, k.saturating_add(1), line, stop);
        }
    }
    println!(rt; "{player}")
}

fn stopped(rt: &impl Print, number: usize, line: &[u8], stop: Stop<'_>) -> io::Result<()> {
    match stop {
        Stop::OutOfMemory => Err(AllocError.into()),
        Stop::Unreadable => {
            print!(rt; "line {number}: cannot be read: ")?;
            rt.write_all(line)?;
            println!(rt)
        }
        Stop::Differs { call, stored, here } => {
            print!(rt; "line {number}: {call}\n  stored: ")?;
            rt.write_all(stored)?;
            print!(rt; "\n  here:   ")?;
            rt.write_all(compared(&here))?;
            println!(rt)
        }
    }
}
