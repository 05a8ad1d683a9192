// Document 01, run: the script on standard input has its lines, a sequence through every call, slots
// used up to their last generation and the close of a listener, each with the answer that 01 gives.
#![tactic(auto)]

use std::io;

fn main(rt: HostRuntime) -> io::Result<()> {
    script::replay(&rt, true)
}
