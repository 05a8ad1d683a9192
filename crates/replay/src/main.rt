// The stored answers of the Rust, which stand on standard input: every call is made again, and its
// answer must be the same.
#![tactic(auto)]

use std::io;

fn main(rt: HostRuntime) -> io::Result<()> {
    script::replay(&rt, false)
}
