// A short tour of what stands so far: an address is written, read back, and refused.
#![tactic(auto)]

use address::SockAddrUn;
use std::io;

fn read(rt: &impl Print, addr: &[u8]) -> io::Result<()> {
    print!(rt; "read    ")?;
    for byte in addr {
        print!(rt; " {byte:02x}")?;
    }
    println!(rt)?;
    match SockAddrUn::path(addr) {
        Ok(path) => {
            print!(rt; "        is the path \"")?;
            rt.write_all(path)?;
            println!(rt; "\"")
        }
        Err(no) => println!(rt; "        is refused with number {}", no.number()),
    }
}

fn main(rt: HostRuntime) -> io::Result<()> {
    let mut addr = [0; SockAddrUn::BYTES];
    let refusal = words::refusal(SockAddrUn::new(b"/run/sampler", &mut addr));
    let len = words::value(SockAddrUn::len(&addr));
    println!(rt; "written \"/run/sampler\": refusal {refusal}, address of {len} bytes")?;
    let written = addr.get(..len as usize).unwrap_or(&addr);
    // What was written, another family, no path, no UTF-8, one byte.
    let addresses: [&[u8]; 5] = [
        written,
        b"\x02\0/run/sampler",
        b"\x01\0",
        b"\x01\0/run/\xC0\x80",
        b"\x01",
    ];
    for addr in addresses {
        read(&rt, addr)?;
    }
    Ok(())
}
