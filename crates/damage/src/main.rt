// A table that is well-formed, and one damage at a time: what a call is answered before anything
// else is looked at. 0 lets it pass, 2 is about N and C, 18 about the sizes, 19 is damaged.
//
// Slot 0 listens as "/a", with the server of slot 2 pending; slot 1 is that server's client; slot 3
// is bound to "/b"; slot 4 is connected to a socket that was in slot 5 and has closed.
#![tactic(auto)]

mod cases;
mod lent;

use cases::{ASKED, DAMAGED};
use lent::{Ask, Lent};
use std::io;

fn main(rt: HostRuntime) -> io::Result<()> {
    for (text, ask) in &ASKED {
        let number = Lent::fresh().answer(*ask);
        println!(rt; "{number}  {text}")?;
    }
    for (text, changes) in &DAMAGED {
        let mut lent = Lent::built();
        for change in *changes {
            lent.change(*change);
        }
        let number = lent.answer(Ask::WHOLE);
        println!(rt; "{number}  {text}")?;
    }
    Ok(())
}
