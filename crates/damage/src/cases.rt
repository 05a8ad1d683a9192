// What is asked, and what is damaged.
use crate::lent::{Ask, Change, Field, STEP, WAKES, WORDS};
use Change::{Entry, Header, Letter, Offset, Word};
use Field::{
    Backlog, Byte, First, Generation, Head, InboxClosed, Items, Name, OutboxClosed, Peer, Pending,
    Place, Tag, Waits, Written,
};

/// A fresh table, asked with other arguments or with less lent.
pub static ASKED: [(&str, Ask); 9] = [
    ("a fresh table", Ask::WHOLE),
    ("N is 0", Ask { n: 0, ..Ask::WHOLE }),
    (
        "N is 1,025",
        Ask {
            n: 1025,
            ..Ask::WHOLE
        },
    ),
    ("C is 0", Ask { c: 0, ..Ask::WHOLE }),
    (
        "C is 65,537",
        Ask {
            c: 65537,
            ..Ask::WHOLE
        },
    ),
    (
        "the words are one too few",
        Ask {
            words: WORDS - 1,
            ..Ask::WHOLE
        },
    ),
    (
        "the wake list is one too short",
        Ask {
            wakes: WAKES - 1,
            ..Ask::WHOLE
        },
    ),
    ("N is not the stored one", Ask { n: 5, ..Ask::WHOLE }),
    ("C is not the stored one", Ask { c: 7, ..Ask::WHOLE }),
];

/// The built table, with these changes.
pub static DAMAGED: [(&str, &[Change]); 43] = [
    ("a word of the header is not 0", &[Header(7, 1)]),
    ("a state that there is not", &[Word(3, Tag, 5)]),
    (
        "a closed slot's generation of 2^32",
        &[Word(5, Generation, 4294967296)],
    ),
    ("a bound slot of generation 0", &[Word(3, Generation, 0)]),
    ("a bound socket has a backlog", &[Word(3, Backlog, 1)]),
    ("a listening socket has a peer", &[Word(0, Peer, STEP + 1)]),
    ("a connected socket has a name", &[Word(1, Name, 2)]),
    ("a backlog of 2^32", &[Word(0, Backlog, 4294967296)]),
    ("a flag of 2", &[Word(1, InboxClosed, 2)]),
    ("a name of no bytes", &[Word(3, Name, 0)]),
    ("a name of 256 bytes", &[Word(3, Name, 256)]),
    ("a name twice", &[Letter(3, 1, b'a')]),
    (
        "a peer in a slot that there is not",
        &[Word(4, Peer, STEP + 6)],
    ),
    ("a peer of generation 0", &[Word(4, Peer, 5)]),
    (
        "a peer that is still to come",
        &[Word(4, Peer, 2 * STEP + 5)],
    ),
    ("its own peer", &[Word(4, Peer, STEP + 4)]),
    ("a peer that has another peer", &[Word(4, Peer, STEP + 1)]),
    ("a peer that is not connected", &[Word(4, Peer, STEP + 3)]),
    (
        "a closed outbox, and the peer's open inbox",
        &[Word(1, OutboxClosed, 1)],
    ),
    ("a first byte outside the ring", &[Word(2, Byte, 8)]),
    ("nine bytes queued", &[Word(2, Written, 9)]),
    ("a first item outside the ring", &[Word(2, First, 256)]),
    ("257 items", &[Word(2, Items, 257)]),
    ("an item behind the queued bytes", &[Offset(2, 0, 3)]),
    (
        "items at falling places",
        &[Offset(2, 0, 1), Word(2, Items, 2)],
    ),
    ("a queue that starts outside the ring", &[Word(0, Head, 6)]),
    ("seven pending", &[Word(0, Pending, 7)]),
    (
        "a server that waits and is not queued",
        &[Word(0, Pending, 0)],
    ),
    ("a queued server that does not wait", &[Word(2, Waits, 0)]),
    (
        "a server that stands at another place",
        &[Word(2, Place, 1)],
    ),
    (
        "a server that waits on a socket that is bound",
        &[Word(2, Waits, 4)],
    ),
    (
        "a server that waits on a slot that there is not",
        &[Word(2, Waits, 7)],
    ),
    (
        "a socket that does not wait has a place",
        &[Word(1, Place, 1)],
    ),
    (
        "an entry of another generation",
        &[Entry(0, 0, 2 * STEP + 2)],
    ),
    ("an entry that is not pending", &[Entry(0, 0, STEP + 1)]),
    (
        "an entry in a slot that there is not",
        &[Entry(0, 0, STEP + 6)],
    ),
    (
        "a server queued twice",
        &[Word(0, Pending, 2), Entry(0, 1, STEP + 2)],
    ),
    // What is not looked at, and what is allowed.
    ("nothing changed", &[]),
    ("a closed slot's other words", &[Word(5, Name, 9)]),
    ("an entry behind the queue", &[Entry(0, 3, 77)]),
    ("more pending than the backlog", &[Word(0, Backlog, 0)]),
    (
        "the offset of an item that there is not",
        &[Offset(1, 0, 99)],
    ),
    ("a byte behind a name", &[Letter(3, 2, 7)]),
];
