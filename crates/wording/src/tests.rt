// The text of each form, and which words are read.
use crate::dotted::Dotted;
use crate::line::Words;
use crate::text::{LineError, bytes, parse};
use crate::write::{Delivered, Letters, Runs, Wakes};
use std::test::Fail;

#[test]
fn writes(rt: HostRuntime) -> Result<(), Fail> {
    let text = format!(in rt.alloc(); "{}", Runs(&[7, 5, 6, 9, 10, 11, 4_294_967_295, 0]))?;
    assert_eq!(rt; text.as_str(), "7,5-6,9-11,4294967295,0");
    let text = format!(in rt.alloc(); "{}", Wakes(&[0, 65_537, 196_607]))?;
    assert_eq!(rt; text.as_str(), "registry,1.1,2.65535");
    let text = format!(in rt.alloc(); "{} {}", Letters(0), Letters(1))?;
    assert_eq!(rt; text.as_str(), "- r");
    let text = format!(in rt.alloc(); "{} {}", Letters(6), Letters(101))?;
    assert_eq!(rt; text.as_str(), "wh 101");
    Ok(())
}

#[test]
fn writes_what_was_delivered(rt: HostRuntime) -> Result<(), Fail> {
    let text = format!(in rt.alloc(); "{}", Delivered(&[0, 16, 255]))?;
    assert_eq!(rt; text.as_str(), "0010ff");
    let zeros = vec![in rt.alloc(); 0u8; 49]?;
    let text = format!(in rt.alloc(); "{}", Delivered(&zeros))?;
    assert_eq!(rt; text.as_str(), "49:c499fa1f0475271f");
    Ok(())
}

#[test]
fn reads_numbers(rt: HostRuntime) {
    assert_eq!(rt; parse::<u8>("0255"), Ok(255));
    assert_eq!(rt; parse::<i32>("-2147483648"), Ok(-2_147_483_648));
    for word in ["", "+1", "-1", "256", "1 ", "0x1", "99999999999999999999"] {
        assert_eq!(rt; parse::<u8>(word), Err(LineError::Unreadable), "{word}");
    }
}

#[test]
fn reads_handles(rt: HostRuntime) {
    assert_eq!(rt; "1.65535".parse(), Ok(Dotted(131_071)));
    assert_eq!(rt; "281474976710655.65535".parse(), Ok(Dotted(u64::MAX)));
    for word in [
        "",
        ".",
        "1",
        "1.",
        ".1",
        "1.1.1",
        "1.65536",
        "281474976710656.0",
    ] {
        assert_eq!(rt;
            word.parse::<Dotted>(),
            Err(LineError::Unreadable),
            "{word}"
        );
    }
}

#[test]
fn reads_bytes(rt: HostRuntime) -> Result<(), Fail> {
    let path = bytes(rt.alloc(), "2f61").ok().ok_or("no path")?;
    assert_eq!(rt; path.as_slice(), b"/a".as_slice());
    let nothing = bytes(rt.alloc(), "-").ok().ok_or("no bytes")?;
    assert!(rt; nothing.is_empty());
    for word in ["", "2", "2F", "2f6", "0g", "--"] {
        assert!(rt; bytes(rt.alloc(), word).is_err(), "{word}");
    }
    Ok(())
}

#[test]
fn reads_words(rt: HostRuntime) {
    let mut words = Words::new("read 1.2 10 ");
    assert_eq!(rt; words.word(), Ok("read"));
    assert_eq!(rt; words.parse(), Ok(Dotted(65_538)));
    assert_eq!(rt; words.end(), Err(LineError::Unreadable));
    assert_eq!(rt; words.up_to(10), Ok(10));
    assert_eq!(rt; words.end(), Ok(()));
}

#[test]
fn reads_a_word_of_bytes(rt: HostRuntime) -> Result<(), Fail> {
    let mut words = Words::new("2f61 2f6 -");
    let path = words.bytes(rt.alloc()).ok().ok_or("no path")?;
    assert_eq!(rt; path.as_slice(), b"/a".as_slice());
    assert!(rt; words.bytes(rt.alloc()).is_err());
    let nothing = words.bytes(rt.alloc()).ok().ok_or("no bytes")?;
    assert!(rt; nothing.is_empty());
    assert_eq!(rt; words.end(), Ok(()));
    Ok(())
}
