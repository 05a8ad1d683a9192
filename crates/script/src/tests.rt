// What ends a run, and how much is read.
use crate::player::{Player, Stop, compared};
use std::io;
use std::io::Read;
use std::test::Fail;

#[test]
fn plays(rt: HostRuntime) -> Result<(), Fail> {
    let mut player = Player::new(rt.alloc())?;
    for line in [
        "",
        "word 12487 1",
        "align 9 = 0 16",
        "table 40 65536",
        "table 3 8 ",
        "socket 1 1 0 = 0 value 1.0 ready 1.0:-",
        "bind 1.0 2f61 = 0 ready 1.0:-",
        "listen 1.0 1 = 0 ready 1.0:-",
    ] {
        assert!(rt; player.play(line.as_bytes()).is_ok(), "{line}");
    }
    let totals = player.to_string(rt.alloc())?;
    assert_eq!(rt;
        totals.as_str(),
        "3 calls on 2 tables and 1 questions: agree"
    );
    Ok(())
}

#[test]
fn stops_at_what_it_cannot_read(rt: HostRuntime) -> Result<(), Fail> {
    for line in [
        " ",
        "=",
        "table 41 1",
        "table 3 0",
        "table 3 8 9",
        "word 12488 1",
        "word 1",
        "socket 1 1 0 = 0",
        "align 9",
        "align 9 9 = 0 16",
        "aligns 9 = 0 16",
    ] {
        let mut player = Player::new(rt.alloc())?;
        let stop = player.play(line.as_bytes());
        assert!(rt; matches!(stop, Err(Stop::Unreadable)), "{line}");
    }
    Ok(())
}

#[test]
fn stops_at_another_answer(rt: HostRuntime) -> Result<(), Fail> {
    let mut player = Player::new(rt.alloc())?;
    match player.play(b"align 9 = 0 \xff") {
        Err(Stop::Differs { call, stored, here }) => {
            assert_eq!(rt; call, "align 9");
            assert_eq!(rt; stored, b"0 \xff".as_slice());
            assert_eq!(rt; here.as_str(), "0 16");
        }
        _ => return Err("it agrees".into()),
    }
    Ok(())
}

#[test]
fn shows_as_far_as_it_compares(rt: HostRuntime) -> Result<(), Fail> {
    let mut text = String::new(rt.alloc());
    for _ in 0..6_561 {
        text.push_str("0123456789")?;
    }
    assert_eq!(rt; text.len(), 65_610);
    assert_eq!(rt; compared(&text).len(), 65_600);
    assert_eq!(rt; compared("0 16"), b"0 16".as_slice());
    Ok(())
}

// What runs on into the `=` is taken with the last word, of which it leaves no number.
#[test]
fn runs_on(rt: HostRuntime) -> Result<(), Fail> {
    let mut player = Player::new(rt.alloc())?;
    for line in [
        "table 3 8",
        "socket 1 1 0 = 0 value 1.0 ready 1.0:-",
        "socket 1 1 0 = 0 value 1.1 ready 1.0:- 1.1:-",
        "close 1.1x= 0 ready 1.1:-",
        "close 1.0x=1 0",
    ] {
        assert!(rt; player.play(line.as_bytes()).is_ok(), "{line}");
    }
    Ok(())
}

#[test]
fn reads(rt: HostRuntime) -> Result<(), Fail> {
    let longest = crate::read(rt.alloc(), io::repeat(b'#').take(1_048_575))?;
    assert!(rt; longest.is_some());
    let longer = crate::read(rt.alloc(), io::repeat(b'#').take(1_048_576))?;
    assert!(rt; longer.is_none());
    Ok(())
}
