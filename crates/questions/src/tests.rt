// Questions as their lines name them, and their answers.
use crate::question::Question;
use std::alloc::Global;
use std::test::Fail;
use wording::line::Words;

fn answer(alloc: Global, line: &str) -> Result<String, Fail> {
    let mut words = Words::new(line);
    let name = words.word().ok().ok_or("no name")?;
    let found = Question::read(alloc, name, &mut words)
        .ok()
        .ok_or("unreadable")?;
    let question = found.ok_or("no question")?;
    words.end().ok().ok_or("words are left")?;
    Ok(question.answer(alloc)?)
}

#[test]
fn answers_about_bytes(rt: HostRuntime) -> Result<(), Fail> {
    for (line, expected) in [
        ("utf8 -", "0 1"),
        ("utf8 e282ac", "0 1"),
        ("utf8 e282", "0 0"),
        ("new_address 2f61 3", "18 bytes a5a5a5"),
        ("path_of 01002f6100", "0 2 2"),
    ] {
        let text = answer(rt.alloc(), line)?;
        assert_eq!(rt; text.as_str(), expected, "{line}");
    }
    let text = answer(rt.alloc(), "new_address 2f61 110")?;
    let zeros = text
        .as_str()
        .strip_prefix("0 bytes 01002f61")
        .ok_or("another address")?;
    assert_eq!(rt; zeros.len(), 212);
    assert!(rt; zeros.bytes().all(|digit| digit == b'0'));
    Ok(())
}

#[test]
fn answers_about_descriptors(rt: HostRuntime) -> Result<(), Fail> {
    for (line, expected) in [
        (
            "encode 0100000002000000 24",
            "0 24 bytes 180000000000000001000000010000000100000002000000",
        ),
        (
            "parse 180000000000000001000000010000000100000002000000 3",
            "0 2 bytes 0100000002000000a5a5a5a5",
        ),
        ("encode 0100000002000000 4", "18 0 bytes a5a5a5a5"),
        ("encode - 0", "0 0"),
    ] {
        let text = answer(rt.alloc(), line)?;
        assert_eq!(rt; text.as_str(), expected, "{line}");
    }
    Ok(())
}

#[test]
fn answers_one_number(rt: HostRuntime) -> Result<(), Fail> {
    for (line, expected) in [
        ("align 9", "0 16"),
        ("len 18446744073709551599", "0 18446744073709551615"),
        ("len 18446744073709551600", "2 0"),
        ("how 2", "0 2"),
        ("how 3", "2 0"),
    ] {
        let text = answer(rt.alloc(), line)?;
        assert_eq!(rt; text.as_str(), expected, "{line}");
    }
    Ok(())
}

#[test]
fn no_question_has_the_name(rt: HostRuntime) {
    let mut words = Words::new("1 1 0");
    let found = Question::read(rt.alloc(), "socket", &mut words);
    assert!(rt; matches!(found, Ok(None)));
    assert_eq!(rt; words.word(), Ok("1"));
}

#[test]
fn too_much_is_not_lent(rt: HostRuntime) {
    for (name, arguments) in [
        ("new_address", "2f61 257"),
        ("parse", "- 65"),
        ("utf8", "2f6"),
        ("align", ""),
    ] {
        let mut words = Words::new(arguments);
        let found = Question::read(rt.alloc(), name, &mut words);
        assert!(rt; found.is_err(), "{name}");
    }
}
