// Playing a script line by line.
use crate::call::Call;
use crate::host::Host;
use questions::question::Question;
use std::alloc::{AllocError, Global};
use std::fmt;
use wording::line::Words;
use wording::text::LineError;

// An answer is compared, and shown where it differs, as far as this.
const MOST_TEXT: usize = 65_600;

// A table's slots and their capacity are up to this, and so is the place of a word.
const MOST_SIZE: usize = 65_536;

/// What ends a run before its script does.
#[derive(Drop)]
pub enum Stop<'a> {
    Unreadable,
    OutOfMemory,
    Differs {
        call: &'a str,
        stored: &'a [u8],
        here: String,
    },
}

impl From<LineError> for Stop<'_> {
    fn from(error: LineError) -> Self {
        match error {
            LineError::Unreadable => Stop::Unreadable,
            LineError::OutOfMemory => Stop::OutOfMemory,
        }
    }
}

impl From<AllocError> for Stop<'_> {
    fn from(_error: AllocError) -> Self {
        Stop::OutOfMemory
    }
}

#[derive(Drop)]
enum Asked {
    Call(Call),
    Question(Question),
}

impl Asked {
    fn read(alloc: Global, text: &str) -> Result<Asked, LineError> {
        let mut words = Words::new(text);
        let name = words.word()?;
        let asked = match Question::read(alloc, name, &mut words)? {
            Some(question) => Asked::Question(question),
            None => Asked::Call(Call::read(alloc, name, &mut words)?),
        };
        words.end()?;
        Ok(asked)
    }
}

// The host, and how much agreed so far.
#[derive(Drop)]
pub struct Player {
    alloc: Global,
    host: Host,
    calls: u64,
    questions: u64,
    tables: u64,
}

impl fmt::Display for Player {
    fn fmt<W: fmt::Write>(&self, f: &mut fmt::Formatter<W>) -> fmt::Result {
        let Player {
            calls,
            tables,
            questions,
            ..
        } = self;
        write!(
            f,
            "{calls} calls on {tables} tables and {questions} questions: agree"
        )
    }
}

impl Player {
    pub fn new(alloc: Global) -> Result<Player, AllocError> {
        Ok(Player {
            alloc,
            host: Host::new(alloc)?,
            calls: 0,
            questions: 0,
            tables: 0,
        })
    }

    // Plays a line that is no comment.
    pub fn play<'a>(&mut self, line: &'a [u8]) -> Result<(), Stop<'a>> {
        if line.is_empty() {
            return Ok(());
        }
        if let Ok(text) = str::from_utf8(line) {
            let mut words = Words::new(text);
            match words.word()? {
                "table" => return Ok(self.table(words)?),
                "word" => return Ok(self.word(words)?),
                _ => {}
            }
        }
        self.asked(line)
    }

    // `table N C`: a fresh table.
    fn table(&mut self, mut words: Words<'_>) -> Result<(), LineError> {
        let slots = words.up_to(MOST_SIZE)?;
        let capacity = words.up_to(MOST_SIZE)?;
        words.end()?;
        self.host
            .make(slots, capacity)
            .or(Err(LineError::Unreadable))?;
        self.tables = self.tables.saturating_add(1);
        Ok(())
    }

    // `word K V`: word K of the storage becomes V.
    fn word(&mut self, mut words: Words<'_>) -> Result<(), LineError> {
        let place = words.up_to(MOST_SIZE)?;
        let value = words.parse()?;
        words.end()?;
        *self.host.word_mut(place).ok_or(LineError::Unreadable)? = value;
        Ok(())
    }

    // `CALL = ANSWER`.
    fn asked<'a>(&mut self, line: &'a [u8]) -> Result<(), Stop<'a>> {
        let (call, stored) = halves(line).ok_or(LineError::Unreadable)?;
        let Ok(call) = str::from_utf8(call) else {
            return Err(Stop::Unreadable);
        };
        let here = self.answer(call, more_after(line, call))?;
        if compared(&here) == stored {
            Ok(())
        } else {
            Err(Stop::Differs { call, stored, here })
        }
    }

    fn answer(&mut self, text: &str, more: &[u8]) -> Result<String, LineError> {
        match Asked::read(self.alloc, text)? {
            Asked::Question(question) => {
                self.questions = self.questions.saturating_add(1);
                Ok(question.answer(self.alloc)?)
            }
            Asked::Call(call) => {
                self.calls = self.calls.saturating_add(1);
                let call = call.run_on(text, more)?;
                let answer = self.host.call(self.alloc, &call)?;
                answer.ok_or(LineError::Unreadable)
            }
        }
    }
}

// The call before ` = ` and the answer after it.
fn halves(line: &[u8]) -> Option<(&[u8], &[u8])> {
    let mut halves = line.splitn(2, |byte| *byte == b'=');
    let (_space, call) = halves.next()?.split_last()?;
    let stored = halves.next()?.splitn(2, |byte| *byte == b' ').nth(1);
    Some((call, stored.unwrap_or(&[])))
}

// What stands between the call and the next space: nothing, where a space stands before the `=`.
fn more_after<'a>(line: &'a [u8], call: &str) -> &'a [u8] {
    let after = line.get(call.len()..).unwrap_or(&[]);
    after.split(|byte| *byte == b' ').next().unwrap_or(&[])
}

// The text as far as it is compared.
pub fn compared(text: &str) -> &[u8] {
    let bytes = text.as_bytes();
    bytes.get(..MOST_TEXT).unwrap_or(bytes)
}
