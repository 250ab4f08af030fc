//! The form of a case file, and its reader.
//!
//! A case file is read line by line; nothing in it is escaped. An empty line means nothing.
//!
//! | Line | Means |
//! |---|---|
//! | `let NAME` | between cases: a text of this name begins, empty so far |
//! | `case NAME` | a case begins |
//! | `word WORD` | the next word of the call; `word` alone is the empty word |
//! | `file NAME` | a file of the shelf, empty so far |
//! | `unread N` | the N-th read fails, counted from 1 |
//! | `room N` | each of the two sinks has room for N bytes |
//! | `most N` | a write takes at most N bytes |
//! | `unwritten N` | the N-th write to a sink fails, counted from 1 |
//! | `status N` | the exit status that must come; left out: 0 |
//! | `out`, `err` | the text that standard output or standard error must hold follows; left out: nothing |
//! | a bar and TEXT | TEXT and a line feed, at the end of the word, file or text that was named last |
//! | a backslash and TEXT | TEXT there, without the line feed |
//! | `repeat N TEXT` | N times TEXT there, without line feeds |
//! | `use NAME..` | the texts of these names there, which stand further up in the file |
//! | `front N NAME` | the first N bytes of the text of this name there |
//! | `end` | the case ends |
//!
//! Names and words are UTF-8, and the name of a text has no space; other texts may be any bytes.

use crate::case::{Case, NamedFile};
use anyhow::{Context, bail};
use std::alloc::Global;
use std::str;

/// What the lines of text belong to.
#[derive(Clone, Copy)]
enum Part {
    Named,
    Word,
    File,
    Out,
    Err,
}

/// Reads cases from the lines of a file.
#[derive(Drop)]
pub(crate) struct Reader {
    alloc: Global,
    texts: Vec<NamedFile>,
    case: Option<Case>,
    part: Part,
}

impl Reader {
    /// A reader that has seen no line yet.
    pub(crate) fn new(alloc: Global) -> Reader {
        Reader {
            alloc,
            texts: Vec::new(alloc),
            case: None,
            part: Part::Word,
        }
    }

    /// Takes the next line, and gives the case that it ends, if it ends one.
    ///
    /// # Errors
    ///
    /// Where the line isn't of the form above, stands at no such place, or there isn't enough
    /// memory.
    pub(crate) fn take_line(&mut self, line: &[u8]) -> anyhow::Result<Option<Case>> {
        match line {
            [] => Ok(None),
            b"end" => Ok(Some(self.case.take().context("no case to end")?)),
            [b'|', text @ ..] => {
                self.push_text(text)?;
                self.push_text(b"\n")?;
                Ok(None)
            }
            [b'\\', text @ ..] => {
                self.push_text(text)?;
                Ok(None)
            }
            _ => {
                let line = str::from_utf8(line).ok().context("a key that isn't UTF-8")?;
                let (key, value) = line.split_once(' ').unwrap_or((line, ""));
                self.take_key(key, value)?;
                Ok(None)
            }
        }
    }

    /// Ends the file.
    ///
    /// # Errors
    ///
    /// Where a case has begun that isn't ended.
    pub(crate) fn finish(self) -> anyhow::Result<()> {
        match self.case {
            None => Ok(()),
            Some(_) => bail!("the last case isn't ended"),
        }
    }

    // Adds to the word, file or text that was named last.
    fn push_text(&mut self, text: &[u8]) -> anyhow::Result<()> {
        if let Part::Named = self.part {
            let named = self.texts.last_mut().context("a text without a name")?;
            named.bytes.extend_from_slice(text)?;
            return Ok(());
        }
        let case = self.case.as_mut().context("a text before any case")?;
        match self.part {
            Part::Named => {}
            Part::Word => {
                let word = case.words.last_mut().context("a text before any word")?;
                word.push_str(
                    str::from_utf8(text)
                        .ok()
                        .context("a word that isn't UTF-8")?,
                )?;
            }
            Part::File => {
                let file = case.files.last_mut().context("a text before any file")?;
                file.bytes.extend_from_slice(text)?;
            }
            Part::Out => case.out.extend_from_slice(text)?,
            Part::Err => case.err.extend_from_slice(text)?,
        }
        Ok(())
    }

    // Does what a line with a key says.
    fn take_key(&mut self, key: &str, value: &str) -> anyhow::Result<()> {
        match key {
            "let" => return self.name(value),
            "case" => return self.begin(value),
            "repeat" => return self.repeat(value),
            "use" => return self.push_texts(value),
            "front" => return self.push_front(value),
            _ => {}
        }
        let case = self.case.as_mut().context("a key before any case")?;
        match key {
            "word" => {
                case.words.push(String::from_str(self.alloc, value)?)?;
                self.part = Part::Word;
            }
            "file" => {
                case.files.push(NamedFile::new(self.alloc, value)?)?;
                self.part = Part::File;
            }
            "out" => self.part = Part::Out,
            "err" => self.part = Part::Err,
            _ => take_number(case, key, value)?,
        }
        Ok(())
    }

    // Adds a text again and again to the word, file or text that was named last.
    fn repeat(&mut self, value: &str) -> anyhow::Result<()> {
        let (count, text) = value.split_once(' ').context("a repeat without its text")?;
        let count: u32 = count.parse().ok().context("a repeat without its number")?;
        for _ in 0..count {
            self.push_text(text.as_bytes())?;
        }
        Ok(())
    }

    // The text of this name.
    fn text(&self, name: &str) -> anyhow::Result<Vec<u8>> {
        let named = self.texts.iter().find(|text| text.name.as_str() == name);
        Ok(named.context("no text of this name")?.bytes.clone()?)
    }

    // Adds named texts to the word, file or text that was named last.
    fn push_texts(&mut self, names: &str) -> anyhow::Result<()> {
        for name in names.split(' ') {
            let text = self.text(name)?;
            self.push_text(text.as_slice())?;
        }
        Ok(())
    }

    // Adds the front of a named text to the word, file or text that was named last.
    fn push_front(&mut self, value: &str) -> anyhow::Result<()> {
        let (count, name) = value.split_once(' ').context("a front without its name")?;
        let count: usize = count.parse().ok().context("a front without its number")?;
        let text = self.text(name)?;
        self.push_text(text.get(..count).context("a front of too short a text")?)
    }

    // Begins a text of this name.
    fn name(&mut self, name: &str) -> anyhow::Result<()> {
        if self.case.is_some() {
            bail!("a text that is named within a case");
        }
        if self.text(name).is_ok() {
            bail!("a second text of one name");
        }
        self.texts.push(NamedFile::new(self.alloc, name)?)?;
        self.part = Part::Named;
        Ok(())
    }

    // Begins a case.
    fn begin(&mut self, name: &str) -> anyhow::Result<()> {
        if self.case.is_some() {
            bail!("a case within a case");
        }
        let name = String::from_str(self.alloc, name)?;
        self.case = Some(Case::new(self.alloc, name));
        self.part = Part::Word;
        Ok(())
    }
}

// Does what a line with a key and a number says.
fn take_number(case: &mut Case, key: &str, value: &str) -> anyhow::Result<()> {
    let number: usize = value.parse().ok().context("a key without its number")?;
    match key {
        "unread" => case.unread.push(number as u64)?,
        "unwritten" => case.unwritten.push(number as u64)?,
        "room" => case.room = Some(number),
        "most" => case.most = Some(number),
        "status" => case.status = u8::try_from(number).ok().context("no exit status")?,
        _ => bail!("no such key"),
    }
    Ok(())
}
