// A file of cases: its lines, and what they say. README.md has the form.
use crate::error::OutOfMemory;
use std::alloc::Global;

/// A word at the head of a line, and the rest of that line.
#[derive(Clone, Copy)]
pub struct Setting<'a> {
    pub key: &'a str,
    pub value: &'a str,
}

/// A case: its name, its settings, its input, and the lines that are expected. A text is no case, but lends its input to those that include it.
#[derive(Drop)]
pub struct Case<'a> {
    pub name: &'a str,
    is_text: bool,
    settings: Vec<Setting<'a>>,
    input: Vec<u8>,
    expected: String,
}

impl<'a> Case<'a> {
    fn new(alloc: Global, name: &'a str, is_text: bool) -> Case<'a> {
        Case {
            name,
            is_text,
            settings: Vec::new(alloc),
            input: Vec::new(alloc),
            expected: String::new(alloc),
        }
    }

    fn duplicate(&self, alloc: Global) -> Result<Case<'a>, OutOfMemory> {
        Ok(Case {
            name: self.name,
            is_text: self.is_text,
            settings: Vec::from_slice(alloc, &self.settings)?,
            input: Vec::from_slice(alloc, &self.input)?,
            expected: self.expected.clone()?,
        })
    }

    /// Whether it is a text, which has no answer.
    pub fn is_text(&self) -> bool {
        self.is_text
    }

    pub fn input(&self) -> &[u8] {
        &self.input
    }

    /// The input without its last newline: lines with newlines between them.
    pub fn body(&self) -> &[u8] {
        self.input.strip_suffix(b"\n").unwrap_or(&self.input)
    }

    /// The expected lines as they stand in the file.
    pub fn expected(&self) -> &str {
        self.expected.as_str()
    }

    /// The keys and values of all settings.
    pub fn settings(&self) -> &[Setting<'a>] {
        &self.settings
    }

    /// The value of the first setting with this key.
    pub fn value(&self, key: &str) -> Option<&'a str> {
        for setting in &self.settings {
            if setting.key == key {
                return Some(setting.value);
            }
        }
        None
    }

    /// The number of the setting with this key, or another one where there is none.
    pub fn number(&self, key: &str, other: u64) -> u64 {
        match self.value(key) {
            Some(value) => value.parse::<u64>().unwrap_or(other),
            None => other,
        }
    }
}

/// The numbers of a text, which are separated by blanks.
pub fn numbers_of(alloc: Global, text: &str) -> Result<Vec<u64>, OutOfMemory> {
    let mut numbers = Vec::new(alloc);
    for word in text.split_whitespace() {
        numbers.push(word.parse::<u64>().unwrap_or(0))?;
    }
    Ok(numbers)
}

/// The bytes that hexadecimal digits stand for.
pub fn bytes_of_hex(alloc: Global, digits: &str) -> Result<Option<Vec<u8>>, OutOfMemory> {
    match hex::decode(alloc, digits) {
        Ok(bytes) => Ok(Some(bytes)),
        Err(hex::FromHexError::OutOfMemory) => Err(OutOfMemory),
        Err(_) => Ok(None),
    }
}

/// The cases and texts of a file, in its order.
#[derive(Drop)]
pub struct Book<'a> {
    parts: Vec<Case<'a>>,
}

impl<'a> Book<'a> {
    pub fn new(alloc: Global) -> Book<'a> {
        Book {
            parts: Vec::new(alloc),
        }
    }

    /// The cases and the texts.
    pub fn parts(&self) -> &[Case<'a>] {
        &self.parts
    }

    // A copy of the text with this name.
    fn text(&self, alloc: Global, name: &str) -> Result<Option<Case<'a>>, OutOfMemory> {
        for part in &self.parts {
            if part.is_text && part.name == name {
                return Ok(Some(part.duplicate(alloc)?));
            }
        }
        Ok(None)
    }

    /// Takes a line of the file. False: it is no line of a case.
    pub fn add_line(&mut self, alloc: Global, line: &'a str) -> Result<bool, OutOfMemory> {
        if line.is_empty() || line.starts_with('#') {
            return Ok(true);
        }
        if let Some(name) = line.strip_prefix("case ") {
            self.parts.push(Case::new(alloc, name, false))?;
            return Ok(true);
        }
        if let Some(name) = line.strip_prefix("text ") {
            self.parts.push(Case::new(alloc, name, true))?;
            return Ok(true);
        }
        if let Some(name) = line.strip_prefix("include ") {
            return self.include(alloc, name);
        }
        match self.parts.last_mut() {
            Some(part) => add_to(alloc, part, line),
            None => Ok(false),
        }
    }

    // Takes the text with this name into the last part. False: there is none.
    fn include(&mut self, alloc: Global, name: &str) -> Result<bool, OutOfMemory> {
        let Some(text) = self.text(alloc, name)? else {
            return Ok(false);
        };
        let Some(part) = self.parts.last_mut() else {
            return Ok(false);
        };
        part.input.extend_from_slice(&text.input)?;
        part.settings.extend_from_slice(&text.settings)?;
        Ok(true)
    }
}

// Takes a line that follows the head of a case.
fn add_to<'a>(alloc: Global, part: &mut Case<'a>, line: &'a str) -> Result<bool, OutOfMemory> {
    if line.starts_with('<') || line.starts_with('=') {
        part.expected.push_str(line)?;
        part.expected.push('\n')?;
        return Ok(true);
    }
    if line.starts_with('>') {
        return add_input(alloc, &mut part.input, line);
    }
    let (key, value) = line.split_once(' ').unwrap_or((line, ""));
    part.settings.push(Setting { key, value })?;
    Ok(true)
}

// Takes a line of input.
fn add_input(alloc: Global, input: &mut Vec<u8>, line: &str) -> Result<bool, OutOfMemory> {
    let mut bytes: Option<Vec<u8>> = None;
    if let Some(digits) = line.strip_prefix(">x ") {
        bytes = bytes_of_hex(alloc, digits)?;
    } else if let Some(value) = line.strip_prefix(">* ") {
        bytes = repeated(alloc, value)?;
    } else if let Some(text) = line.strip_prefix(">> ") {
        bytes = Some(Vec::from_slice(alloc, text.as_bytes())?);
    } else if let Some(text) = line.strip_prefix("> ") {
        bytes = Some(Vec::from_slice(alloc, text.as_bytes())?);
    } else if line == ">" {
        bytes = Some(Vec::new(alloc));
    }
    let Some(bytes) = bytes else {
        return Ok(false);
    };
    input.extend_from_slice(&bytes)?;
    if line == ">" || line.starts_with("> ") {
        input.push(b'\n')?;
    }
    Ok(true)
}

/// The bytes of `TIMES DIGITS`.
pub fn repeated(alloc: Global, value: &str) -> Result<Option<Vec<u8>>, OutOfMemory> {
    let (times, digits) = value.split_once(' ').unwrap_or((value, ""));
    let Some(piece) = bytes_of_hex(alloc, digits)? else {
        return Ok(None);
    };
    let mut bytes = Vec::new(alloc);
    for _ in 0..times.parse::<u32>().unwrap_or(0) {
        bytes.extend_from_slice(&piece)?;
    }
    Ok(Some(bytes))
}
