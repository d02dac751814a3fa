// What the program answers to a case, in the form in which a case says what is expected.
use itoa::Buffer;
use std::alloc::Global;

/// The lines of an answer: `<` before what a call returned or printed, `=` before what is said beside it. A line is put together by `text` and `number`, and
/// ended by `end` or `note`. Where memory is refused the answer is cut short and says so, so that no other call has to.
#[derive(Drop)]
pub struct Answer {
    lines: Vec<u8>,
    line: Vec<u8>,
    is_cut: bool,
}

impl Answer {
    pub fn new(alloc: Global) -> Answer {
        Answer {
            lines: Vec::new(alloc),
            line: Vec::new(alloc),
            is_cut: false,
        }
    }

    /// All lines; one that no case expects where memory was refused.
    pub fn lines(&self) -> &str {
        if self.is_cut {
            "no memory"
        } else {
            std::str::from_utf8(&self.lines).unwrap_or("")
        }
    }

    /// Memory was refused to a call that the case made.
    pub fn cut(&mut self) {
        self.is_cut = true;
    }

    fn add(&mut self, bytes: &[u8]) {
        if self.lines.extend_from_slice(bytes).is_err() {
            self.is_cut = true;
        }
    }

    pub fn text(&mut self, bytes: &[u8]) {
        if self.line.extend_from_slice(bytes).is_err() {
            self.is_cut = true;
        }
    }

    pub fn number(&mut self, number: u64) {
        let mut buffer = Buffer::new();
        self.text(buffer.format(number).as_bytes());
    }

    pub fn hexadecimal(&mut self, bytes: &[u8]) {
        for byte in bytes {
            self.text(&[digit(byte / 16), digit(byte % 16)]);
        }
    }

    /// Ends a line of what was returned.
    pub fn end(&mut self) {
        self.flush(b"<");
    }

    /// Ends a line of what is said beside it.
    pub fn note(&mut self) {
        self.flush(b"=");
    }

    /// A value that was returned: one line.
    pub fn value(&mut self, bytes: &[u8]) {
        self.text(bytes);
        self.end();
    }

    /// A text that was returned or printed, line by line; a last line without a newline is marked as such.
    pub fn output(&mut self, text: &[u8]) {
        for piece in text.split_inclusive(|byte| *byte == b'\n') {
            match piece.strip_suffix(b"\n") {
                Some(line) => self.value(line),
                None => {
                    self.text(piece);
                    self.flush(b"<<");
                }
            }
        }
    }

    // Writes the line after its mark; in hexadecimal digits where it has a control character or is no UTF-8.
    fn flush(&mut self, mark: &[u8]) {
        self.add(mark);
        if is_plain(&self.line) {
            self.add_plain();
        } else {
            self.add_hexadecimal();
        }
        self.add(b"\n");
        self.line.clear();
    }

    fn add_plain(&mut self) {
        if !self.line.is_empty() {
            self.add(b" ");
            if self.lines.extend_from_slice(&self.line).is_err() {
                self.is_cut = true;
            }
        }
    }

    fn add_hexadecimal(&mut self) {
        self.add(b"x ");
        for i in 0..self.line.len() {
            let byte = self.line.get(i).copied().unwrap_or(0);
            self.add(&[digit(byte / 16), digit(byte % 16)]);
        }
    }
}

fn is_plain(text: &[u8]) -> bool {
    std::str::from_utf8(text).is_ok() && !text.iter().any(|byte| *byte < 32 || *byte == 127)
}

fn digit(value: u8) -> u8 {
    b"0123456789abcdef"
        .get(value as usize)
        .copied()
        .unwrap_or(b'?')
}

/// The first lines in which two texts differ; `nothing` stands for a line that isn't there.
pub fn first_difference<'a>(wanted: &'a str, given: &'a str) -> Option<(&'a str, &'a str)> {
    let mut given_lines = given.lines();
    for line in wanted.lines() {
        let other = given_lines.next().unwrap_or("nothing");
        if line != other {
            return Some((line, other));
        }
    }
    match given_lines.next() {
        Some(other) => Some(("nothing", other)),
        None => None,
    }
}
