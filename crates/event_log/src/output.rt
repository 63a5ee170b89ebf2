//! The text that the program writes.
ghost use Rattle.std.specs.Prelude.{◌≡◌, ◌<◌, ℕ, List, [], decimal};
ghost use Rattle.event_log.specs.Output.{escaped_byte, escaped, kind_word, hex_digit, opened_words, opened_line, fault_words, fault_line, Gains};

use itoa::Buffer;
use path_text::{Errno, Names, NoMemory};
use std::alloc::Global;
use std::marker::Model;
use tree_model::{Kind, Node};

/// A text under way. Contracts see it as its bytes; each call adds at the end, or answers NoMemory.
#[derive(Debug, Drop)]
pub struct Output {
    bytes: Vec<u8>,
}

impl Model for Output {
    ghost Value = { List ℕ };

    ghost view = { λ o. o.bytes.items };
}

/// The word for what a node is.
fn kind_word(kind: Kind) -> &'static str
    ensures { result.now ≡ kind_word kind }
{
    match kind {
        Kind::Dir => "dir",
        Kind::File => "file",
        Kind::Link => "link",
    }
}

/// A hexadecimal digit, in lower case.
fn hex_digit(value: u8) -> u8
    requires { value < 16 }
    ensures { result ≡ hex_digit value }
{
    if value < 10 {
        b'0' + value
    } else {
        b'a' - 10 + value
    }
}

impl Output {
    /// No text. Takes no memory.
    pub fn new(alloc: Global) -> Output
        ensures { result ≡ [] }
    {
        Output {
            bytes: Vec::new(alloc),
        }
    }

    /// The text's bytes.
    pub fn as_slice(&self) -> &[u8]
        ensures { result.now ≡ self.now }
    {
        self.bytes.as_slice()
    }

    /// Adds a text as it is.
    pub fn text(&mut self, text: &str) -> Result<(), NoMemory>
        ensures { Gains self.old self.new text.now result }
    {
        self.bytes.extend_from_slice(text.as_bytes())?;
        Ok(())
    }

    /// Adds bytes as they are.
    pub fn bytes(&mut self, bytes: &[u8]) -> Result<(), NoMemory>
        ensures { Gains self.old self.new bytes.now result }
    {
        self.bytes.extend_from_slice(bytes)?;
        Ok(())
    }

    /// Adds a number in decimal digits.
    pub fn number(&mut self, number: u64) -> Result<(), NoMemory>
        ensures { Gains self.old self.new (decimal number) result }
    {
        let mut buffer = Buffer::new();
        self.text(buffer.format(number))
    }

    /// Adds the word for what a node is: `dir`, `file` or `link`.
    pub fn kind(&mut self, kind: Kind) -> Result<(), NoMemory>
        ensures { Gains self.old self.new (kind_word kind) result }
    {
        self.text(kind_word(kind))
    }

    /// Adds one byte of a name, a path or a link's text: a printed one as it is, but for the backslash, and
    /// any other as `\x` and two hexadecimal digits.
    fn byte(&mut self, byte: u8) -> Result<(), NoMemory>
        ensures { Gains self.old self.new (escaped_byte byte) result }
    {
        if (0x21..=0x7e).contains(&byte) && byte != b'\\' {
            self.bytes.push(byte)?;
        } else {
            let escape = [b'\\', b'x', hex_digit(byte / 16), hex_digit(byte % 16)];
            self.bytes.extend_from_slice(&escape)?;
        }
        Ok(())
    }

    /// Adds the bytes of a name, a path or a link's text, escaped one by one.
    pub fn escaped(&mut self, bytes: &[u8]) -> Result<(), NoMemory>
        ensures { Gains self.old self.new (escaped bytes.now) result }
    {
        for byte in bytes {
            self.byte(*byte)?;
        }
        Ok(())
    }

    /// Adds an object that was opened, with no newline: what it is, its node, and the names at which it stood.
    pub fn opened_words(
        &mut self,
        alloc: Global,
        kind: Kind,
        node: Node,
        names: &Names,
    ) -> Result<(), NoMemory>
        ensures { Gains self.old self.new (opened_words kind node names.now) result }
    {
        let path = names.print(alloc)?;
        self.text("opened ")?;
        self.kind(kind)?;
        self.text(" ")?;
        self.number(node.number())?;
        self.text(" ")?;
        self.escaped(&path)
    }

    /// Adds the line of an object that was opened.
    pub fn opened(
        &mut self,
        alloc: Global,
        kind: Kind,
        node: Node,
        names: &Names,
    ) -> Result<(), NoMemory>
        ensures { Gains self.old self.new (opened_line kind node names.now) result }
    {
        self.opened_words(alloc, kind, node, names)?;
        self.text("\n")
    }

    /// Adds that a call was refused, with no newline, and why.
    pub fn fault_words(&mut self, error: Errno) -> Result<(), NoMemory>
        ensures { Gains self.old self.new (fault_words error) result }
    {
        self.text("fault ")?;
        self.text(error.name())
    }

    /// Adds the line of a call that was refused.
    pub fn fault(&mut self, error: Errno) -> Result<(), NoMemory>
        ensures { Gains self.old self.new (fault_line error) result }
    {
        self.fault_words(error)?;
        self.text("\n")
    }
}
