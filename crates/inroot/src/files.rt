//! Files that are read one after another.
ghost use Rattle.std.specs.Io.{ReadsAtMost};

use std::fs::File;
use std::io::{self, Read};

/// Files of these names, read one after another, with a newline behind each. A file that can't be opened or read is
/// told with its name.
#[derive(Drop)]
pub struct FilesRead<'a> {
    rt: &'a HostRuntime,
    names: &'a [&'a str],
    // So many files were opened.
    count: usize,
    // The last of these, if it isn't read to its end.
    open: Option<File>,
}

/// Tells the name of the file of an error.
fn told(rt: &HostRuntime, name: &str, error: io::Error) -> io::Error {
    if error.kind() != io::ErrorKind::Interrupted {
        // The status says it where standard error can't.
        let _ = eprintln!(rt; "inroot: {name:?}: {error}");
    }
    error
}

/// Puts a newline in front. Returns how many bytes it has there.
fn newline(block: &mut [u8]) -> io::Result<usize>
    ensures { ReadsAtMost result block.new }
{
    match block.first_mut() {
        Some(byte) => {
            *byte = b'\n';
            Ok(1)
        }
        None => Ok(0),
    }
}

impl<'a> FilesRead<'a> {
    pub fn new(rt: &'a HostRuntime, names: &'a [&'a str]) -> FilesRead<'a> {
        FilesRead {
            rt,
            names,
            count: 0,
            open: None,
        }
    }
}

impl Read for FilesRead<'_> {
    fn read(&mut self, block: &mut [u8]) -> io::Result<usize> {
        if block.is_empty() {
            return Ok(0);
        }
        let mut file = match self.open.take() {
            Some(file) => file,
            None => {
                let Some(name) = self.names.get(self.count) else {
                    return Ok(0);
                };
                match File::open(self.rt, name) {
                    Ok(file) => {
                        self.count = self.count.saturating_add(1);
                        file
                    }
                    Err(error) => return Err(told(self.rt, name, error)),
                }
            }
        };
        match file.read(block) {
            Ok(0) => newline(block),
            Ok(count) => {
                self.open = Some(file);
                Ok(count)
            }
            Err(error) => {
                self.open = Some(file);
                match self.names.get(self.count.saturating_sub(1)) {
                    Some(name) => Err(told(self.rt, name, error)),
                    None => Err(error),
                }
            }
        }
    }
}
