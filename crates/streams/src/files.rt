// Files by paths that are bytes, and what is said where one fails.
use std::fs::File;
use std::io;
use std::io::ErrorKind;

// A path as text. One that is no UTF-8 is refused.
pub fn path_in(bytes: &[u8]) -> io::Result<&str> {
    str::from_utf8(bytes).map_err(|_| io::Error::from(ErrorKind::InvalidInput))
}

// Opens a file to read it.
pub fn open(rt: &HostRuntime, path: &[u8]) -> io::Result<File> {
    File::open(rt, path_in(path)?)
}

// The system's words in an error, without the number that stands behind them.
fn words_in(told: &str) -> &str {
    told.split_once(" (os error ")
        .map_or(told, |(words, _)| words)
}

// Writes a line to standard error: what failed, a colon, and the system's words for why.
pub fn say_failed(rt: &HostRuntime, what: &[u8], error: io::Error) -> io::Result<()> {
    let told = format!(in rt.alloc(); "{error}")?;
    let err = rt.stderr();
    err.write_all(what)?;
    err.write_all(b": ")?;
    err.println(words_in(told.as_str()))
}
