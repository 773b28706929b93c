// The file that keeps an image. A new image is written beside it and takes its name when it is whole, so that a night that breaks off leaves the old one.
ghost use Rattle.std.specs.Prelude.{◌+◌, ◌≤◌, length};

use lines::bytes::put_bytes;
use std::fs::File;
use std::io::{ErrorKind, Write};
use std::{fs, io};
use streams::files::{path_in, say_failed};

// Whether a file that could not be opened is just not there; else says why.
pub fn is_missing(rt: &HostRuntime, path: &[u8], error: io::Error) -> io::Result<bool> {
    if error.kind() == ErrorKind::NotFound {
        return Ok(true);
    }
    say_failed(rt, path, error)?;
    Ok(false)
}

// The name of the new file. Returns its length.
fn put_fresh(fresh: &mut [u8], path: &[u8]) -> usize
    requires { length path.now + 4 ≤ length fresh.old }
    ensures { result ≤ length fresh.new }
{
    let next = put_bytes(fresh, 0, path);
    put_bytes(fresh, next, b".new")
}

// Writes a file, down to the disk, and closes it.
fn write(rt: &HostRuntime, fresh: &str, image: &[u8]) -> io::Result<()> {
    let mut file = File::create(rt, fresh)?;
    file.write_all(image)?;
    file.sync_all()
}

// Writes the new file and gives it the name.
fn replace(rt: &HostRuntime, path: &[u8], fresh: &[u8], image: &[u8]) -> io::Result<()> {
    let name = path_in(path)?;
    let beside = path_in(fresh)?;
    write(rt, beside, image)?;
    fs::rename(rt, beside, name)
}

fn say_kept(rt: &HostRuntime, path: &[u8]) -> io::Result<()> {
    rt.write_all(b"carriers kept in ")?;
    rt.write_all(path)?;
    rt.write_all(b"\n")
}

// Keeps an image in the file, and says so.
pub fn keep(rt: &HostRuntime, path: &[u8], image: &[u8]) -> io::Result<()>
    requires { length path.now ≤ 4096 }
{
    let mut fresh = [0u8; 4100];
    let end = put_fresh(&mut fresh, path);
    match replace(rt, path, &fresh[..end], image) {
        Ok(()) => say_kept(rt, path),
        Err(error) => say_failed(rt, path, error),
    }
}
