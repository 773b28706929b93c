// The carriers of a run, from the image that a file keeps and back into it.
ghost use Rattle.std.specs.Prelude.{◌+◌, ◌≤◌, length};

use crate::files::{is_missing, keep};
use asking::Work;
use images::images::image_size;
use lines::answers::{Answer, Ending, answer_of};
use lines::bytes::{put_byte, put_bytes};
use lines::endings::put_labelled;
use std::fs::File;
use std::io;
use streams::files::open;
use streams::read_full;

fn store(text: &[u8], carriers: &[u8], image: &mut [u8], work: &mut Work) -> Answer {
    let mut answer = [0u8; 32];
    let number = keeping::store(
        text,
        carriers,
        image,
        &mut work.a,
        &mut work.b,
        &mut work.c,
        &mut answer,
    );
    answer_of(number, &answer)
}

fn load(text: &[u8], image: &[u8], carriers: &mut [u8], work: &mut Work) -> Answer {
    let mut answer = [0u8; 32];
    let number = keeping::load(
        text,
        image,
        carriers,
        &mut work.a,
        &mut work.b,
        &mut work.c,
        &mut answer,
    );
    answer_of(number, &answer)
}

// What a refusal of an image means.
fn put_reason(out: &mut [u8], at: usize, number: u64) -> usize
    requires { at + 64 ≤ length out.old }
    ensures { result ≤ at + 64 }
{
    match number {
        62 => put_bytes(
            out,
            at,
            b": not as long as the image of this description's words",
        ),
        63 => put_bytes(out, at, b": a byte of this block was changed"),
        64 => put_bytes(out, at, b": this block belongs to another image"),
        _ => put_bytes(out, at, b": a word has a bit above its length"),
    }
}

// Says why the image is refused, and at which byte of it, or of the carriers for 61.
fn say_refused(rt: &HostRuntime, a: Answer) -> io::Result<()> {
    let mut out = [0u8; 192];
    let second = put_labelled(&mut out, 0, b"image refused ", a.number);
    let third = put_labelled(&mut out, second, b" at byte ", a.place);
    let fourth = put_reason(&mut out, third, a.number);
    let end = put_byte(&mut out, fourth, b'\n');
    rt.write_all(&out[..end])
}

// Puts the carriers that an opened file keeps into their buffer. Returns whether a run can start.
fn start_from(
    rt: &HostRuntime,
    opened: File,
    text: &[u8],
    carriers: &mut [u8],
    work: &mut Work,
) -> io::Result<bool> {
    let mut file = opened;
    let mut image = [0u8; 33793];
    let n = read_full(&mut file, &mut image)?;
    drop(file);
    let loaded = load(text, &image[..n], carriers, work);
    if loaded.ending == Ending::Refused {
        say_refused(rt, loaded)?;
        return Ok(false);
    }
    Ok(true)
}

// Puts the carriers that the file keeps into their buffer. Returns whether a run can start: also where there is no such file yet.
pub fn start(
    rt: &HostRuntime,
    path: &[u8],
    text: &[u8],
    carriers: &mut [u8],
    work: &mut Work,
) -> io::Result<bool> {
    match open(rt, path) {
        Ok(opened) => start_from(rt, opened, text, carriers, work),
        Err(error) => is_missing(rt, path, error),
    }
}

// Stores the carriers in an image of their size, and keeps it in the file.
fn store_in(
    rt: &HostRuntime,
    path: &[u8],
    text: &[u8],
    carriers: &[u8],
    image: &mut [u8],
    work: &mut Work,
) -> io::Result<()>
    requires { length path.now ≤ 4096 }
{
    let stored = store(text, carriers, image, work);
    if stored.ending == Ending::Refused {
        return say_refused(rt, stored);
    }
    keep(rt, path, image)
}

// Keeps the carriers in the file.
pub fn finish(
    rt: &HostRuntime,
    path: &[u8],
    text: &[u8],
    carriers: &[u8],
    work: &mut Work,
) -> io::Result<()>
    requires { (length path.now ≤ 4096) × (length carriers.now ≤ 32768) }
{
    let mut image = [0u8; 33792];
    let size = image_size(carriers.len());
    store_in(rt, path, text, carriers, &mut image[..size], work)
}
