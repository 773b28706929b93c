// Scans cases and writes a line for each: `fine`, the number of tokens and the tokens, or `refused`, the number and the place. A token is written as
// kind.size.place.value, in the order of the token table's cells.
// The cases are each byte by itself (a mark for each: `-` refused 10, `2` refused 12, `0` no token, `1` a token), runs of one byte, and the lines of
// the standard input. The lines to expect come from document 01 alone, "Bytes and tokens" and "Numbers given back", and not from the code: each case has
// one rule that decides it. The kinds are numbered as in the rules, a place is counted in bytes from 0, and a value is written in decimal.
#![tactic(auto)]

ghost use Rattle.std.specs.Prelude.{◌+◌, ◌*◌, ◌≤◌, length};

use cells::get64;
use rules::refusals::Refusal;
use std::io;
use streams::read_full;

// The answer to a text in one byte.
fn mark_of(found: Result<usize, Refusal>) -> u8 {
    match found {
        Ok(0) => b'0',
        Ok(_) => b'1',
        Err(Refusal { number: 10, .. }) => b'-',
        Err(_) => b'2',
    }
}

fn end_line(rt: &HostRuntime) -> io::Result<()> {
    rt.write_all(b"\n")
}

// Each byte as a text, 16 to a line.
fn show_bytes(rt: &HostRuntime, records: &mut [u8], values: &mut [u8]) -> io::Result<()>
    requires { (65536 ≤ length records.old) × (65536 ≤ length values.old) }
{
    for byte in 0..=255u8 {
        let mark = mark_of(text::scan(&[byte], records, values));
        rt.write_all(&[mark])?;
        if byte % 16 == 15 {
            end_line(rt)?;
        }
    }
    Ok(())
}

// The token i.
fn show_token(rt: &HostRuntime, records: &[u8], values: &[u8], i: usize) -> io::Result<()>
    requires { (8 * i + 8 ≤ length records.now) × (8 * i + 8 ≤ length values.now) }
{
    let record = get64(records, i);
    rt.write_all(b" ")?;
    rt.print(record % 256)?;
    rt.write_all(b".")?;
    rt.print(record / 256 % 256)?;
    rt.write_all(b".")?;
    rt.print(record / 65536)?;
    rt.write_all(b".")?;
    rt.print(get64(values, i))
}

// The tokens, where they are not many.
fn show_tokens(rt: &HostRuntime, records: &[u8], values: &[u8], count: usize) -> io::Result<()>
    requires { (65536 ≤ length records.now) × (65536 ≤ length values.now) }
{
    if 64 < count {
        return Ok(());
    }
    for i in 0..count {
        show_token(rt, records, values, i)?;
    }
    Ok(())
}

// The line of a text.
fn show(rt: &HostRuntime, text: &[u8], records: &mut [u8], values: &mut [u8]) -> io::Result<()>
    requires { (length text.now ≤ 32768) × ((65536 ≤ length records.old) × (65536 ≤ length values.old)) }
{
    match text::scan(text, records, values) {
        Ok(count) => {
            rt.write_all(b"fine ")?;
            rt.print(count as u64)?;
            show_tokens(rt, records, values, count)?;
        }
        Err(refused) => {
            rt.write_all(b"refused ")?;
            rt.print(refused.number as u64)?;
            rt.write_all(b" ")?;
            rt.print(refused.place as u64)?;
        }
    }
    end_line(rt)
}

// The end of the line that starts at `from`.
fn line_end(lines: &[u8], from: usize) -> usize
    requires { from ≤ length lines.now }
    ensures { (from ≤ result) × (result ≤ length lines.now) }
{
    let rest = &lines[from..];
    let more = rest.iter().position(|byte| *byte == b'\n');
    from + more.unwrap_or(rest.len())
}

// Each line as a text.
fn show_lines(
    rt: &HostRuntime,
    lines: &[u8],
    records: &mut [u8],
    values: &mut [u8],
) -> io::Result<()>
    requires { (length lines.now ≤ 32768) × ((65536 ≤ length records.old) × (65536 ≤ length values.old)) }
{
    // A while: a line begins behind the end of the one before it.
    let mut from: usize = 0;
    while from < lines.len() {
        let end = line_end(lines, from);
        show(rt, &lines[from..end], records, values)?;
        from = end + 1;
    }
    Ok(())
}

fn main(rt: HostRuntime) -> io::Result<()> {
    let mut records = [0u8; 65536];
    let mut values = [0u8; 65536];
    let mut lines = [0u8; 32768];
    show_bytes(&rt, &mut records, &mut values)?;
    show(&rt, &[b'\''; 32768], &mut records, &mut values)?;
    show(&rt, &[b'a'; 32], &mut records, &mut values)?;
    show(&rt, &[b'a'; 33], &mut records, &mut values)?;
    show(&rt, &[b';'; 8192], &mut records, &mut values)?;
    show(&rt, &[b';'; 8193], &mut records, &mut values)?;
    show(&rt, b"! no token \n1", &mut records, &mut values)?;
    let n = read_full(&mut rt.stdin(), &mut lines)?;
    show_lines(&rt, &lines[..n], &mut records, &mut values)
}
