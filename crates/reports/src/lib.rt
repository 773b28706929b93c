// What is said of a list, as people read it.
#![tactic(auto)]

ghost use Rattle.std.specs.Prelude.{◌+◌, ◌≤◌, length};
ghost use Rattle.lines.specs.Appended.{Appended};
ghost use Rattle.reports.specs.Reports.{reason_bytes, refusal_bytes, unended_bytes, yes_bytes, short_bytes, head_bytes, bad_bytes, behind_bytes, no_place_bytes, no_word_bytes, unreadable_bytes};

use lines::answers::Answer;
use lines::bytes::put_bytes;
use lines::endings::put_labelled;
use lines::refusals::put_refused;
use lines::said::{put_place, put_said};

// The refusal of a list that is too long.
const BAD_LIST: u64 = 110;

fn put_reason(out: &mut [u8], at: usize, number: u64) -> usize
    requires { at + 64 ≤ length out.old }
    ensures { Appended out.old out.new at result (reason_bytes number) × (result ≤ at + 64) }
{
    if number == BAD_LIST {
        put_bytes(out, at, b": the list has more than 4,096 entries\n")
    } else {
        put_bytes(out, at, b": the text is not accepted\n")
    }
}

pub fn put_refusal(out: &mut [u8], a: Answer) -> usize
    requires { 512 ≤ length out.old }
    ensures { Appended out.old out.new 0 result (refusal_bytes a.line a.column a.number) × (result ≤ 512) }
{
    let next = put_refused(out, 0, a);
    put_reason(out, next, a.number)
}

// A run that faults or pauses.
pub fn put_unended(out: &mut [u8], a: Answer) -> usize
    requires { 512 ≤ length out.old }
    ensures { Appended out.old out.new 0 result (unended_bytes a.ending a.line a.column a.number a.steps) × (result ≤ 512) }
{
    let next = put_said(out, 0, a);
    put_bytes(
        out,
        next,
        b": a list is compared only with a run that is done or stopped\n",
    )
}

// A list that is so.
pub fn put_yes(out: &mut [u8], a: Answer) -> usize
    requires { 512 ≤ length out.old }
    ensures { Appended out.old out.new 0 result (yes_bytes a.ending a.line a.column a.number a.steps) × (result ≤ 512) }
{
    let second = put_bytes(out, 0, b"yes: ");
    let third = put_said(out, second, a);
    put_bytes(
        out,
        third,
        b", and an allowed order makes just these stores\n",
    )
}

// A list of n entries that ends too early.
pub fn put_short(out: &mut [u8], n: u64) -> usize
    requires { 512 ≤ length out.old }
    ensures { Appended out.old out.new 0 result (short_bytes n) × (result ≤ 512) }
{
    let next = put_labelled(out, 0, b"no: the list ends before entry ", n);
    put_bytes(
        out,
        next,
        b", and each allowed order that begins so stores more\n",
    )
}

// The entry n, whose transfer has this line and column.
fn put_head(out: &mut [u8], line: u64, column: u64, n: u64) -> usize
    requires { 512 ≤ length out.old }
    ensures { Appended out.old out.new 0 result (head_bytes line column n) × (result ≤ 128) }
{
    let next = put_place(out, 0, line, column);
    put_labelled(out, next, b": no: entry ", n)
}

// The same, up to the word that the entry names.
pub fn put_bad(out: &mut [u8], line: u64, column: u64, n: u64) -> usize
    requires { 512 ≤ length out.old }
    ensures { Appended out.old out.new 0 result (bad_bytes line column n) × (result ≤ 512) }
{
    let next = put_head(out, line, column, n);
    put_bytes(out, next, b" stores ")
}

// What is said behind the word.
pub fn put_behind(out: &mut [u8]) -> usize
    requires { 512 ≤ length out.old }
    ensures { Appended out.old out.new 0 result behind_bytes × (result ≤ 512) }
{
    put_bytes(
        out,
        0,
        b", and no allowed order does so behind the entries before it\n",
    )
}

// The entry n with a place behind the text.
pub fn put_no_place(out: &mut [u8], n: u64, place: u64) -> usize
    requires { 512 ≤ length out.old }
    ensures { Appended out.old out.new 0 result (no_place_bytes n place) × (result ≤ 512) }
{
    let second = put_labelled(out, 0, b"no: entry ", n);
    let third = put_labelled(out, second, b": the text has no place ", place);
    put_bytes(out, third, b"\n")
}

// The entry n with a word that is not declared.
pub fn put_no_word(out: &mut [u8], line: u64, column: u64, n: u64, word: u64) -> usize
    requires { 512 ≤ length out.old }
    ensures { Appended out.old out.new 0 result (no_word_bytes line column n word) × (result ≤ 512) }
{
    let second = put_head(out, line, column, n);
    let third = put_labelled(out, second, b": the description has no word ", word);
    put_bytes(out, third, b"\n")
}

// A line of the file that is no entry.
pub fn put_unreadable(out: &mut [u8], line: u64) -> usize
    requires { 512 ≤ length out.old }
    ensures { Appended out.old out.new 0 result (unreadable_bytes line) × (result ≤ 512) }
{
    let next = put_labelled(out, 0, b"line ", line);
    put_bytes(
        out,
        next,
        b" of the list is no entry: three decimals, PLACE WORD VALUE\n",
    )
}
