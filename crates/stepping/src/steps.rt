// One step: the instruction at n, without the stack of return addresses.
ghost use Rattle.std.specs.Prelude.{◌≡◌, List, ℕ, ◌+◌, ◌≤◌, length};
ghost use Rattle.rules.specs.Text.Tokens.{IF as If, DECODE as Decode, Name, LPar, kind_no};
ghost use Rattle.records.specs.Holds.{kind_byte};
ghost use Rattle.stepping.specs.Steps.{StepAt, StepAnswer};

use crate::choice::choose;
use cells::get16;
use evaluation::test;
use evaluation::transfers::transfer;
use operands::accesses::Outside;
use records::fields::{inside_at, kind_at, link_at, place16_at};
use rules::kinds::{DECODE, IF, LPAR, NAME, STOP};

// Where a step leads: by a link (0 for out of the body), into a body with the link behind the activation, or to a STOP.
#[derive(Clone, Copy)]
pub enum Moved {
    Go(usize),
    Call(usize, usize),
    Stop,
}

// A step that cannot be made: the number of the rule that it breaks, and the place where it does. Of two bytes each, they share no word with a `Moved` in a
// result, which would be stored in two pieces and loaded as one.
#[derive(Clone, Copy)]
pub struct Fault {
    pub number: u16,
    pub place: u16,
}

// A word that is none of its names.
impl From<Outside> for Fault {
    ghost from_gives = { λ o f. f ≡ record { number = 70; place = o.place } };

    fn from(outside: Outside) -> Fault {
        Fault {
            number: 70,
            place: outside.place,
        }
    }
}

// The IF at n acts when any bit of its test is 1.
fn if_step(records: &[u8], values: &[u8], carriers: &[u8], n: usize) -> Result<Moved, Fault>
    requires { (decls : List ℕ) × (StepAt records.now values.now decls carriers.now n × (kind_byte records.now n ≡ kind_no If)) }
    ensures { (decls : List ℕ) (v : StepAt records.now values.now decls carriers.now n)
        → kind_byte records.now n ≡ kind_no If → StepAnswer v carriers.now result }
{
    let tested = test(records, values, carriers, n)?;
    if tested.number == 0 {
        return Ok(Moved::Go(link_at(records, n)));
    }
    Ok(Moved::Go(inside_at(records, n)))
}

// The DECODE at n acts by the first alternative that takes its value.
fn decode_step(records: &[u8], values: &[u8], carriers: &[u8], n: usize) -> Result<Moved, Fault>
    requires { (decls : List ℕ) × (StepAt records.now values.now decls carriers.now n × (kind_byte records.now n ≡ kind_no Decode)) }
    ensures { (decls : List ℕ) (v : StepAt records.now values.now decls carriers.now n)
        → kind_byte records.now n ≡ kind_no Decode → StepAnswer v carriers.now result }
{
    let tested = test(records, values, carriers, n)?;
    match choose(records, values, tested.next + 1, tested.number) {
        Some(chosen) => Ok(Moved::Go(chosen)),
        None => Err(Fault {
            number: 71,
            place: place16_at(records, n),
        }),
    }
}

// The activation at n.
fn call_step(records: &[u8], decls: &[u8], n: usize) -> Result<Moved, Fault>
    requires { (values : List ℕ) × ((carriers : List ℕ) × (StepAt records.now values decls.now carriers n
        × ((kind_byte records.now n ≡ kind_no Name) × (kind_byte records.now (n + 1) ≡ kind_no LPar)))) }
    ensures { (values carriers : List ℕ) (v : StepAt records.now values decls.now carriers n)
        → kind_byte records.now n ≡ kind_no Name → kind_byte records.now (n + 1) ≡ kind_no LPar → StepAnswer v carriers result }
{
    let body = get16(decls, inside_at(records, n)) as usize;
    let first = link_at(records, body);
    Ok(Moved::Call(first, link_at(records, n)))
}

// The transfer at n.
fn transfer_step(
    records: &[u8],
    values: &[u8],
    carriers: &mut [u8],
    scratch: &mut [u8],
    n: usize,
) -> Result<Moved, Fault>
    requires { (decls : List ℕ) × (StepAt records.now values.now decls carriers.old n
        × ((kind_byte records.now n ≡ kind_no Name) × ((kind_byte records.now (n + 1) ≡ kind_no LPar → ⊥) × (512 ≤ length scratch.old)))) }
    ensures { (decls : List ℕ) (v : StepAt records.now values.now decls carriers.old n)
        → kind_byte records.now n ≡ kind_no Name → (kind_byte records.now (n + 1) ≡ kind_no LPar → ⊥) → StepAnswer v carriers.new result }
{
    transfer(records, values, carriers, scratch, n)?;
    Ok(Moved::Go(link_at(records, n)))
}

// The step of the instruction at n.
pub fn step(
    records: &[u8],
    values: &[u8],
    decls: &[u8],
    carriers: &mut [u8],
    scratch: &mut [u8],
    n: usize,
) -> Result<Moved, Fault>
    requires { StepAt records.now values.now decls.now carriers.old n × (512 ≤ length scratch.old) }
    ensures { (v : StepAt records.now values.now decls.now carriers.old n)
        → StepAnswer v carriers.new result }
{
    let kind = kind_at(records, n);
    if kind == NAME {
        if kind_at(records, n + 1) == LPAR {
            return call_step(records, decls, n);
        }
        return transfer_step(records, values, carriers, scratch, n);
    }
    if kind == IF {
        return if_step(records, values, carriers, n);
    }
    if kind == DECODE {
        return decode_step(records, values, carriers, n);
    }
    if kind == STOP {
        return Ok(Moved::Stop);
    }
    Ok(Moved::Go(link_at(records, n)))
}
