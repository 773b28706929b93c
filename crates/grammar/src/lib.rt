// The grammar's recogniser: refusals 20 and 21, by one move a token over a stack of states.
#![tactic(auto)]

mod rows;

ghost use Rattle.std.specs.Prelude.{◌≡◌, ◌<◌};
ghost use Rattle.laws_grammar.specs.Cited.Rows.{State, row, lookup};
ghost use Rattle.grammar.specs.Places.{place};
ghost use Rattle.grammar.specs.Entries.{kind_count, Ruled, next_of};
ghost use Rattle.records.specs.Holds.{kind_byte};
ghost use Rattle.grammar.specs.Records.{Records, Answers};
ghost use Rattle.laws_grammar.specs.Cited.Kinds.{kind_at};

use records::fields::kind_at;
use rows::{Entries, TABLE, TITLE};
use rules::limits::DEEPEST;

// Why tokens are no description's, with the number of the token at which it shows: that of the end is how many there are.
#[derive(Clone, Copy, PartialEq, Eq)]
pub enum Misplaced {
    // It may not stand there: refusal 20.
    Unexpected(usize),
    // It would stand within more brackets than there may be: refusal 21.
    TooDeep(usize),
}

// What a state does with a token: nothing, on to a state, into a bracket (the state in it, the state behind it), out of a bracket.
#[derive(Clone, Copy)]
enum Next {
    Nowhere,
    On(usize),
    Into(usize, usize),
    Out,
}

fn wide8(x: u8) -> usize
    ensures { result ≡ x }
{
    x as usize
}

fn wide32(x: u32) -> usize
    ensures { result ≡ x }
{
    x as usize
}

// The kind's number of token i, one of n.
fn kind_of(records: &[u8], i: usize, n: usize) -> usize
    requires records { Records records.now n }
    requires i_lt_n { i < n }
    ensures { result ≡ kind_byte records.now i }
{
    wide8(kind_at(records, i))
}

// The move of the state at a place: an entry that names another kind is another row's.
fn moved(table: &Entries, state: usize, kind: usize) -> Next
    requires ruled { Ruled table.now }
    requires s_value { (s : State) × place s ≡ state }
    requires kind_lt_kind_count { kind < kind_count }
    ensures { (s : State) → place s ≡ state → result ≡ next_of (lookup (row s) (kind_at kind)) }
{
    let entry = wide32(table[state + kind]);
    if entry % 64 != kind {
        return Next::Nowhere;
    }
    let to = entry / 64;
    let inner = to % 2048;
    let outer = to / 2048;
    if inner == 0 {
        return Next::Out;
    }
    if outer == 0 {
        return Next::On(inner);
    }
    Next::Into(inner, outer)
}

// The stack holds the places of the states, the innermost last, and each token moves the innermost.
fn walk(table: &Entries, records: &[u8], n: usize) -> Result<(), Misplaced>
    requires ruled { Ruled table.now }
    requires records { Records records.now n }
    ensures { Answers records.now n result }
{
    let mut stack = [TITLE; DEEPEST];
    let mut states: usize = 1;
    for at in 0..n {
        if states == 0 {
            return Err(Misplaced::Unexpected(at));
        }
        let top = states - 1;
        let next = moved(table, stack[top], kind_of(records, at, n));
        match next {
            Next::Nowhere => return Err(Misplaced::Unexpected(at)),
            Next::On(inner) => {
                stack[top] = inner;
                continue;
            }
            Next::Into(inner, outer) => {
                if states == DEEPEST {
                    return Err(Misplaced::TooDeep(at));
                }
                stack[top] = outer;
                stack[states] = inner;
                states += 1;
                continue;
            }
            Next::Out => {
                states = top;
                continue;
            }
        }
    }
    if states != 0 {
        return Err(Misplaced::Unexpected(n));
    }
    Ok(())
}

// The answer on the n tokens whose records these are, eight bytes each: the first is the number of the token's kind.
// The table is taken once, since each use of a constant array builds it on the stack anew.
pub fn recognise(records: &[u8], n: usize) -> Result<(), Misplaced>
    requires { Records records.now n }
    ensures { Answers records.now n result }
{
    let table = TABLE;
    walk(&table, records, n)
}
