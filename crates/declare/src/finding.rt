// Where the declarations stand: one walk over the tokens, which passes over bodies by counting brackets.
ghost use Rattle.std.specs.Prelude.{◌≡◌, List, ℕ, ◌*◌, ◌<◌, ◌≤◌, length};
ghost use Rattle.rules.specs.Text.Tokens.{Kind, kind_no};
ghost use Rattle.rules.specs.Limits.{most_tokens};
ghost use Rattle.rules.specs.Grammar.Trees.{no_heading};
ghost use Rattle.rules.specs.Grammar.Verdict.{count};
ghost use Rattle.table.specs.Declarations.{declaration_list};
ghost use Rattle.declare.specs.Skipping.{ends};
ghost use Rattle.declare.specs.Finding.{Described, Begins, Named, Follow, Beginning, Naming, Found};

use cells::put16;
use records::fields::kind_at;
use rules::kinds::{BEGIN, COMMA, END, LBRA, LPAR, MAIN, RBRA, RPAR, STARS};

// Whether a declaration ends before a token, with so many of its brackets open.
fn ends_here(depth: usize, kind: u8) -> bool
    ensures { (k : Kind) → kind ≡ kind_no k → result ≡ ends depth k }
{
    if 0 < depth {
        return false;
    }
    match kind {
        RPAR | RBRA | COMMA | END => true,
        _ => false,
    }
}

// How many brackets are open behind a token.
fn depth_behind(depth: usize, kind: u8) -> usize
    requires { depth < most_tokens }
    ensures { (k : Kind) → kind ≡ kind_no k → result ≡ count depth k }
{
    match kind {
        LPAR | LBRA | BEGIN => depth + 1,
        RPAR | RBRA | END => {
            if depth == 0 {
                return 0;
            }
            depth - 1
        }
        _ => depth,
    }
}

// The number of the first token behind the declaration whose name is the token p.
fn end_of(records: &[u8], p: usize) -> usize
    requires { Naming records.now p }
    ensures { (v : Naming records.now p) → Follow v.tokens result v.following }
{
    // A loop: the end is found by the brackets, and one always comes.
    let mut i = p;
    let mut depth: usize = 0;
    loop {
        let kind = kind_at(records, i);
        if ends_here(depth, kind) {
            return i;
        }
        depth = depth_behind(depth, kind);
        i += 1;
    }
}

// Where the declaration that begins with the token i goes on behind its heading.
fn behind_heading(records: &[u8], i: usize) -> usize
    requires { Beginning records.now i }
    ensures { (v : Beginning records.now i) → Begins v.tokens result no_heading v.declaration v.following }
{
    if kind_at(records, i) == STARS {
        return i + 3;
    }
    i
}

// The number of the name of the declaration that begins with the token i.
fn name_from(records: &[u8], i: usize) -> usize
    requires { Beginning records.now i }
    ensures { (v : Beginning records.now i) → Named v.tokens result v.declaration v.following }
{
    let at = behind_heading(records, i);
    if kind_at(records, at) == MAIN {
        return at + 1;
    }
    at
}

// Writes the number of each declaration's name, in their order, and returns how many there are.
pub fn find(records: &[u8], decls: &mut [u8]) -> usize
    requires by_index { (text : List ℕ) × (values : List ℕ) × (n : ℕ) × Described text records.now values n }
    requires most_tokens_in_bounds { 2 * most_tokens ≤ length decls.old }
    ensures { (text values : List ℕ) (n : ℕ) (v : Described text records.now values n)
        → Found v.tokens (declaration_list v.description) decls.old decls.new result }
{
    // A loop: the last declaration is the one that an END follows.
    let mut i: usize = 3;
    let mut m: usize = 0;
    loop {
        let p = name_from(records, i);
        put16(decls, m, p as u16);
        m += 1;
        let e = end_of(records, p);
        if kind_at(records, e) == END {
            return m;
        }
        i = e + 1;
    }
}
