// What two members share in conflict.
#![tactic(auto)]

ghost use Rattle.std.specs.Prelude.{◌≡◌, ◌<◌, ◌≤◌};
ghost use Rattle.std.proofs.Math.Option.{some};
ghost use Rattle.std.proofs.Math.ListN.{get_elem?};
ghost use Rattle.rules.specs.Declarations.{Declared};
ghost use Rattle.rules.specs.Whole.Sets.{Sets};
ghost use Rattle.reading.specs.Reading.{Reading, table_of};
ghost use Rattle.whole.specs.GroupKeys.{Holding};
ghost use Rattle.rules.specs.Reasons.{conflict, writers};
ghost use Rattle.sharing.specs.Shared.{Shared};

use cells::get16;
use gathering::memory::Touched;
use reading::bits::has;
use records::fields::place_at;

// Whether both touch the carrier k and one of them writes it.
fn conflicts(u: Touched, t: Touched, k: usize) -> bool
    requires { k < 256 }
    ensures { (a b : Sets) → Holding u.reads.w u.writes.w a → Holding t.reads.w t.writes.w b → result ≡ conflict a b k }
{
    let r = u.reads;
    let w = u.writes;
    let s = t.reads;
    let v = t.writes;
    if has(w, k) {
        if has(s, k) {
            return true;
        }
        return has(v, k);
    }
    if has(v, k) {
        return has(r, k);
    }
    false
}

// The first of m carriers that they share in conflict, or m.
pub fn first_conflict(u: Touched, t: Touched, m: usize) -> usize
    requires { m ≤ 256 }
    ensures { Shared u.reads.w u.writes.w t.reads.w t.writes.w m result }
{
    for k in 0..m {
        if conflicts(u, t, k) {
            return k;
        }
    }
    m
}

// Who writes the carrier k: 1 the first, 2 the second, 3 both.
pub fn writers(u: Touched, t: Touched, k: usize) -> u32
    requires { k < 256 }
    ensures { (a b : Sets) → Holding u.reads.w u.writes.w a → Holding t.reads.w t.writes.w b → result ≡ writers a b k }
{
    let first = u.writes;
    let second = t.writes;
    if has(first, k) {
        if has(second, k) {
            return 3;
        }
        return 1;
    }
    if has(second, k) {
        return 2;
    }
    0
}

// The place of the name of the declaration k.
pub fn name_place(records: &[u8], decls: &[u8], m: usize, n: usize, k: usize) -> usize
    requires { Reading records.now decls.now m n × (k < m) }
    ensures { (result ≤ 32768) × ((v : Reading records.now decls.now m n) (d : Declared) → get_elem? (table_of v) k ≡ some d → result ≡ d.name.place) }
{
    place_at(records, get16(decls, k) as usize)
}
