// The step of one instruction, whose stores are told.
ghost use Rattle.std.specs.Prelude.{◌≡◌, List, ℕ, ◌+◌, ◌*◌, ◌≤◌, length};
ghost use Rattle.rules.specs.Text.Tokens.{Name, LPar, kind_no};
ghost use Rattle.rules.specs.Limits.{most_words};
ghost use Rattle.rules.specs.Entries.{entries_in};
ghost use Rattle.records.specs.Holds.{kind_byte};
ghost use Rattle.stepping.specs.Steps.{StepAt};
ghost use Rattle.matching.specs.Room.{Sound};
ghost use Rattle.tracing.specs.Acts.{ActTold};

use records::fields::{kind_at, link_at};
use rules::kinds::{LPAR, NAME};
use stepping::steps::{Fault, Moved, step};
use storing::transfers::transfer;

// The transfer at n.
fn transfer_act(
    records: &[u8],
    values: &[u8],
    carriers: &mut [u8],
    scratch: &mut [u8],
    room: &mut [u8],
    entries: &[u8],
    n: usize,
) -> Result<Moved, Fault>
    requires { ((decls : List ℕ) × (StepAt records.now values.now decls carriers.old n × ((kind_byte records.now n ≡ kind_no Name) × (kind_byte records.now (n + 1) ≡ kind_no LPar → ⊥))))
        × ((512 ≤ length scratch.old) × ((length carriers.old ≤ 8 * most_words) × Sound (entries_in entries.now) room.old)) }
    ensures { (decls : List ℕ) (v : StepAt records.now values.now decls carriers.old n)
        → kind_byte records.now n ≡ kind_no Name → (kind_byte records.now (n + 1) ≡ kind_no LPar → ⊥)
        → ActTold v carriers.new (entries_in entries.now) room.old room.new result }
{
    transfer(records, values, carriers, scratch, room, entries, n)?;
    Ok(Moved::Go(link_at(records, n)))
}

// The instruction at n.
pub fn act(
    records: &[u8],
    values: &[u8],
    decls: &[u8],
    carriers: &mut [u8],
    scratch: &mut [u8],
    room: &mut [u8],
    entries: &[u8],
    n: usize,
) -> Result<Moved, Fault>
    requires { StepAt records.now values.now decls.now carriers.old n
        × ((512 ≤ length scratch.old) × ((length carriers.old ≤ 8 * most_words) × Sound (entries_in entries.now) room.old)) }
    ensures { (v : StepAt records.now values.now decls.now carriers.old n)
        → ActTold v carriers.new (entries_in entries.now) room.old room.new result }
{
    if kind_at(records, n) != NAME {
        return step(records, values, decls, carriers, scratch, n);
    }
    if kind_at(records, n + 1) == LPAR {
        return step(records, values, decls, carriers, scratch, n);
    }
    transfer_act(records, values, carriers, scratch, room, entries, n)
}
