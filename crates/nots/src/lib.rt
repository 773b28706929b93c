// An operand behind its NOTs.
#![tactic(auto)]

ghost use Rattle.nots.specs.Nots.{OperandIn, Bared};

use records::fields::kind_at;
use rules::kinds::NOT;

// The first token of the operand i that is no NOT.
pub fn behind_nots(records: &[u8], i: usize) -> usize
    requires { OperandIn records.now i }
    ensures { (v : OperandIn records.now i) → Bared v result }
{
    let mut at = i;
    while kind_at(records, at) == NOT {
        at += 1;
    }
    at
}
