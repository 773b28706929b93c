// Operators by their kinds: how tightly they bind.
ghost use Rattle.std.specs.Prelude.{◌≡◌};
ghost use Rattle.table.specs.Operators.{tightness_at};

use rules::kinds::{AND, AT, EQL, EQV, GEQ, GTR, LEQ, LSS, MINUS, NEQ, OR, PLUS, XOR};

// How tightly the operator of this kind binds; 0 for a kind that is no operator.
// A number also for those: it is below every operator's, so the end of an expression settles all that wait. An arm for each kind, since
// neighbours in one pattern are compared as a range.
pub fn tightness_of(kind: u8) -> u32
    ensures { result ≡ tightness_at kind }
{
    match kind {
        AT => 5,
        PLUS => 4,
        MINUS => 4,
        EQL => 3,
        NEQ => 3,
        LSS => 3,
        LEQ => 3,
        GTR => 3,
        GEQ => 3,
        AND => 2,
        EQV => 2,
        OR => 1,
        XOR => 1,
        _ => 0,
    }
}
