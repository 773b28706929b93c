// Carrier arithmetic for numbers of any length to 64 bits: the operators of the rules, by the numbers of their kinds.
#![tactic(auto)]

pub mod fields;
pub mod operators;

ghost use Rattle.std.specs.Prelude.{◌≡◌, ◌≤◌};
ghost use Rattle.rules.specs.Values.{op_bits, op_number};
ghost use Rattle.values.specs.Operands.{Operands};
ghost use Rattle.values.specs.Operators.{op_at};

use operators::{add, alike, both, differ, either, join, subtract, truth};
use rules::kinds::{AND, AT, EQL, EQV, GTR, LEQ, LSS, MINUS, NEQ, OR, PLUS, XOR};

// The length of the result. An arm for each kind, as in `table::operators`.
pub fn operate_bits(op: u8, m: u32, n: u32) -> u32
    requires { (m ≤ 64) × (n ≤ 64) }
    ensures { result ≡ op_bits (op_at op) m n }
{
    let long = m.max(n);
    match op {
        AT => m + n,
        PLUS => long + 1,
        MINUS => long + 1,
        AND => long,
        EQV => long,
        OR => long,
        XOR => long,
        _ => 1,
    }
}

// The result of the operator on a, m bits long, and b, n bits long.
pub fn operate(op: u8, m: u32, a: u64, n: u32, b: u64) -> u64
    requires { Operands (op_at op) m a n b }
    ensures { result ≡ op_number (op_at op) m a n b }
{
    match op {
        AT => join(n, a, b),
        PLUS => add(a, b),
        MINUS => subtract(m.max(n) + 1, a, b),
        AND => both(a, b),
        EQV => alike(m.max(n), a, b),
        OR => either(a, b),
        XOR => differ(a, b),
        EQL => truth(a == b),
        NEQ => truth(a != b),
        LSS => truth(a < b),
        LEQ => truth(a <= b),
        GTR => truth(a > b),
        _ => truth(a >= b),
    }
}
