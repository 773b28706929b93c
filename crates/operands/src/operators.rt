// Operators: how tightly they bind, and settling those that wait.
ghost use Rattle.std.specs.Prelude.{◌<◌};
ghost use Rattle.operands.specs.Settling.{SettleAt, Settles, Waited};

use table::operators::tightness_of;
use values::{operate, operate_bits};

// An operator that waits: its kind, and its left operand's number and length.
#[derive(Clone, Copy)]
pub struct Pending {
    pub op: u8,
    pub number: u64,
    pub bits: u32,
}

// What stands above those that wait.
pub const NOTHING: Pending = Pending {
    op: 0,
    number: 0,
    bits: 0,
};

// How many operators still wait, and the value of what is settled.
#[derive(Clone, Copy)]
pub struct Settled {
    pub count: usize,
    pub number: u64,
    pub bits: u32,
}

// Settles those of the waiting operators, the last first, that bind as tightly as `tight`.
pub fn settle(pending: &[Pending; 5], from: Settled, tight: u32) -> Settled
    requires { SettleAt pending.now from.count from.number from.bits tight }
    ensures { (v : SettleAt pending.now from.count from.number from.bits tight) → Settles v result.count result.number result.bits }
{
    let mut number = from.number;
    let mut bits = from.bits;
    for top in (0..from.count).rev() {
        let last = pending[top];
        if tightness_of(last.op) < tight {
            return Settled {
                count: top + 1,
                number,
                bits,
            };
        }
        number = operate(last.op, last.bits, last.number, bits, number);
        bits = operate_bits(last.op, last.bits, bits);
    }
    Settled {
        count: 0,
        number,
        bits,
    }
}

// An operator of the kind `op` waits behind the others, with its left operand.
pub fn wait(pending: &mut [Pending; 5], left: Settled, op: u8)
    requires { left.count < 5 }
    ensures { Waited pending.old left.count left.number left.bits op pending.new }
{
    pending[left.count] = Pending {
        op,
        number: left.number,
        bits: left.bits,
    };
}
