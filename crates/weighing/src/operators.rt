// Operators: how tightly they bind, what they make of their operands, and those that wait.
ghost use Rattle.std.specs.Prelude.{◌≡◌, ◌≤◌};
ghost use Rattle.rules.specs.Text.Tokens.{Info, Op, op_kind, kind_no};
ghost use Rattle.rules.specs.Grammar.Precedence.{Factor};
ghost use Rattle.rules.specs.Faults.Bodies as rules;
ghost use Rattle.weighing.specs.Weights.{Weighs, operated};
ghost use Rattle.weighing.specs.Settling.{SettleAt, Settles};

use crate::Weight;
use keys::{NO_KEY, earlier, fault_key};
use records::fields::{kind_at, place_at};
use rules::limits::MOST_BITS;
use table::operators::tightness_of;
use values::operate_bits;

// How many operators still wait, and the weight of what is settled.
#[derive(Clone, Copy)]
pub struct Settled {
    pub count: usize,
    pub key: u32,
    pub bits: u32,
}

// An operator and its operands: 43 at its place where both are sound and the result is over 64 bits.
pub fn combined(op: u8, place: usize, left: Weight, right: Weight) -> Weight
    requires { (left.bits ≤ 64) × (right.bits ≤ 64) × (place ≤ 32768) }
    ensures { (o : Op) (i : Info) (a b : rules.Judged) → op ≡ kind_no (op_kind o) → place ≡ i.place
        → Weighs left.key left.bits a → Weighs right.key right.bits b → Weighs result.key result.bits (operated o i a b) }
{
    let key = earlier(left.key, right.key);
    if key < NO_KEY {
        return Weight { key, bits: 0 };
    }
    let bits = operate_bits(op, left.bits, right.bits);
    if MOST_BITS < bits as u64 {
        return Weight {
            key: fault_key(43, place),
            bits: 0,
        };
    }
    Weight { key, bits }
}

// Settles those of the waiting operators, the last first, that bind as tightly as `tight`; each has its token, and the key and length of its left operand.
pub fn settle(
    records: &[u8],
    ats: &[u32; 5],
    keys: &[u32; 5],
    lengths: &[u32; 5],
    from: Settled,
    tight: u32,
) -> Settled
    requires { SettleAt records.now ats.now keys.now lengths.now from.count from.key from.bits }
    ensures { (v : SettleAt records.now ats.now keys.now lengths.now from.count from.key from.bits)
        (operand : Factor → rules.Judged) → Settles operand tight v.waits v.value result.count result.key result.bits }
{
    let mut key = from.key;
    let mut bits = from.bits;
    for top in (0..from.count).rev() {
        let at = ats[top] as usize;
        let op = kind_at(records, at);
        if tightness_of(op) < tight {
            return Settled {
                count: top + 1,
                key,
                bits,
            };
        }
        let left = Weight {
            key: keys[top],
            bits: lengths[top],
        };
        let both = combined(op, place_at(records, at), left, Weight { key, bits });
        key = both.key;
        bits = both.bits;
    }
    Settled {
        count: 0,
        key,
        bits,
    }
}
