// Expressions, operands and accesses: an access with a subscript holds an expression, which holds accesses again. Only brackets nest, and `depth` falls
// with each; NOTs and operators in a row are loops.
ghost use Rattle.expressions.specs.Expressions.{ExpressionAt, ExpressionAnswer, OperandAt, OperandAnswer, AccessAt, AccessAnswer};

use accesses::Judged;
use accesses::names::named;
use keys::{NO_KEY, earlier};
use nots::behind_nots;
use records::fields::{kind_at, size_at};
use rules::kinds::{CONST, LBRA, LPAR};
use table::operators::tightness_of;
use weighing::operators::{Settled, settle};

// An access: faults of its subscript and of its name.
#[cycle(access_expression_operand)]
pub fn access(records: &[u8], values: &[u8], decls: &[u8], i: usize, depth: usize) -> Judged
    requires { AccessAt records.now values.now decls.now i depth }
    ensures { (v : AccessAt records.now values.now decls.now i depth) → AccessAnswer v result }
{
    if kind_at(records, i + 1) != LBRA {
        return named(records, values, decls, i, i + 1, false);
    }
    let index = expression(records, values, decls, i + 2, depth - 1);
    let name = named(records, values, decls, i, index.next + 1, true);
    let key = earlier(index.key, name.key);
    if key < NO_KEY {
        return Judged {
            key,
            bits: 0,
            next: name.next,
        };
    }
    Judged {
        key,
        bits: name.bits,
        next: name.next,
    }
}

// An operand. NOT changes neither its faults nor its length.
#[cycle(access_expression_operand)]
fn operand(records: &[u8], values: &[u8], decls: &[u8], i: usize, depth: usize) -> Judged
    requires { OperandAt records.now values.now decls.now i depth }
    ensures { (v : OperandAt records.now values.now decls.now i depth) → OperandAnswer v result }
{
    let at = behind_nots(records, i);
    let kind = kind_at(records, at);
    if kind == CONST {
        return Judged {
            key: NO_KEY,
            bits: size_at(records, at),
            next: at + 1,
        };
    }
    if kind == LPAR {
        let inner = expression(records, values, decls, at + 1, depth - 1);
        return Judged {
            key: inner.key,
            bits: inner.bits,
            next: inner.next + 1,
        };
    }
    access(records, values, decls, at, depth)
}

// An expression, from left to right: an operator waits until one that binds no tighter, or the end, settles it. At most five wait, since each binds
// tighter than the one before.
#[cycle(access_expression_operand)]
pub fn expression(records: &[u8], values: &[u8], decls: &[u8], i: usize, depth: usize) -> Judged
    requires { ExpressionAt records.now values.now decls.now i depth }
    ensures { (v : ExpressionAt records.now values.now decls.now i depth) → ExpressionAnswer v result }
{
    let mut ats = [0u32; 5];
    let mut keys = [0u32; 5];
    let mut lengths = [0u32; 5];
    let mut count = 0;
    let mut last = operand(records, values, decls, i, depth);
    loop {
        let at = last.next;
        let tight = tightness_of(kind_at(records, at));
        let from = Settled {
            count,
            key: last.key,
            bits: last.bits,
        };
        let left = settle(records, &ats, &keys, &lengths, from, tight);
        if tight == 0 {
            return Judged {
                key: left.key,
                bits: left.bits,
                next: at,
            };
        }
        let slot = left.count;
        ats[slot] = at as u32;
        keys[slot] = left.key;
        lengths[slot] = left.bits;
        count = slot + 1;
        last = operand(records, values, decls, at + 1, depth);
    }
}
