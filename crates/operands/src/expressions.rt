// Expressions, operands and accesses: an access with a subscript holds an expression, which holds accesses again. Only brackets nest, and `depth` falls
// with each; NOTs and operators in a row are loops.
ghost use Rattle.std.specs.Prelude.{◌≡◌, ◌+◌};
ghost use Rattle.rules.specs.Text.Tokens.{LBra, kind_no};
ghost use Rattle.records.specs.Holds.{kind_byte};
ghost use Rattle.operands.specs.Answers.{Closable, closed, Invertible, inverted};
ghost use Rattle.operands.specs.Scene.{ExpressionAt, ExpressionAnswer, OperandAt, OperandAnswer, AccessAt, AccessAnswer};
ghost use Rattle.operands.specs.Operands.{NestedAt};
ghost use Rattle.operands.specs.Expressions.{PairAt, PairAnswer, ChainAt, ChainAnswer};

use crate::accesses::{Field, Outside, in_word, read, subscripted};
use crate::operators::{NOTHING, Pending, Settled, settle, wait};
use nots::behind_nots;
use records::fields::{kind_at, size_at, value_at};
use rules::kinds::{CONST, LBRA, LPAR, NAME};
use table::operators::tightness_of;
use table::views::bits_size;
use values::operators::invert;
use values::{operate, operate_bits};

// A number, its length and the token behind what has it.
#[derive(Clone, Copy)]
pub struct Value {
    pub number: u64,
    pub bits: u32,
    pub next: usize,
}

// A value behind so many NOTs, of which two cancel.
fn negated(value: Value, nots: usize) -> Value
    requires { Invertible value }
    ensures { result ≡ inverted nots value }
{
    if nots % 2 == 0 {
        return value;
    }
    Value {
        number: invert(value.bits, value.number),
        ..value
    }
}

// What stands in parentheses, behind the closing one.
fn closed_by(value: Value) -> Value
    requires { Closable value }
    ensures { result ≡ closed value }
{
    Value {
        next: value.next + 1,
        ..value
    }
}

// An access.
#[cycle(access_chain_expression_indexed_nested_operand_pair)]
pub fn access(
    records: &[u8],
    values: &[u8],
    carriers: &[u8],
    i: usize,
    depth: usize,
) -> Result<Field, Outside>
    requires { AccessAt records.now values.now carriers.now i depth }
    ensures { (v : AccessAt records.now values.now carriers.now i depth) → AccessAnswer v result }
{
    if kind_at(records, i + 1) != LBRA {
        return Ok(in_word(values, i, 0, i + 1 + bits_size(records, i + 1)));
    }
    indexed(records, values, carriers, i, depth)
}

// An access with a subscript, which is worked out first.
#[cycle(access_chain_expression_indexed_nested_operand_pair)]
fn indexed(
    records: &[u8],
    values: &[u8],
    carriers: &[u8],
    i: usize,
    depth: usize,
) -> Result<Field, Outside>
    requires { AccessAt records.now values.now carriers.now i depth × (kind_byte records.now (i + 1) ≡ kind_no LBra) }
    ensures { (v : AccessAt records.now values.now carriers.now i depth) → AccessAnswer v result }
{
    let index = expression(records, values, carriers, i + 2, depth - 1)?;
    subscripted(records, values, i, index.number, index.next + 1)
}

// An operand. The common ones are constants and accesses.
#[cycle(access_chain_expression_indexed_nested_operand_pair)]
fn operand(
    records: &[u8],
    values: &[u8],
    carriers: &[u8],
    i: usize,
    depth: usize,
) -> Result<Value, Outside>
    requires { OperandAt records.now values.now carriers.now i depth }
    ensures { (v : OperandAt records.now values.now carriers.now i depth) → OperandAnswer v result }
{
    let kind = kind_at(records, i);
    if kind == NAME {
        let at = access(records, values, carriers, i, depth)?;
        return Ok(read(carriers, at));
    }
    if kind == CONST {
        return Ok(Value {
            number: value_at(values, i),
            bits: size_at(records, i),
            next: i + 1,
        });
    }
    nested(records, values, carriers, i, depth)
}

// An operand in parentheses, or behind NOTs: these are passed in a loop, and take effect behind it.
#[cycle(access_chain_expression_indexed_nested_operand_pair)]
fn nested(
    records: &[u8],
    values: &[u8],
    carriers: &[u8],
    i: usize,
    depth: usize,
) -> Result<Value, Outside>
    requires { NestedAt records.now values.now carriers.now i depth }
    ensures { (v : NestedAt records.now values.now carriers.now i depth) → OperandAnswer v.view result }
{
    if kind_at(records, i) == LPAR {
        let inside = expression(records, values, carriers, i + 1, depth - 1)?;
        return Ok(closed_by(inside));
    }
    let at = behind_nots(records, i);
    let bare = operand(records, values, carriers, at, depth)?;
    Ok(negated(bare, at - i))
}

// An expression. The common ones have one operand or two.
#[cycle(access_chain_expression_indexed_nested_operand_pair)]
pub fn expression(
    records: &[u8],
    values: &[u8],
    carriers: &[u8],
    i: usize,
    depth: usize,
) -> Result<Value, Outside>
    requires { ExpressionAt records.now values.now carriers.now i depth }
    ensures { (v : ExpressionAt records.now values.now carriers.now i depth) → ExpressionAnswer v result }
{
    let first = operand(records, values, carriers, i, depth)?;
    if tightness_of(kind_at(records, first.next)) == 0 {
        // Part by part: as a whole it would be loaded in other pieces than it was stored in, which makes a run wait.
        return Ok(Value {
            number: first.number,
            bits: first.bits,
            next: first.next,
        });
    }
    pair(records, values, carriers, first, depth)
}

// The operator behind its left operand: its right operand, and more of a chain.
#[cycle(access_chain_expression_indexed_nested_operand_pair)]
fn pair(
    records: &[u8],
    values: &[u8],
    carriers: &[u8],
    left: Value,
    depth: usize,
) -> Result<Value, Outside>
    requires { PairAt records.now values.now carriers.now left.number left.bits left.next depth }
    ensures { (v : PairAt records.now values.now carriers.now left.number left.bits left.next depth) → PairAnswer v result }
{
    let op = kind_at(records, left.next);
    let right = operand(records, values, carriers, left.next + 1, depth)?;
    if tightness_of(kind_at(records, right.next)) == 0 {
        return Ok(Value {
            number: operate(op, left.bits, left.number, right.bits, right.number),
            bits: operate_bits(op, left.bits, right.bits),
            next: right.next,
        });
    }
    chain(records, values, carriers, op, left, right, depth)
}

// A chain of more operators behind the right operand of `op`: each waits until one that binds no tighter, or the end, settles it. At most five wait,
// since each binds tighter than the one before. At first `op` waits, with its left operand.
#[cycle(access_chain_expression_indexed_nested_operand_pair)]
fn chain(
    records: &[u8],
    values: &[u8],
    carriers: &[u8],
    op: u8,
    left: Value,
    right: Value,
    depth: usize,
) -> Result<Value, Outside>
    requires { ChainAt records.now values.now carriers.now op left.number left.bits right.number right.bits right.next depth }
    ensures { (v : ChainAt records.now values.now carriers.now op left.number left.bits right.number right.bits right.next depth)
        → ChainAnswer v result }
{
    let first = Pending {
        op,
        number: left.number,
        bits: left.bits,
    };
    let mut pending = [first, NOTHING, NOTHING, NOTHING, NOTHING];
    let mut last = Settled {
        count: 1,
        number: right.number,
        bits: right.bits,
    };
    let mut at = right.next;
    // A loop: it takes an operator with its operand at a turn, up to a token that is no operator.
    loop {
        let kind = kind_at(records, at);
        let tight = tightness_of(kind);
        let settled = settle(&pending, last, tight);
        if tight == 0 {
            return Ok(Value {
                number: settled.number,
                bits: settled.bits,
                next: at,
            });
        }
        wait(&mut pending, settled, kind);
        let more = operand(records, values, carriers, at + 1, depth)?;
        last = Settled {
            count: settled.count + 1,
            number: more.number,
            bits: more.bits,
        };
        at = more.next;
    }
}
