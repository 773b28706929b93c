// Expressions, tests and transfers of an accepted text, worked out over the carriers: a lent buffer with 8 bytes for each word.
#![tactic(auto)]

pub mod transfers;

ghost use Rattle.evaluation.specs.Tests.{TestAt, TestAnswer};

use operands::accesses::Outside;
use operands::expressions::{Value, expression};
use rules::limits::DEEPEST;

// The test of the IF or the DECODE at n.
pub fn test(records: &[u8], values: &[u8], carriers: &[u8], n: usize) -> Result<Value, Outside>
    requires { TestAt records.now values.now carriers.now n }
    ensures { (v : TestAt records.now values.now carriers.now n) → TestAnswer v result }
{
    expression(records, values, carriers, n + 1, DEEPEST)
}
