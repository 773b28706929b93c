// The public calls.
#![tactic(auto)]

ghost use Rattle.rules.specs.Calls.Memory.{memory};
ghost use Rattle.rules.specs.Calls.Check.{CheckCall};
ghost use Rattle.rules.specs.Calls.Why.{WhyCall};
ghost use Rattle.rules.specs.Calls.Run.{RunCall};
ghost use Rattle.rules.specs.Calls.Profile.{ProfileCall};
ghost use Rattle.rules.specs.Calls.Keep.{StoreCall, LoadCall};
ghost use Rattle.rules.specs.Calls.Bound.{BoundCall};
ghost use Rattle.rules.specs.Calls.Trace.{TraceCall};

// Check: judges a text. Returns the number of the answer, which stands in `answer` unless it is 1 or 2.
pub fn isps_check(text: &[u8], a: &mut [u8], b: &mut [u8], c: &mut [u8], answer: &mut [u8]) -> u32
    ensures { CheckCall text.now (memory a.old b.old c.old answer.old)
        (memory a.new b.new c.new answer.new) result }
{
    checking::check(text, a, b, c, answer)
}

// Why: judges a text as Check does, and says why it is refused. The reason stands in front of `reason` unless the number is 1 or 2.
pub fn isps_why(
    text: &[u8],
    a: &mut [u8],
    b: &mut [u8],
    c: &mut [u8],
    reason: &mut [u8],
    answer: &mut [u8],
) -> u32
    ensures { WhyCall text.now (memory a.old b.old c.old answer.old)
        (memory a.new b.new c.new answer.new) reason.old reason.new result }
{
    reporting::why(text, a, b, c, reason, answer)
}

// Run: reads a text afresh and runs it from the carriers, left to right, with a budget of steps.
pub fn isps_run(
    text: &[u8],
    carriers: &mut [u8],
    budget: u32,
    a: &mut [u8],
    b: &mut [u8],
    c: &mut [u8],
    answer: &mut [u8],
) -> u32
    ensures { RunCall text.now carriers.old budget (memory a.old b.old c.old answer.old)
        (memory a.new b.new c.new answer.new) carriers.new result }
{
    running::run(text, carriers, budget, a, b, c, answer)
}

// The resume profile: whether some path of a text writes the output before one activation of the test has ended, by the names of both.
pub fn isps_profile(
    text: &[u8],
    test: &[u8],
    output: &[u8],
    a: &mut [u8],
    b: &mut [u8],
    c: &mut [u8],
    answer: &mut [u8],
) -> u32
    ensures { ProfileCall text.now test.now output.now (memory a.old b.old c.old answer.old)
        (memory a.new b.new c.new answer.new) result }
{
    resuming::profile(text, test, output, a, b, c, answer)
}

// Store: writes the image of the carriers of a text.
pub fn isps_store(
    text: &[u8],
    carriers: &[u8],
    image: &mut [u8],
    a: &mut [u8],
    b: &mut [u8],
    c: &mut [u8],
    answer: &mut [u8],
) -> u32
    ensures { StoreCall text.now carriers.now image.old (memory a.old b.old c.old answer.old)
        (memory a.new b.new c.new answer.new) image.new result }
{
    keeping::store(text, carriers, image, a, b, c, answer)
}

// Load: takes the carriers of a text from their image.
pub fn isps_load(
    text: &[u8],
    image: &[u8],
    carriers: &mut [u8],
    a: &mut [u8],
    b: &mut [u8],
    c: &mut [u8],
    answer: &mut [u8],
) -> u32
    ensures { LoadCall text.now image.now carriers.old (memory a.old b.old c.old answer.old)
        (memory a.new b.new c.new answer.new) carriers.new result }
{
    keeping::load(text, image, carriers, a, b, c, answer)
}

// Bound: how many steps a run of a text can take at most, from any carriers.
pub fn isps_bound(text: &[u8], a: &mut [u8], b: &mut [u8], c: &mut [u8], answer: &mut [u8]) -> u32
    ensures { BoundCall text.now (memory a.old b.old c.old answer.old)
        (memory a.new b.new c.new answer.new) result }
{
    lasting::bound(text, a, b, c, answer)
}

// Trace: compares a designer's list of stores with the runs of a text.
pub fn isps_trace(
    text: &[u8],
    carriers: &[u8],
    budget: u32,
    entries: &[u8],
    a: &mut [u8],
    b: &mut [u8],
    c: &mut [u8],
    d: &mut [u8],
    answer: &mut [u8],
) -> u32
    ensures { TraceCall text.now carriers.now budget entries.now (memory a.old b.old c.old answer.old)
        (memory a.new b.new c.new answer.new) d.old d.new result }
{
    comparing::trace(text, carriers, budget, entries, a, b, c, d, answer)
}
