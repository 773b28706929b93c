// The turns of a list, one after another, from one budget for all.
ghost use Rattle.std.specs.Prelude.{◌≡◌, ◌*◌, ◌≤◌, length};
ghost use Rattle.pair_turns.specs.Turns.{Sides};
ghost use Rattle.pair_turns.specs.Taking.{well_ended, Took};

use crate::turns::turn;
use runner::runs::Ended;

// How the last turn ended, with the steps of all turns; and its side.
#[derive(Clone, Copy)]
pub struct Last {
    pub ended: Ended,
    pub side: u8,
}

// Turns that ended well, the last of them by a STOP() or not.
fn well(stopped: bool, steps: u32) -> Ended
    ensures { result ≡ well_ended stopped steps }
{
    if stopped {
        return Ended::Stopped(steps);
    }
    Ended::Done(steps)
}

// Takes the turns of the list. A fault or a pause ends them.
pub fn take(
    records0: &[u8],
    values0: &[u8],
    decls0: &[u8],
    begin0: usize,
    w0: usize,
    records1: &[u8],
    values1: &[u8],
    decls1: &[u8],
    begin1: usize,
    w1: usize,
    view: &[u8],
    carriers: &mut [u8],
    own: &mut [u8],
    scratch: &mut [u8],
    turns: &[u8],
    budget: u32,
) -> Last
    requires sides { Sides records0.now values0.now decls0.now begin0 w0 records1.now values1.now decls1.now begin1 w1 view.now
        (length carriers.old) }
    requires w1_in_bounds { (8 * w1 ≤ length own.old) × (512 ≤ length scratch.old) }
    ensures { (v : Sides records0.now values0.now decls0.now begin0 w0 records1.now values1.now
        decls1.now begin1 w1 view.now (length carriers.old))
        → Took v.first v.second turns.now budget carriers.old carriers.new result }
{
    let mut left = budget;
    let mut stopped = false;
    let mut side: u8 = 0;
    for &next in turns {
        side = next;
        match turn(
            records0, values0, decls0, begin0, w0, records1, values1, decls1, begin1, w1, view,
            carriers, own, scratch, side, left,
        ) {
            Ended::Paused(n) => {
                return Last {
                    ended: Ended::Paused(budget - left + n),
                    side,
                };
            }
            Ended::Fault {
                number,
                place,
                steps: n,
            } => {
                return Last {
                    ended: Ended::Fault {
                        number,
                        place,
                        steps: budget - left + n,
                    },
                    side,
                };
            }
            Ended::Done(n) => {
                left -= n;
                stopped = false;
            }
            Ended::Stopped(n) => {
                left -= n;
                stopped = true;
            }
        }
    }
    Last {
        ended: well(stopped, budget - left),
        side,
    }
}
