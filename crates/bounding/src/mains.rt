// The count of MAIN.
ghost use Rattle.std.specs.Prelude.{◌≤◌, length};
ghost use Rattle.walking.specs.Walking.{table_size};
ghost use Rattle.bounding.specs.Filling.{Ready, Fillable};
ghost use Rattle.bounding.specs.Mains.{Longest};

use crate::filling::{blank, fill};
use cells::get64;
use links::mains::main_name;
use reading::names::index_of;
use rules::limits::LONGEST_CHAIN;

// MAIN is filled in, and with it all that it reaches.
fn main_count(
    records: &[u8],
    decls: &[u8],
    table: &mut [u8],
    room: &mut [u8],
    m: usize,
    n: usize,
) -> u64
    requires { Fillable records.now decls.now table.old room.old m n }
    ensures { Longest records.now decls.now m n result }
{
    let name = main_name(records, decls, m);
    fill(records, decls, table, room, m, n, name, LONGEST_CHAIN);
    let k = index_of(records, m, name);
    get64(table, k)
}

// What MAIN costs, cut at ENDLESS. The table may hold anything before and afterwards.
pub fn longest(records: &[u8], decls: &[u8], table: &mut [u8], m: usize, n: usize) -> u64
    requires { Ready records.now decls.now m n × (table_size ≤ length table.old) }
    ensures { Longest records.now decls.now m n result }
{
    let mut room: [u8; 512] = [0; 512];
    blank(table);
    main_count(records, decls, table, &mut room, m, n)
}
