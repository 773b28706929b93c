// While a list of stores is matched: for each entry, whether it is taken, and from NEXT on the next entry of its word; from GROUPS on two numbers for each open
// group, the floor with which a member begins and the greatest with which one has ended; the floor, the least bad entry, and how many groups are open; from
// FIRST on for each word the first of its entries that may not be taken.
pub const NEXT: usize = 4096;

pub const GROUPS: usize = 8192;

pub const FLOOR: usize = 9216;

pub const BAD: usize = FLOOR + 1;

pub const DEPTH: usize = FLOOR + 2;

pub const FIRST: usize = 10240;
