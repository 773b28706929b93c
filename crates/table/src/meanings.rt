// What the record of a name has in place of a declaration's number.

// It is the outer name and not declared.
pub const OUTER_ONLY: u16 = 65534;

pub const UNKNOWN: u16 = 65535;
