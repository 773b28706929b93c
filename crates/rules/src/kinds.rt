// The kinds of tokens by their numbers, as `kind_no` of the rules has them.

pub const NAME: u8 = 0;

pub const CONST: u8 = 1;

pub const MASKED: u8 = 2;

pub const LPAR: u8 = 3;

pub const RPAR: u8 = 4;

pub const LBRA: u8 = 5;

pub const RBRA: u8 = 6;

pub const LESS: u8 = 7;

pub const GREATER: u8 = 8;

pub const COMMA: u8 = 9;

pub const SEMI: u8 = 10;

pub const COLON: u8 = 11;

pub const BECOMES: u8 = 12;

pub const EQUALS: u8 = 13;

pub const ARROW: u8 = 14;

pub const AT: u8 = 15;

pub const PLUS: u8 = 16;

pub const MINUS: u8 = 17;

pub const STARS: u8 = 18;

pub const BEGIN: u8 = 19;

pub const END: u8 = 20;

pub const NEXT: u8 = 21;

pub const IF: u8 = 22;

pub const DECODE: u8 = 23;

pub const OTHERWISE: u8 = 24;

pub const REPEAT: u8 = 25;

pub const LEAVE: u8 = 26;

pub const RESTART: u8 = 27;

pub const MAIN: u8 = 28;

pub const STOP: u8 = 29;

pub const NO_OP: u8 = 30;

pub const NOT: u8 = 31;

pub const AND: u8 = 32;

pub const EQV: u8 = 33;

pub const OR: u8 = 34;

pub const XOR: u8 = 35;

pub const EQL: u8 = 36;

pub const NEQ: u8 = 37;

pub const LSS: u8 = 38;

pub const LEQ: u8 = 39;

pub const GTR: u8 = 40;

pub const GEQ: u8 = 41;

// No kind: above every kind there may be.
pub const NO_KIND: u8 = 255;
