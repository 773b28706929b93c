// The cursor that walks a text: offset, line and column move together.
ghost use Rattle.std.specs.Prelude.{◌≡◌};
ghost use Rattle.rules.specs.Positions.{origin};
ghost use Rattle.positions.specs.Cursors.{cursor, onward, Near};

const LINE_END: u8 = 10;

// Lines and columns are counted from here.
const FIRST: u32 = 1;

#[derive(Clone, Copy)]
pub struct Cursor {
    pub offset: usize,
    pub line: u32,
    pub column: u32,
}

// Where a text begins.
pub fn start() -> Cursor
    ensures { result ≡ cursor 0 origin }
{
    Cursor {
        offset: 0,
        line: FIRST,
        column: FIRST,
    }
}

// The cursor behind one byte more.
fn moved(c: Cursor, byte: u8) -> Cursor
    requires { Near c }
    ensures { result ≡ onward byte c }
{
    if byte == LINE_END {
        return Cursor {
            offset: c.offset + 1,
            line: c.line + 1,
            column: FIRST,
        };
    }
    Cursor {
        offset: c.offset + 1,
        line: c.line,
        column: c.column + 1,
    }
}

// Moves a lent cursor by one byte.
fn advance(c: &mut Cursor, byte: u8)
    requires { Near c.old }
    ensures { c.new ≡ onward byte c.old }
{
    *c = moved(*c, byte);
}

// The same by value: the one place that lends a cursor.
pub fn advanced(c: Cursor, byte: u8) -> Cursor
    requires { Near c }
    ensures { result ≡ onward byte c }
{
    let mut here = c;
    advance(&mut here, byte);
    here
}
