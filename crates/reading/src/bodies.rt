// Where the body of a declaration stands.
ghost use Rattle.std.specs.Prelude.{◌<◌};
ghost use Rattle.reading.specs.Reading.{Reading};
ghost use Rattle.reading.specs.Bodies.{Body};

use cells::get16;
use table::views::body_of;

// The BEGIN of the body of the declaration k.
pub fn body_at(records: &[u8], decls: &[u8], m: usize, n: usize, k: usize) -> Option<usize>
    requires { Reading records.now decls.now m n × (k < m) }
    ensures { (v : Reading records.now decls.now m n) → Body v k result }
{
    body_of(records, get16(decls, k) as usize)
}
