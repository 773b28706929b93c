// All bodies of a description, one after the other: the least fault of the 40s.
ghost use Rattle.std.specs.Prelude.{◌≡◌, List, ℕ, length};
ghost use Rattle.keys.specs.Keys.{least_key};
ghost use Rattle.bodies.specs.Bodies.{BodyView, faults_of_body, BodiesView, faults_of_bodies};

use actions::action;
use cells::get16;
use keys::{NO_KEY, earlier};
use plain::labels::labels_fault;
use rules::limits::DEEPEST;
use stacks::push;
use table::views::body_of;

// The body of the declaration whose name is the token i: its action under that name, and its labels against each other.
fn body_fault(records: &[u8], values: &[u8], decls: &[u8], room: &mut [u8], i: usize) -> u32
    requires { (text : List ℕ) × BodyView text records.now values.now decls.now room.old i }
    ensures answer { (text : List ℕ) (v : BodyView text records.now values.now decls.now room.old i)
        → result ≡ least_key (faults_of_body v) }
    ensures long { length room.new ≡ length room.old }
{
    let Some(begin) = body_of(records, i) else {
        return NO_KEY;
    };
    push(records, room, 0, i);
    let inside = action(records, values, decls, room, begin, 1, DEEPEST);
    let labels = labels_fault(records, room, begin, inside.next);
    earlier(inside.key, labels)
}

// The least fault of the m declarations' bodies.
pub fn fault40(records: &[u8], values: &[u8], decls: &[u8], room: &mut [u8], m: usize) -> u32
    requires { (text : List ℕ) × BodiesView text records.now values.now decls.now room.old m }
    ensures answer { (text : List ℕ) (v : BodiesView text records.now values.now decls.now room.old m)
        → result ≡ least_key (faults_of_bodies v) }
    ensures long { length room.new ≡ length room.old }
{
    let mut key = NO_KEY;
    for k in 0..m {
        let name = get16(decls, k) as usize;
        key = earlier(key, body_fault(records, values, decls, room, name));
    }
    key
}
