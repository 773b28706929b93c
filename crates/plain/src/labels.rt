// The labels of a body, against each other and against what is declared.
ghost use Rattle.std.specs.Prelude.{◌≡◌, List, ℕ, ◌+◌, ◌*◌, ◌≤◌, length};
ghost use Rattle.keys.specs.Keys.{least_key};
ghost use Rattle.room.specs.Bodies.{index_end};
ghost use Rattle.plain.specs.Labels.{label_at, LabelView, label_fault, LabelsView, all_label_faults};

use keys::{NO_KEY, earlier, fault_key};
use records::fields::{inside16_at, kind_at, place_at};
use rules::kinds::{BECOMES, NAME};
use stacks::{is_stacked, push};
use table::meanings::UNKNOWN;

// Whether the token i is a label: a name with `:=` behind it.
pub fn is_label(records: &[u8], i: usize) -> bool
    requires { 8 * (i + 1) + 8 ≤ length records.now }
    ensures { result ≡ label_at records.now i }
{
    (kind_at(records, i) == NAME) & (kind_at(records, i + 1) == BECOMES)
}

// 44 for the label i, where it is declared, the outer name, or one of the `count` labels before it.
fn label_fault(records: &[u8], room: &[u8], count: usize, i: usize) -> u32
    requires { (text : List ℕ) × (values : List ℕ) × (decls : List ℕ) × LabelView text records.now values decls room.now count i }
    ensures { (text values decls : List ℕ) (v : LabelView text records.now values decls room.now count i)
        → result ≡ least_key (label_fault v) }
{
    let key = fault_key(44, place_at(records, i));
    if inside16_at(records, i) != UNKNOWN {
        return key;
    }
    if is_stacked(records, room, count, i) {
        return key;
    }
    NO_KEY
}

// The labels from the token i up to j, one after the other.
pub fn labels_fault(records: &[u8], room: &mut [u8], i: usize, j: usize) -> u32
    requires { (2 * index_end ≤ length room.old) × ((text : List ℕ) × (values : List ℕ) × (decls : List ℕ) × LabelsView text records.now values decls i j) }
    ensures { (text values decls : List ℕ) (v : LabelsView text records.now values decls i j) → result ≡ least_key (all_label_faults v) }
{
    let mut count: usize = 0;
    let mut key = NO_KEY;
    for at in i..j {
        if !is_label(records, at) {
            continue;
        }
        key = earlier(key, label_fault(records, room, count, at));
        push(records, room, count, at);
        count += 1;
    }
    key
}
