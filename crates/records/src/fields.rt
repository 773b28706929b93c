// What stands in the table for the token i: its kind, its size, its place, where it leads inside and behind, and its value.
ghost use Rattle.std.specs.Prelude.{◌≡◌, ◌+◌, ◌*◌, ◌<◌, ◌≤◌, length};
ghost use Rattle.records.specs.Holds.{kind_byte, size_byte, place_cell, inside_cell, link_cell, value_cell_of};
ghost use Rattle.records.specs.Kept.{InsidePut, LinkPut};

use cells::{get16, get64, put16};

pub fn kind_at(records: &[u8], i: usize) -> u8
    requires { 8 * i + 8 ≤ length records.now }
    ensures { result ≡ kind_byte records.now i }
{
    records[8 * i]
}

pub fn size_at(records: &[u8], i: usize) -> u32
    requires { 8 * i + 8 ≤ length records.now }
    ensures { result ≡ size_byte records.now i }
{
    records[8 * i + 1] as u32
}

// The place of two bytes, as it is kept.
pub fn place16_at(records: &[u8], i: usize) -> u16
    requires { 8 * i + 8 ≤ length records.now }
    ensures { result ≡ place_cell records.now i }
{
    get16(records, 4 * i + 1)
}

pub fn place_at(records: &[u8], i: usize) -> usize
    requires { 8 * i + 8 ≤ length records.now }
    ensures { result ≡ place_cell records.now i }
{
    place16_at(records, i) as usize
}

// What it leads to inside, as it is kept.
pub fn inside16_at(records: &[u8], i: usize) -> u16
    requires { 8 * i + 8 ≤ length records.now }
    ensures { result ≡ inside_cell records.now i }
{
    get16(records, 4 * i + 2)
}

pub fn inside_at(records: &[u8], i: usize) -> usize
    requires { 8 * i + 8 ≤ length records.now }
    ensures { result ≡ inside_cell records.now i }
{
    inside16_at(records, i) as usize
}

pub fn link_at(records: &[u8], i: usize) -> usize
    requires { 8 * i + 8 ≤ length records.now }
    ensures { result ≡ link_cell records.now i }
{
    get16(records, 4 * i + 3) as usize
}

pub fn put_inside(records: &mut [u8], i: usize, x: usize)
    requires { (8 * i + 8 ≤ length records.old) × (x < 65536) }
    ensures { InsidePut records.old records.new i x }
{
    put16(records, 4 * i + 2, x as u16);
}

pub fn put_link(records: &mut [u8], i: usize, x: usize)
    requires { (8 * i + 8 ≤ length records.old) × (x < 65536) }
    ensures { LinkPut records.old records.new i x }
{
    put16(records, 4 * i + 3, x as u16);
}

pub fn value_at(values: &[u8], i: usize) -> u64
    requires { 8 * i + 8 ≤ length values.now }
    ensures { result ≡ value_cell_of values.now i }
{
    get64(values, i)
}
