// The links of an action and of all inside it. Only BEGIN nests, and `depth` falls with each; members, alternatives and prefixes in a row are loops.
ghost use Rattle.std.specs.Prelude.{◌≡◌};
ghost use Rattle.ways.specs.Seeking.{Ground};
ghost use Rattle.ways.specs.Standing.{ActionAt, Done};
ghost use Rattle.links.specs.Members.{MembersAt, MemberAnswer};
ghost use Rattle.links.specs.Choices.{TurnsAt, TurnAnswer};
ghost use Rattle.links.specs.Actions.{BlockAt, ChoiceAt};

use crate::leaves::leaf;
use records::fields::kind_at;
use rules::kinds::{ARROW, BEGIN, DECODE, END};
use table::scans::SEPARATOR;
use ways::prefixes::{Spot, Start, behind_prefixes};
use ways::scans::{first_of, seek};
use ways::separators::separator;

#[cycle(action_alternative_block_decode_member)]
pub fn action(text: &[u8], records: &mut [u8], labels: &mut [u8], s: Spot, depth: usize)
    requires { (g : Ground) × (v : ActionAt g records.old labels.old s.at s.link s.count s.first depth) × (g.text ≡ text.now) }
    ensures { (g : Ground) (v : ActionAt g records.old labels.old s.at s.link s.count s.first depth)
        → g.text ≡ text.now → Done v records.new labels.new }
{
    let bare = behind_prefixes(records, labels, s);
    let at = bare.at;
    let kind = kind_at(records, at);
    if kind == BEGIN {
        block(text, records, labels, bare, depth);
        return;
    }
    if kind == DECODE {
        decode(text, records, labels, bare, depth);
        return;
    }
    leaf(text, records, labels, bare);
}

// The members of the block at s, one after the other.
#[cycle(action_alternative_block_decode_member)]
fn block(text: &[u8], records: &mut [u8], labels: &mut [u8], s: Spot, depth: usize)
    requires { (g : Ground) × BlockAt g text.now records.old labels.old s.at s.link s.count s.first depth }
    ensures { (g : Ground) (v : BlockAt g text.now records.old labels.old s.at s.link s.count s.first depth)
        → Done v.view records.new labels.new }
{
    let mut at = s.at + 1;
    let mut first = s.first;
    while let Some(next) = member(text, records, labels, Spot { at, first, ..s }, depth) {
        at = next.at;
        first = next.first;
    }
}

// The member at s of a block that leads to the link. Control goes from it to the next one, which is returned if there is one.
#[cycle(action_alternative_block_decode_member)]
fn member(
    text: &[u8],
    records: &mut [u8],
    labels: &mut [u8],
    s: Spot,
    depth: usize,
) -> Option<Start>
    requires { (g : Ground) × (v : MembersAt g records.old labels.old s.at s.link s.count s.first depth) × (g.text ≡ text.now) }
    ensures { (g : Ground) (v : MembersAt g records.old labels.old s.at s.link s.count s.first depth)
        → g.text ≡ text.now → MemberAnswer v records.new labels.new result }
{
    let end = seek(records, s.at, SEPARATOR);
    if kind_at(records, end) == END {
        action(text, records, labels, s, depth - 1);
        return None;
    }
    let first = first_of(records, end + 1);
    action(text, records, labels, Spot { link: first, ..s }, depth - 1);
    Some(Start { at: end + 1, first })
}

// The alternatives of the DECODE at s, one after the other.
#[cycle(action_alternative_block_decode_member)]
fn decode(text: &[u8], records: &mut [u8], labels: &mut [u8], s: Spot, depth: usize)
    requires { (g : Ground) × ChoiceAt g text.now records.old labels.old s.at s.link s.count s.first depth }
    ensures { (g : Ground) (v : ChoiceAt g text.now records.old labels.old s.at s.link s.count s.first depth)
        → Done v.view records.new labels.new }
{
    let mut p = seek(records, s.at + 1, ARROW) + 1;
    while let Some(next) = alternative(text, records, labels, p, s.link, s.count, depth) {
        p = next;
    }
}

// The alternative behind the separator p. Returns the next separator, if there is one.
#[cycle(action_alternative_block_decode_member)]
fn alternative(
    text: &[u8],
    records: &mut [u8],
    labels: &mut [u8],
    p: usize,
    link: usize,
    count: usize,
    depth: usize,
) -> Option<usize>
    requires { (g : Ground) × (v : TurnsAt g records.old labels.old p link count depth) × (g.text ≡ text.now) }
    ensures { (g : Ground) (v : TurnsAt g records.old labels.old p link count depth)
        → g.text ≡ text.now → TurnAnswer v records.new labels.new result }
{
    let extent = separator(records, p);
    let end = extent.end;
    let here = Spot {
        at: extent.from,
        link,
        count,
        first: extent.first,
    };
    action(text, records, labels, here, depth - 1);
    if kind_at(records, end) == END {
        return None;
    }
    Some(end)
}
