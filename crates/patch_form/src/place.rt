ghost use Rattle.std.specs.Prelude.{◌≡◌, MatchBool, map, option_map};
ghost use Rattle.std.specs.Str.{bytes_eq};
ghost use Rattle.yaml_block.specs.Nodes.{entry_under, node_tree};
ghost use Rattle.yaml_block.specs.Trees.{entries_of};
ghost use Rattle.patch_form.specs.Demands.{at_key, both_or_none, lowest_first, place_by, place_demands, place_or_width, present, some_width};
ghost use Rattle.patch_form.specs.Finding.{First, at_of};
ghost use Rattle.patch_form.specs.Parts.{scalar_of};
ghost use Rattle.patch_form.specs.Forms.{AreOrdered, IsPositive};

use crate::fault::{Fault, FaultKind};
use crate::form::trimmed;
use crate::unmet::{earlier, fault, unless};
use pac_base::Text;
use svd_values::number;
use yaml_block::Node;

/// An entry of a mapping: its line, its key and its value.
pub type Entry = (u32, Text, Node);

/// Whether a key is this text.
pub fn is_key(key: &Text, wanted: &[u8]) -> bool
    ensures { result ≡ bytes_eq key.now wanted.now }
{
    key.as_str().as_bytes() == wanted
}

/// The first entry of a key.
pub fn at_key<'a>(entries: &'a [Entry], key: &[u8]) -> Option<&'a Entry>
    ensures { at_of result ≡ at_key key.now (entries_of (map entry_under entries.now)) }
{
    for entry in entries {
        if is_key(&entry.1, key) {
            return Some(entry);
        }
    }
    None
}

/// The text of a scalar.
#[tactic(auto, using(yaml_block::proofs::Nodes::node_trees))]
pub fn scalar(node: &Node) -> Option<&Text>
    ensures { option_map (λ text. text.now) result ≡ scalar_of (node_tree node.now) }
{
    match node {
        Node::Scalar(text) => Some(text),
        Node::Empty => None,
        Node::List(_) => None,
        Node::Map(_) => None,
    }
}

fn are_ordered(low: &[u8], high: &[u8]) -> bool
    ensures { MatchBool result (AreOrdered low.now high.now) (¬ (AreOrdered low.now high.now)) }
{
    let Some(lsb) = number(low) else {
        return true;
    };
    let Some(msb) = number(high) else {
        return true;
    };
    lsb <= msb
}

fn is_positive(text: &[u8]) -> bool
    ensures { MatchBool result (IsPositive text.now) (¬ (IsPositive text.now)) }
{
    let Some(value) = number(text) else {
        return true;
    };
    value >= 1
}

fn both_or_none(line: u32, low: Option<&Entry>, high: Option<&Entry>) -> Option<Fault>
    ensures { First (both_or_none line (at_of low.entry) (at_of high.entry)) result }
{
    match (low, high) {
        (None, None) => None,
        (Some(_), Some(_)) => None,
        (None, Some(_)) => fault(line, FaultKind::BadValue),
        (Some(_), None) => fault(line, FaultKind::BadValue),
    }
}

fn lowest_first(low: &Entry, high: &Entry) -> Option<Fault>
    ensures { First (lowest_first (present low.now.0 (node_tree low.now.2)) (present high.now.0 (node_tree high.now.2))) result }
{
    let Some(lsb) = scalar(&low.2) else {
        return None;
    };
    let Some(msb) = scalar(&high.2) else {
        return None;
    };
    let lsb = trimmed(lsb.as_str().as_bytes());
    let msb = trimmed(msb.as_str().as_bytes());
    unless(are_ordered(lsb, msb), high.0, FaultKind::BadValue)
}

fn width_fault(entry: &Entry) -> Option<Fault>
    ensures { First (some_width (present entry.now.0 (node_tree entry.now.2))) result }
{
    let Some(width) = scalar(&entry.2) else {
        return None;
    };
    let width = trimmed(width.as_str().as_bytes());
    unless(is_positive(width), entry.0, FaultKind::BadValue)
}

fn some_width(width: Option<&Entry>) -> Option<Fault>
    ensures { First (some_width (at_of width.entry)) result }
{
    match width {
        None => None,
        Some(entry) => width_fault(entry),
    }
}

fn place_or_width(low: Option<&Entry>, high: Option<&Entry>, width: Option<&Entry>) -> Option<Fault>
    ensures { First (place_or_width (at_of low.entry) (at_of high.entry) (at_of width.entry)) result }
{
    match (low, high) {
        (Some(low), Some(high)) => lowest_first(low, high),
        (None, _) => some_width(width),
        (Some(_), None) => some_width(width),
    }
}

fn place_by(
    range: Option<&Entry>,
    low: Option<&Entry>,
    high: Option<&Entry>,
    width: Option<&Entry>,
) -> Option<Fault>
    ensures { First (place_by (at_of range.entry) (at_of low.entry) (at_of high.entry) (at_of width.entry)) result }
{
    match range {
        Some(_) => None,
        None => place_or_width(low, high, width),
    }
}

/// The first fault in what the keys of an element ask of one another; `line` is that of the entry
/// that has the keys.
pub fn place_fault(line: u32, entries: &[Entry]) -> Option<Fault>
    ensures { First (place_demands line (entries_of (map entry_under entries.now))) result }
{
    let low = at_key(entries, b"lsb");
    let high = at_key(entries, b"msb");
    let range = at_key(entries, b"bitRange");
    let width = at_key(entries, b"bitWidth");
    let paired = both_or_none(line, low, high);
    let placed = place_by(range, low, high, width);
    earlier(paired, placed)
}
