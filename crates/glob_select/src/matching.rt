ghost use Rattle.std.specs.Prelude.{◌≡◌, ◌≤◌, IfSome, option_map, length};
ghost use Rattle.glob_select.specs.Matching.{fits};
ghost use Rattle.glob_select.specs.Reading.{items_of};
ghost use Rattle.glob_select.specs.Walking.{walk, first_walk, kept};

use crate::token::token_at;

// What is left of the items from the next star on, and of the name behind the items before it.
fn walked<'a, 'b>(items: &'a [u8], name: &'b [u8]) -> Option<(&'a [u8], &'b [u8])>
    ensures walk { option_map (λ p. (items_of p.0.now, p.1.now)) result ≡ walk (items_of items.now) name.now }
    ensures shorter { IfSome result (λ p. length p.0.now ≤ length items.now) }
{
    let mut left = items;
    let mut rest = name;
    while let Some((token, after)) = token_at(left) {
        if token.is_star() {
            return Some((left, rest));
        }
        let Some(next) = token.taken(rest) else {
            return None;
        };
        rest = next;
        left = after;
    }
    Some((left, rest))
}

// The same, where a star follows or the whole name is taken.
fn kept<'a, 'b>(items: &'a [u8], name: &'b [u8]) -> Option<(&'a [u8], &'b [u8])>
    ensures walk { option_map (λ p. (items_of p.0.now, p.1.now)) result ≡ kept (walk (items_of items.now) name.now) }
    ensures shorter { IfSome result (λ p. length p.0.now ≤ length items.now) }
{
    let (left, rest) = walked(items, name)?;
    if let Some(_) = token_at(left) {
        return Some((left, rest));
    }
    if rest.is_empty() {
        Some((left, rest))
    } else {
        None
    }
}

// The same from the first place of the name at which there is such a walk.
fn first_walk<'a, 'b>(items: &'a [u8], name: &'b [u8]) -> Option<(&'a [u8], &'b [u8])>
    ensures walk { option_map (λ p. (items_of p.0.now, p.1.now)) result ≡ first_walk (items_of items.now) name.now }
    ensures shorter { IfSome result (λ p. length p.0.now ≤ length items.now) }
{
    let mut from = name;
    while let Some((_, after)) = from.split_first() {
        if let Some((left, rest)) = kept(items, from) {
            return Some((left, rest));
        }
        from = after;
    }
    kept(items, from)
}

/// Whether the items at the front of the text stand for the whole name. Only the last star that was
/// passed is ever moved: where the items before a star fit at several places of the name, the first
/// place leaves the most of it.
pub fn fits(items: &[u8], name: &[u8]) -> bool
    ensures { result ≡ fits (items_of items.now) name.now }
{
    let Some((mut left, mut rest)) = walked(items, name) else {
        return false;
    };
    while let Some((_, after)) = token_at(left) {
        let Some((next, ending)) = first_walk(after, rest) else {
            return false;
        };
        left = next;
        rest = ending;
    }
    rest.is_empty()
}
