ghost use Rattle.std.specs.Prelude.{◌≡◌, ◌&&◌, is_none};

// Items are told by how many stand before them in the order of the text. No clause speaks of these numbers, so
// sums of them stand still at the end of their type.

/// An item by its number among the items of its module, told by its number in the whole text.
pub(crate) fn behind(first: usize, item: Option<usize>) -> Option<usize>
    ensures { is_none result ≡ is_none item }
{
    match item {
        Some(item) => Some(first.saturating_add(item)),
        None => None,
    }
}

/// The earlier of two items.
pub(crate) fn earlier(one: Option<usize>, other: Option<usize>) -> Option<usize>
    ensures { is_none result ≡ (is_none one && is_none other) }
{
    match (one, other) {
        (None, None) => None,
        (Some(one), None) => Some(one),
        (None, Some(other)) => Some(other),
        (Some(one), Some(other)) => Some(if one < other { one } else { other }),
    }
}
