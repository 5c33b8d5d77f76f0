ghost use Rattle.rust_names.specs.Laws.{FreeOfBoth, NoKeywordIsMarker, NoneEndsLow, NoneIsReserved};

/// A name with `_` behind it is taken by neither Rust nor the prelude, a marker is no keyword, and none of the
/// words that are taken is the name of a gap.
pub fn taken_law()
    ensures ends { NoneEndsLow }
    ensures markers { NoKeywordIsMarker }
    ensures reserved { NoneIsReserved }
    ensures both { FreeOfBoth }
{}
