ghost use Rattle.std.specs.Prelude.{◌≡◌};
ghost use Rattle.xml_text.specs.Reading.{tag_kind, kind_of};

/// The kind of part that the first bytes of a text begin.
#[derive(Clone, Copy)]
pub enum Kind {
    StartTag,
    EndTag,
    Words,
    Character,
    Comment,
}

/// The kind by what stands behind `<`.
fn tag_kind(inside: &[u8]) -> Kind
    ensures { result ≡ tag_kind inside.now }
{
    let [second, ..] = inside else {
        return Kind::StartTag;
    };
    if *second == b'/' {
        return Kind::EndTag;
    }
    if *second == b'!' {
        return Kind::Comment;
    }
    Kind::StartTag
}

/// The kind of the part that begins the text, where that isn't empty.
#[tactic(auto, unfolding(crate::specs::Reading::kind_of))]
pub fn kind_of(text: &[u8]) -> Option<Kind>
    ensures { result ≡ kind_of text.now }
{
    let [first, inside @ ..] = text else {
        return None;
    };
    if *first == b'<' {
        return Some(tag_kind(inside));
    }
    if *first == b'&' {
        return Some(Kind::Character);
    }
    Some(Kind::Words)
}
