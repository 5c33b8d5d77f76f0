ghost use Rattle.std.specs.Prelude.{◌≡◌, ◌<◌, IfSome, option_map, length};
ghost use Rattle.std.specs.List.{list_any};
ghost use Rattle.glob_select.specs.Bytes.{is_name_byte};
ghost use Rattle.glob_select.specs.Matching.{has};
ghost use Rattle.glob_select.specs.Reading.{range_end, member_at, members_of, after_members};

/// What stands between the brackets of a class.
#[derive(Clone, Copy)]
pub enum Member {
    /// One name byte.
    Alone(u8),
    /// The bytes from the first to the second, which is greater.
    Between(u8, u8),
}

impl Member {
    /// Whether the byte is one of the member's.
    pub fn has(self, byte: u8) -> bool
        ensures { result ≡ has byte self }
    {
        match self {
            Member::Alone(only) => byte == only,
            Member::Between(first, last) => first <= byte && byte <= last,
        }
    }
}

/// Whether a byte is a letter, a digit, `_` or `%`.
pub fn is_name_byte(byte: u8) -> bool
    ensures { result ≡ is_name_byte byte }
{
    matches!(byte, b'A'..=b'Z' | b'a'..=b'z' | b'0'..=b'9' | b'_' | b'%')
}

/// The last byte of the range that began with `first`, and what follows it.
#[tactic(auto, unfolding(crate::specs::Reading::range_end))]
fn range_end(first: u8, rest: &[u8]) -> Option<(u8, &[u8])>
    ensures { option_map (λ p. (p.0, p.1.now)) result ≡ range_end first rest.now }
{
    let [dash, last, after @ ..] = rest else {
        return None;
    };
    if *dash == b'-' && is_name_byte(*last) && first < *last {
        Some((*last, after))
    } else {
        None
    }
}

/// The member of a class at the front of the text, and what follows it.
#[tactic(auto, unfolding(crate::specs::Reading::member_at, crate::specs::Reading::range_end))]
pub fn member_at(text: &[u8]) -> Option<(Member, &[u8])>
    ensures read { option_map (λ p. (p.0, p.1.now)) result ≡ member_at text.now }
    ensures shorter { IfSome result (λ p. length p.1.now < length text.now) }
{
    let [first, rest @ ..] = text else {
        return None;
    };
    if !is_name_byte(*first) {
        return None;
    }
    match range_end(*first, rest) {
        Some((last, after)) => Some((Member::Between(*first, last), after)),
        None => Some((Member::Alone(*first), rest)),
    }
}

/// What follows the members at the front of the text.
pub fn after_members(text: &[u8]) -> &[u8]
    ensures { result.now ≡ after_members text.now }
{
    let mut rest = text;
    while let Some((_, after)) = member_at(rest) {
        rest = after;
    }
    rest
}

/// Whether one of the members at the front of the text has the byte.
pub fn any_has(members: &[u8], byte: u8) -> bool
    ensures { result ≡ list_any (has byte) (members_of members.now) }
{
    let mut rest = members;
    while let Some((member, after)) = member_at(rest) {
        if member.has(byte) {
            return true;
        }
        rest = after;
    }
    false
}
