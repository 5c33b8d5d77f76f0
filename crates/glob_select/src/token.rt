ghost use Rattle.std.specs.Prelude.{◌≡◌, ◌<◌, ◌≤◌, IfSome, option_map, length};
ghost use Rattle.glob_select.specs.Matching.{after_first, is_star, stands_for, taken};
ghost use Rattle.glob_select.specs.Reading.{item_at, bracket_at, class_at};
ghost use Rattle.glob_select.specs.Tokens.{item_of};

use crate::member::{after_members, any_has, is_name_byte, member_at};
use text_scan::stripped;

/// An item of an alternative, as it stands in the text of a pattern.
#[derive(Clone, Copy)]
pub enum Token<'a> {
    /// A name byte, which stands for itself.
    Byte(u8),
    /// `[%s]`, which stands for itself.
    Mark,
    /// `*`: any bytes, none included.
    Star,
    /// `?`: one byte.
    AnyByte,
    /// One byte of a class; the text begins with the members of the class.
    Class(&'a [u8]),
}

impl<'a> Token<'a> {
    pub fn is_star(self) -> bool
        ensures { result ≡ is_star (item_of self.entry) }
    {
        matches!(self, Token::Star)
    }

    // Whether an item that stands for one byte stands for this one.
    fn stands_for(self, byte: u8) -> bool
        ensures { result ≡ stands_for (item_of self.entry) byte }
    {
        match self {
            Token::Byte(only) => byte == only,
            Token::AnyByte => true,
            Token::Class(members) => any_has(members, byte),
            Token::Mark | Token::Star => false,
        }
    }

    fn after_first<'b>(self, name: &'b [u8]) -> Option<&'b [u8]>
        ensures { option_map (λ rest. rest.now) result ≡ after_first (item_of self.entry) name.now }
    {
        let [first, rest @ ..] = name else {
            return None;
        };
        if self.stands_for(*first) {
            Some(rest)
        } else {
            None
        }
    }

    /// What is left of the name behind the bytes that the item stands for. `*` leaves it open, and
    /// has no answer.
    #[tactic(auto, unfolding(crate::specs::Matching::taken))]
    pub fn taken<'b>(self, name: &'b [u8]) -> Option<&'b [u8]>
        ensures { option_map (λ rest. rest.now) result ≡ taken (item_of self.entry) name.now }
    {
        match self {
            Token::Mark => stripped(name, b"[%s]"),
            Token::Star => None,
            Token::Byte(_) | Token::AnyByte | Token::Class(_) => self.after_first(name),
        }
    }
}

/// The class whose members begin the text, and what follows its bracket.
#[tactic(auto, unfolding(crate::specs::Reading::class_at))]
fn class_at(text: &[u8]) -> Option<(Token<'_>, &[u8])>
    ensures { option_map (λ p. (item_of p.0, p.1.now)) result ≡ class_at text.now }
{
    if member_at(text).is_none() {
        return None;
    }
    let [close, rest @ ..] = after_members(text) else {
        return None;
    };
    if *close == b']' {
        Some((Token::Class(text), rest))
    } else {
        None
    }
}

/// The item that begins with a bracket before the text, and what follows it.
#[tactic(auto, unfolding(crate::specs::Reading::bracket_at))]
fn bracket_at(text: &[u8]) -> Option<(Token<'_>, &[u8])>
    ensures read { option_map (λ p. (item_of p.0, p.1.now)) result ≡ bracket_at text.now }
    ensures shorter { IfSome result (λ p. length p.1.now ≤ length text.now) }
{
    match stripped(text, b"%s]") {
        Some(rest) => Some((Token::Mark, rest)),
        None => class_at(text),
    }
}

/// The item at the front of the text, and what follows it.
#[tactic(auto, unfolding(crate::specs::Reading::item_at))]
pub fn token_at(text: &[u8]) -> Option<(Token<'_>, &[u8])>
    ensures read { option_map (λ p. (item_of p.0, p.1.now)) result ≡ item_at text.now }
    ensures shorter { IfSome result (λ p. length p.1.now < length text.now) }
{
    let [first, rest @ ..] = text else {
        return None;
    };
    if *first == b'*' {
        return Some((Token::Star, rest));
    }
    if *first == b'?' {
        return Some((Token::AnyByte, rest));
    }
    if *first == b'[' {
        return bracket_at(rest);
    }
    if is_name_byte(*first) {
        return Some((Token::Byte(*first), rest));
    }
    None
}
