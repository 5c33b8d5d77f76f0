ghost use Rattle.std.specs.Prelude.{◌≡◌};
ghost use Rattle.frag_words.specs.Readings.{Reading};
ghost use Rattle.frag_words.specs.Words.{words_in};
ghost use Rattle.frag_token.specs.Reading.{Gives, Shrinks, begins_at, braced_at, many_at};

use crate::fault::Stop;
use crate::sign::Sign;
use crate::starts::Starts;
use crate::token::{expect, is_at};
use frag_tree::Phrase;
use pac_base::Seq;
use std::alloc::Global;

/// What stands in a list.
pub trait Production<T> {
    // The production.
    ghost reading: { Self → Reading T };

    /// The one at the front of the text, and what follows it.
    fn read<'a>(
        &self,
        alloc: Global,
        starts: &mut Starts,
        text: &'a [u8],
    ) -> Result<(T, &'a [u8]), Stop>
        ensures { Gives (λ found. (found.0, words_in found.1.now)) result ((reading self.now).read (words_in text.now)) };

    // None is without words.
    ghost shrinks: { (production : Self) → Shrinks (reading production).read };
}

/// With which word the items of a list begin.
#[derive(Clone, Copy)]
pub enum Begins {
    /// `pub`
    Pub,
    /// `impl`
    Impl,
    /// Any but `}`
    NotCloser,
}

impl Begins {
    /// Whether an item stands at the front of the text.
    #[tactic(auto, unfolding(crate::specs::Reading::begins_at))]
    fn stands_at(self, text: &[u8]) -> bool
        ensures { result ≡ begins_at self (words_in text.now) }
    {
        match self {
            Begins::Pub => is_at(text, 0, Sign::Pub),
            Begins::Impl => is_at(text, 0, Sign::Impl),
            Begins::NotCloser => !is_at(text, 0, Sign::Closer),
        }
    }
}

/// Those at the front of the text, and what follows them.
pub fn many<'a, T: Drop, P: Production<T>>(
    alloc: Global,
    starts: &mut Starts,
    production: &P,
    begins: Begins,
    text: &'a [u8],
) -> Result<(Seq<T>, &'a [u8]), Stop>
    ensures { Gives (λ found. (found.0, words_in found.1.now)) result (many_at (begins_at begins) (P.reading production.now).read (words_in text.now)) }
{
    let mut items = Seq::new(alloc);
    let mut rest = text;
    while begins.stands_at(rest) {
        starts.note(rest)?;
        let (item, after) = production.read(alloc, starts, rest)?;
        items.push(item)?;
        rest = after;
    }
    Ok((items, rest))
}

/// Those at the front of the text, and what follows the brace behind them.
#[tactic(auto, unfolding(crate::specs::Reading::braced_at))]
pub fn braced<'a, T: Drop, P: Production<T>>(
    alloc: Global,
    starts: &mut Starts,
    production: &P,
    begins: Begins,
    text: &'a [u8],
) -> Result<(Seq<T>, &'a [u8]), Stop>
    ensures { Gives (λ found. (found.0, words_in found.1.now)) result (braced_at (begins_at begins) (P.reading production.now).read (words_in text.now)) }
{
    let (items, rest) = many(alloc, starts, production, begins, text)?;
    let rest = expect(rest, Phrase::Closer)?;
    Ok((items, rest))
}
