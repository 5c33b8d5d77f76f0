ghost use Rattle.std.specs.Prelude.{◌≡◌};
ghost use Rattle.frag_words.specs.Words.{words_in};
ghost use Rattle.frag_token.specs.Reading.{Gives};
ghost use Rattle.frag_parts.specs.Reading.{parts_at, readers_at, readers_part_at, register_at, writers_at, writers_part_at};

use crate::constant::{readable, reset, writable_part};
use crate::production::{Markers, Readers, ValueBlocks, Writers};
use frag_token::fault::Stop;
use frag_token::list::{Begins, braced, many};
use frag_token::sign::Sign;
use frag_token::starts::Starts;
use frag_token::token::{expect, identifier, is_impl};
use frag_token::word::width;
use frag_tree::{Identifier, Phrase, Reader, RegisterModule, Version, Writer};
use pac_base::{Seq, Width};
use std::alloc::Global;

/// The calls of `impl R<Spec>`.
#[tactic(auto, unfolding(crate::specs::Reading::readers_at))]
fn readers<'a>(
    alloc: Global,
    version: Version,
    starts: &mut Starts,
    text: &'a [u8],
) -> Result<(Seq<Reader>, &'a [u8]), Stop>
    ensures { Gives (λ found. (found.0, words_in found.1.now)) result (readers_at version (words_in text.now)) }
{
    let rest = expect(text, Phrase::ReadersImpl)?;
    let (calls, rest) = braced(alloc, starts, &Readers { version }, Begins::Pub, rest)?;
    Ok((calls, rest))
}

/// The calls of `impl W<Spec>`.
#[tactic(auto, unfolding(crate::specs::Reading::writers_at))]
fn writers<'a>(
    alloc: Global,
    version: Version,
    starts: &mut Starts,
    text: &'a [u8],
) -> Result<(Seq<Writer>, &'a [u8]), Stop>
    ensures { Gives (λ found. (found.0, words_in found.1.now)) result (writers_at version (words_in text.now)) }
{
    let rest = expect(text, Phrase::WritersImpl)?;
    let (calls, rest) = braced(alloc, starts, &Writers { version }, Begins::Pub, rest)?;
    Ok((calls, rest))
}

/// The calls of `impl R<Spec>`, or nothing.
#[tactic(auto, unfolding(crate::specs::Reading::readers_part_at))]
fn readers_part<'a>(
    alloc: Global,
    version: Version,
    starts: &mut Starts,
    text: &'a [u8],
) -> Result<(Option<Seq<Reader>>, &'a [u8]), Stop>
    ensures { Gives (λ found. (found.0, words_in found.1.now)) result (readers_part_at version (words_in text.now)) }
{
    if is_impl(text, Sign::R) {
        let (readers, rest) = readers(alloc, version, starts, text)?;
        return Ok((Some(readers), rest));
    }
    Ok((None, text))
}

/// The calls of `impl W<Spec>`, or nothing.
#[tactic(auto, unfolding(crate::specs::Reading::writers_part_at))]
fn writers_part<'a>(
    alloc: Global,
    version: Version,
    starts: &mut Starts,
    text: &'a [u8],
) -> Result<(Option<Seq<Writer>>, &'a [u8]), Stop>
    ensures { Gives (λ found. (found.0, words_in found.1.now)) result (writers_part_at version (words_in text.now)) }
{
    if is_impl(text, Sign::W) {
        let (writers, rest) = writers(alloc, version, starts, text)?;
        return Ok((Some(writers), rest));
    }
    Ok((None, text))
}

/// What stands behind the type of a register module's word.
#[tactic(auto, unfolding(crate::specs::Reading::parts_at))]
fn parts<'a>(
    alloc: Global,
    version: Version,
    starts: &mut Starts,
    name: Identifier,
    word: Width,
    text: &'a [u8],
) -> Result<(RegisterModule, &'a [u8]), Stop>
    ensures { Gives (λ found. (found.0, words_in found.1.now)) result (parts_at version name word (words_in text.now)) }
{
    let (readable, rest) = readable(text)?;
    let (writable, rest) = writable_part(alloc, rest)?;
    let (reset, rest) = reset(alloc, rest)?;
    let (markers, rest) = many(alloc, starts, &Markers, Begins::Pub, rest)?;
    let (readers, rest) = readers_part(alloc, version, starts, rest)?;
    let (writers, rest) = writers_part(alloc, version, starts, rest)?;
    let (values, rest) = braced(alloc, starts, &ValueBlocks, Begins::Impl, rest)?;
    let unit = RegisterModule {
        name,
        word,
        readable,
        writable,
        reset,
        markers,
        readers,
        writers,
        values,
    };
    Ok((unit, rest))
}

/// A register module.
#[tactic(auto, unfolding(crate::specs::Reading::register_at))]
pub fn register<'a>(
    alloc: Global,
    version: Version,
    starts: &mut Starts,
    text: &'a [u8],
) -> Result<(RegisterModule, &'a [u8]), Stop>
    ensures { Gives (λ found. (found.0, words_in found.1.now)) result (register_at version (words_in text.now)) }
{
    let rest = expect(text, Phrase::PubMod)?;
    let (name, rest) = identifier(alloc, rest)?;
    let rest = expect(rest, Phrase::OpensModule)?;
    let rest = expect(rest, Phrase::UsePrelude)?;
    let rest = expect(rest, Phrase::SpecStruct)?;
    let rest = expect(rest, Phrase::OpensSpec)?;
    let (word, rest) = width(rest)?;
    let rest = expect(rest, Phrase::ClosesSpec)?;
    parts(alloc, version, starts, name, word, rest)
}
