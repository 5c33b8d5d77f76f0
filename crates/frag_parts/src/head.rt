ghost use Rattle.std.specs.Prelude.{◌≡◌};
ghost use Rattle.frag_words.specs.Words.{words_in};
ghost use Rattle.frag_parts.specs.Heads.{head_told};
ghost use Rattle.frag_token.specs.Reading.{Gives};
ghost use Rattle.frag_parts.specs.Reading.{head_at};

use crate::production::{Accessors, Fields};
use frag_token::fault::Stop;
use frag_token::list::{Begins, braced};
use frag_token::starts::Starts;
use frag_token::token::{expect, identifier};
use frag_tree::{Access, Identifier, Phrase, StructField};
use pac_base::Seq;
use std::alloc::Global;

/// What stands in a block module before the modules inside it.
#[derive(Drop)]
pub struct Head {
    /// The name of the module.
    pub name: Identifier,
    /// The fields of its struct.
    pub fields: Seq<StructField>,
    /// Its accessors.
    pub accessors: Seq<Access>,
}

/// What stands in a block module before the modules inside it.
#[tactic(auto, unfolding(crate::specs::Reading::head_at))]
pub fn block_head<'a>(
    alloc: Global,
    starts: &mut Starts,
    text: &'a [u8],
) -> Result<(Head, &'a [u8]), Stop>
    ensures { Gives (λ found. (head_told found.0, words_in found.1.now)) result (head_at (words_in text.now)) }
{
    let rest = expect(text, Phrase::PubMod)?;
    let (name, rest) = identifier(alloc, rest)?;
    let rest = expect(rest, Phrase::OpensModule)?;
    let rest = expect(rest, Phrase::UsePrelude)?;
    let rest = expect(rest, Phrase::ReprC)?;
    let rest = expect(rest, Phrase::OpensStruct)?;
    let (fields, rest) = braced(alloc, starts, &Fields, Begins::NotCloser, rest)?;
    let rest = expect(rest, Phrase::BlockImpl)?;
    let (accessors, rest) = braced(alloc, starts, &Accessors, Begins::Pub, rest)?;
    let head = Head {
        name,
        fields,
        accessors,
    };
    Ok((head, rest))
}
