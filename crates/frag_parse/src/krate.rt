ghost use Rattle.std.specs.Prelude.{◌≡◌, IfOk, IfErr, [], map, true};
ghost use Rattle.std.specs.List.{list_all};
ghost use Rattle.frag_words.specs.Words.{words_in};
ghost use Rattle.frag_tree.specs.Trees.{CrateTree, block_tree, crate_tree};
ghost use Rattle.frag_tree.specs.Validity.{valid_crate};
ghost use Rattle.frag_parse.specs.Depth.{Fits, Tells};
ghost use Rattle.frag_parse.specs.Nesting.{block_within, crate_within};
ghost use Rattle.frag_parse.specs.Parsing.{IsCrateOf, IsParsedAs, RefusedFor};
ghost use Rattle.frag_parse.specs.Reading.{blocks_at, crate_at};

use crate::fault::{ParseFault, Refusal};
use crate::module::block;
use crate::opening::opening;
use crate::survey::surveyed;
use frag_token::fault::Stop;
use frag_token::starts::Starts;
use frag_token::token::is_end;
use frag_tree::{Block, Crate, Version};
use std::alloc::Global;

/// How deep modules may nest inside a block module at the top, which is 1 deep.
const INSIDE: usize = 63;

/// The block modules up to the end of the text.
fn blocks(
    alloc: Global,
    version: Version,
    starts: &mut Starts,
    text: &[u8],
) -> Result<Vec<Block>, Refusal>
    ensures { Fits (λ blocks. (map block_tree blocks.items, [])) (list_all (block_within 64)) result (blocks_at version (words_in text.now)) }
{
    let mut blocks = Vec::new(alloc);
    let mut rest = text;
    while !is_end(rest) {
        starts.note(rest)?;
        let (unit, after) = block(alloc, version, starts, rest, INSIDE)?;
        blocks.push(unit)?;
        rest = after;
    }
    Ok(blocks)
}

/// The crate that the whole text spells.
fn whole(alloc: Global, bytes: &[u8]) -> Result<Crate, Refusal>
    ensures { Fits (λ krate. (crate_tree krate, [])) (crate_within 64) result (crate_at (words_in bytes.now)) }
{
    let mut starts = Starts::new(alloc, bytes);
    let (version, slots, rest) = opening(alloc, &mut starts, bytes)?;
    let blocks = blocks(alloc, version, &mut starts, rest)?;
    Ok(Crate {
        version,
        slots,
        blocks,
        places: starts.into_places(),
    })
}

/// The place from which so many bytes are left.
fn place(bytes: &[u8], left: usize) -> usize {
    bytes.len().saturating_sub(left)
}

/// The crate that the bytes spell, or why they spell none that is read.
fn read(alloc: Global, bytes: &[u8]) -> Result<Crate, ParseFault>
    ensures { Tells result (crate_at (words_in bytes.now)) }
{
    match whole(alloc, bytes) {
        Ok(krate) => Ok(krate),
        Err(Refusal::Unfit { left }) => Err(ParseFault::Syntax {
            at: place(bytes, left),
        }),
        Err(Refusal::TooDeep { left }) => match surveyed(alloc, bytes) {
            Ok(()) => Err(ParseFault::TooDeep {
                at: place(bytes, left),
            }),
            Err(Stop::Unfit { left }) => Err(ParseFault::Syntax {
                at: place(bytes, left),
            }),
            Err(Stop::Memory) => Err(ParseFault::Memory),
        },
        Err(Refusal::Memory) => Err(ParseFault::Memory),
    }
}

/// The crate that the bytes spell: their words, whatever white space and `//` comments stand between,
/// are those of the printed form of the crate, and its modules nest at most 64 deep. `Syntax` exactly
/// where no crate has these words, then `TooDeep` exactly where the crate that has them nests deeper.
pub fn parse_crate(alloc: Global, bytes: &[u8]) -> Result<Crate, ParseFault>
    // What is read is a crate of the text, and nests at most 64 deep.
    ensures spelled { IfOk result (λ krate. IsCrateOf bytes.now (crate_tree krate)) }
    // It is valid: its names are identifiers, its numbers below 2^64, and in version 1 no spot is indexed.
    ensures valid { IfOk result (λ krate. valid_crate (crate_tree krate) ≡ true) }
    ensures bounded { IfOk result (λ krate. crate_within 64 (crate_tree krate) ≡ true) }
    // A refusal has its cause.
    ensures refused { IfErr result (λ fault. RefusedFor fault bytes.now) }
    // Each text of a crate that nests at most 64 deep is read as that crate, what is printed among them.
    ensures complete { (krate : CrateTree) → IsCrateOf bytes.now krate → crate_within 64 krate ≡ true → IsParsedAs result krate }
{
    read(alloc, bytes)
}
