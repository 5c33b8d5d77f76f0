ghost use Rattle.std.specs.Prelude.{◌≡◌, map};
ghost use Rattle.frag_words.specs.Words.{words_in};
ghost use Rattle.frag_tree.specs.ModuleProductions.{modules_reading};
ghost use Rattle.frag_tree.specs.Trees.{block_tree, in_line, module_tree};
ghost use Rattle.frag_parse.specs.Depth.{Fits};
ghost use Rattle.frag_parse.specs.Nesting.{module_within, nests_within};
ghost use Rattle.frag_parse.specs.Reading.{block_at, module_at};

use crate::fault::Refusal;
use frag_parts::head::block_head;
use frag_parts::register::register;
use frag_token::sign::Sign;
use frag_token::starts::Starts;
use frag_token::token::{expect, is_at, left_at};
use frag_tree::{Block, Module, Phrase, Version};
use std::alloc::Global;

/// The modules of one parent, which nest at most `depth` deep, and what follows the brace behind them.
#[cycle(modules)]
fn modules<'a>(
    alloc: Global,
    version: Version,
    starts: &mut Starts,
    text: &'a [u8],
    depth: usize,
) -> Result<(Vec<Module>, &'a [u8]), Refusal>
    ensures { Fits (λ found. (in_line (map module_tree found.0.items), words_in found.1.now)) (nests_within depth) result ((modules_reading version).read (words_in text.now)) }
{
    let mut modules = Vec::new(alloc);
    let mut rest = text;
    while is_at(rest, 0, Sign::Pub) {
        let (module, after) = module(alloc, version, starts, rest, depth)?;
        modules.push(module)?;
        rest = after;
    }
    let rest = expect(rest, Phrase::Closer)?;
    Ok((modules, rest))
}

/// A module, which nests at most `depth` deep.
#[cycle(modules)]
fn module<'a>(
    alloc: Global,
    version: Version,
    starts: &mut Starts,
    text: &'a [u8],
    depth: usize,
) -> Result<(Module, &'a [u8]), Refusal>
    ensures { Fits (λ found. (module_tree found.0, words_in found.1.now)) (module_within depth) result (module_at version (words_in text.now)) }
{
    let Some(inside) = depth.checked_sub(1) else {
        return Err(Refusal::TooDeep {
            left: left_at(text),
        });
    };
    starts.note(text)?;
    if is_at(text, 11, Sign::Hash) {
        let (block, rest) = block(alloc, version, starts, text, inside)?;
        return Ok((Module::Block(block), rest));
    }
    let (unit, rest) = register(alloc, version, starts, text)?;
    Ok((Module::Register(unit), rest))
}

/// A block module, of which the modules inside nest at most `inside` deep.
#[cycle(modules)]
pub(crate) fn block<'a>(
    alloc: Global,
    version: Version,
    starts: &mut Starts,
    text: &'a [u8],
    inside: usize,
) -> Result<(Block, &'a [u8]), Refusal>
    ensures { Fits (λ found. (block_tree found.0, words_in found.1.now)) (λ unit. nests_within inside unit.inside) result (block_at version (words_in text.now)) }
{
    let (head, rest) = block_head(alloc, starts, text)?;
    let (modules, rest) = modules(alloc, version, starts, rest, inside)?;
    let block = Block {
        name: head.name,
        fields: head.fields,
        accessors: head.accessors,
        modules,
    };
    Ok((block, rest))
}
