ghost use Rattle.std.specs.Prelude.{◌≡◌, ◌≤◌, ℕ, List, Result, length, IfOk, IfErr};
ghost use Rattle.yaml_block.specs.Answers.{IsBlock, IsFound, IsRefused};
ghost use Rattle.yaml_block.specs.Blocks.{Forest, Spells};
ghost use Rattle.yaml_block.specs.Judging.{AreRight, Judged};
ghost use Rattle.yaml_block.specs.Lines.{found_in};
ghost use Rattle.yaml_block.specs.Meanings.{Blocks};
ghost use Rattle.yaml_block.specs.Nodes.{node_tree};
ghost use Rattle.yaml_block.specs.Passing.{start, verdict};
ghost use Rattle.yaml_block.specs.Trees.{Tree};
ghost use Rattle.yaml_block.specs.declared.fault.BlockFault.{BlockFault};
ghost use Rattle.yaml_block.specs.declared.line.Line.{Line};

use crate::build::built;
use crate::fault::BlockFault;
use crate::keys::double_key;
use crate::line::Line;
use crate::lines::{Found, read_lines};
use crate::node::Node;
use crate::pass::{Verdict, verdict_on};
use pac_base::Seq;
use std::alloc::Global;

/// No lines spell two mappings.
pub fn one_mapping()
    ensures { (one other : Forest) (lines : List Line) → Spells 0 one lines → Spells 0 other lines → one ≡ other }
{}

/// No lines spell two nodes.
pub fn one_node()
    ensures { (one other : Tree) (lines : List Line) → Blocks lines one → Blocks lines other → one ≡ other }
{}

/// No bytes are found to be two nodes, or to have two first faults, or a node and a fault.
pub fn one_answer()
    ensures { (bytes : List ℕ) (one other : Result Tree BlockFault) → IsFound bytes one → IsFound bytes other → one ≡ other }
{}

/// The lines, where they fit together and nest no deeper than 64.
fn right_lines(said: Verdict, found: Found) -> Result<Seq<Line>, BlockFault>
    requires { said ≡ verdict start found.lines }
    ensures right { IfOk result (AreRight found) }
    ensures refused { IfErr result (Judged found) }
{
    match said {
        Verdict::Wrong(line) => Err(BlockFault::Syntax { line }),
        Verdict::Right(deep) => match found.fault {
            Some(line) => Err(BlockFault::Syntax { line }),
            None => match deep {
                Some(line) => Err(BlockFault::TooDeep { line }),
                None => Ok(found.lines),
            },
        },
    }
}

fn lines_of(alloc: Global, bytes: &[u8]) -> Result<Seq<Line>, BlockFault>
    requires { length bytes.now ≤ 67_108_864 }
    ensures right { IfOk result (AreRight (found_in bytes.now)) }
    ensures refused { IfErr result (Judged (found_in bytes.now)) }
{
    let found = read_lines(alloc, bytes)?;
    let said = verdict_on(alloc, found.lines.as_slice())?;
    right_lines(said, found)
}

/// The node that the bytes spell: nothing, or a mapping. An empty file has no entries and is
/// `Empty`. `Syntax` exactly where no node fits, at the first line such that none fits the lines up
/// to it; then `TooDeep` exactly where mappings and lists nest deeper than 64, the file's mapping
/// being the first, at the line of the entry or item that holds the first such one; then `DoubleKey`
/// exactly where a key equals an earlier one of its mapping, at the first such key.
pub fn read_block(alloc: Global, bytes: &[u8]) -> Result<Node, BlockFault>
    requires { length bytes.now ≤ 67_108_864 }
    ensures spelled { IfOk result (λ node. IsBlock bytes.now (node_tree node)) }
    ensures refused { IfErr result (IsRefused bytes.now) }
{
    let lines = lines_of(alloc, bytes)?;
    let node = built(alloc, lines.as_slice())?;
    match double_key(alloc, &node)? {
        Some(line) => Err(BlockFault::DoubleKey { line }),
        None => Ok(node),
    }
}
