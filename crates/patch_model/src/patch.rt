ghost use Rattle.std.specs.Prelude.{◌≡◌, IfErr, IfOk, map};
ghost use Rattle.yaml_block.specs.Nodes.{node_tree};
ghost use Rattle.patch_model.specs.Acts.{order_of};
ghost use Rattle.patch_form.specs.Unmet.{AllMet};
ghost use Rattle.patch_model.specs.Answers.{AreOrders, IsPatch, IsRefused};
ghost use Rattle.patch_form.specs.Mappings.{patch_demands};
ghost use Rattle.patch_model.specs.Orders.{patch_orders};

use crate::act::{Commands, Patterns};
use crate::fault::CommandFault;
use crate::leaf::entries_in;
use crate::opened::mapping_commands;
use crate::refusal::refusal;
use pac_base::NoMemory;
use patch_form::mapping::patch_fault;
use std::alloc::Global;
use yaml_block::Node;

fn patch_commands(alloc: Global, node: &Node) -> Result<Commands, NoMemory>
    requires met { AllMet (patch_demands (node_tree node.now)) }
    ensures { IfOk result (λ made. map order_of made ≡ patch_orders (node_tree node.now)) }
{
    let mut made = Commands::new(alloc);
    let parents = Patterns::new(alloc);
    mapping_commands(alloc, true, entries_in(node), &parents, &mut made)?;
    Ok(made)
}

/// The commands of a patch, which is a mapping or nothing, as `read_block` gives them, in the order
/// in which they are carried out: in each mapping `_delete`, `_copy`, `_modify`, `_add`, `_strip` and
/// `_array`, and then each opened pattern in the order of the file, with the commands of its mapping
/// behind it (svdtools' patch commands, narrowed). `UnknownCommand`, `UnknownKey`, `BadValue` and
/// `BadPattern` exactly where a demand on the patch isn't met: the first by line, and on one line in
/// this order.
pub fn commands(alloc: Global, node: &Node) -> Result<Commands, CommandFault>
    requires patch { IsPatch (node_tree node.now) }
    ensures listed { IfOk result (λ made. AreOrders (node_tree node.now) (map order_of made)) }
    ensures refused { IfErr result (λ fault. IsRefused (node_tree node.now) fault) }
{
    match patch_fault(alloc, node)? {
        Some(fault) => Err(refusal(fault)),
        None => Ok(patch_commands(alloc, node)?),
    }
}
