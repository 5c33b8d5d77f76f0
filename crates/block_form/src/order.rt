ghost use Rattle.std.specs.Prelude.{◌≡◌, map, IfOk};
ghost use Rattle.block_form.specs.Order.{by_offset};

use crate::child::Child;
use pac_base::NoMemory;
use std::alloc::Global;

/// The children by offset, those of one offset as they stood.
pub(crate) fn by_offset(alloc: Global, children: &[Child]) -> Result<Vec<&Child>, NoMemory>
    ensures { IfOk result (λ order. map (λ child. child.now) order.items ≡ by_offset children.now) }
{
    let mut order = Vec::new(alloc);
    for child in children {
        order.push(child)?;
    }
    order.sort_by_key(|child| child.offset)?;
    Ok(order)
}
