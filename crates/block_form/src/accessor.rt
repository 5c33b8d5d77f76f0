ghost use Rattle.std.specs.Prelude.{◌≡◌, IfOk};
ghost use Rattle.block_form.specs.Forms.{access_of, body_of};

use crate::child::Child;
use crate::field::element;
use frag_tree::{Access, Body};
use pac_base::NoMemory;

/// The accessor of a child, which has a field in the struct or not.
pub(crate) fn access(taken: bool, child: &Child) -> Result<Access, NoMemory>
    ensures { IfOk result (λ access. access ≡ access_of taken child.now) }
{
    Ok(Access {
        name: child.name.copy()?,
        is_indexed: child.array.is_some(),
        element: element(child)?,
        body: body(taken, child)?,
    })
}

fn body(taken: bool, child: &Child) -> Result<Body, NoMemory>
    ensures { IfOk result (λ body. body ≡ body_of taken child.now.name child.now.offset child.now.array) }
{
    let offset = child.offset;
    match (taken, child.array) {
        (true, None) => Ok(Body::Field {
            field: child.name.copy()?,
        }),
        (true, Some(_array)) => Ok(Body::Member {
            field: child.name.copy()?,
        }),
        (false, None) => Ok(Body::At { offset }),
        (false, Some(array)) => Ok(Body::AtIndex {
            offset,
            stride: array.stride,
            count: array.count,
        }),
    }
}
