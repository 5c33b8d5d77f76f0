ghost use Rattle.std.specs.Prelude.{◌≡◌};
ghost use Rattle.dim_expand.specs.Causes.{dim_cause, members_cause, index_cause};
ghost use Rattle.dim_expand.specs.Marks.{is_marked};

use crate::fault::Cause;
use crate::index::indexes_given;
use crate::mark::is_marked;
use pac_base::Name;
use svd_model::Dim;
use svd_values::DimIndex;

/// How many members an element may have.
const LIMIT: u64 = 65_536;

/// What is wrong with indexes of that many members.
fn index_cause(members: u64, index: &Option<DimIndex>) -> Option<Cause>
    ensures { result ≡ index_cause members index.now }
{
    match index {
        Some(index) => {
            let given = indexes_given(index);
            if given == members {
                None
            } else {
                Some(Cause::IndexCount {
                    dim: members,
                    given,
                })
            }
        }
        None => None,
    }
}

/// What is wrong with an element of that many members.
fn members_cause(marked: bool, members: u64, index: &Option<DimIndex>) -> Option<Cause>
    ensures { result ≡ members_cause marked members index.now }
{
    if members == 0 {
        Some(Cause::Zero)
    } else if LIMIT < members {
        Some(Cause::TooLong { dim: members })
    } else if marked {
        index_cause(members, index)
    } else {
        Some(Cause::NoMark)
    }
}

/// What is wrong with the dimension of an element of that name.
#[tactic(auto, unfolding(crate::specs::Causes::dim_cause))]
pub fn dim_cause(name: &Name, dim: &Dim) -> Option<Cause>
    ensures { result ≡ dim_cause (is_marked name.now) dim.now.count dim.now.index }
{
    let marked = is_marked(name);
    match dim.count {
        Some(members) => members_cause(marked, members, &dim.index),
        None if marked => Some(Cause::NoMark),
        None => None,
    }
}
