ghost use Rattle.std.specs.Prelude.{◌≡◌};

use crate::course::Course;
use frag_types::TypedScript;
use std::marker::Model;

/// A script that is ready to run against a crate, with the room for all that it does. Contracts see it as
/// that crate and that script; it borrows neither, and of the crate it holds what the run needs alone.
#[derive(Drop)]
pub struct Ready {
    pub(crate) course: Course,
}

impl Model for Ready {
    ghost use Rattle.frag_eval.specs.Courses.{IsReady, ready_of};
    ghost use Rattle.frag_eval.specs.Runs.{Readied};
    ghost use Rattle.frag_tree.specs.contracts.block.Module as module_row;
    ghost use Rattle.std.specs.Coded.{codes};

    ghost coded = { Prim.hlevel (codes, module_row.the_row.coded) };

    ghost Value = { Readied };

    ghost view = { λ ready. ready_of ready.course };

    ghost invariant = { λ ready. IsReady ready.course };
}

impl Ready {
    /// The script that it holds. Takes no memory.
    pub fn into_script(self) -> TypedScript
        ensures { result ≡ self.script }
    {
        let course = self.course;
        course.script
    }
}
