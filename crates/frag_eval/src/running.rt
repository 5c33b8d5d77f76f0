ghost use Rattle.std.specs.Prelude.{◌≤◌};
ghost use Rattle.frag_eval.specs.Answers.{Runs, Steps};
ghost use Rattle.frag_eval.specs.Courses.{IsCourse};
ghost use Rattle.frag_eval.specs.Runs.{Begins, HasSpare};
ghost use Rattle.frag_eval.specs.Stages.{Arrives, stage_seen};

use crate::course::Course;
use crate::ready::Ready;
use crate::stage::{BusFault, Running, Stage};
use frag_tree::Events;
use pac_base::Back;
use pac_bus::{Bus, BusFailed};

/// Puts a run under way: says what is to be said before the first access. Takes no memory.
pub fn begin(ready: Ready) -> Stage
    ensures { Begins ready (stage_seen result) }
{
    go_on(ready.course)
}

/// Makes one access of the bus, and says what is to be said behind it. Takes no memory. Where the bus
/// fails the run comes back as it was.
pub fn step<B: Bus>(running: Running, bus: &mut B) -> Result<Stage, Back<Running, BusFailed>>
    requires { 1 ≤ (B.told bus.old).spare }
    ensures { Steps result (B.told bus.old) (B.told bus.new) running }
{
    let mut course = running.course;
    match course.access(bus) {
        Ok(()) => Ok(go_on(course)),
        Err(fault) => Err(Back {
            state: Running { course },
            fault,
        }),
    }
}

/// Runs a script to its end, access by access. Takes no memory.
pub fn run<B: Bus>(ready: Ready, bus: &mut B) -> Result<Events, BusFault>
    requires { HasSpare (B.told bus.old) ready }
    ensures { Runs result (B.told bus.old) (B.told bus.new) ready }
{
    let mut stage = begin(ready);
    loop {
        match stage {
            Stage::Done(events) => return Ok(events),
            Stage::Running(running) => match step(running, bus) {
                Ok(next) => stage = next,
                Err(back) => {
                    let events = back.state.into_made();
                    return Err(BusFault {
                        done: events.len() as u64,
                        events,
                    });
                }
            },
        }
    }
}

/// Says what is to be said before the next access.
fn go_on(course: Course) -> Stage
    requires { IsCourse course }
    ensures { Arrives course (stage_seen result) }
{
    let mut course = course;
    course.say_all();
    if course.next < course.deeds.len() {
        return Stage::Running(Running { course });
    }
    Stage::Done(course.made)
}
