// Runs of tasks.
ghost use Rattle.std.specs.Prelude.{◌≡◌, ◌+◌, ◌<◌, ◌^◌, ◌++◌, [], ◌∷◌, length, map, IfOk};
ghost use Rattle.hex.specs.Hex.{encode_lower};
ghost use Rattle.qs_base.specs.Characters.{new_line, space};
ghost use Rattle.qs_ports.specs.SinkView.{PutsOn};
ghost use Rattle.qs_tasks_run.specs.Tasks.{arrival_of};
ghost use Rattle.qs_tasks_run.specs.TasksRun as definition;
ghost use Rattle.qs_tasks_machine.specs.Harts.{HasRoom, IsFresh, RunsSome, RunsTasks, scene_of};
ghost use Rattle.qs_tasks_machine.specs.Reports.{AreArrivals, EndsAs, Instructs, MayStart, Reports};
ghost use Rattle.qs_tasks_machine.specs.Reports.{system_of};

use crate::hart::{Hart, Trap};
use crate::report::{TasksEnd, TasksReport};
use hex::encode_to_slice;
use qs_base::NoMemory;
use qs_image::ImageView;
use qs_machine::{Cause, StepResult};
use qs_ports::{Sink, SinkFault, put_all};
use qs_tasks_run::{Arrival, Task};
use std::alloc::Global;

// The line of an output byte.
fn put_line<K: Sink>(out: &mut K, name: &[u8], byte: u8) -> Result<(), SinkFault>
    ensures { PutsOn K.view out.old out.new (name.now ++ space ∷ (encode_lower (byte ∷ []) ++ new_line ∷ [])) result }
{
    let mut digits = [b'0'; 2];
    encode_to_slice([byte].as_slice(), &mut digits).unwrap();
    put_all(out, name)?;
    put_all(out, &[b' ', digits[0], digits[1], b'\n'])
}

fn trapped(trap: Trap) -> TasksEnd
    ensures { result ≡ TasksEnd.Trapped trap.task trap.cause trap.pc }
{
    TasksEnd::Trapped {
        task: trap.task,
        cause: trap.cause,
        pc: trap.pc,
    }
}

impl<'a> Hart<'a> {
    // An instruction of the task that runs, and the byte that it puts.
    fn instruct(&mut self) -> Result<Option<u8>, Trap>
        requires some { 0 < length self.old.running.items }
        requires time { self.old.time + 1 < 2 ^ 64 }
        requires tasks { RunsSome self.old }
        requires room { HasRoom self.old 0 }
        ensures instructs { Instructs self.old self.new result }
        ensures room { HasRoom self.new 0 }
        ensures time { self.new.time ≡ self.old.time + 1 }
    {
        let task = self.running[0];
        let tasks = self.tasks;
        self.machine.set_taken(self.taken[task as usize]);
        let result = self.machine.step(&tasks[task as usize].input);
        self.taken[task as usize] = self.machine.taken();
        self.time += 1;
        match result {
            StepResult::Going => Ok(None),
            StepResult::Put(byte) => Ok(Some(byte)),
            StepResult::Exited(_) => Err(Trap {
                task,
                cause: Cause::UnknownCall,
                pc: self.machine.pc(),
            }),
            StepResult::Trapped(cause, pc) => Err(Trap { task, cause, pc }),
        }
    }

    fn run<K: Sink>(&mut self, steps: u64, out: &mut K) -> TasksEnd
        requires tasks { RunsSome self.old }
        requires room { HasRoom self.old 0 }
        requires fresh { IsFresh self.old }
        ensures { (y : definition.System) → RunsTasks self.old y → EndsAs y (definition.run y steps (scene_of y self.old [])) (K.view out.old) (K.view out.new) result self.new.returned.items }
    {
        'steps: for _ in 0..steps {
            if let Err(trap) = self.settle() {
                return trapped(trap);
            }
            if self.running.is_empty() {
                return TasksEnd::Done;
            }
            let tasks = self.tasks;
            let task = self.running[0];
            let put = match self.instruct() {
                Err(trap) => return trapped(trap),
                Ok(put) => put,
            };
            match put {
                None => {}
                Some(byte) => {
                    if put_line(out, tasks[task as usize].name.bytes(), byte).is_err() {
                        return TasksEnd::SinkFailed;
                    }
                }
            }
        }
        if let Err(trap) = self.settle() {
            return trapped(trap);
        }
        if self.running.is_empty() {
            TasksEnd::Done
        } else {
            TasksEnd::StepLimit
        }
    }
}

/// Runs tasks on the image, on one stack of so many bytes, for at most so many instructions. Each
/// byte that a task puts is the line `NAME HH` on `out`. All memory is taken before the first
/// instruction.
pub fn run_tasks<K: Sink>(
    alloc: Global,
    image: &ImageView<'_>,
    stack: u64,
    tasks: &[Task],
    arrivals: &[Arrival],
    steps: u64,
    out: &mut K,
) -> Result<TasksReport, NoMemory>
    requires start { MayStart image.now stack tasks.now }
    requires arrivals { AreArrivals tasks.now arrivals.now }
    ensures { IfOk result (Reports (system_of image.now stack tasks.now) (definition.tasks_run (system_of image.now stack tasks.now) (map arrival_of arrivals.now) steps) (K.view out.old) (K.view out.new)) }
{
    let mut hart = Hart::new(alloc, image, stack, tasks, arrivals)?;
    let end = hart.run(steps, out);
    Ok(TasksReport {
        end,
        returned: hart.returned,
    })
}
