// The hart before the first arrival.
ghost use Rattle.std.specs.Prelude.{◌≡◌, ◌≤◌, map, [], IfOk};
ghost use Rattle.qs_machine.specs.State.{stack_limit};
ghost use Rattle.qs_tasks_run.specs.Tasks.{arrival_of};
ghost use Rattle.qs_tasks_run.specs.TasksRun.{start};
ghost use Rattle.qs_tasks_machine.specs.Harts.{HasRoom, IsFresh, RunsTasks, scene_of};
ghost use Rattle.qs_tasks_machine.specs.Reports.{AreArrivals, AreEntries, HaveFunctions, StandsReady, system_of};

use crate::hart::{Hart, STACK_TOP};
use qs_base::NoMemory;
use qs_image::ImageView;
use qs_machine::{Machine, load};
use qs_tasks_run::{Arrival, Task};
use std::alloc::Global;

// Where the function of each task begins.
fn entries(alloc: Global, image: &ImageView<'_>, tasks: &[Task]) -> Result<Vec<u32>, NoMemory>
    requires { HaveFunctions image.now tasks.now }
    ensures { IfOk result (λ entries. AreEntries image.now 0 tasks.now entries.items) }
{
    let mut entries = Vec::new(alloc);
    for task in tasks {
        entries.push(image.functions(task.function.0).address)?;
    }
    Ok(entries)
}

// A machine whose pc and registers but x2 are 0.
fn machine(alloc: Global, image: &ImageView<'_>, stack: u64) -> Result<Machine, NoMemory>
    requires { stack ≤ stack_limit }
    ensures { IfOk result (StandsReady image.now stack) }
{
    let args = [0; 8];
    let count = image.parameters() as usize;
    match load(alloc, image, stack, &args[..count]) {
        Err(_) => Err(NoMemory),
        Ok(mut machine) => {
            machine.set_pc(0);
            Ok(machine)
        }
    }
}

impl<'a> Hart<'a> {
    /// The hart on which nothing runs yet, on a stack of so many bytes.
    pub fn new(
        alloc: Global,
        image: &ImageView<'_>,
        stack: u64,
        tasks: &'a [Task],
        arrivals: &'a [Arrival],
    ) -> Result<Hart<'a>, NoMemory>
        requires small { stack ≤ stack_limit }
        requires functions { HaveFunctions image.now tasks.now }
        requires known { AreArrivals tasks.now arrivals.now }
        ensures tasks { IfOk result (λ hart. RunsTasks hart (system_of image.now stack tasks.now)) }
        ensures start { IfOk result (λ hart. scene_of (system_of image.now stack tasks.now) hart [] ≡ start (system_of image.now stack tasks.now) (map arrival_of arrivals.now)) }
        ensures room { IfOk result (λ hart. HasRoom hart 0) }
        ensures fresh { IfOk result IsFresh }
    {
        Ok(Hart {
            machine: machine(alloc, image, stack)?,
            base: STACK_TOP - stack as u32,
            tasks,
            entries: entries(alloc, image, tasks)?,
            running: Vec::with_capacity(alloc, arrivals.len())?,
            waiting: Vec::with_capacity(alloc, arrivals.len())?,
            coming: arrivals,
            time: 0,
            taken: vec![in alloc; 0; tasks.len()]?,
            returned: vec![in alloc; 0; tasks.len()]?,
        })
    }
}
