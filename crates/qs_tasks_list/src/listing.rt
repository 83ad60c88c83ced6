// Lists of tasks.
ghost use Rattle.std.specs.Prelude.{◌≡◌, IfErr, IfOk, map};
ghost use Rattle.qs_syntax.specs.declared.unit.Unit.{Unit as SourceUnit};
ghost use Rattle.qs_typing_findings.specs.TypedOf.{typed_tree};
ghost use Rattle.qs_tasks_list.specs.Lines.{arrival_line, task_line};
ghost use Rattle.qs_tasks_list.specs.LinesOf.{Adds, IsListFault, SaysAll, placed_tree};
ghost use Rattle.qs_tasks_list.specs.Listing.{listing_of, number_among};
ghost use Rattle.qs_tasks_run.specs.Tasks.{task_of};

use crate::fault::TasksFault;
use crate::functions::task_function;
use crate::lines::Line;
use crate::placed::{Placed, lines};
use qs_base::{Name, NoMemory, count};
use qs_syntax::Unit;
use qs_tasks_run::{Arrival, Task};
use qs_typing_findings::TypedUnit;
use std::alloc::Global;

/// What a list says so far, and when its last arrival comes.
#[derive(Drop)]
pub struct Said {
    pub tasks: Vec<Task>,
    pub arrivals: Vec<Arrival>,
    pub last: u64,
}

// The number of the task of this name.
fn number_among(tasks: &[Task], name: &Name) -> Result<Option<u32>, NoMemory>
    ensures { IfOk result (λ number. number ≡ number_among 0 name.now (map task_of tasks.now)) }
{
    for i in 0..tasks.len() {
        if tasks[i].name == *name {
            return Ok(Some(count(i)?));
        }
    }
    Ok(None)
}

impl Said {
    // A task's function is there, and its name is new.
    fn add_task(
        &mut self,
        unit: &Unit,
        at: u32,
        name: Name,
        priority: u8,
        input: Vec<u8>,
    ) -> Result<(), TasksFault>
        ensures { Adds unit.now self.old self.new at (task_line name priority input.items) result }
    {
        let function = match task_function(unit, name.bytes())? {
            None => return Err(TasksFault::NoFunction(at)),
            Some(function) => function,
        };
        if number_among(&self.tasks, &name)?.is_some() {
            return Err(TasksFault::Twice(at));
        }
        self.tasks.push(Task {
            function,
            name,
            priority,
            input,
        })?;
        Ok(())
    }

    // An arrival's task is there, and it comes no earlier than the one before.
    fn add_arrival(&mut self, at: u32, time: u64, name: &Name) -> Result<(), TasksFault>
        ensures { (u : SourceUnit) → Adds u self.old self.new at (arrival_line time name.now) result }
    {
        let Some(task) = number_among(&self.tasks, name)? else {
            return Err(TasksFault::NoTask(at));
        };
        if time < self.last {
            return Err(TasksFault::Order(at));
        }
        self.arrivals.push(Arrival { at: time, task })?;
        self.last = time;
        Ok(())
    }

    fn add(&mut self, unit: &Unit, placed: Placed) -> Result<(), TasksFault>
        ensures { Adds unit.now self.old self.new placed.at (placed_tree placed).line result }
    {
        let Placed { at, line } = placed;
        match line {
            Line::Task {
                name,
                priority,
                input,
            } => self.add_task(unit, at, name, priority, input),
            Line::Arrival { at: time, name } => self.add_arrival(at, time, &name),
        }
    }
}

/// The tasks and arrivals of a list, or the first fault in it. A line of a task names a function of
/// the unit with a body and without parameters, other than `main`.
pub fn list(
    alloc: Global,
    text: &[u8],
    unit: &TypedUnit,
) -> Result<(Vec<Task>, Vec<Arrival>), TasksFault>
    ensures listed { IfOk result (λ l. SaysAll (listing_of (typed_tree unit.now) text.now) l.0.items l.1.items) }
    ensures fault { IfErr result (IsListFault (listing_of (typed_tree unit.now) text.now)) }
{
    let mut said = Said {
        tasks: Vec::new(alloc),
        arrivals: Vec::new(alloc),
        last: 0,
    };
    let lines = lines(alloc, text)?;
    for placed in lines {
        said.add(unit.unit(), placed)?;
    }
    Ok((said.tasks, said.arrivals))
}
