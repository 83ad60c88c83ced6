// The hart that tasks share, and what comes before its next instruction.
ghost use Rattle.std.specs.Prelude.{[], ◌≡◌, ◌+◌, ◌<◌, ◌≤◌, drop, length, map, slice_index};
ghost use Rattle.qs_machine.specs.Parts.{memory_in};
ghost use Rattle.qs_tasks_run.specs.Tasks.{task_of};
ghost use Rattle.qs_tasks_run.specs.Contexts.{taken_back};
ghost use Rattle.qs_tasks_run.specs.TasksRun as definition;
ghost use Rattle.qs_tasks_machine.specs.Harts.{Acts, HasRoom, IsChosen, IsFewer, RunsSome, RunsTasks};
ghost use Rattle.qs_tasks_machine.specs.Harts.{Turns, count_of, has_returned, is_due, scene_of};
ghost use Rattle.qs_tasks_machine.specs.Harts.{stack_pointer_in};

use crate::contexts::{CONTEXT_BYTES, STACK_POINTER, enter, take_back, word_at};
use qs_machine::{Cause, Machine};
use qs_tasks_run::{Arrival, Task};

/// The address behind the stack's highest byte.
pub const STACK_TOP: u32 = 0x8000_0000;

/// Why a run of tasks goes no further.
#[derive(Clone, Copy)]
pub struct Trap {
    pub task: u32,
    pub cause: Cause,
    pub pc: u32,
}

/// The machine, the activations that run, wait and are to come, and what was counted.
#[derive(Drop)]
pub struct Hart<'a> {
    pub machine: Machine,
    /// The lowest address of the stack.
    pub base: u32,
    pub tasks: &'a [Task],
    /// Where the function of each task begins.
    pub entries: Vec<u32>,
    /// The tasks of the activations that run or are interrupted, the running one first.
    pub running: Vec<u32>,
    /// The tasks of the arrivals that wait, the earliest first.
    pub waiting: Vec<u32>,
    /// The arrivals that are still to come.
    pub coming: &'a [Arrival],
    /// How many instructions there were.
    pub time: u64,
    /// How many bytes of its input each task has taken.
    pub taken: Vec<usize>,
    /// How many activations of each task have returned.
    pub returned: Vec<u64>,
}

fn priority(tasks: &[Task], task: u32) -> u8
    requires { task < length tasks.now }
    ensures { result ≡ (definition.task_at (map task_of tasks.now) task).priority }
{
    tasks[task as usize].priority
}

// The arrivals behind the first.
fn behind_first(arrivals: &[Arrival]) -> &[Arrival]
    requires { 0 < length arrivals.now }
    ensures { result.now ≡ drop 1 arrivals.now }
{
    &arrivals[1..]
}

impl<'a> Hart<'a> {
    // Whether a task has a greater priority than the one that runs.
    fn comes_first(&self, task: u32) -> bool
        requires known { task < count_of self.now }
        requires tasks { RunsSome self.now }
        ensures { (y : definition.System) → RunsTasks self.now y → result ≡ definition.comes_first y task self.now.running.items }
    {
        if self.running.is_empty() {
            return true;
        }
        let other = self.running[0];
        priority(self.tasks, other) < priority(self.tasks, task)
    }

    fn begin(&mut self, task: u32) -> Result<(), Trap>
        requires known { task < count_of self.old }
        requires tasks { RunsSome self.old }
        requires room { HasRoom self.old 1 }
        ensures acts { Acts self.old self.new (λ y s. definition.begin y task s) result }
        ensures room { HasRoom self.new 0 }
    {
        if self.machine.register(STACK_POINTER) < self.base + CONTEXT_BYTES {
            return Err(Trap {
                task,
                cause: Cause::Overflow,
                pc: self.machine.pc(),
            });
        }
        enter(&mut self.machine, self.entries[task as usize]);
        self.running.insert(0, task).unwrap();
        Ok(())
    }

    fn arrive(&mut self, task: u32) -> Result<(), Trap>
        requires known { task < count_of self.old }
        requires tasks { RunsSome self.old }
        requires room { HasRoom self.old 1 }
        ensures acts { Acts self.old self.new (λ y s. definition.arrive y task s) result }
        ensures room { HasRoom self.new 0 }
    {
        if self.comes_first(task) {
            return self.begin(task);
        }
        self.waiting.push(task).unwrap();
        Ok(())
    }

    // The place of the one that waits and has the greatest priority, the earliest among equals.
    fn choice(&self) -> Option<usize>
        requires { RunsSome self.now }
        ensures { (y : definition.System) → RunsTasks self.now y → IsChosen y self.now.waiting.items result }
    {
        if self.waiting.is_empty() {
            return None;
        }
        let mut best = self.waiting.len() - 1;
        let mut i = best;
        'choose: while i > 0 {
            i -= 1;
            if priority(self.tasks, self.waiting[i]) >= priority(self.tasks, self.waiting[best]) {
                best = i;
            }
        }
        Some(best)
    }

    fn start_waiting(&mut self) -> Result<(), Trap>
        requires tasks { RunsSome self.old }
        requires room { HasRoom self.old 0 }
        ensures acts { Acts self.old self.new (λ y s. definition.start_waiting y (definition.choice y s.waiting) s) result }
        ensures room { HasRoom self.new 0 }
    {
        let Some(place) = self.choice() else {
            return Ok(());
        };
        let task = self.waiting[place];
        if !self.comes_first(task) {
            return Ok(());
        }
        self.waiting.remove(place);
        self.begin(task)
    }

    // Whether no context stands between x2 and the top, or the one that does would leave the stack.
    fn is_off_stack(&self) -> bool
        requires { RunsSome self.now }
        ensures { (y : definition.System) → RunsTasks self.now y → result ≡ definition.is_off_stack y (scene_of y self.now []) (taken_back (memory_in self.now.machine) (stack_pointer_in self.now.machine)) }
    {
        let sp = self.machine.register(STACK_POINTER);
        if STACK_TOP < sp + CONTEXT_BYTES {
            return true;
        }
        let outer = word_at(&self.machine, sp + 4 * STACK_POINTER);
        outer < self.base || STACK_TOP < outer
    }

    // The activation that runs returns.
    fn return_from(&mut self) -> Result<(), Trap>
        requires some { 0 < length self.old.running.items }
        requires tasks { RunsSome self.old }
        requires room { HasRoom self.old 0 }
        ensures acts { Acts self.old self.new (λ y s. definition.return_from y (slice_index s.running 0) (drop 1 s.running) s) result }
        ensures room { HasRoom self.new 0 }
    {
        let task = self.running[0];
        self.returned[task as usize] += 1;
        self.running.remove(0);
        if self.is_off_stack() {
            return Err(Trap {
                task,
                cause: Cause::Overflow,
                pc: 0,
            });
        }
        let sp = self.machine.register(STACK_POINTER);
        if word_at(&self.machine, sp) % 4 != 0 {
            return Err(Trap {
                task,
                cause: Cause::JumpMisaligned,
                pc: 0,
            });
        }
        take_back(&mut self.machine, sp);
        self.start_waiting()
    }

    // Whether the activation that runs has returned.
    fn has_returned(&self) -> bool
        ensures { result ≡ has_returned self.now }
    {
        !self.running.is_empty() && self.machine.pc() == 0
    }

    fn is_due(&self, at: u64) -> bool
        ensures { result ≡ is_due self.now at }
    {
        self.running.is_empty() || at <= self.time
    }

    // One return or arrival, and whether there was one.
    fn act(&mut self) -> Result<bool, Trap>
        requires tasks { RunsSome self.old }
        requires room { HasRoom self.old 0 }
        ensures turns { Turns self.old self.new result }
        ensures fewer { IsFewer self.old self.new result }
        ensures room { HasRoom self.new 0 }
    {
        if self.has_returned() {
            self.return_from()?;
            return Ok(true);
        }
        if self.coming.is_empty() {
            return Ok(false);
        }
        let first = self.coming[0];
        if !self.is_due(first.at) {
            return Ok(false);
        }
        self.coming = behind_first(self.coming);
        self.arrive(first.task)?;
        Ok(true)
    }

    /// Whatever comes before the next instruction.
    pub fn settle(&mut self) -> Result<(), Trap>
        requires tasks { RunsSome self.old }
        requires room { HasRoom self.old 0 }
        ensures acts { Acts self.old self.new (λ y s. definition.settle y s) result }
        ensures room { HasRoom self.new 0 }
    {
        'settle: while self.act()? {}
        Ok(())
    }
}
