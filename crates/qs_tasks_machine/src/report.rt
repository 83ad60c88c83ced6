// What a run of tasks answers.
use qs_machine::Cause;

/// How a run of tasks ended.
#[derive(Clone, Copy)]
pub enum TasksEnd {
    /// No activation runs or waits, and no arrival is left.
    Done,
    /// This task trapped, for this cause; the pc is that of the instruction, or 0 at a return.
    Trapped { task: u32, cause: Cause, pc: u32 },
    /// All steps were taken, and the run goes on.
    StepLimit,
    /// The sink did not take a byte of the output.
    SinkFailed,
}

/// How a run of tasks ended, and how many activations of each task returned.
#[derive(Drop)]
pub struct TasksReport {
    /// How it ended.
    pub end: TasksEnd,
    /// For each task how many of its activations returned.
    pub returned: Vec<u64>,
}
