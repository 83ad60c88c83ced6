// One step.
ghost use Rattle.std.specs.Prelude.{◌≡◌};
ghost use Rattle.qs_machine.specs.Standing.{answer_of};

use crate::answers::{Cause, End, StepResult};
use crate::fetching::fetch;
use crate::machine::Machine;

fn answer_of(end: End) -> StepResult
    ensures { result ≡ answer_of end }
{
    match end {
        End::Exited(status) => StepResult::Exited(status),
        End::Trapped(cause, pc) => StepResult::Trapped(cause, pc),
    }
}

impl Machine {
    ghost use Rattle.std.specs.Prelude.{◌≤◌, length};
    ghost use Rattle.qs_machine.specs.Actions as action;
    ghost use Rattle.qs_machine.specs.Standing.{taken_of, Does, TakesStep, AnswersAgain};

    fn take_step(&mut self, input: &[u8]) -> StepResult
        requires { taken_of self.old ≤ length input.now }
        ensures does { Does self.old self.new input.now action.step result }
        ensures more { taken_of self.old ≤ taken_of self.new }
        ensures within { taken_of self.new ≤ length input.now }
    {
        match fetch(&self.instructions, self.pc) {
            None => StepResult::Trapped(Cause::FetchOutside, self.pc),
            Some(None) => StepResult::Trapped(Cause::IllegalInstruction, self.pc),
            Some(Some(instruction)) => self.act(instruction, input),
        }
    }

    // A step of a machine that has not ended.
    pub(crate) fn advance(&mut self, input: &[u8]) -> StepResult
        requires { taken_of self.old ≤ length input.now }
        ensures steps { TakesStep self.old self.new input.now result }
        ensures more { taken_of self.old ≤ taken_of self.new }
        ensures within { taken_of self.new ≤ length input.now }
    {
        match self.take_step(input) {
            StepResult::Going => StepResult::Going,
            StepResult::Put(byte) => StepResult::Put(byte),
            StepResult::Exited(status) => {
                self.ended = Some(End::Exited(status));
                StepResult::Exited(status)
            }
            StepResult::Trapped(cause, pc) => {
                self.ended = Some(End::Trapped(cause, pc));
                StepResult::Trapped(cause, pc)
            }
        }
    }

    /// Takes a step. `input` is the whole input, of which the machine has taken some: the rest is
    /// what is left. Takes no memory. A machine that has ended answers as it did then, and nothing
    /// changes.
    pub fn step(&mut self, input: &[u8]) -> StepResult
        requires { taken_of self.old ≤ length input.now }
        ensures steps { TakesStep self.old self.new input.now result }
        ensures again { AnswersAgain self.old self.new result }
        ensures more { taken_of self.old ≤ taken_of self.new }
        ensures within { taken_of self.new ≤ length input.now }
    {
        if let Some(end) = self.ended {
            return answer_of(end);
        }
        self.advance(input)
    }
}
