// Runs.
ghost use Rattle.std.specs.Prelude.{◌≡◌, ◌≤◌, length};
ghost use Rattle.qs_machine.specs.Standing.{taken_of};
ghost use Rattle.qs_machine.specs.Running.{run_end_of, Runs, EndsAgain};

use crate::answers::{End, RunEnd, StepResult};
use crate::machine::Machine;
use qs_ports::{Sink, put_all};

fn run_end_of(end: End) -> RunEnd
    ensures { result ≡ run_end_of end }
{
    match end {
        End::Exited(status) => RunEnd::Exited(status),
        End::Trapped(cause, pc) => RunEnd::Trapped(cause, pc),
    }
}

impl Machine {
    /// Takes at most so many steps, and puts each byte of the output on the sink at once. `input`
    /// is the whole input, of which the machine has taken some. Takes no memory.
    ///
    /// A machine that has ended answers as it did then, and nothing changes. After `SinkFailed` the
    /// machine stands behind the step that put the byte which the sink did not take.
    pub fn run<K: Sink>(&mut self, steps: u64, input: &[u8], out: &mut K) -> RunEnd
        requires { taken_of self.old ≤ length input.now }
        ensures runs { Runs K.view self.old self.new out.old out.new input.now steps result }
        ensures again { EndsAgain self.old self.new out.old out.new result }
        ensures more { taken_of self.old ≤ taken_of self.new }
        ensures within { taken_of self.new ≤ length input.now }
    {
        if let Some(end) = self.ended {
            return run_end_of(end);
        }
        for _ in 0..steps {
            match self.advance(input) {
                StepResult::Going => {}
                StepResult::Put(byte) => {
                    if put_all(out, &[byte]).is_err() {
                        return RunEnd::SinkFailed;
                    }
                }
                StepResult::Exited(status) => return RunEnd::Exited(status),
                StepResult::Trapped(cause, pc) => return RunEnd::Trapped(cause, pc),
            }
        }
        RunEnd::StepLimit
    }
}
