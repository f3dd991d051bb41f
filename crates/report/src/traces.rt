// A run of records, replayed for the totals.
ghost use Rattle.std.specs.Prelude.{is_ok};
ghost use Rattle.trace.specs.Commands.{commands_of};
ghost use Rattle.report.specs.Replays.{Ready, SameRuns, machine_in};
ghost use Rattle.report.specs.Tallies.{CountGives, tally_of};

use crate::{PastLimit, Replay};

impl<'a> Replay<'a> {
    // Makes the calls of an input's records one after the other, and books what each gives under the context of that moment. It stops at
    // the record that takes a total past the limit: that record was made.
    pub fn run(&mut self, input: &[u8]) -> Result<(), PastLimit>
        requires { Ready self.old }
        ensures runs { SameRuns self.old self.new }
        ensures counted { CountGives (tally_of (machine_in self.old) self.old.totals.now (commands_of input.now)) (is_ok result) self.new }
    {
        let count = input.len().div_ceil(8);
        for i in 0..count {
            self.count_step(trace::command_at(input, i))?;
        }
        Ok(())
    }
}
