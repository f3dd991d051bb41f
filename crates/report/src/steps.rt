// A record's step, with what it gives to the totals of the identification under which it is made.
ghost use Rattle.std.specs.Prelude.{is_ok};
ghost use Rattle.trace.specs.declared.Command.{Command as Asked};
ghost use Rattle.report.specs.Replays.{Ready, SameRuns, Stepped, machine_in};
ghost use Rattle.report.specs.Tallies.{CountGives, tally_step};

use crate::gains::{book_access, book_store};
use crate::{PastLimit, Replay};
use registers::{Access, Outcome, Reply};
use trace::Command;

impl<'a> Replay<'a> {
    // Makes a record's call, and keeps the registers that it leaves. It is compiled into its callers, which know how long the lent runs are:
    // that makes the loops over a directory's words quicker.
    #[inline(always)]
    fn step(&mut self, command: Command) -> Reply
        ensures runs { SameRuns self.old self.new }
        ensures stepped { Stepped self.old command result self.new }
    {
        let reply = trace::step(self.registers, self.buffer, self.words, command);
        self.registers = reply.registers;
        reply
    }

    // An access: the call, and what it gives.
    fn count_access(&mut self, access: Access) -> Result<(), PastLimit>
        requires { Ready self.old }
        ensures runs { SameRuns self.old self.new }
        ensures counted { CountGives (tally_step (machine_in self.old) self.old.totals.now (Asked.Serve access)) (is_ok result) self.new }
    {
        let context = self.registers.context;
        let reply = self.step(Command::Serve(access));
        book_access(self.totals, context, reply.outcome, reply.loads)
    }

    // A store: the call, and what it gives. The index follows the tables.
    fn count_store(&mut self, index: u32, value: u32) -> Result<(), PastLimit>
        requires { Ready self.old }
        ensures runs { SameRuns self.old self.new }
        ensures counted { CountGives (tally_step (machine_in self.old) self.old.totals.now (Asked.Store index value)) (is_ok result) self.new }
    {
        let context = self.registers.context;
        // The runs get names: of a field that is lent as it is, a proof would know the length alone behind the call.
        let words = &mut *self.words;
        let links = &mut *self.links;
        let presents = &mut *self.presents;
        let before = reach::leaf_count(words, links, presents);
        let old = words.get(index as usize).copied().unwrap_or(0);
        let reply = self.step(Command::Store(index, value));
        let Outcome::Done(emptied) = reply.outcome else {
            return Ok(());
        };
        let words = &mut *self.words;
        let links = &mut *self.links;
        let presents = &mut *self.presents;
        reach::stored(words, links, presents, index, old);
        let after = reach::leaf_count(words, links, presents);
        book_store(self.totals, context, emptied, before, after)
    }

    // Makes a record's call and books what it gives. A setting gives nothing, nor does a record that is malformed.
    pub(crate) fn count_step(&mut self, command: Command) -> Result<(), PastLimit>
        requires { Ready self.old }
        ensures runs { SameRuns self.old self.new }
        ensures counted { CountGives (tally_step (machine_in self.old) self.old.totals.now command) (is_ok result) self.new }
    {
        match command {
            Command::Serve(access) => self.count_access(access),
            Command::Store(index, value) => self.count_store(index, value),
            Command::Set(_, _) | Command::Malformed => {
                self.step(command);
                Ok(())
            }
        }
    }
}
