//! Calls of which some are named to fail.
ghost use Rattle.std.specs.Prelude.{◌≡◌, ◌↔◌, IsErr};
ghost use Rattle.io_edge.specs.Causes.{one_more};

use crate::Failed;

// The calls that fail, counted from 0, how many were made, and how many of those failed.
#[derive(Drop)]
pub(crate) struct Calls {
    failing: Vec<u64>,
    made: u64,
    faults: u64,
}

impl Calls {
    ghost use Rattle.io_edge.specs.Calls.{no_calls, FailsNext, CountsCall};

    pub(crate) fn new(failing: Vec<u64>) -> Calls
        ensures { result ≡ no_calls failing }
    {
        Calls {
            failing,
            made: 0,
            faults: 0,
        }
    }

    // Counts a call, which fails if it is one of those that are named.
    pub(crate) fn begin(&mut self) -> Result<(), Failed>
        ensures fails { IsErr result ↔ FailsNext self.old }
        ensures counted { CountsCall self.old self.new result }
    {
        let call = self.made;
        self.made = call.saturating_add(1);
        if self.failing.contains(&call) {
            return Err(self.fail());
        }
        Ok(())
    }

    // Counts a fault.
    pub(crate) fn fail(&mut self) -> Failed
        ensures same { self.new.failing ≡ self.old.failing }
        ensures made { self.new.made ≡ self.old.made }
        ensures faults { self.new.faults ≡ one_more self.old.faults }
    {
        self.faults = self.faults.saturating_add(1);
        Failed
    }
}
