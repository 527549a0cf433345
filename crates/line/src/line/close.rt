//! Claiming a report and booking it in one go.
ghost use Rattle.line.specs.Closing.{Closes};

use crate::line::Line;
use key_record::refusal::Refusal;
use keypad::plan::Plan;

impl<P: Plan> Line<P> {
    // Claims the report and writes its line at the start of the memory. Memory is tested first: 85 bytes have
    // room for every report line, so no receipt is left over.
    pub fn close(&mut self, memory: &mut [u8]) -> Result<usize, Refusal>
        ensures { Closes P.Plan.whole P.Plan.rest self.old memory.old
            self.new memory.new result }
    {
        if memory.len() < 85 {
            return Err(Refusal::Memory);
        }
        let receipt = self.claim()?;
        Ok(self.book(receipt, memory).unwrap())
    }
}
