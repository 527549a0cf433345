//! Lists of calls played on a line.
ghost use Rattle.std.specs.Prelude.{◌≡◌, ◌+◌, ◌≤◌, length, vec_len, vec_capacity};
ghost use Rattle.key_record.specs.Agreement.{Recorded};
ghost use Rattle.keypad.specs.Sets.{Same};
ghost use Rattle.line_parts.specs.Dialled.{dialled};
ghost use Rattle.line.specs.Plays.{Called, Noted, played_shown};
ghost use Rattle.line.specs.Reports.{Brings};
ghost use Rattle.line.specs.Rooms.{Room};

use crate::line::Line;
use crate::play::{Played, Side};
use crate::receipt::Receipt;
use key_record::answer::{Answer, Progress, Reply};
use key_record::call::{Call, Numbers};
use key_record::refusal::Refusal;
use keypad::plan::Plan;
use line_parts::report::Report;

// The refusal of a settlement, its receipt taken apart.
fn refused(back: (Refusal, Receipt)) -> Refusal
    ensures { result ≡ back.0 }
{
    let (refusal, receipt) = back;
    let _ = receipt.spend();
    refusal
}

impl<P: Plan> Played<P> {
    // Books by plain numbers. No more than 85 bytes are lent, since no report line is longer.
    fn book(&mut self, numbers: Numbers, length: usize) -> Result<Answer, Refusal>
        requires { vec_len self.old.log.lines + 85 ≤ vec_capacity self.old.log.lines }
        ensures { Called P.Plan.whole P.Plan.rest self.old
            (Call.Book numbers length) result self.new }
    {
        let mut memory = [0; 85];
        let lent = length.min(85);
        let booked = self.line.book(Receipt::with(numbers), &mut memory[0..lent]);
        let written = booked.map_err(refused)?;
        let _ = self.log.lines.extend_from_slice(&memory[0..written]);
        Ok(Answer::Booked(written))
    }

    // Waives by plain numbers.
    fn waive(&mut self, numbers: Numbers) -> Result<Answer, Refusal>
        ensures { Called P.Plan.whole P.Plan.rest self.old (Call.Waive numbers) result
            self.new }
    {
        self.line.waive(Receipt::with(numbers)).map_err(refused)?;
        Ok(Answer::Waived)
    }

    // Claims, and takes the receipt apart.
    fn claim(&mut self) -> Result<Answer, Refusal>
        ensures { Called P.Plan.whole P.Plan.rest self.old Call.Claim result
            self.new }
    {
        let receipt = self.line.claim()?;
        Ok(Answer::Claimed(receipt.spend()))
    }

    // One call, with the bytes that it wrote.
    fn call(&mut self, call: Call) -> Result<Answer, Refusal>
        requires { vec_len self.old.log.lines + 85 ≤ vec_capacity self.old.log.lines }
        ensures { Called P.Plan.whole P.Plan.rest self.old call result self.new }
    {
        match call {
            Call::Arm(settings) => self.line.arm(settings).map(Answer::Moved),
            Call::Key(event) => self.line.key(event.key, event.tenths).map(Answer::Moved),
            Call::Expire(timer) => self.line.expire(timer).map(Answer::Moved),
            Call::Claim => self.claim(),
            Call::Book(numbers, length) => self.book(numbers, length),
            Call::Waive(numbers) => self.waive(numbers),
        }
    }

    // The report that an answer brought, if it brought one.
    fn report_of(&self, answer: Result<Answer, Refusal>) -> Option<Report>
        ensures { Brings answer self.now.line.phase
            (dialled self.now.line.dial) result }
    {
        match answer {
            Ok(Answer::Moved(Progress::Done)) => self.line.report(),
            _ => None,
        }
    }

    // One call, noted with its reply and the report that it brought.
    fn note(&mut self, call: Call)
        requires { Room self.old.log 1 }
        ensures { Noted P.Plan.whole P.Plan.rest self.old call self.new }
    {
        let answer = self.call(call);
        if let Some(report) = self.report_of(answer) {
            self.log.reports.push_reserved(report);
        }
        let timer = self.line.timer();
        self.log.replies.push_reserved(Reply { answer, timer });
    }
}

impl<P: Plan> Side<P> {
    // Plays the calls on a line straight from its making.
    pub(crate) fn play(self, number: u32) -> Played<P>
        ensures recorded { Recorded (P.Plan.whole self.plan) number self.calls.items (played_shown result) }
        ensures whole { Same (P.Plan.whole result.line.plan) (P.Plan.whole self.plan) }
    {
        let Side { plan, calls, log } = self;
        let mut played = Played {
            line: Line::new(number, plan),
            log,
        };
        for call in &calls {
            played.note(*call);
        }
        played
    }
}
