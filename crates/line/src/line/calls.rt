//! The calls of a line.
ghost use Rattle.std.specs.Prelude.{◌≡◌};
ghost use Rattle.line.specs.Does.{Does, moved, handed, call_of};
ghost use Rattle.line.specs.Settled.{Booked, Waived, Presented};
ghost use Rattle.line.specs.Lines.{state_of};

use crate::line::Line;
use crate::receipt::Receipt;
use key_record::answer::Progress;
use key_record::call::{Call, Numbers};
use key_record::ending::{Ending, Phase};
use key_record::refusal::Refusal;
use key_record::settings::Settings;
use key_record::timer::Timer;
use keypad::key::KeyEvent;
use keypad::plan::Plan;
use line_parts::report::Report;

// What moves a line on: an arming, a key or an expiry. The line matches its own phase together with it.
#[derive(Clone, Copy)]
enum Input {
    Arm(Settings),
    Key(KeyEvent),
    Expire(Timer),
}

// A clause names the members of a bound one by one, so a plan's whole and rest stand side by side in each.
impl<P: Plan> Line<P> {
    // Arms an idle line: its plan is rewound and its keys ahead are fed to it.
    pub fn arm(&mut self, settings: Settings) -> Result<Progress, Refusal>
        ensures { Does P.Plan.whole P.Plan.rest self.old (Call.Arm settings) (moved result)
            self.new }
    {
        self.advance(Input::Arm(settings))
    }

    // One key, held for so many tenths of a second.
    pub fn key(&mut self, key: u8, tenths: u16) -> Result<Progress, Refusal>
        ensures { Does P.Plan.whole P.Plan.rest self.old
            (Call.Key (record { key = key; tenths = tenths })) (moved result) self.new }
    {
        self.advance(Input::Key(KeyEvent { key, tenths }))
    }

    // The running timer has expired.
    pub fn expire(&mut self, timer: Timer) -> Result<Progress, Refusal>
        ensures { Does P.Plan.whole P.Plan.rest self.old (Call.Expire timer) (moved result)
            self.new }
    {
        self.advance(Input::Expire(timer))
    }

    // What an arming, a key or an expiry does depends on where the line stands.
    fn advance(&mut self, input: Input) -> Result<Progress, Refusal>
        ensures { Does P.Plan.whole P.Plan.rest self.old (call_of input) (moved result)
            self.new }
    {
        match (input, self.phase) {
            (Input::Arm(settings), Phase::Idle) => self.enter(settings),
            (Input::Arm(_), _) => Err(Refusal::NotIdle),
            (Input::Key(event), Phase::Open) => self.press(event),
            (Input::Key(event), _) => self.queue(event),
            (Input::Expire(timer), Phase::Open) => self.lapse(timer),
            (Input::Expire(_), _) => Err(Refusal::NoTimer),
        }
    }

    // The numbers of the receipt that the line hands out.
    fn numbers(&self) -> Numbers
        ensures { result ≡ record { number = self.now.number; count = self.now.count } }
    {
        Numbers {
            number: self.number,
            count: self.count,
        }
    }

    // Hands out the receipt of a report.
    pub fn claim(&mut self) -> Result<Receipt, Refusal>
        ensures { Does P.Plan.whole P.Plan.rest self.old Call.Claim (handed result)
            self.new }
    {
        match self.phase {
            Phase::Done(ending) => {
                self.phase = Phase::Claimed(ending);
                Ok(Receipt::with(self.numbers()))
            }
            _ => Err(Refusal::NotDone),
        }
    }

    // How the report ended that is claimed by these numbers, if it is.
    fn claimed_by(&self, numbers: Numbers) -> Option<Ending>
        ensures { Presented (state_of self.now) numbers result }
    {
        match self.phase {
            Phase::Claimed(ending) => (numbers == self.numbers()).then_some(ending),
            _ => None,
        }
    }

    // Takes the receipt, writes the report line at the start of the memory and answers its length.
    pub fn book(&mut self, receipt: Receipt, memory: &mut [u8]) -> Result<usize, (Refusal, Receipt)>
        ensures { Booked P.Plan.whole P.Plan.rest self.old receipt
            memory.old result self.new memory.new }
    {
        let Some(ending) = self.claimed_by(receipt.numbers()) else {
            return Err((Refusal::Receipt, receipt));
        };
        let report = Report {
            dial: self.dial,
            ending,
        };
        let Some(length) = report.text().write_to(memory) else {
            return Err((Refusal::Memory, receipt));
        };
        let _ = receipt.spend();
        self.phase = Phase::Idle;
        Ok(length)
    }

    // Takes the receipt and writes nothing.
    pub fn waive(&mut self, receipt: Receipt) -> Result<(), (Refusal, Receipt)>
        ensures { Waived P.Plan.whole P.Plan.rest self.old receipt result
            self.new }
    {
        if self.claimed_by(receipt.numbers()).is_none() {
            return Err((Refusal::Receipt, receipt));
        }
        let _ = receipt.spend();
        self.phase = Phase::Idle;
        Ok(())
    }
}
