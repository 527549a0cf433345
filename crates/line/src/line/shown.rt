//! What a line shows, and how it is made and taken apart.
ghost use Rattle.std.specs.Prelude.{◌≡◌};
ghost use Rattle.key_record.specs.Entry.{open_dial};
ghost use Rattle.key_record.specs.States.{Running, made_with};
ghost use Rattle.line_parts.specs.Dialled.{dialled, dialled_in};
ghost use Rattle.line_parts.specs.Queued.{queued};
ghost use Rattle.line.specs.Lines.{state_of};
ghost use Rattle.line.specs.Reports.{Reported};

use crate::line::Line;
use key_record::ending::Phase;
use key_record::settings::{Disposition, Procedure, Settings};
use key_record::timer::Timer;
use keypad::plan::Plan;
use keypad::timers::standard_timers;
use line_parts::ahead::Ahead;
use line_parts::dial::Dial;
use line_parts::keying::awaited;
use line_parts::report::Report;

impl<P> Line<P> {
    // A line that is idle. Its settings count for nothing until it is armed.
    pub fn new(number: u32, plan: P) -> Line<P>
        ensures state { state_of result ≡ made_with number }
        ensures plan { result.plan ≡ plan }
    {
        let settings = Settings {
            procedure: Procedure::Base,
            disposition: Disposition::Keep,
            timers: standard_timers(),
        };
        Line {
            number,
            plan,
            phase: Phase::Idle,
            settings,
            dial: Dial::new(),
            ahead: Ahead::new(),
            count: 0,
        }
    }

    // Takes the line apart and hands the plan back as it stands.
    // By a pattern: `self.plan` would let the rest of the line go, and a line is not `Drop`.
    pub fn into_plan(self) -> P
        ensures { result ≡ self.plan }
    {
        let Line {
            number: _,
            plan,
            phase: _,
            settings: _,
            dial: _,
            ahead: _,
            count: _,
        } = self;
        plan
    }

    // The open entry: the dial string while the line is open.
    pub fn open_entry(&self) -> Option<Dial>
        ensures { dialled_in result ≡ open_dial (state_of self.now) }
    {
        (self.phase == Phase::Open).then_some(self.dial)
    }

    // The keys ahead.
    pub fn keys_ahead(&self) -> Ahead
        ensures { queued result ≡ (state_of self.now).ahead }
    {
        self.ahead
    }

    // The report of a line that is done. The match takes the ending out of the phase, which no method does.
    pub(crate) fn report(&self) -> Option<Report>
        ensures { Reported self.now.phase (dialled self.now.dial) result }
    {
        match self.phase {
            Phase::Done(ending) => Some(Report {
                dial: self.dial,
                ending,
            }),
            _ => None,
        }
    }
}

impl<P: Plan> Line<P> {
    // The timer that runs with its seconds: none unless the line is open, and none where it waits without
    // limit. The match is as plain as a chain, and asks the plan of an open line alone.
    pub fn timer(&self) -> Option<(Timer, u8)>
        ensures { Running (state_of self.now) (P.Plan.rest self.now.plan) result }
    {
        match self.phase {
            Phase::Open => awaited(&self.plan, self.settings.timers, self.dial.is_fresh()),
            _ => None,
        }
    }
}
