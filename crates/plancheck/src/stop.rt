ghost use Rattle.std.specs.Prelude.{◌≡◌, IfOk, string_bytes};
ghost use Rattle.plancheck.specs.Outcomes.{StopTold};
ghost use Rattle.plancheck.specs.declared.stop.Stop.TheVariants.{Memory, Refused};

use plans::refusal::Refusal;
use std::alloc::{AllocError, Global};

// Why a plan is not shown: no map is kept, its making is refused, or memory lacks.
#[derive(Clone, Copy, PartialEq, Eq, Debug)]
pub enum Stop {
    Mapless,
    Refused(Refusal),
    Memory(AllocError),
}

impl From<AllocError> for Stop {
    ghost from_gives = { λ error r. r ≡ Memory error };

    fn from(error: AllocError) -> Stop {
        Stop::Memory(error)
    }
}

// A making that is refused hands back what it was given, which is let go.
impl<T: Drop> From<(Refusal, T)> for Stop {
    ghost from_gives = { λ e r. r ≡ Refused e.0 };

    fn from(refused: (Refusal, T)) -> Stop {
        Stop::Refused(refused.0)
    }
}

impl Stop {
    // Why no plan is made: `no` and the refusal's number, or `no map`.
    pub fn told(self, heap: Global) -> Result<String, AllocError>
        ensures { IfOk result (λ s. StopTold self (string_bytes s)) }
    {
        match self {
            Stop::Mapless => String::from_str(heap, "no map\n"),
            Stop::Refused(refusal) => {
                let number = refusal.number();
                format!(in heap; "no {number}\n")
            }
            Stop::Memory(error) => Err(error),
        }
    }
}
