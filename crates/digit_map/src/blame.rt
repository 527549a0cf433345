ghost use Rattle.std.specs.Prelude.{◌≡◌};
ghost use Rattle.digit_map.specs.Faults.{fault_in_lem};

use crate::fault::{Cause, Fault};

impl Cause {
    // The fault with this cause at an offset, where an alternative is being read; one of the length or the
    // head has none.
    pub(crate) fn at(self, offset: usize, alternative: u8) -> Fault
        ensures { result ≡ fault_in_lem alternative self offset }
    {
        let alternative = match self {
            Cause::Length | Cause::Head => 0,
            _ => alternative,
        };
        Fault {
            cause: self,
            offset,
            alternative,
        }
    }
}
