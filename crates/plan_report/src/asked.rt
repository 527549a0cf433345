ghost use Rattle.plan_report.specs.Standings.{Stands};

use crate::standing::Standing;
use keypad::plan::Plan;

// Asks a plan how it stands.
pub fn standing_of<P: Plan>(plan: &P) -> Standing
    ensures { Stands (P.Plan.rest plan.now) result }
{
    Standing {
        ended: plan.satisfied(),
        settled: plan.settled(),
        going: plan.goes_on(),
        mark: plan.timing(),
    }
}
