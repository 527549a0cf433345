//! The cases of a sale: what the contracts of the calls say of each of them.
#![tactic(auto)]

ghost use Rattle.sale_cases.specs.Cases.{SaleCases};

// Nothing is done: what counts is the contract.
pub fn sale_cases_stand() -> u8
    ensures { SaleCases }
{
    0
}
