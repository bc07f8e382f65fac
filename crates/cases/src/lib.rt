//! Worked cases: the tokens of some texts, and where their statements end.
#![tactic(auto)]

ghost use Rattle.cases.specs.Case.{AllStand};
ghost use Rattle.cases.specs.Worked.{worked};

#[cfg(test)]
mod tests;

/// All worked cases stand: each text has the tokens and ends that the table says. The call does nothing.
pub fn cases_stand()
    ensures { AllStand worked }
{}
