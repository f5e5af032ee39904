// The rules tried in turn: the first that is broken.
#![tactic(auto)]

ghost use Rattle.std.specs.Prelude.{◌≡◌};
ghost use Rattle.rules.specs.Rules.{first_broken};
ghost use Rattle.rules.specs.Inner.Own.{held_by, RulesIn};
ghost use Rattle.trials.specs.Told.{number_of, told};

// The rules, each by its number.
#[derive(Clone, Copy, Debug, PartialEq, Eq)]
pub enum Rule {
    OverFits = 1,
    SameCut = 2,
    SharedOut = 3,
    Summed = 4,
    Followed = 5,
    Halved = 6,
    Thinned = 7,
    Rounded = 8,
}

impl Rule {
    pub fn number(self) -> u64
        ensures { result ≡ number_of self }
    {
        self as u64
    }
}

// The first broken rule. A rule is tried only where those before it hold: they bound its sums. docs/CONTRACTS.md names the six parameters.
pub fn first_broken(
    own: &[u64],
    plan: &[u64],
    parents: &[u64; 64],
    executions: &[u64; 64],
    period: u64,
    work: u64,
) -> Option<Rule>
    requires { RulesIn own.now plan.now parents.now executions.now period work }
    ensures { told result ≡ first_broken (held_by own.now parents.now executions.now period work) plan.now }
{
    if !rules::over_fits(plan) {
        return Some(Rule::OverFits);
    }
    if !rules::same_cut(own, plan) {
        return Some(Rule::SameCut);
    }
    if !rules::shared_out(plan, period) {
        return Some(Rule::SharedOut);
    }
    if !rules::summed(own, plan) {
        return Some(Rule::Summed);
    }
    if !rules::followed(own, plan, parents) {
        return Some(Rule::Followed);
    }
    if !rules::halved(own, plan, executions) {
        return Some(Rule::Halved);
    }
    if !rules::thinned(plan, period, work) {
        return Some(Rule::Thinned);
    }
    if !rules::rounded(own, plan, executions) {
        return Some(Rule::Rounded);
    }
    None
}
