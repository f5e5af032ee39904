// Judges a supplier's plan of a task.
#![tactic(auto)]

ghost use Rattle.std.specs.Prelude.{◌≡◌, ◌≤◌, length, IfOk};
ghost use Rattle.plain.specs.At.{at};
ghost use Rattle.refusals.specs.Answer.{answered};
ghost use Rattle.tables.specs.Cost.{costed};
ghost use Rattle.tables.specs.Inner.Plannable.{Plannable};
ghost use Rattle.plans.specs.Words.{words_max};
ghost use Rattle.plans.specs.Calls.{on_table, task_of};
ghost use Rattle.planreaders.specs.Reading.{unread};
ghost use Rattle.trials.specs.Told as trial;
ghost use Rattle.judges.specs.Judging.{broken_of, judged, judged_for, judge_call};
ghost use Rattle.judges.specs.Inner.Judged.{OwnIn, PlanShaped, Judged, told};

use refusals::{Answer, Reason, Refusal};
use tables::TaskTable;
use trials::Rule;

// What an accepted plan comes to: its id, and its task's period, work and path.
#[derive(Clone, Copy, Debug, PartialEq, Eq)]
pub struct Judging {
    pub id: u64,
    pub period: u64,
    pub work: u64,
    pub path: u64,
}

// A task whose steps pay a cost, its work, and the words of our own plan of it, which tell its cut and who runs where. `OwnIn` is no ghost field,
// tried: it has more than one proof, and out of a truncated one `RulesIn` follows only with a proof that it has but one, which is no plainer.
#[derive(Clone, Copy)]
struct Task<'a> {
    table: &'a TaskTable,
    cost: u64,
    work: u64,
    own: &'a [u64],
}

impl Task<'_> {
    // The first rule that a plan of the task breaks.
    fn broken_rule(self, plan: &[u64]) -> Option<Rule>
        requires { OwnIn (costed self.table.now self.cost) self.own.now self.work × PlanShaped plan.now × (at plan.now 2 ≡ self.table.now.count) }
        ensures { trial.told result ≡ broken_of (costed self.entry.table.now self.entry.cost) plan.now }
    {
        let table = self.table;
        let mut executions = table.execution;
        tables::add_cost(&mut executions, table.count, self.cost);
        trials::first_broken(
            self.own,
            plan,
            &table.parents,
            &executions,
            table.period,
            self.work,
        )
    }

    // Judges the words of a plan that was read: 24 where it is not the task's, 25 where a rule is broken, else they are written, and its id is told.
    fn judge_words(self, plan: &[u64], id: u64, words: &mut [u64]) -> Result<u64, Refusal>
        requires { OwnIn (costed self.table.now self.cost) self.own.now self.work × PlanShaped plan.now × (words_max ≤ length words.old) }
        ensures { record { answer = answered result; lent = words.new } ≡ judged words.old (costed self.entry.table.now self.entry.cost) id plan.now }
    {
        if id != self.table.id || plan[2] != self.table.count as u64 {
            return Err(Reason::BadPlan.at(0));
        }
        if let Some(rule) = self.broken_rule(plan) {
            return Err(Reason::BrokenRule.at(rule.number() as usize));
        }
        planreaders::copy_words(plan, plan.len(), words);
        Ok(id)
    }

    // Judges a plan record, which is read aside: the lent words are written only where all of it is accepted.
    fn judge_plan(self, plan: &[u8], words: &mut [u64]) -> Result<u64, Refusal>
        requires { OwnIn (costed self.table.now self.cost) self.own.now self.work }
        ensures { record { answer = answered result; lent = words.new } ≡ judged_for plan.now words.old (costed self.entry.table.now self.entry.cost) }
    {
        if words.len() < plans::WORDS_MAX {
            return Err(Reason::FewWords.at(0));
        }
        let mut found = [0u64; plans::WORDS_MAX];
        let record = planreaders::read_words(plan, &mut found)?;
        self.judge_words(&found[..record.words], record.id, words)
    }
}

// The task's own plan is made aside as well, for its cut; 10 and 11 are its refusals.
fn judge_table(
    plan: &[u8],
    words: &mut [u64],
    table: &TaskTable,
    cost: u64,
) -> Result<Judging, Refusal>
    requires { Plannable (costed table.now cost) }
    ensures words_after { record { answer = told result; lent = words.new } ≡ on_table (unread words.old) (judged_for plan.now words.old) (costed table.now cost) }
    ensures judged { IfOk result (Judged (costed table.now cost)) }
{
    let mut own = [0u64; plans::WORDS_MAX];
    let planning = plans::plan_table(&mut own, *table, cost, Answer::accepted(0))?;
    let task = Task {
        table,
        cost,
        work: planning.work,
        own: &own,
    };
    let id = task.judge_plan(plan, words)?;
    Ok(Judging {
        id,
        period: table.period,
        work: planning.work,
        path: planning.path,
    })
}

// Judges a plan record for a task record, each step with the cost.
pub fn judge(bytes: &[u8], plan: &[u8], words: &mut [u64], cost: u64) -> Result<Judging, Refusal>
    ensures words_after { record { answer = told result; lent = words.new } ≡ judge_call bytes.now plan.now words.old cost }
    ensures judged { IfOk result (Judged (task_of bytes.now cost)) }
{
    plans::before_reading(plans::WORDS_MAX, cost)?; // 26 alone: 16 comes after the task record's
    let table = records::read_table(bytes)?;
    judge_table(plan, words, &table, cost)
}
