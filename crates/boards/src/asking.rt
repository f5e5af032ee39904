// Asking a board for a verdict.
ghost use Rattle.std.specs.Prelude.{◌≡◌, ◌≤◌, Bool, true, List, ℕ, MatchResult};
ghost use Rattle.refusals.specs.Answer.{answered};
ghost use Rattle.boards.specs.declared.Row.{Row};
ghost use Rattle.boards.specs.Sound.{is_sound};
ghost use Rattle.boards.specs.Verdict.{cores_max};
ghost use Rattle.boards.specs.Change.{before_asking, asked_by, asked};

use crate::Board;
use crate::changes::unsound;
use crate::soundness::is_sound;
use crate::verdicts::verdict_for;
use refusals::{Answer, Reason, Refusal};

// Limit of specs/: the most cores.
const CORES_MAX: u64 = 64;

// Whether a verdict is to be given at all: 17, then 15.
#[tactic(auto, unfolding(crate::specs::Change::before_asking))]
pub fn before_asking(sound: bool, cores: u64) -> Result<(), Refusal>
    ensures { result ≡ before_asking sound cores }
{
    if !sound {
        return Err(unsound());
    }
    if !(1..=CORES_MAX).contains(&cores) {
        return Err(Reason::BadCores.at(0));
    }
    Ok(())
}

// A sound board, and the number of cores for which its verdict is asked.
#[derive(Clone, Copy)]
pub struct Asking<'a> {
    pub board: &'a Board,
    pub cores: u64,
    pub ghost sound: { is_sound board.now.rows ≡ true },
    pub ghost in_range: { (1 ≤ cores) × (cores ≤ cores_max) },
}

impl<'a> Asking<'a> {
    pub fn of(board: &'a Board, cores: u64) -> Result<Self, Refusal>
        ensures { MatchResult result (λ asking. (asking.board.now ≡ board.now) × (asking.cores ≡ cores)) (λ refusal. before_asking (is_sound board.now.rows) cores ≡ Err refusal) }
    {
        before_asking(is_sound(board), cores)?;
        Ok(Self { board, cores })
    }
}

// Asking for any verdict: 17 and 15, else 1 for yes and 0 for no, as C reads it.
pub fn asked_by<F: FnOnce(Asking) -> bool>(
    board: &Board,
    cores: u64,
    says: F,
) -> Result<u64, Refusal>
    ghost yes: { List Row → ℕ → Bool }
    requires callable { F.IsAlwaysCallable says }
    requires says { (asking : Asking) (told : Bool) → F.post says asking told → told ≡ yes asking.board.now.rows asking.cores }
    ensures { answered result ≡ asked_by yes board.now.rows cores }
{
    let asking = Asking::of(board, cores)?;
    let yes = says(asking);
    Ok(u64::from(yes))
}

// Asking for the one of document 01.
pub fn asked(board: &Board, cores: u64) -> Answer
    ensures { result ≡ asked board.now.rows cores }
{
    Answer::from(asked_by(board, cores, verdict_for))
}
