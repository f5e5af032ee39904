// Document 01's refusals: a number that says which rule was broken, the place that it is told with, and beside 10 the loop.
#![tactic(auto)]

ghost use Rattle.std.specs.Prelude.{◌≡◌};
ghost use Rattle.refusals.specs.Numbers.{number_of};
ghost use Rattle.refusals.specs.Refusal.{refusal, looped, refusal_of};
ghost use Rattle.refusals.specs.Answer.{accepted, refused, answered};

// Why something is refused: document 01's refusal numbers and those that requests added, each by its name.
#[derive(Clone, Copy, Debug, PartialEq, Eq)]
pub enum Reason {
    Ended = 1,
    TooLong = 2,
    BadEdition = 3,
    BadId = 4,
    BadPeriod = 5,
    BadCount = 6,
    BadExecution = 7,
    BadParent = 8,
    BytesFollow = 9,
    Loop = 10,
    LongPath = 11,
    IdStands = 12,
    BoardFull = 13,
    NotStanding = 14,
    BadCores = 15,
    FewWords = 16,
    UnsoundBoard = 17,
    NotShortest = 18,
    WrongLength = 19,
    VerdictNo = 20,
    NoneRuns = 21,
    BadLayout = 22,
    ManyTasks = 23,
    BadPlan = 24,
    BrokenRule = 25,
    HighCost = 26,
    LongFile = 27,
    BigWord = 28,
}

impl Reason {
    pub fn number(self) -> u64
        ensures { result ≡ number_of self }
    {
        self as u64
    }

    // The refusal for this reason at a place.
    pub fn at(self, place: usize) -> Refusal
        ensures { result ≡ refusal (number_of self) place }
    {
        Refusal::of(self.number(), place)
    }
}

// A number of the table; a place: a byte of the input, for 10 a node, else 0; for 10 the nodes of a loop, else none.
// The number is no `Reason`: `told_by` takes it from an answer, in which C may have put any.
#[derive(Clone, Copy, Debug, PartialEq, Eq)]
pub struct Refusal {
    pub number: u64,
    pub place: usize,
    pub ring: u64,
}

impl Refusal {
    pub fn of(number: u64, place: usize) -> Self
        ensures { result ≡ refusal number place }
    {
        let ring: u64 = 0;
        Self {
            number,
            place,
            ring,
        }
    }

    // Refusal 10: the node that is named, and its loop.
    pub fn looped(node: usize, ring: u64) -> Self
        ensures { result ≡ looped node ring }
    {
        Self {
            ring,
            ..Reason::Loop.at(node)
        }
    }

    // The refusal that an answer tells.
    pub fn told_by(answer: Answer) -> Self
        ensures { result ≡ refusal_of answer }
    {
        Self {
            number: answer.refusal,
            place: answer.place as usize,
            ring: answer.ring,
        }
    }
}

// What a public call answers: refusal 0 is acceptance, and then value is what the call returns; otherwise place and ring are the refusal's.
#[repr(C)]
#[derive(Clone, Copy, Debug, PartialEq, Eq)]
pub struct Answer {
    pub refusal: u64,
    pub place: u64,
    pub value: u64,
    pub ring: u64,
}

impl Answer {
    pub fn accepted(value: u64) -> Self
        ensures { result ≡ accepted value }
    {
        Self {
            refusal: 0,
            place: 0,
            value,
            ring: 0,
        }
    }

    pub fn refused(refusal: Refusal) -> Self
        ensures { result ≡ refused refusal }
    {
        Self {
            refusal: refusal.number,
            place: refusal.place as u64,
            value: 0,
            ring: refusal.ring,
        }
    }
}

// What a call comes to, as C reads it: the value, or the refusal.
impl From<Result<u64, Refusal>> for Answer {
    ghost from_gives = { λ outcome answer. answer ≡ answered outcome };

    fn from(outcome: Result<u64, Refusal>) -> Self {
        match outcome {
            Ok(value) => Answer::accepted(value),
            Err(refusal) => Answer::refused(refusal),
        }
    }
}

// The refusal of an answer, where `?` hands one on to a caller that tells no value beside it.
impl From<Answer> for Refusal {
    ghost from_gives = { λ answer refusal. refusal ≡ refusal_of answer };

    fn from(answer: Answer) -> Self {
        Refusal::told_by(answer)
    }
}
