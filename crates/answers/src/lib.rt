// The answers of the calls and their numbers (docs/RULES.md, "Answers"): a call gives what only that call can say, or it is refused.
#![tactic(auto)]

ghost use Rattle.std.specs.Prelude.{◌≡◌, ℕ};
ghost use Rattle.answers.specs.Answers.{refusal_no, outcome_no, reply_no};

// Why a call did not do what it was asked for.
#[derive(Clone, Copy)]
pub enum Refusal {
    NotWhole,
    CounterFull,
    BadPid,
    TooLittle,
    Malformed,
    ShortForm,
    BadNumber,
    BadCrc,
    NotEit,
    Broken,
    TooLong,
    NoCell,
    Conflict,
    Range,
    BadInput,
    NoPid,
}

// What opening, clearing or dropping answers.
pub type Outcome = Result<(), Refusal>;

// What a question answers: yes, no, or why there is no answer.
pub type Reply = Result<bool, Refusal>;

// An answer that has a number, which a host in another language is given.
pub trait Numbered {
    ghost number_of: { Self → ℕ };

    fn number(self) -> u8
        ensures { result ≡ number_of self };
}

impl Refusal {
    pub fn number(self) -> u8
        ensures { result ≡ refusal_no self }
    {
        match self {
            Refusal::NotWhole => 10,
            Refusal::CounterFull => 11,
            Refusal::BadPid => 12,
            Refusal::TooLittle => 13,
            Refusal::Malformed => 14,
            Refusal::ShortForm => 15,
            Refusal::BadNumber => 16,
            Refusal::BadCrc => 17,
            Refusal::NotEit => 18,
            Refusal::Broken => 19,
            Refusal::TooLong => 20,
            Refusal::NoCell => 21,
            Refusal::Conflict => 22,
            Refusal::Range => 23,
            Refusal::BadInput => 37,
            Refusal::NoPid => 41,
        }
    }
}

impl Numbered for Result<(), Refusal> {
    ghost number_of = { outcome_no };

    fn number(self) -> u8 {
        match self {
            Ok(()) => 7,
            Err(refusal) => refusal.number(),
        }
    }
}

impl Numbered for Result<bool, Refusal> {
    ghost number_of = { reply_no };

    fn number(self) -> u8 {
        match self {
            Ok(true) => 8,
            Ok(false) => 9,
            Err(r) => r.number(),
        }
    }
}
