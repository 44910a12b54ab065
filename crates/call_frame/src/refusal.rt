// The refusals of the public calls.
ghost use Rattle.std.specs.Prelude.{◌≡◌};
ghost use Rattle.call_frame.specs.declared.refusal.Refusal.TheVariants.{File};
ghost use Rattle.call_frame.specs.Refusal.{number, place};

use file_blocks::Rule;

// Why a call gives no values.
#[derive(Clone, Copy, Debug, PartialEq, Eq)]
pub enum Refusal {
    // 1 to 7: the file breaks this rule first.
    File(Rule),
    // What else the call is given is refused, between 7 and 8: its number, and its i or 0. No call
    // has such a refusal yet.
    Early { number: u32, at: u64 },
    // 8: fewer work numbers are lent than the file needs.
    FewNumbers,
    // 9: there is nothing of what was asked for.
    NotFound,
    // 10: a lent result is shorter than what goes into it.
    ShortResult,
    // 11: what is given for a unit is not what was told of it.
    Differs,
}

impl From<Rule> for Refusal {
    ghost from_gives = { λ r e. e ≡ File r };

    fn from(rule: Rule) -> Refusal {
        Refusal::File(rule)
    }
}

impl Refusal {
    // Its number.
    pub fn number(self) -> u32
        ensures { result ≡ number self }
    {
        match self {
            Refusal::File(rule) => rule.number(),
            Refusal::Early { number, .. } => number,
            Refusal::FewNumbers => 8,
            Refusal::NotFound => 9,
            Refusal::ShortResult => 10,
            Refusal::Differs => 11,
        }
    }

    // Its i, or 0 where there is none.
    pub fn place(self) -> u64
        ensures { result ≡ place self }
    {
        match self {
            Refusal::File(rule) => rule.place(),
            Refusal::Early { at, .. } => at,
            _ => 0,
        }
    }
}
