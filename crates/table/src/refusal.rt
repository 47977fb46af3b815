// Why a call refuses: one refusal for each test, in the paper's numbers, with what it tells besides. (8 and 9 are a
// lookup's, which refuses by walk's own enum; here they keep their numbers.)
ghost use Rattle.std.specs.Prelude.{◌≡◌};
ghost use Rattle.table.specs.Refusals.{refusal_number, refusal_detail};

#[derive(Clone, Copy, Debug, PartialEq, Eq)]
pub enum Refusal {
    Width,
    Levels,
    Shape,
    BadEntry { index: u64 },
    Unordered { index: u64 },
    Scratch { needed: u64 },
    Room { needed: u64 },
    Address,
    Damage,
    BadPrefix,
}

impl Refusal {
    // The number of the test.
    pub fn number(self) -> u32
        ensures { result ≡ refusal_number self }
    {
        match self {
            Refusal::Width => 1,
            Refusal::Levels => 2,
            Refusal::Shape => 3,
            Refusal::BadEntry { .. } => 4,
            Refusal::Unordered { .. } => 5,
            Refusal::Scratch { .. } => 6,
            Refusal::Room { .. } => 7,
            Refusal::Address => 8,
            Refusal::Damage => 9,
            Refusal::BadPrefix => 10,
        }
    }

    // An entry's index, or what is needed; else 0.
    pub fn detail(self) -> u64
        ensures { result ≡ refusal_detail self }
    {
        match self {
            Refusal::BadEntry { index } | Refusal::Unordered { index } => index,
            Refusal::Scratch { needed } | Refusal::Room { needed } => needed,
            _ => 0,
        }
    }
}
