// Why a file or a part is refused, and the numbers that say so (docs/RULES.md, "Notes from WAV files").
ghost use Rattle.std.specs.Prelude.{◌≡◌};
ghost use Rattle.wav_file.specs.Number.{number as number_of};

// Of the first step, in the order of their numbers: the lowest that applies is given.
#[derive(Clone, Copy, Debug, PartialEq, Eq)]
pub enum Refusal {
    TooLong,
    NotWave,
    RunsPast,
    NoFormat,
    OtherFormat,
    NoData,
    OddData,
}

impl Refusal {
    // From 1 to 7. By this name and no `From`: the clause cites the definition.
    pub fn number(self) -> u32
        ensures { result ≡ number_of self }
    {
        match self {
            Refusal::TooLong => 1,
            Refusal::NotWave => 2,
            Refusal::RunsPast => 3,
            Refusal::NoFormat => 4,
            Refusal::OtherFormat => 5,
            Refusal::NoData => 6,
            Refusal::OddData => 7,
        }
    }
}

// Of the second step: the part isn't twice as long as the row.
#[derive(Clone, Copy, Debug, PartialEq, Eq)]
pub struct NotTwice;

impl NotTwice {
    pub fn number(self) -> u32
        ensures { result ≡ 8 }
    {
        8
    }
}
