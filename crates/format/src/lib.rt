// The refusals. The rest is definitions: of the row sheet, of the row store and of what a refusal is; and their laws.
#![tactic(auto)]

ghost use Rattle.std.specs.Prelude.{◌≡◌};

// Why a call refuses: a line of document 01's table, "Refusal numbers", under its number.
#[derive(Clone, Copy, Debug, PartialEq, Eq)]
pub enum Refusal {
    ShortSheet = 1,
    ManyVariables = 2,
    ManyRows = 3,
    LongSheet = 4,
    StrayBits = 5,
    FewWords = 6,
    ShortAnswer = 7,
    OutOfRange = 8,
    AboveDepth = 9,
    Unexplained = 10,
    NotOpen = 11,
    NoPartner = 12,
}

impl Refusal {
    ghost use Rattle.format.specs.Refusals.{number};

    // Its number.
    pub fn number(self) -> u64
        ensures { result ≡ number self }
    {
        self as u64
    }
}
