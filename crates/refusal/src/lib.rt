// Why a call is refused: document 01's table. NotMapped, AlreadyMapped and NoFrames are the Rust's `PagingError`; NoFrames is its `NoMemory`.
#![tactic(auto)]

ghost use Rattle.std.specs.Prelude.{◌≡◌};
ghost use Rattle.refusal.specs.Refusal.{number_of};

#[derive(Clone, Copy, Debug, PartialEq, Eq)]
pub enum Refusal {
    InvalidArgs,
    AccessDenied,
    NoMemory,
    NotFound,
    BadState,
    NotMapped,
    AlreadyMapped,
    NoFrames,
    NothingThere,
    NoSlot,
    BadHandle,
    BadSpace,
    BadTable,
    ChildDead,
    BadAddress,
}

impl Refusal {
    // Document 01's numbers, which no derive gives.
    pub fn number(self) -> u64
        ensures { result ≡ number_of self }
    {
        match self {
            Refusal::InvalidArgs => 1,
            Refusal::AccessDenied => 2,
            Refusal::NoMemory => 3,
            Refusal::NotFound => 4,
            Refusal::BadState => 5,
            Refusal::NotMapped => 6,
            Refusal::AlreadyMapped => 7,
            Refusal::NoFrames => 8,
            Refusal::NothingThere => 9,
            Refusal::NoSlot => 10,
            Refusal::BadHandle => 11,
            Refusal::BadSpace => 12,
            Refusal::BadTable => 13,
            Refusal::ChildDead => 14,
            Refusal::BadAddress => 15,
        }
    }
}
