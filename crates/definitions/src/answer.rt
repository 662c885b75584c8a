// What a call answers. What the numbers of the refusals mean is in specs/Questions.antt.
ghost use Rattle.std.specs.Prelude.{◌≡◌};
ghost use Rattle.definitions.specs.Questions.{number_of, value_of, refusal_number};

// One for each question, with its number; the comment says what got a no.
#[derive(Clone, Copy)]
pub enum Refusal {
    NoCompartment = 1, // the compartment is below 8
    InvalidMemOps = 2, // the rights are below 64
    InvalidRange = 3, // start is at most end
    CountFull = 4, // every count to be raised is below 65,535
    OutOfMemory = 5, // the records, at their most, are within the allowance
    InvalidRegion = 6, // a record begins at or below start
    EndedBefore = 7, // the last such reaches above start
    CountEmpty = 8, // every count to be lowered is above 0
    EmptySegment = 9, // size and repeat are at least 1
    Overflow = 10, // the sums and the product fit 64 bits
    AlreadyAliased = 11, // the guest span overlaps no stored one
    NoSlot = 12, // at most 64 segments would be stored
    Repeated = 15, // what a guest unmap cuts has repeat 1
    OthersTouched = 16, // a range strictly inside one segment touches no other; never a no since order 1
    Malformed = 17, // the script line, or the group of a bundle, has the form
    PoolExceeded = 18, // the allowances are together at most 1,024
    StillInUse = 19, // the compartment's records in use are within the new allowance
    BundleTooLong = 24, // a bundle has at most 32 calls
    NoScript = 25, // a script of accepted calls gives the wanted list
}

// Accepted with a value, or refused.
pub type Answer = Result<u64, Refusal>;

impl Refusal {
    pub fn number(self) -> u64
        ensures { result ≡ refusal_number self }
    {
        self as u64
    }
}

// 0, or the number of the refusal.
pub fn number_of(answer: Answer) -> u64
    ensures { result ≡ number_of answer }
{
    match answer {
        Ok(_) => 0,
        Err(refusal) => refusal.number(),
    }
}

// The value, 0 when refused.
pub fn value_of(answer: Answer) -> u64
    ensures { result ≡ value_of answer }
{
    answer.unwrap_or(0)
}
