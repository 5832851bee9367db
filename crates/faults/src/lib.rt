// What a text is refused for. The numbers are those of the format.
#![tactic(auto)]

ghost use Rattle.std.specs.Prelude.{◌≡◌};
ghost use Rattle.faults.specs.Faults.{number_of, fault_at};

// The faults that a text can meet, by their numbers from 1 on.
#[derive(Clone, Copy, PartialEq, Eq)]
pub enum Fault {
    TextTooLong = 1,
    LineFaulty,
    FormMisplaced,
    FieldsFaulty,
    NameRepeated,
    SymbolUndeclared,
    LimitPassed,
    NothingRemoved,
    WeightKept,
    GoalTooHeavy,
}

// A fault and the line that meets it, counted from 1; 0 where no line is meant.
#[derive(Clone, Copy)]
pub struct FaultAt {
    pub fault: Fault,
    pub line: u16,
}

impl Fault {
    // The number that a refusal gives.
    pub fn number(self) -> u8
        ensures { result ≡ number_of self }
    {
        self as u8
    }

    // The fault as that of a line.
    pub fn at(self, line: u16) -> FaultAt
        ensures { result ≡ fault_at self line }
    {
        FaultAt { fault: self, line }
    }
}
