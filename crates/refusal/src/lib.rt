// What is refused, and why: the reasons with the law's numbers, and the record that a refusal is about.
#![tactic(auto)]

ghost use Rattle.std.specs.Prelude.{◌≡◌};
ghost use Rattle.refusal.specs.Refusal.{number_of, whole};

// The reasons, in the order of the law's numbers.
#[derive(Clone, Copy, Debug, PartialEq, Eq)]
pub enum Reason {
    // Bytes, or a writer's lists, are shorter than the form needs.
    TooShort = 1,
    // n is 0 or above 8.
    Stations = 2,
    // Bytes, or lists, are longer than needed.
    TooLong = 3,
    // A padding bit is 1.
    Padding = 4,
    // The origin is above n, or the station itself.
    Origin = 5,
    // The sender's number is not 0 for a local step, or 0 or above the sender's m for a receipt.
    Number = 6,
    // A stamp breaks the rule.
    Stamp = 7,
    // The condition breaks its rules.
    Condition = 8,
    // A station above n is asked.
    Asked = 9,
    // The box is above 65,536.
    BoxSize = 10,
    // The room for marks is shorter than the box.
    MarksRoom = 11,
    // The room for the path is shorter than T.
    PathRoom = 12,
    // The room for written bytes is too short.
    Room = 13,
    // A level handed to the writer is out of range.
    Level = 14,
    // No such station or event number is recorded.
    NoRecord = 15,
}

impl Reason {
    // The law's number. It is told by its name, and not by a `From` that any number could stand for: here the enum ends, and the number that is printed begins.
    pub fn number(self) -> u8
        ensures { result ≡ number_of self }
    {
        self as u8
    }
}

// A refusal: its reason, with the station and event of the record that it is about, or 0 and 0: numbers, no Option, as the law prints both.
#[derive(Clone, Copy, Debug, PartialEq, Eq)]
pub struct Refusal {
    pub reason: Reason,
    pub station: u8,
    pub event: u16,
}

// A reason alone is about no record: `?` makes the refusal of it.
impl From<Reason> for Refusal {
    ghost from_gives = { λ k x. x ≡ whole k };

    fn from(reason: Reason) -> Refusal {
        Refusal {
            reason,
            station: 0,
            event: 0,
        }
    }
}
