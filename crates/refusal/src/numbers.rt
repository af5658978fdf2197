// The number and the place of each cause.
ghost use Rattle.std.specs.Prelude.{◌≡◌};
ghost use Rattle.refusal.specs.Numbers.{number, place_in, fault_number, refused_at};

use crate::fault::Fault;
use crate::place::Place;
use crate::refusal::Refusal;

impl Refusal {
    pub fn number(self) -> u8
        ensures { result ≡ number self }
    {
        match self {
            Refusal::LineTooLong => 1,
            Refusal::BadByte { .. } => 2,
            Refusal::UnknownMnemonic { .. } => 3,
            Refusal::BadOperand { .. } => 4,
            Refusal::LabelTooHigh { .. } => 5,
            Refusal::NoForm { .. } => 6,
            Refusal::TableFull => 7,
            Refusal::LabelTaken => 8,
            Refusal::NotOwed => 9,
            Refusal::NothingToTakeBack => 10,
            Refusal::InvalidArgument => 11,
            Refusal::LabelNotPlaced { .. } => 12,
            Refusal::TooFar => 13,
            Refusal::NoRoom => 14,
            Refusal::NoInstruction { .. } => 15,
            Refusal::UnknownInstruction { .. } => 16,
            Refusal::Breakpoint { .. } => 17,
            Refusal::Misaligned { .. } => 18,
            Refusal::Absent { .. } => 19,
            Refusal::ReadOnly { .. } => 20,
        }
    }

    // The place of a refusal that no line led to.
    pub fn place(self) -> Place
        ensures { result ≡ place_in 0 self }
    {
        self.place_in(0)
    }

    // The place of a refusal that a line led to, which the causes up to 10 name.
    pub fn place_in(self, line: usize) -> Place
        ensures { result ≡ place_in line self }
    {
        match self {
            Refusal::LineTooLong => Place {
                line,
                column: 81,
                ..Place::default()
            },
            Refusal::BadByte { column }
            | Refusal::UnknownMnemonic { column }
            | Refusal::BadOperand { column }
            | Refusal::LabelTooHigh { column }
            | Refusal::NoForm { column } => Place {
                line,
                column,
                ..Place::default()
            },
            Refusal::TableFull
            | Refusal::LabelTaken
            | Refusal::NotOwed
            | Refusal::NothingToTakeBack => Place {
                line,
                ..Place::default()
            },
            Refusal::InvalidArgument | Refusal::TooFar | Refusal::NoRoom => Place::default(),
            Refusal::LabelNotPlaced { item } => Place {
                item,
                ..Place::default()
            },
            Refusal::NoInstruction { pc }
            | Refusal::UnknownInstruction { pc }
            | Refusal::Breakpoint { pc } => Place {
                pc,
                ..Place::default()
            },
            Refusal::Misaligned { pc, address } => Place {
                pc,
                address,
                ..Place::default()
            },
            Refusal::Absent { pc, address, part } | Refusal::ReadOnly { pc, address, part } => {
                Place {
                    pc,
                    address,
                    part,
                    ..Place::default()
                }
            }
        }
    }
}

impl Fault {
    pub fn number(self) -> u8
        ensures { result ≡ fault_number self }
    {
        self.at(0, 0).number()
    }

    // The refusal of a step at `pc` whose access met the fault at `address`.
    pub fn at(self, pc: u32, address: u32) -> Refusal
        ensures { result ≡ refused_at self pc address }
    {
        match self {
            Fault::Absent { part } => Refusal::Absent { pc, address, part },
            Fault::ReadOnly { part } => Refusal::ReadOnly { pc, address, part },
        }
    }
}
