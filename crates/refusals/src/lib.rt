// The numbers that a call can give back, and the refusal that carries one.
#![tactic(auto)]

ghost use Rattle.std.specs.Prelude.{◌≡◌};
ghost use Rattle.refusals.specs.Answers.{refusal, refusal_at};

// Document 01, "Numbers a call can give back". Numbers and no enum: `Refusal::new` takes any number of 16 bits, and an enum would ask more.
pub const SHORT: u16 = 1;

pub const VERSION: u16 = 2;

pub const COUNT: u16 = 3;

pub const MISSING: u16 = 4;

pub const HEADER: u16 = 5;

pub const SIZE: u16 = 6;

pub const OVERRUN: u16 = 7;

pub const TYPE: u16 = 8;

pub const PLACE: u16 = 9;

pub const REPEAT: u16 = 10;

pub const SPLIT: u16 = 11;

pub const FORM: u16 = 12;

pub const VALUE: u16 = 13;

pub const TEXT: u16 = 14;

pub const RANGE: u16 = 15;

pub const ORDER: u16 = 16;

pub const FULL: u16 = 17;

pub const ROOM: u16 = 18;

pub const ABSENT: u16 = 19;

// Document 02, R-2.
pub const MAGIC: u16 = 20;

pub const PAYLOAD: u16 = 21;

pub const STRING: u16 = 22;

pub const END: u16 = 23;

// Why a call was refused: the number, and the offset that goes with it.
#[derive(Clone, Copy)]
pub struct Refusal {
    pub number: u16,
    pub offset: u32,
}

impl Refusal {
    // A refusal that belongs to no attribute and no record. Every refusal is made here or by `at`.
    pub fn new(number: u16, offset: u32) -> Self
        ensures { result ≡ refusal number offset }
    {
        Self { number, offset }
    }

    // A refusal of the attribute or record at `index`, which it does not carry: document 02, R-10, asks for that.
    pub fn at(number: u16, index: u32, offset: u32) -> Self
        ensures { result ≡ refusal_at number index offset }
    {
        Self::new(number, offset)
    }
}
