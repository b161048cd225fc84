// A refusal's number, and its words.
ghost use Rattle.std.specs.Prelude.{◌≡◌};
ghost use Rattle.rules.specs.Refusals.{number_of};

use crate::Refusal;
use std::error::Error;
use std::fmt;

impl Refusal {
    // Document 01's number.
    pub fn number(self) -> u32
        ensures { result ≡ number_of self }
    {
        self as u32
    }
}

impl fmt::Display for Refusal {
    fn fmt<W: fmt::Write>(&self, f: &mut fmt::Formatter<W>) -> fmt::Result {
        f.write_str(match self {
            Refusal::UnknownKind => "no kind has this code",
            Refusal::SideOutside => "a side is 0 or above 4096",
            Refusal::ShortBuffer => "a lent buffer is too short",
            Refusal::UnknownWrap => "no wrap mode has this code",
            Refusal::NumberOutside =>
                "a coordinate, step or level is not finite, or a coordinate is above 2048",
            Refusal::LevelAbove => "the level is above the top level",
            Refusal::DirectionOutside => "a direction is not finite, too short or too long",
            Refusal::KindNotTaken => "the call does not take this kind, or this face of it",
            Refusal::CrossOutside => "the cross has faces with a side of 0 or above 4096",
            Refusal::CutOutside => "the cut is empty, not aligned or not inside the picture",
            Refusal::NotTheFile => "the input is no such file",
            Refusal::PlaceOutside => "the place is outside the picture",
            Refusal::UnknownPacking => "no packing mode has this code",
        })
    }
}

impl Error for Refusal {}
