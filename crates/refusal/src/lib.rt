//! Why a call gives no answer: one enum for every entry of the library, with the number and the detail that the C interface
//! and the record stream give, and a text for people.
#![tactic(auto)]

ghost use Rattle.std.specs.Prelude.{◌≡◌};
ghost use Rattle.refusal.specs.Numbers.{number, detail};

use thiserror::Error;

/// Why a call gives no answer. Where several reasons hold, the one with the lowest number is given, save that a query
/// tells of damage before it tells of room.
#[derive(Clone, Copy, Debug, PartialEq, Eq, Error)]
pub enum Refusal {
    #[error("the number of coordinates is odd")]
    OddCoordinates,

    /// The stream program has a limit of its own, 1,024.
    #[error("there are too many points")]
    TooManyPoints,

    /// With the least index of such a point.
    #[error("point {0} is not finite")]
    PointNotFinite(u32),

    #[error("a coordinate of the place is not finite")]
    PlaceNotFinite,

    /// Of a radius, or of the epsilon of a labelling.
    #[error("the radius is below zero or not a number")]
    RadiusNotValid,

    /// With how many entries are needed.
    #[error("the index slice holds fewer than {0} entries")]
    IndicesTooShort(u32),

    /// With how many nodes are needed.
    #[error("a node slice holds fewer than {0} nodes")]
    NodesTooShort(u32),

    /// A slice for results, labels or work is too short. With how many entries are needed.
    #[error("{0} entries are needed, and there is room for fewer")]
    NoRoom(u32),

    /// The tree is not one that the check accepts.
    #[error("the tree is damaged")]
    DamagedTree,

    /// In the record stream.
    #[error("a record is of no known kind, or cut")]
    UnknownRecord,
}

impl Refusal {
    /// The number that C and the stream have for it, from 1 on.
    pub fn number(self) -> u32
        ensures { result ≡ number self }
    {
        match self {
            Refusal::OddCoordinates => 1,
            Refusal::TooManyPoints => 2,
            Refusal::PointNotFinite(_) => 3,
            Refusal::PlaceNotFinite => 4,
            Refusal::RadiusNotValid => 5,
            Refusal::IndicesTooShort(_) => 6,
            Refusal::NodesTooShort(_) => 7,
            Refusal::NoRoom(_) => 8,
            Refusal::DamagedTree => 9,
            Refusal::UnknownRecord => 10,
        }
    }

    /// What C tells beside the number: an index, or how many entries or nodes are needed; else 0.
    pub fn detail(self) -> u32
        ensures { result ≡ detail self }
    {
        match self {
            Refusal::PointNotFinite(detail)
            | Refusal::IndicesTooShort(detail)
            | Refusal::NodesTooShort(detail)
            | Refusal::NoRoom(detail) => detail,
            _ => 0,
        }
    }
}
