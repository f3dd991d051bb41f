// The kinds of requests, by their numbers in tests/PROTOCOL.md.

// A call of the unit, or a look at the table words that the program keeps.
#[derive(Clone, Copy, PartialEq, Eq)]
pub(crate) enum UnitCall {
    Start,
    RawAccess,
    RegisterWrite,
    RegisterRead,
    Walk,
    ServedAccess,
    TableStore,
    GuardedSetting,
    TableWords,
}

// A call on the pool of frames that the request brings.
#[derive(Clone, Copy, PartialEq, Eq)]
pub(crate) enum PoolCall {
    NewPool,
    Take,
    Give,
    Held,
    Map,
    Collect,
}

#[derive(Clone, Copy, PartialEq, Eq)]
pub(crate) enum Kind {
    Unit(UnitCall),
    Pool(PoolCall),
    Mups16,
}

// A number that is no kind's.
#[derive(Clone, Copy, PartialEq, Eq)]
pub(crate) struct UnknownKind(pub u32);

impl TryFrom<u32> for Kind {
    type Error = UnknownKind;

    fn try_from(number: u32) -> Result<Kind, UnknownKind> {
        match number {
            0 => Ok(Kind::Unit(UnitCall::Start)),
            1 => Ok(Kind::Unit(UnitCall::RawAccess)),
            2 => Ok(Kind::Unit(UnitCall::RegisterWrite)),
            3 => Ok(Kind::Unit(UnitCall::RegisterRead)),
            4 => Ok(Kind::Unit(UnitCall::Walk)),
            5 => Ok(Kind::Unit(UnitCall::ServedAccess)),
            6 => Ok(Kind::Unit(UnitCall::TableStore)),
            7 => Ok(Kind::Unit(UnitCall::GuardedSetting)),
            8 => Ok(Kind::Unit(UnitCall::TableWords)),
            9 => Ok(Kind::Pool(PoolCall::NewPool)),
            10 => Ok(Kind::Pool(PoolCall::Take)),
            11 => Ok(Kind::Pool(PoolCall::Give)),
            12 => Ok(Kind::Pool(PoolCall::Held)),
            13 => Ok(Kind::Pool(PoolCall::Map)),
            14 => Ok(Kind::Pool(PoolCall::Collect)),
            15 => Ok(Kind::Mups16),
            _ => Err(UnknownKind(number)),
        }
    }
}
