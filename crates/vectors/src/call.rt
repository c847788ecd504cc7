// The calls by their numbers.

#[derive(Clone, Copy, Debug, PartialEq, Eq)]
pub(crate) enum Call {
    Retain,
    Delete,
    Insert,
    Apply,
    Invert,
    Compose,
    Transform,
    BaseLen,
    TargetLen,
    IsNoop,
}

// A number that is no call's.
#[derive(Clone, Copy, Debug, PartialEq, Eq)]
pub(crate) struct NoCall(pub(crate) u8);

impl TryFrom<u8> for Call {
    type Error = NoCall;

    fn try_from(number: u8) -> Result<Self, NoCall> {
        match number {
            1 => Ok(Call::Retain),
            2 => Ok(Call::Delete),
            3 => Ok(Call::Insert),
            4 => Ok(Call::Apply),
            5 => Ok(Call::Invert),
            6 => Ok(Call::Compose),
            7 => Ok(Call::Transform),
            8 => Ok(Call::BaseLen),
            9 => Ok(Call::TargetLen),
            10 => Ok(Call::IsNoop),
            _ => Err(NoCall(number)),
        }
    }
}

// The call's name; of the numbers that are no call's only 0 has one.
pub(crate) fn name(number: u8) -> Option<&'static str> {
    match Call::try_from(number) {
        Ok(Call::Retain) => Some("retain"),
        Ok(Call::Delete) => Some("delete"),
        Ok(Call::Insert) => Some("insert"),
        Ok(Call::Apply) => Some("apply"),
        Ok(Call::Invert) => Some("invert"),
        Ok(Call::Compose) => Some("compose"),
        Ok(Call::Transform) => Some("transform"),
        Ok(Call::BaseLen) => Some("base_len"),
        Ok(Call::TargetLen) => Some("target_len"),
        Ok(Call::IsNoop) => Some("is_noop"),
        Err(NoCall(0)) => Some("no call"),
        Err(_) => None,
    }
}
