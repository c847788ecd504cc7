// The marks of a list, which the crates above read and write.

pub const BEGIN_ARRAY: u8 = 0x5B;

pub const END_ARRAY: u8 = 0x5D;

pub const COMMA: u8 = 0x2C;

pub const MINUS: u8 = 0x2D;

pub const QUOTATION_MARK: u8 = 0x22;

pub const BACKSLASH: u8 = 0x5C;
