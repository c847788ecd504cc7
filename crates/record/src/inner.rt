// The numbers of the layout, and the types of a kind and of a front, of which the definitions speak.
ghost use Rattle.std.specs.Prelude.{◌≡◌};
ghost use Rattle.record.specs.Kinds.{number_of};

// The limits of document 01's refusal 1: at most so many operations, and at most so much of any other size.
pub const MAX_OPS: usize = 1024;

pub const MAX_SIZE: usize = 32768;

// Where the kinds begin, behind the four sizes; and how many bytes an operation takes besides its text: a kind and a count.
pub const HEADER: usize = 8;

pub const OP_BYTES: usize = 3;

// How many bytes a record within the limits has at most.
pub const MAX_RECORD: usize = HEADER + OP_BYTES * MAX_OPS + MAX_SIZE;

// The kinds, as a record has them.
pub const RETAIN: u8 = 1;

pub const INSERT: u8 = 2;

pub const DELETE: u8 = 3;

// The kind of an operation of a record that was checked.
#[derive(Clone, Copy, Debug, PartialEq, Eq)]
pub enum Kind {
    Retain,
    Insert,
    Delete,
}

impl From<Kind> for u8 {
    ghost from_gives = { λ kind byte. byte ≡ number_of kind };

    fn from(kind: Kind) -> u8 {
        match kind {
            Kind::Retain => RETAIN,
            Kind::Insert => INSERT,
            Kind::Delete => DELETE,
        }
    }
}

// The kinds of a front: an operation's kind, or the end of the record. They are words and no enum: the bytes behind the tag of an enum are
// copied with each copy of the struct, by loads that overlap two stores, and a step over fronts in memory took 27 ns in place of 4.
pub const AT_END: usize = 0;

pub const AT_RETAIN: usize = 1;

pub const AT_INSERT: usize = 2;

pub const AT_DELETE: usize = 3;

// The front of what lies ahead in a record: a kind (0 at the end), how many characters are left of it, the bytes of
// its text, and the operation behind it. The text of the operations behind it begins at `to`.
#[derive(Clone, Copy)]
pub struct Front {
    pub kind: usize,
    pub left: usize,
    pub from: usize,
    pub to: usize,
    pub next: usize,
}
