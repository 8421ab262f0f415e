use flow_base::Point;
use rv32im_decode::{BranchKind, LoadKind, OpKind};

/// Where a value of a turn stands: a register (0 to 31), a byte of guest memory at its address, or one of the two
/// operands that have gone on in this turn.
#[derive(Clone, Copy, Debug)]
pub enum Place {
    Register(u8),
    Byte(u32),
    First,
    Second,
}

/// Where one value comes from: a place, a number that no secret has a part in, or the secret byte of this index.
#[derive(Clone, Copy)]
pub enum Source {
    At(Place),
    Constant(u32),
    Secret(u32),
}

/// Where the values of one passing come from; the last three are the bytes from an address on, the lowest address
/// first.
#[derive(Clone, Copy)]
pub enum Sources {
    One(Source),
    Two(Source, Source),
    Byte(u32),
    Half(u32),
    Word(u32),
}

/// A byte of a word, the lowest first.
#[derive(Clone, Copy)]
pub enum Part {
    Byte0,
    Byte1,
    Byte2,
    Byte3,
}

/// What only moves bits about: a copy, loaded bytes joined and extended to a word, or one byte of a word.
#[derive(Clone, Copy)]
pub enum Shape {
    Copied,
    Extended(LoadKind),
    Part(Part),
}

/// What computes a value from two operands: a result, a branch's decision, or the target of JALR.
#[derive(Clone, Copy)]
pub enum Operation {
    Result(OpKind),
    Decision(BranchKind),
    Target,
}

/// How the value of a passing is made; a computed one with the values of its two operands.
#[derive(Clone, Copy)]
pub enum Work {
    Shaped(Shape),
    Computed(Operation, u32, u32),
}

/// What becomes of the value that goes on from a passing: it is put into a place, the rest of the turn may depend on it,
/// or, as an output of a region at its leave, it is put back to the place that it came from.
#[derive(Clone, Copy)]
pub enum Aim {
    Put(Place),
    Decide,
    Give(Place),
}

/// A value that passes a point: how it is made and from what, and what becomes of the value that goes on.
#[derive(Clone, Copy)]
pub struct Passing {
    pub point: Point,
    pub aim: Aim,
    pub work: Work,
    pub sources: Sources,
    pub value: u32,
}

/// What a turn looks at without a passing: the fetched word at an address, or the base register of a region's range.
#[derive(Clone, Copy)]
pub enum Seen {
    Word(u32),
    Base(u8),
}
