// The rows of records, answers and lent lists: each width, and where a field stands in its row (the first one at 0), once; in specs `Widths`.

// A block of the line, `B,number,start,end`.
pub mod block {
    pub const WIDTH: usize = 3;

    // Its first point.
    pub const START: usize = 1;

    // Its last point.
    pub const END: usize = 2;
}

// An edge between block numbers, `E,from,to`.
pub mod edge {
    pub const WIDTH: usize = 2;

    // The number of the block entered.
    pub const INTO: usize = 1;
}

// `I,block,early,late,lea,mem,base,index`, with 1 in front where it is placed and the count of its operands behind.
pub mod inst {
    pub const WIDTH: usize = 9;

    // Its block's number.
    pub const BLOCK: usize = 1;

    // Its early point.
    pub const EARLY: usize = 2;

    // Its late point.
    pub const LATE: usize = 3;

    // Its `lea` flag.
    pub const LEA: usize = 4;

    // Its memory-mode flag.
    pub const MEM: usize = 5;

    // Its base's operand position.
    pub const BASE: usize = 6;

    // Its index's operand position.
    pub const INDEX: usize = 7;

    // How many operands are its.
    pub const OPERANDS: usize = 8;
}

// An operand, `O,def,register`.
pub mod operand {
    pub const WIDTH: usize = 2;

    // Its register.
    pub const REGISTER: usize = 1;
}

// A local, `L,size,align`.
pub mod local {
    pub const WIDTH: usize = 2;

    // Its alignment.
    pub const ALIGN: usize = 1;
}

// An address entry or an end, `A,inst,local` or `K,inst,local`.
pub mod mention {
    pub const WIDTH: usize = 2;

    // The local.
    pub const LOCAL: usize = 1;
}

// A live piece, `R,register,start,end`.
pub mod piece {
    pub const WIDTH: usize = 3;

    // Its first point.
    pub const START: usize = 1;

    // Its last point.
    pub const END: usize = 2;
}

// An assignment, `P,register,slot`.
pub mod assigned {
    pub const WIDTH: usize = 2;

    // Its slot.
    pub const SLOT: usize = 1;
}

// A move, `M,kind,number,to,from`.
pub mod moving {
    pub const WIDTH: usize = 4;

    // The instruction or the block.
    pub const NUMBER: usize = 1;

    // The slot that it goes to.
    pub const TO: usize = 2;

    // The slot that it comes from.
    pub const FROM: usize = 3;
}

// A touch lent by itself: of which local, from where, to where.
pub mod touch {
    pub const WIDTH: usize = 3;

    // Its first point.
    pub const START: usize = 1;

    // Its last point.
    pub const END: usize = 2;
}

// An end lent by itself: of which local, at which point.
pub mod stop {
    pub const WIDTH: usize = 2;

    // Where it is.
    pub const POINT: usize = 1;
}

// A cell of a plan: its size and its alignment.
pub mod cell {
    pub const WIDTH: usize = 2;

    // Its alignment.
    pub const ALIGN: usize = 1;
}

// An item of a plan: its cell, and its part of the area list.
pub mod item {
    pub const WIDTH: usize = 4;

    // 0 where it has no area.
    pub const PRESENT: usize = 1;

    // Its area's first range.
    pub const FIRST: usize = 2;

    // How many ranges its area has.
    pub const RANGES: usize = 3;
}

// A part of the area list: 1 where it is present, its first range, and how many.
pub mod part {
    pub const WIDTH: usize = 3;

    // The area's first range.
    pub const FIRST: usize = 1;

    // How many ranges the area has.
    pub const RANGES: usize = 2;
}

// A range of the area list.
pub mod range {
    pub const WIDTH: usize = 2;

    // Its last point.
    pub const END: usize = 1;
}

// A want: size, alignment, and its part of the area list.
pub mod want {
    pub const WIDTH: usize = 5;

    // Its alignment.
    pub const ALIGN: usize = 1;

    // 0 where it has no area.
    pub const PRESENT: usize = 2;

    // Its area's first range.
    pub const FIRST: usize = 3;

    // How many ranges its area has.
    pub const RANGES: usize = 4;
}
