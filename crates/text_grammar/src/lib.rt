// The grammar of job texts: its table of groups.
#![tactic(auto)]

ghost use Rattle.std.specs.Prelude.{◌≡◌, ◌<◌, length, get_or};
ghost use Rattle.text_grammar.specs.Groups.{group_count, group_at, letters, index_of};
ghost use Rattle.text_grammar.specs.Inner.{Tabled};

// A group's numbers: how many fields its lines have, its place in the order and the places that the line before may have, the width and the
// number of its rows, and where the first one stands.
#[derive(Clone, Copy)]
pub struct Entry {
    pub fields: usize,
    pub place: usize,
    pub least: usize,
    pub most: usize,
    pub width: usize,
    pub room: usize,
    pub base: usize,
}

// How many groups there are; a line of no group has this for its group's number.
pub const GROUP_COUNT: usize = 13;

// The groups by name: their places in the table.
pub const HEAD: usize = 0;

pub const BLOCKS: usize = 1;

pub const EDGES: usize = 2;

pub const INSTS: usize = 3;

pub const OPERANDS: usize = 4;

pub const CROSSINGS: usize = 5;

pub const LOCALS: usize = 6;

pub const SLOTS: usize = 7;

pub const ADDRESSES: usize = 8;

pub const ENDS: usize = 9;

pub const PIECES: usize = 10;

pub const ASSIGNED: usize = 11;

pub const MOVES: usize = 12;

// The table, a column for each number of an entry: H, B, E, I, O, X, L, S, A, K, R, P, M.
const LETTERS: [u8; GROUP_COUNT] = [72, 66, 69, 73, 79, 88, 76, 83, 65, 75, 82, 80, 77];

const FIELDS: [usize; GROUP_COUNT] = [3, 3, 2, 7, 2, 1, 2, 1, 2, 2, 3, 2, 4];

const PLACES: [usize; GROUP_COUNT] = [1, 2, 3, 4, 4, 5, 6, 7, 8, 9, 10, 11, 12];

const LEASTS: [usize; GROUP_COUNT] = [0, 1, 1, 1, 4, 1, 1, 1, 1, 1, 1, 1, 1];

const MOSTS: [usize; GROUP_COUNT] = [0, 2, 3, 4, 4, 5, 6, 7, 8, 9, 10, 11, 12];

const WIDTHS: [usize; GROUP_COUNT] = [3, 3, 2, 9, 2, 1, 2, 1, 2, 2, 3, 2, 4];

const ROOMS: [usize; GROUP_COUNT] = [1, 64, 64, 64, 64, 64, 64, 64, 64, 64, 64, 64, 64];

const BASES: [usize; GROUP_COUNT] = [
    0, 3, 195, 323, 899, 1027, 1091, 1219, 1283, 1411, 1539, 1731, 1859,
];

// How many numbers the reader's list has, how many fields a line at most, and how many records of a group the program allows.
pub const ROW_NUMBERS: usize = 2115;

pub const MOST_FIELDS: usize = 7;

pub const ALLOWED: u32 = 64;

// The head's row stands first: points, V and budget.
pub const POINTS: usize = 0;

pub const REGISTERS: usize = 1;

pub const BUDGET: usize = 2;

// One more than a field's largest number; what `-` reads as; what reads as no field.
pub const LIMIT: u64 = 4294967296;

pub const DASH: u64 = 4294967296;

pub const NO_FIELD: u64 = 4294967297;

// What `-` stands for: unplaced, no base or index, no slot.
const UNPLACED: u64 = 0;

const NO_POSITION: u64 = 256;

const NO_SLOT: u64 = 4294967295;

// The longest line, with its newline.
pub const LONGEST: usize = 128;

// The table's entry of a group.
pub fn entry_of(k: usize) -> Entry
    requires { k < group_count }
    ensures { Tabled k result }
{
    Entry {
        fields: FIELDS[k],
        place: PLACES[k],
        least: LEASTS[k],
        most: MOSTS[k],
        width: WIDTHS[k],
        room: ROOMS[k],
        base: BASES[k],
    }
}

// Where a byte first stands, or the length.
pub fn find(s: &[u8], x: u8) -> usize
    ensures { result ≡ index_of x s.now }
{
    for (k, b) in s.iter().enumerate() {
        if *b == x {
            return k;
        }
    }
    s.len()
}

// The group of a letter, or `GROUP_COUNT`.
pub fn group_of(letter: u8) -> usize
    ensures { result ≡ index_of letter letters }
{
    find(&LETTERS, letter)
}

// What `-` stands for in field `j` of a group's lines, or `DASH` where it has no place.
pub fn dash_at(k: usize, j: usize) -> u64
    requires { (k < group_count) × (j < length (group_at k).dashes) }
    ensures { result ≡ get_or (group_at k).dashes j 0 }
{
    if k == INSTS {
        if j == 0 {
            return UNPLACED;
        }
        if 5 <= j {
            return NO_POSITION;
        }
        return DASH;
    }
    if k == ASSIGNED {
        if j == 1 {
            return NO_SLOT;
        }
        return DASH;
    }
    if k == MOVES {
        if 2 <= j {
            return NO_SLOT;
        }
        return DASH;
    }
    DASH
}
