// Numbers of 32 bits, and words of work space that hold two of them.
ghost use Rattle.std.specs.Prelude.{◌≡◌};

// A word's first number stands above this.
pub const HALF: u64 = 0x1_0000_0000;

// A number as an index.
pub fn wide(x: u32) -> usize
    ensures { result ≡ x }
{
    x as usize
}
