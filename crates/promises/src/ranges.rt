// The ranges of document 01 for a board, each written once.
ghost use Rattle.std.specs.Prelude.{false, ◌≡◌};
ghost use Rattle.model.specs.Calls.{size_bad, memory_need, block_bad};

// Says whether no board has this size.
pub fn size_bad(c: usize) -> bool
    ensures { result ≡ size_bad c }
{
    c < 16 || 4096 < c
}

// Counts how many bytes a board of size C asks for.
pub fn memory_need(c: usize) -> usize
    requires { size_bad c ≡ false }
    ensures { result ≡ memory_need c }
{
    64 * c + 1024
}

// Says whether no block has this number.
pub fn block_bad(block: u16) -> bool
    ensures { result ≡ block_bad block }
{
    63 < block
}
