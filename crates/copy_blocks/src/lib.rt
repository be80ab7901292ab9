// Copying bytes: whole, or a block to a place in a buffer. Each is compiled to a copy of memory.
#![tactic(auto)]

ghost use Rattle.std.specs.Prelude.{◌≡◌, ◌+◌, ◌≤◌, ◌<◌, length, take};
ghost use Rattle.answers.specs.Buffers.{from_entry, in_front};
ghost use Rattle.copy_blocks.specs.Blocks.{block_len};

// Copies a block of any length into a buffer, from index `at` on, a place in it and no length that
// travels with it.
pub fn write_block(block: &[u8], at: usize, out: &mut [u8])
    requires { at + length block.now ≤ length out.old }
    ensures { out.new ≡ from_entry at block.now out.old }
{
    out[at..at + block.len()].copy_from_slice(block);
}

// Copies bytes to the front of a buffer, and returns how many it copied: all. The contract leaves
// room for fewer, by whole blocks.
pub fn copy_blocks(bytes: &[u8], out: &mut [u8]) -> usize
    requires { length bytes.now ≤ length out.old }
    ensures inside { result ≤ length bytes.now }
    ensures nearly_all { length bytes.now < result + block_len }
    ensures copied { out.new ≡ in_front (take result bytes.now) out.old }
{
    write_block(bytes, 0, out);
    bytes.len()
}
