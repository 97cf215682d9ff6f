// A piece of bytes: eight of them as one number.
ghost use Rattle.std.specs.Prelude.{◌≡◌, ◌+◌, ◌≤◌, length};
ghost use Rattle.span.specs.Pieces.{piece_size, piece_at};

// How many bytes a piece has.
pub const PIECE_SIZE: usize = 8;

// The piece from `at` on as one number, its first byte the lowest.
pub fn piece(s: &[u8], at: usize) -> u64
    requires { at + piece_size ≤ length s.now }
    ensures { result ≡ piece_at s.now at }
{
    u64::from_le_bytes([
        s[at],
        s[at + 1],
        s[at + 2],
        s[at + 3],
        s[at + 4],
        s[at + 5],
        s[at + 6],
        s[at + 7],
    ])
}
