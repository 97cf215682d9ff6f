// A run of bytes at a place of a table: laid over it, read from it, compared with it.
#![tactic(auto)]

pub mod pieces;

ghost use Rattle.std.specs.Prelude.{◌≡◌, ◌+◌, ◌≤◌, length};
ghost use Rattle.span.specs.Span.{bytes_at, Laid, Compared};

// Lays the bytes over the table from `at` on.
#[tactic(auto, using(crate::specs::SpanLaws::laid_over, crate::specs::SpanLaws::laid_nothing))]
pub fn put_bytes(table: &mut [u8], at: usize, bytes: &[u8])
    requires { at + length bytes.now ≤ length table.old }
    ensures { Laid table.old table.new at bytes.now }
{
    table[at..at + bytes.len()].copy_from_slice(bytes);
}

// Fills `out` with the table's bytes from `at` on.
pub fn read_bytes(out: &mut [u8], table: &[u8], at: usize)
    requires { at + length out.old ≤ length table.now }
    ensures { out.new ≡ bytes_at table.now at (length out.old) }
{
    out.copy_from_slice(&table[at..at + out.len()]);
}

// Whether the table holds the bytes from `at` on: piece by piece from the front (docs/COMPARISON.md says why), then what is less than a piece.
pub fn same_bytes(table: &[u8], at: usize, bytes: &[u8]) -> bool
    requires { at + length bytes.now ≤ length table.now }
    ensures { Compared (bytes_at table.now at (length bytes.now)) bytes.now result }
{
    let size = bytes.len();
    let whole = size / pieces::PIECE_SIZE;
    for i in 0..whole {
        let found = pieces::PIECE_SIZE * i;
        if pieces::piece(table, at + found) != pieces::piece(bytes, found) {
            return false;
        }
    }
    let found = pieces::PIECE_SIZE * whole;
    table[at + found..at + size] == bytes[found..]
}
