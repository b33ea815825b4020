// The lines that tell how many layers, rows and bytes there are, and which line of a script cannot be read.
ghost use Rattle.std.specs.Prelude.{◌≡◌, IfOk, string_bytes};
ghost use Rattle.replies.specs.Replies.{pile_line, filed_line, squashed_line, unreadable_line};

use std::alloc::{AllocError, Global};

// How many layers were read, and how many rows their squash has.
pub fn pile_line(heap: Global, layers: usize, rows: usize) -> Result<String, AllocError>
    ensures { IfOk result (λ s. string_bytes s ≡ pile_line layers rows) }
{
    format!(in heap; "pile {layers} layers {rows} rows\n")
}

// How many rows and bytes the file of the new layer has.
pub fn filed_line(heap: Global, rows: usize, bytes: usize) -> Result<String, AllocError>
    ensures { IfOk result (λ s. string_bytes s ≡ filed_line rows bytes) }
{
    format!(in heap; "filed {rows} rows {bytes} bytes\n")
}

// How many layers were squashed, the new one among them, and how many rows and bytes their file has.
pub fn squashed_line(
    heap: Global,
    layers: usize,
    rows: usize,
    bytes: usize,
) -> Result<String, AllocError>
    ensures { IfOk result (λ s. string_bytes s ≡ squashed_line layers rows bytes) }
{
    format!(in heap; "squashed {layers} layers {rows} rows {bytes} bytes\n")
}

// Which line of a script cannot be read, counted from 1.
pub fn unreadable_line(heap: Global, number: usize) -> Result<String, AllocError>
    ensures { IfOk result (λ s. string_bytes s ≡ unreadable_line number) }
{
    format!(in heap; "unreadable line {number}\n")
}
