//! The escapes of a row: `\t`, `\r` and `\n` stand for blanks, and `\\` for a backslash.
ghost use Rattle.std.specs.Prelude.{◌≡◌, false, IfOk};
ghost use Rattle.dial_vectors.specs.Escapes.{meaning, unescaped};

use std::alloc::{AllocError, Global};

// The byte that a letter behind a backslash stands for.
fn meant(letter: u8) -> u8
    ensures { result ≡ meaning letter }
{
    match letter {
        b't' => b'\t',
        b'r' => b'\r',
        b'n' => b'\n',
        other => other,
    }
}

// The text that is written with escapes.
pub fn unescape(heap: Global, text: &[u8]) -> Result<Vec<u8>, AllocError>
    ensures { IfOk result (λ v. v.items ≡ unescaped false text.now) }
{
    let mut out = Vec::new(heap);
    let mut bytes = text.iter();
    while let Some(byte) = bytes.next() {
        if *byte != b'\\' {
            out.push(*byte)?;
        } else if let Some(letter) = bytes.next() {
            out.push(meant(*letter))?;
        }
    }
    Ok(out)
}
