//! The bytes of one cell.

ghost use Rattle.std.specs.Prelude.{◌≡◌, ◌++◌, ◌≤◌, length, take, true, OnOk, None};
ghost use Rattle.bl_tree.specs.Scalar.{in_range};
ghost use Rattle.bl_save.specs.Bytes.{cell_bytes, size_of};
ghost use Rattle.bl_save.specs.inner.Shapes.{cell_shape, misfit, most_of};

use bl_tree::{NoMemory, Scalar};
use byteorder::{BigEndian, ByteOrder};

/// How many bytes the number of a cell has.
pub fn size_of(kind: Scalar) -> usize
    ensures { result ≡ size_of kind }
{
    match kind {
        Scalar::Bool => 1,
        Scalar::Int(width) | Scalar::Nat(width) | Scalar::Bits(width) => width.bits() as usize / 8,
    }
}

/// Appends the bytes of a cell's number.
pub fn push(bytes: &mut Vec<u8>, kind: Scalar, n: i128) -> Result<(), NoMemory>
    ensures { OnOk result (bytes.new.items ≡ bytes.old.items ++ cell_bytes kind n) }
{
    let mut cell = [0u8; 8];
    let size = size_of(kind);
    BigEndian::write_int128(&mut cell, n, size);
    bytes.extend_from_slice(&cell[..size])?;
    Ok(())
}

/// The number of a cell whose bytes come first.
pub fn number(kind: Scalar, bytes: &[u8]) -> i128
    requires { misfit (cell_shape kind) (take (size_of kind) bytes.now) ≡ None }
    ensures written { cell_bytes kind result ≡ take (size_of kind) bytes.now }
    ensures range { in_range kind result ≡ true }
{
    let size = size_of(kind);
    match kind {
        Scalar::Int(_) => BigEndian::read_int128(bytes, size),
        Scalar::Bool | Scalar::Nat(_) | Scalar::Bits(_) => {
            i128::from(BigEndian::read_uint(bytes, size))
        }
    }
}

// The greatest byte that a number of a type has.
fn most(kind: Scalar) -> u8
    ensures { result ≡ most_of kind }
{
    match kind {
        Scalar::Bool => 1,
        Scalar::Int(_) | Scalar::Nat(_) | Scalar::Bits(_) => u8::MAX,
    }
}

/// Where bytes stop beginning a cell, or their number where they are too few.
pub fn misfit(kind: Scalar, bytes: &[u8]) -> Option<usize>
    ensures { result ≡ misfit (cell_shape kind) (take (size_of kind) bytes.now) }
{
    if bytes.len() < size_of(kind) {
        return Some(bytes.len());
    }
    if bytes[0] > most(kind) {
        return Some(0);
    }
    None
}
