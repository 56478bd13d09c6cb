//! Frames of functions, and other changes of many cells.

ghost use Rattle.std.specs.Prelude.{◌≡◌, length};
ghost use Rattle.bl_ctext_semantics_laws.specs.Flat.{copied, frame_begun, with_args, zeroed};

/// Sets so many cells from one on to 0, as far as there are cells.
pub fn zero(cells: &mut [i128], at: usize, size: usize)
    ensures { cells.new ≡ zeroed size at cells.old }
{
    let end = at.saturating_add(size).min(cells.len());
    for k in at..end {
        cells[k] = 0;
    }
}

/// Copies so many cells, where all of them are there.
pub fn copy(cells: &mut [i128], from: usize, at: usize, size: u32)
    ensures { cells.new ≡ copied size from at cells.old }
{
    let size = size as usize;
    let from_end = from.saturating_add(size);
    if from_end <= cells.len() && at.saturating_add(size) <= cells.len() {
        cells.copy_within(from..from_end, at);
    }
}

/// The frame of a function as it begins: all 0 but for the arguments, which stand first.
pub fn begin(cells: &mut [i128], base: u32, size: u32, args: &[i128])
    ensures { cells.new ≡ frame_begun size base args.now cells.old }
{
    let at = base as usize;
    let count = args.len();
    let rest = (size as usize).saturating_sub(count);
    put(cells, at, args);
    zero(cells, at + count, rest);
}

/// Puts arguments into the cells from one on, as far as there are cells.
fn put(cells: &mut [i128], at: usize, args: &[i128])
    ensures { cells.new ≡ with_args at args.now cells.old }
{
    let end = at.saturating_add(args.len()).min(cells.len());
    for k in at..end {
        cells[k] = args[k - at];
    }
}
