//! Points whose flags are true.

ghost use Rattle.std.specs.Prelude.{◌≡◌, map, option_map, slice_get};
ghost use Rattle.bl_ctree_enabled.specs.Listing.{flagged, trues};
ghost use Rattle.bl_ctree_enabled.specs.Spots.{spot_of};

use crate::point::Point;

/// How many are true.
pub fn trues(flags: &[bool]) -> usize
    ensures { result ≡ trues flags.now }
{
    let mut count = 0;
    for k in 0..flags.len() {
        if flags[k] {
            count += 1;
        }
    }
    count
}

/// The point with number n of those whose flag is true.
pub fn nth<'b, 'a>(points: &'b [Point<'a>], flags: &[bool], n: usize) -> Option<&'b Point<'a>>
    ensures { option_map (λ point. spot_of point.now) result ≡ slice_get (flagged flags.now (map spot_of points.now)) n }
{
    let mut left = n;
    for k in 0..points.len() {
        if k >= flags.len() {
            return None;
        }
        if flags[k] {
            if left == 0 {
                return Some(&points[k]);
            }
            left -= 1;
        }
    }
    None
}
