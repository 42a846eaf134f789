//! Marks that are set with those beside them.
ghost use Rattle.std.specs.Prelude.{◌≡◌, ◌↔◌, ◌⊎◌, ◌+◌, ◌-◌, ◌*◌, ◌≤◌, ◌<◌, ◌&&◌, ℕ, false, length, slice_index_or, IsTrue};
ghost use Rattle.sn_raster.specs.MarksBeside.{IsSetBeside};

/// Sets each mark to whether the other is set there, and beside it in its row. The rows have `width` marks.
pub(crate) fn keep_rows(to: &mut [bool], from: &[bool], width: usize, rows: usize)
    requires to { length to.old ≡ width * rows }
    requires from { length from.now ≡ width * rows }
    ensures full { length to.new ≡ width * rows }
    ensures each { (row column : ℕ) → row < rows → column < width
        → IsTrue (slice_index_or to.new (row * width + column) false)
        ↔ IsSetBeside from.now 1 (row * width) (row * width + width) (row * width + column) }
{
    for row in 0..rows {
        let first = row * width;
        let end = first + width;
        keep_beside(&mut to[first..end], &from[first..end], 1);
    }
}

/// Sets each mark to whether the other is set there, and `step` before and after it, as far as the marks go.
pub(crate) fn keep_beside(to: &mut [bool], from: &[bool], step: usize)
    requires full { length to.old ≡ length from.now }
    requires whole { (length from.now ≤ step) ⊎ (2 * step ≤ length from.now) }
    ensures full { length to.new ≡ length from.now }
    ensures each { (k : ℕ) → k < length from.now
        → IsTrue (slice_index_or to.new k false) ↔ IsSetBeside from.now step 0 (length from.now) k }
{
    if from.len() <= step {
        to.copy_from_slice(from);
        return;
    }
    keep_ends(to, from, step);
    keep_inner(to, from, step);
}

/// Sets the first and the last `step` marks.
fn keep_ends(to: &mut [bool], from: &[bool], step: usize)
    requires full { length to.old ≡ length from.now }
    requires apart { 2 * step ≤ length from.now }
    ensures full { length to.new ≡ length from.now }
    ensures first { (k : ℕ) → k < step → slice_index_or to.new k false
        ≡ slice_index_or from.now k false && slice_index_or from.now (k + step) false }
    ensures last { (k : ℕ) → k < length from.now → length from.now ≤ k + step → slice_index_or to.new k false
        ≡ slice_index_or from.now (k - step) false && slice_index_or from.now k false }
{
    let last = from.len() - step;
    for k in 0..step {
        to[k] = from[k] & from[k + step];
        to[last + k] = from[last + k - step] & from[last + k];
    }
}

/// Sets the marks between the first and the last `step`.
fn keep_inner(to: &mut [bool], from: &[bool], step: usize)
    requires full { length to.old ≡ length from.now }
    requires apart { 2 * step ≤ length from.now }
    ensures full { length to.new ≡ length from.now }
    ensures inner { (k : ℕ) → step ≤ k → k + step < length from.now → slice_index_or to.new k false
        ≡ (slice_index_or from.now (k - step) false && slice_index_or from.now k false) && slice_index_or from.now (k + step) false }
    ensures first { (k : ℕ) → k < step → slice_index_or to.new k false ≡ slice_index_or to.old k false }
    ensures last { (k : ℕ) → length from.now ≤ k + step → slice_index_or to.new k false ≡ slice_index_or to.old k false }
{
    for k in step..from.len() - step {
        to[k] = from[k - step] & from[k] & from[k + step];
    }
}
