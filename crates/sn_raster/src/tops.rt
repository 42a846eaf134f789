//! Tops of heights, and sums of them.
ghost use Rattle.std.specs.Prelude.{◌≡◌, ◌*◌, ◌≤◌, ℤ, ◌-ℤ◌, ◌≤ℤ◌, length, unsigned_abs};
ghost use Rattle.std.specs.List.{All, sum_by};
ghost use Rattle.sn_geom.specs.Length.{IsLength};
ghost use Rattle.sn_geom.specs.declared.limits.TheConstants.{MOST_NODES};
ghost use Rattle.sn_raster.specs.Grid.{Node, IsInWindow, IsInRaw};
ghost use Rattle.sn_raster.specs.Plane.{Has};
ghost use Rattle.sn_raster.specs.Heights.{IsTop};

use crate::bits::Bits;
use crate::grid::Grid;
use crate::heights::Heights;

/// The greatest height over the raw nodes of the area, and the raw bottom where it has none.
pub(crate) fn top_of_rows(map: &Heights, g: &Grid, area: &Bits) -> i32
    requires grid { map.now.grid ≡ g.now }
    requires area { area.now.grid ≡ g.now }
    ensures top { IsTop map.now (λ n. IsInRaw g.now n × Has area.now n) result }
    ensures range { IsLength result }
{
    let mut top = g.bottom;
    for j in g.rj0..g.rj1 + 1 {
        top = top.max(top_of_row(map, g, area, j));
    }
    top
}

/// The greatest height over the raw nodes of row `j` of the area, and the raw bottom where it has none.
fn top_of_row(map: &Heights, g: &Grid, area: &Bits, j: i32) -> i32
    requires grid { map.now.grid ≡ g.now }
    requires area { area.now.grid ≡ g.now }
    requires first { g.now.rj0 ≤ℤ j }
    requires last { j ≤ℤ g.now.rj1 }
    ensures top { IsTop map.now (λ n. (n.j ≡ j) × IsInRaw g.now n × Has area.now n) result }
    ensures range { IsLength result }
{
    g.rule();
    let mut top = g.bottom;
    for i in g.ri0..g.ri1 + 1 {
        top = top.max(top_of_node(map, g, area, i, j));
    }
    top
}

/// The height of the node in column `i` and row `j` where the area has it, and the raw bottom where not.
fn top_of_node(map: &Heights, g: &Grid, area: &Bits, i: i32, j: i32) -> i32
    requires grid { map.now.grid ≡ g.now }
    requires area { area.now.grid ≡ g.now }
    requires window { IsInWindow g.now (record { i = i; j = j }) }
    ensures top { IsTop map.now (λ n. (n ≡ record { i = i; j = j }) × Has area.now n) result }
    ensures range { IsLength result }
{
    g.rule();
    if area.get(i, j) {
        map.at(i, j)
    } else {
        g.bottom
    }
}

/// The sum of what the heights are above the raw bottom.
pub(crate) fn sum_above(g: &Grid, heights: &[i32]) -> u64
    requires heights { All IsLength heights.now }
    requires few { length heights.now ≤ MOST_NODES }
    ensures { result ≡ sum_by (λ height. unsigned_abs (height -ℤ g.now.bottom)) heights.now }
{
    let mut sum: u64 = 0;
    for height in heights {
        sum += u64::from(height.abs_diff(g.bottom));
    }
    sum
}
