// Heights in grains: the scale of an accepted table, and its lowest end added.
#![tactic(auto)]

ghost use Rattle.std.specs.Prelude.{◌≡◌, ◌≤◌, pos, ◌+ℤ◌, ◌-ℤ◌, ◌*ℤ◌};
ghost use Rattle.std.specs.Int.Signed.{mag};
ghost use Rattle.line.specs.Line.{to_nat};
ghost use Rattle.scale.specs.Inside.{Spread, scale_for};

use table::Summary;

// A table's grain count, and the highest end's grains above the lowest.
#[derive(Clone, Copy)]
pub struct Scale {
    pub grain: u64,
    pub top: u64,
}

// How many points a table's ends are apart.
pub fn span_of(t: Summary) -> u64
    requires { Spread t }
    ensures { (result ≡ to_nat (t.highest -ℤ t.lowest)) × (result ≤ 2000002) }
{
    (t.highest - t.lowest).max(0).unsigned_abs()
}

// The scale that the worths and bounds of an accepted table are taken by.
pub fn scale_of(t: Summary) -> Scale
    requires { Spread t }
    ensures { result ≡ scale_for t }
{
    let top = span_of(t) * t.grain;
    Scale {
        grain: t.grain,
        top: top,
    }
}

// Grains above the lowest end as grains.
pub fn in_grains(lowest: i64, grain: u64, height: u64) -> i64
    requires { (mag lowest ≤ 1000000) × (grain ≤ 16777216) × (height ≤ 35184372088832) }
    ensures { result ≡ lowest *ℤ pos grain +ℤ pos height }
{
    lowest * (grain as i64) + (height as i64)
}
