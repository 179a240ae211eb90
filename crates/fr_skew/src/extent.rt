ghost use Rattle.std.specs.Prelude.{◌≡◌, pos, IfSome};
ghost use Rattle.fr_base.specs.Within.{IsBetween};
ghost use Rattle.fr_skew.specs.Extents.{spread_by, widened, IsExtent, IsInstant};
ghost use Rattle.fr_skew.specs.Spreads.{most_apart_ever};

// The least and the greatest of some numbers.
#[derive(Clone, Copy, Debug, PartialEq, Eq)]
pub(crate) struct Extent {
    pub(crate) low: i64,
    pub(crate) high: i64,
}

// The extent of some numbers and one more.
pub(crate) fn widened(extent: Option<Extent>, at: i64) -> Extent
    requires proper { IfSome extent IsExtent }
    requires at { IsInstant at }
    ensures value { result ≡ widened extent at }
    ensures proper { IsExtent result }
{
    match extent {
        None => Extent { low: at, high: at },
        Some(extent) => Extent {
            low: extent.low.min(at),
            high: extent.high.max(at),
        },
    }
}

// How far some numbers lie apart, by their extent; 0 where there are none.
pub(crate) fn spread_by(extent: Option<Extent>) -> i64
    requires { IfSome extent IsExtent }
    ensures value { result ≡ spread_by extent }
    ensures within { IsBetween (pos 0) (pos most_apart_ever) result }
{
    match extent {
        None => 0,
        Some(extent) => extent.high - extent.low,
    }
}
