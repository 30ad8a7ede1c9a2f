// Classes of sizes, which share what is remembered of where a gap for them may begin.

ghost use Rattle.std.specs.Prelude.{◌≤◌};
ghost use Rattle.gap_bounds.specs.Gaps.{IsClassOf};

/// A class of sizes by its number, with its least size.
#[derive(Clone, Copy)]
pub struct Class {
    pub number: u32,
    pub least: u32,
}

/// The class of a size of at most half a page: sizes below 64 have one each, and larger ones share
/// one up to the next power of two.
pub fn class_of(size: u32) -> Class
    requires { size ≤ 8192 }
    ensures { IsClassOf size result.number result.least }
{
    if size < 64 {
        return Class {
            number: size,
            least: size,
        };
    }
    let power = size.ilog2();
    Class {
        number: power + 58,
        least: 1 << power,
    }
}
