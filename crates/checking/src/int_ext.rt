// A whole number or an infinity.
ghost use Rattle.std.specs.Prelude.{◌≡◌};
ghost use Rattle.checking.specs.Domains.{le_ext, eq_ext};

// In the order of their declaration: minus infinity is below all numbers, and plus infinity above.
#[derive(Clone, Copy, PartialEq, Eq, PartialOrd, Ord)]
pub enum IntExt {
    NegativeInf,
    Int(i32),
    PositiveInf,
}

// The derived order and equality are those of the definitions.
impl IntExt {
    // self <= other
    pub fn le(self, other: IntExt) -> bool
        ensures { result ≡ le_ext self other }
    {
        self <= other
    }

    // self == other
    pub fn eq(self, other: IntExt) -> bool
        ensures { result ≡ eq_ext self other }
    {
        self == other
    }
}
