// The barred starts of a range, and whether they fit.
ghost use Rattle.std.specs.Prelude.{◌≡◌, ◌&&◌, ◌≤◌};
ghost use Rattle.std.specs.Int.Signed.{lt_z};
ghost use Rattle.integers.specs.Limits.{BARS};
ghost use Rattle.ranges.specs.Bars.{bars_of, is_inside, bars_are_fit, all_bars_are_fit};

use crate::range::Range;
use integers::limits::BARS;

impl Range {
    // The barred starts: as many places as the count says, and no more than there are.
    pub(crate) fn bars(&self) -> &[i32]
        ensures { result.now ≡ bars_of self.now }
    {
        &self.barred[..self.count.min(BARS)]
    }

    // Whether the bar is neither end of the range.
    #[tactic(auto, using(crate::proofs::BarTests::eq_bits), unfolding(crate::specs::Bars::is_inside))]
    fn inside(&self, bar: i32) -> bool
        ensures { result ≡ is_inside self.now bar }
    {
        bar != self.earliest && bar != self.latest
    }

    // Whether the bar is past the one before it, and neither end of the range.
    fn follows(&self, before: i32, bar: i32) -> bool
        ensures { result ≡ lt_z before bar && is_inside self.now bar }
    {
        before < bar && self.inside(bar)
    }

    // Whether the barred starts ascend and neither end of the range is one of them, in one pass.
    fn places_fit(&self) -> bool
        requires { (1 ≤ self.now.count) × (self.now.count ≤ BARS) }
        ensures { result ≡ bars_are_fit self.now }
    {
        if !self.inside(self.barred[0]) {
            return false;
        }
        for i in 1..self.count {
            if !self.follows(self.barred[i - 1], self.barred[i]) {
                return false;
            }
        }
        true
    }

    // Whether there is room for the barred starts, they ascend, and neither end of the range is one of them. Where there are none, no place is read.
    #[tactic(auto, using(crate::proofs::BarTests::fit_none, crate::proofs::BarTests::fit_many))]
    fn bars_fit(&self) -> bool
        ensures { result ≡ bars_are_fit self.now }
    {
        if self.count == 0 {
            return true;
        }
        self.count <= BARS && self.places_fit()
    }
}

// Whether the bars of every range fit.
pub fn all_bars_fit(ranges: &[Range]) -> bool
    ensures { result ≡ all_bars_are_fit ranges.now }
{
    ranges.iter().all(|range| range.bars_fit())
}
