// Domains: a lower bound, an upper bound, and the holes between them.
ghost use Rattle.std.specs.Prelude.{◌≡◌, true, false, ◌+◌, ◌≤◌, length};
ghost use Rattle.integers.specs.Limits.{HOLES, VALUE};
ghost use Rattle.integers.specs.WholeNumbers.{Within};
ghost use Rattle.checking.specs.Atoms.{kind_of};
ghost use Rattle.checking.specs.Domains.{Tight, holes_of, every_integer, ascend, accepted_domain};
ghost use Rattle.checking.specs.Domains.{tightened_lower, tightened_upper, less_lower, less_upper, between};
ghost use Rattle.checking.specs.Domains.{hole_added, crowded, consistent, settled, reduced, true_of};

use crate::atomic_constraint::Comparison;
use crate::int_ext::IntExt;
use holes::hole_list;
use integers::limits::HOLES;

// The values that a variable may take: the holes are the first `count` places, ascending, and the others are 0.
#[derive(Clone, Copy)]
pub struct Domain {
    pub lower_bound: IntExt,
    pub upper_bound: IntExt,
    pub holes: [i32; HOLES],
    pub count: usize,
}

// What applying an atom did to its variable's domain: it left a value, it left none, or it needs a hole too many.
#[derive(Clone, Copy)]
pub enum Effect {
    Narrowed,
    Emptied,
    Full,
}

// The effect, and the domain after it, crossed where no value is left; where there is no room, the domain unchanged.
#[derive(Clone, Copy)]
pub struct Reduced {
    pub effect: Effect,
    pub domain: Domain,
}

impl Domain {
    pub(crate) fn all_integers() -> Domain
        ensures { result ≡ every_integer }
    {
        Domain {
            lower_bound: IntExt::NegativeInf,
            upper_bound: IntExt::PositiveInf,
            holes: [0; HOLES],
            count: 0,
        }
    }

    // The holes in use.
    fn holes(&self) -> &[i32]
        requires { self.now.count ≤ HOLES }
        ensures { result.now ≡ holes_of self.now }
    {
        &self.holes[..self.count]
    }

    // Tighten the lower bound, past holes, and drop the holes that are no longer above it.
    #[tactic(auto, unfolding(crate::specs::Domains::tightened_lower))]
    fn tighten_lower_bound(self, bound: i32) -> Domain
        requires { Tight self × Within (VALUE + 2) bound }
        ensures { result ≡ tightened_lower self bound }
    {
        if IntExt::Int(bound) <= self.lower_bound {
            return self;
        }
        let holes = self.holes();
        let raised = hole_list::first_from(holes, bound);
        let from = hole_list::place(holes, raised);
        Domain {
            lower_bound: IntExt::Int(raised),
            holes: hole_list::padded(&holes[from..]),
            count: self.count - from,
            ..self
        }
    }

    // Tighten the upper bound, past holes, and drop the holes that are no longer below it. The two bounds move past other holes and keep other parts of the list:
    // a function of both would take all that differs as arguments.
    #[tactic(auto, unfolding(crate::specs::Domains::tightened_upper))]
    fn tighten_upper_bound(self, bound: i32) -> Domain
        requires { Tight self × Within (VALUE + 2) bound }
        ensures { result ≡ tightened_upper self bound }
    {
        if self.upper_bound <= IntExt::Int(bound) {
            return self;
        }
        let holes = self.holes();
        let lowered = hole_list::last_up_to(holes, bound);
        let to = hole_list::place(holes, lowered);
        Domain {
            upper_bound: IntExt::Int(lowered),
            holes: hole_list::padded(&holes[..to]),
            count: to,
            ..self
        }
    }

    // Whether the domain contains a value: its bounds are as tight as its holes allow.
    fn is_consistent(self) -> bool
        ensures { result ≡ consistent self }
    {
        self.lower_bound <= self.upper_bound
    }

    // A lower bound that is the value moves up.
    #[tactic(auto, unfolding(crate::specs::Domains::less_lower))]
    fn without_lower(self, value: i32) -> Domain
        requires { Tight self × Within (VALUE + 1) value }
        ensures { result ≡ less_lower self value }
    {
        if self.lower_bound == IntExt::Int(value) {
            return self.tighten_lower_bound(value + 1);
        }
        self
    }

    // An upper bound that is the value moves down.
    #[tactic(auto, unfolding(crate::specs::Domains::less_upper))]
    fn without_upper(self, value: i32) -> Domain
        requires { Tight self × Within (VALUE + 1) value }
        ensures { result ≡ less_upper self value }
    {
        if self.upper_bound == IntExt::Int(value) {
            return self.tighten_upper_bound(value - 1);
        }
        self
    }

    // Whether the value lies strictly between the bounds.
    fn is_between(self, value: i32) -> bool
        ensures { result ≡ between self value }
    {
        self.lower_bound < IntExt::Int(value) && IntExt::Int(value) < self.upper_bound
    }

    // A value strictly between the bounds becomes a hole.
    #[tactic(auto, unfolding(crate::specs::Domains::hole_added))]
    fn with_hole(self, value: i32) -> Domain
        requires { Tight self × (crowded self value ≡ false) }
        ensures { result ≡ hole_added self value }
    {
        let holes = self.holes();
        if !self.is_between(value) || hole_list::contains(holes, value) {
            return self;
        }
        Domain {
            holes: hole_list::insert(holes, value),
            count: self.count + 1,
            ..self
        }
    }

    // Whether the value would be a hole too many.
    #[tactic(auto, unfolding(crate::specs::Domains::crowded))]
    fn is_crowded(self, value: i32) -> bool
        requires { Tight self }
        ensures { result ≡ crowded self value }
    {
        self.is_between(value) && !hole_list::contains(self.holes(), value) && HOLES <= self.count
    }

    // The domain after an atom, and whether a value is left in it.
    #[tactic(auto, unfolding(crate::specs::Domains::settled))]
    fn settled(self) -> Reduced
        ensures { result ≡ settled self }
    {
        let effect = if self.is_consistent() {
            Effect::Narrowed
        } else {
            Effect::Emptied
        };
        Reduced {
            effect,
            domain: self,
        }
    }

    // Apply an atom on this domain's variable.
    pub(crate) fn apply(self, comparison: Comparison, value: i32) -> Reduced
        requires { Tight self × Within (VALUE + 1) value }
        ensures { result ≡ reduced self (kind_of comparison) value }
    {
        match comparison {
            Comparison::GreaterEqual => self.tighten_lower_bound(value).settled(),
            Comparison::LessEqual => self.tighten_upper_bound(value).settled(),
            Comparison::Equal => self
                .tighten_lower_bound(value)
                .tighten_upper_bound(value)
                .settled(),
            Comparison::NotEqual => {
                if self.is_crowded(value) {
                    return Reduced {
                        effect: Effect::Full,
                        domain: self,
                    };
                }
                self.without_lower(value)
                    .without_upper(value)
                    .with_hole(value)
                    .settled()
            }
        }
    }

    // Whether every value of the domain meets an atom on its variable.
    pub(crate) fn is_true(self, comparison: Comparison, value: i32) -> bool
        requires { Tight self }
        ensures { result ≡ true_of self (kind_of comparison) value }
    {
        let bound = IntExt::Int(value);
        match comparison {
            Comparison::GreaterEqual => bound <= self.lower_bound,
            Comparison::LessEqual => self.upper_bound <= bound,
            Comparison::Equal => bound <= self.lower_bound && self.upper_bound <= bound,
            Comparison::NotEqual => {
                bound < self.lower_bound
                    || self.upper_bound < bound
                    || hole_list::contains(self.holes(), value)
            }
        }
    }

    // Whether the domain is one that a call may be given.
    #[tactic(auto, unfolding(crate::specs::Domains::accepted_domain))]
    pub(crate) fn is_accepted(&self) -> bool
        ensures { (result ≡ accepted_domain self.now) × (result ≡ true → length self.now.holes ≡ HOLES) }
    {
        self.lower_bound <= self.upper_bound
            && self.lower_bound < IntExt::PositiveInf
            && IntExt::NegativeInf < self.upper_bound
            && self.count <= HOLES
            && ascend_between(self.holes(), self.lower_bound, self.upper_bound)
            && hole_list::rest_is_zero(&self.holes[self.count..])
    }
}

// Whether the holes ascend, strictly between the bounds.
fn ascend_between(holes: &[i32], lower_bound: IntExt, upper_bound: IntExt) -> bool
    ensures { result ≡ ascend lower_bound holes.now upper_bound }
{
    let mut last = lower_bound;
    for hole in holes {
        let hole = IntExt::Int(*hole);
        if hole <= last || upper_bound <= hole {
            return false;
        }
        last = hole;
    }
    true
}
