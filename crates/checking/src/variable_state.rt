// The domains of all variables.
ghost use Rattle.std.specs.Prelude.{◌≡◌, true, ◌+◌, ◌*◌, ◌<◌};
ghost use Rattle.integers.specs.Limits.{VARIABLES, PREMISES, VALUE};
ghost use Rattle.integers.specs.WholeNumbers.{Within};
ghost use Rattle.checking.specs.Atoms.{atom_of};
ghost use Rattle.checking.specs.Answers.{numbers_of_truth, numbers_of_bound, AppliedAs};
ghost use Rattle.checking.specs.Promises.{EmptyMeans, ApplyMeans, TruthMeans, LowerMeans, UpperMeans, PrepareMeans};
ghost use Rattle.checking.specs.States.{empty_state, accepted, stepped, applied_to, truth_of, bound_of, Applicable, prepared, AcceptedState};
ghost use Rattle.checking.specs.States.{lower_of, upper_of, side_of};

use crate::atomic_constraint::{
    AtomicConstraint, atom_is_accepted, given_at, lists_are_accepted, variable_is_accepted,
};
use crate::domain::{Domain, Effect};
use crate::int_ext::IntExt;
use integers::limits::{PREMISES, VARIABLES};
use integers::numbers::nat_of;
use integers::refused::Refusal;

// The domains of the variables, by number. An unmentioned variable may be any integer.
#[derive(Clone, Copy)]
pub struct VariableState {
    pub domains: [Domain; VARIABLES],
}

// What applying atoms answers: the contradiction names the variable of the failing atom.
#[derive(Clone, Copy)]
pub enum Application {
    Consistent,
    Contradiction(usize),
    Refused(Refusal),
}

// The answer, and the state after it.
#[derive(Clone, Copy)]
pub struct Applied {
    pub answer: Application,
    pub state: VariableState,
}

// Which of the two bounds.
#[derive(Clone, Copy)]
pub enum Side {
    Lower,
    Upper,
}

// The empty state, in which every variable may be any integer.
impl Default for VariableState {
    ghost is_default = { λ s. (s ≡ empty_state) × EmptyMeans s };

    fn default() -> VariableState {
        VariableState {
            domains: [Domain::all_integers(); VARIABLES],
        }
    }
}

impl VariableState {
    // Whether the state is one that a call may be given.
    fn is_accepted(&self) -> bool
        ensures { (result ≡ accepted self.now.domains) × (result ≡ true → AcceptedState self.now) }
    {
        self.domains.iter().all(|domain| domain.is_accepted())
    }

    // Apply one atom.
    fn apply_atom(mut self, atom: AtomicConstraint) -> Applied
        requires { AcceptedState self × ((atom.identifier < VARIABLES) × Within (VALUE + 1) atom.value) }
        ensures { result ≡ stepped self (atom_of atom) }
    {
        let x = atom.identifier;
        let reduced = self.domains[x].apply(atom.comparison, atom.value);
        let answer = match reduced.effect {
            Effect::Narrowed => {
                self.domains[x] = reduced.domain;
                Application::Consistent
            }
            Effect::Emptied => Application::Contradiction(x),
            Effect::Full => Application::Refused(Refusal::Holes),
        };
        Applied {
            answer,
            state: self,
        }
    }

    // Apply the atom (variable, kind, value). A contradiction and a refusal return the state unchanged.
    pub fn apply(self, variable: i32, kind: i32, value: i32) -> Applied
        ensures equals { AppliedAs (applied_to self variable kind value) result }
        ensures means { ApplyMeans self variable kind value result }
    {
        if !self.is_accepted() {
            return Applied {
                answer: Application::Refused(Refusal::State),
                state: self,
            };
        }
        if !atom_is_accepted(variable, kind, value) {
            return Applied {
                answer: Application::Refused(Refusal::Atoms),
                state: self,
            };
        }
        self.apply_atom(AtomicConstraint::new(variable, kind, value))
    }

    // Whether the atom (variable, kind, value) is true of every admitted value.
    pub fn is_true(self, variable: i32, kind: i32, value: i32) -> Result<bool, Refusal>
        ensures equals { numbers_of_truth result ≡ numbers_of_truth (truth_of self variable kind value) }
        ensures means { TruthMeans self variable kind value result }
    {
        if !self.is_accepted() {
            return Err(Refusal::State);
        }
        if !atom_is_accepted(variable, kind, value) {
            return Err(Refusal::Atoms);
        }
        let atom = AtomicConstraint::new(variable, kind, value);
        Ok(self.domains[atom.identifier].is_true(atom.comparison, value))
    }

    // The bound of a variable on one side.
    #[tactic(auto, unfolding(crate::specs::States::bound_of))]
    pub fn bound(self, side: Side, variable: i32) -> Result<IntExt, Refusal>
        ensures { (result ≡ bound_of (side_of side) self variable) × (accepted self.domains ≡ true → AcceptedState self) }
    {
        if !self.is_accepted() {
            return Err(Refusal::State);
        }
        if !variable_is_accepted(variable) {
            return Err(Refusal::Atoms);
        }
        let domain = self.domains[nat_of(variable) as usize];
        Ok(match side {
            Side::Lower => domain.lower_bound,
            Side::Upper => domain.upper_bound,
        })
    }

    // The least value of a variable, or minus infinity.
    pub fn lower_bound(self, variable: i32) -> Result<IntExt, Refusal>
        ensures equals { numbers_of_bound result ≡ numbers_of_bound (bound_of lower_of self variable) }
        ensures means { LowerMeans self variable result }
    {
        self.bound(Side::Lower, variable)
    }

    // The greatest value of a variable, or plus infinity.
    pub fn upper_bound(self, variable: i32) -> Result<IntExt, Refusal>
        ensures equals { numbers_of_bound result ≡ numbers_of_bound (bound_of upper_of self variable) }
        ensures means { UpperMeans self variable result }
    {
        self.bound(Side::Upper, variable)
    }

    // Apply the premises and, if present, the negated consequent, one after the other, from the empty state. The domains are narrowed in an array, which is
    // copied once, into the state returned.
    pub(crate) fn apply_all(premises: &[i32], consequent: &[i32]) -> Applied
        requires { Applicable premises.now consequent.now }
        ensures { result ≡ prepared premises.now consequent.now }
    {
        let words = premises.len() + consequent.len();
        let mut domains = [Domain::all_integers(); VARIABLES];
        for k in 0..words / 3 {
            let atom = given_at(premises, consequent, 3 * k);
            let x = atom.identifier;
            let reduced = domains[x].apply(atom.comparison, atom.value);
            match reduced.effect {
                Effect::Narrowed => domains[x] = reduced.domain,
                Effect::Emptied => {
                    return Applied {
                        answer: Application::Contradiction(x),
                        state: VariableState { domains },
                    };
                }
                Effect::Full => {
                    return Applied {
                        answer: Application::Refused(Refusal::Holes),
                        state: VariableState::default(),
                    };
                }
            }
        }
        Applied {
            answer: Application::Consistent,
            state: VariableState { domains },
        }
    }

    // The state after all the premises and, if present, the negated consequent. A contradiction names the variable of the first failing atom
    // and returns the state before it; a refusal returns the empty state.
    pub fn prepare_for_conflict_check(premises: &[i32], consequent: &[i32]) -> Applied
        ensures equals { AppliedAs (prepared premises.now consequent.now) result }
        ensures means { PrepareMeans premises.now consequent.now result }
    {
        if 3 * PREMISES + 2 < premises.len() {
            return Applied {
                answer: Application::Refused(Refusal::Premises),
                state: VariableState::default(),
            };
        }
        if !lists_are_accepted(premises, consequent) {
            return Applied {
                answer: Application::Refused(Refusal::Atoms),
                state: VariableState::default(),
            };
        }
        VariableState::apply_all(premises, consequent)
    }
}
