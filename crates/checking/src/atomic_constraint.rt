// Atoms: a variable compared with a value.
ghost use Rattle.std.specs.Prelude.{◌≡◌, true, ◌+◌, ◌≤◌, ◌<◌, length, drop};
ghost use Rattle.integers.specs.Limits.{VALUE};
ghost use Rattle.scheduling.specs.Scheduling.{negation};
ghost use Rattle.integers.specs.WholeNumbers.{Within};
ghost use Rattle.checking.specs.Atoms.{comparison_at, atom_of, atom_from, atom_place, given_in, right_variable, right_atom, right_words, right_lists, right_from};

use integers::limits::{self, VARIABLES};
use integers::numbers::nat_of;
use integers::refused::Refusal;

#[derive(Clone, Copy, PartialEq, Eq)]
pub enum Comparison {
    GreaterEqual,
    LessEqual,
    Equal,
    NotEqual,
}

// The comparison of a kind's number.
impl TryFrom<i32> for Comparison {
    type Error = Refusal;

    ghost try_from_gives = { λ kind r. r ≡ comparison_at kind };

    fn try_from(kind: i32) -> Result<Comparison, Refusal> {
        match kind {
            0 => Ok(Comparison::GreaterEqual),
            1 => Ok(Comparison::LessEqual),
            2 => Ok(Comparison::Equal),
            3 => Ok(Comparison::NotEqual),
            _ => Err(Refusal::Atoms),
        }
    }
}

// The atom [identifier comparison value].
#[derive(Clone, Copy)]
pub struct AtomicConstraint {
    pub identifier: usize,
    pub comparison: Comparison,
    pub value: i32,
}

// Whether a variable is known.
pub fn variable_is_accepted(variable: i32) -> bool
    ensures { result ≡ right_variable variable }
{
    0 <= variable && variable < VARIABLES as i32
}

// Whether three words are an atom: a known variable, a known kind, a value within the limits.
#[tactic(auto, unfolding(crate::specs::Atoms::right_atom))]
pub fn atom_is_accepted(variable: i32, kind: i32, value: i32) -> bool
    ensures { result ≡ right_atom variable kind value }
{
    variable_is_accepted(variable)
        && Comparison::try_from(kind).is_ok()
        && -limits::VALUE <= value
        && value <= limits::VALUE
}

// Whether the words are a multiple of three, and every three of them an atom.
fn words_are_accepted(words: &[i32]) -> bool
    ensures { result ≡ right_words words.now }
{
    let (atoms, rest) = words.as_chunks::<3>();
    rest.is_empty()
        && atoms.iter().all(|[variable, kind, value]| atom_is_accepted(*variable, *kind, *value))
}

// The atom of the three words from place i on.
fn atom_at(words: &[i32], i: usize) -> AtomicConstraint
    requires { (i + 3 ≤ length words.now) × (right_words (drop i words.now) ≡ true) }
    ensures { atom_of result ≡ atom_place words.now i }
{
    AtomicConstraint::new(words[i], words[i + 1], words[i + 2])
}

impl AtomicConstraint {
    // The atom of three words.
    pub(crate) fn new(variable: i32, kind: i32, value: i32) -> AtomicConstraint
        requires { right_atom variable kind value ≡ true }
        ensures { atom_of result ≡ atom_from variable kind value }
    {
        AtomicConstraint {
            identifier: nat_of(variable) as usize,
            comparison: Comparison::try_from(kind).unwrap(),
            value,
        }
    }

    // The strongest atom that excludes this one.
    fn negate(self) -> AtomicConstraint
        requires { Within VALUE self.value }
        ensures { atom_of result ≡ negation (atom_of self) }
    {
        let (comparison, value) = match self.comparison {
            Comparison::GreaterEqual => (Comparison::LessEqual, self.value - 1),
            Comparison::LessEqual => (Comparison::GreaterEqual, self.value + 1),
            Comparison::Equal => (Comparison::NotEqual, self.value),
            Comparison::NotEqual => (Comparison::Equal, self.value),
        };
        AtomicConstraint {
            identifier: self.identifier,
            comparison,
            value,
        }
    }
}

// The atom of the three words from place i on, of the premises' words followed by the consequent's, whose atom is negated.
pub(crate) fn given_at(premises: &[i32], consequent: &[i32], i: usize) -> AtomicConstraint
    requires { (i < length premises.now + length consequent.now) × (right_from premises.now consequent.now i ≡ true) }
    ensures { atom_of result ≡ given_in premises.now consequent.now i }
{
    if i < premises.len() {
        return atom_at(premises, i);
    }
    atom_at(consequent, i - premises.len()).negate()
}

// Whether the premises are atoms, and the consequent one atom or none.
#[tactic(auto, unfolding(crate::specs::Atoms::right_lists))]
pub(crate) fn lists_are_accepted(premises: &[i32], consequent: &[i32]) -> bool
    ensures { result ≡ right_lists premises.now consequent.now }
{
    words_are_accepted(premises) && consequent.len() <= 3 && words_are_accepted(consequent)
}
