// The commands on the variable state.
use crate::lines::{say_contradiction, say_error, say_numbers, say_refused};
use crate::parts::place_of;
use crate::words::Query;
use checking::domain::Domain;
use checking::int_ext::IntExt;
use checking::variable_state::{Application, VariableState};
use integers::refused::Refusal;
use post_words::{atoms_in, variable_at};
use std::io;
use std::io::Write;

// `state`: the empty state.
pub fn answer_empty<W: Write>(output: &mut W) -> io::Result<VariableState> {
    writeln!(output, "empty")?;
    Ok(VariableState::default())
}

// The first atom of a list of atoms, if it has one.
fn first_atom(words: &[i32]) -> Option<(i32, i32, i32)> {
    match words {
        [variable, kind, value, ..] if words.len() % 3 == 0 => Some((*variable, *kind, *value)),
        _ => None,
    }
}

// `apply`: the state with the first atom of a list, or the state unchanged.
pub fn answer_apply<W: Write>(
    output: &mut W,
    state: VariableState,
    words: &[i32],
) -> io::Result<VariableState> {
    let Some((variable, kind, value)) = first_atom(words) else {
        say_error(output)?;
        return Ok(state);
    };
    let next = state.apply(variable, kind, value);
    let answer = next.answer;
    let after = next.state;
    match answer {
        Application::Consistent => say_variable(output, &after, variable),
        Application::Contradiction(x) => say_contradiction(output, x),
        Application::Refused(why) => say_refused(output, why.number()),
    }?;
    Ok(after)
}

// `is_true`, `lower`, `upper` and `show`, of the first atom or variable of a list.
pub fn answer_query<W: Write>(
    output: &mut W,
    state: VariableState,
    query: Query,
    words: &[i32],
) -> io::Result<()> {
    let [first, ..] = words else {
        return say_error(output);
    };
    match query {
        Query::IsTrue => answer_truth(output, state, words),
        Query::Lower => say_bound(output, state.lower_bound(*first)),
        Query::Upper => say_bound(output, state.upper_bound(*first)),
        Query::Show => say_variable(output, &state, *first),
    }
}

// `is_true`: whether the first atom of a list is true.
fn answer_truth<W: Write>(output: &mut W, state: VariableState, words: &[i32]) -> io::Result<()> {
    let Some((variable, kind, value)) = first_atom(words) else {
        return say_error(output);
    };
    match state.is_true(variable, kind, value) {
        Ok(truth) => writeln!(output, "{truth}"),
        Err(why) => say_refused(output, why.number()),
    }
}

// The line of a bound.
fn say_bound<W: Write>(output: &mut W, bound: Result<IntExt, Refusal>) -> io::Result<()> {
    match bound {
        Ok(x) => {
            say_ext(output, x)?;
            writeln!(output)
        }
        Err(why) => say_refused(output, why.number()),
    }
}

// A whole number or an infinity.
fn say_ext<W: Write>(output: &mut W, x: IntExt) -> io::Result<()> {
    match x {
        IntExt::Int(v) => write!(output, "{v}"),
        IntExt::NegativeInf => write!(output, "-inf"),
        IntExt::PositiveInf => write!(output, "+inf"),
    }
}

// The line of a variable.
fn say_variable<W: Write>(output: &mut W, state: &VariableState, variable: i32) -> io::Result<()> {
    let x = place_of(variable);
    match state.domains.get(x) {
        Some(domain) => say_domain(output, x, domain),
        None => say_refused(output, Refusal::Atoms.number()),
    }
}

// The line of variable x: its bounds and its holes.
fn say_domain<W: Write>(output: &mut W, x: usize, domain: &Domain) -> io::Result<()> {
    write!(output, "var {x} ")?;
    say_ext(output, domain.lower_bound)?;
    write!(output, " ")?;
    say_ext(output, domain.upper_bound)?;
    say_numbers(output, domain.holes.get(..domain.count).unwrap_or(&[]))
}

// Whether an atom of the words is on variable x.
fn mentions(words: &[i32], x: usize) -> bool {
    for k in 0..atoms_in(words) {
        if place_of(words[variable_at(k)]) == x {
            return true;
        }
    }
    false
}

// The lines of the variables that the atoms are on.
fn say_mentioned<W: Write>(
    output: &mut W,
    state: &VariableState,
    premises: &[i32],
    consequent: &[i32],
) -> io::Result<()> {
    for (x, domain) in state.domains.iter().enumerate() {
        if mentions(premises, x) || mentions(consequent, x) {
            say_domain(output, x, domain)?;
        }
    }
    Ok(())
}

// `prepare`: the state of the premises and the negated consequent, or the state unchanged.
pub fn answer_prepare<W: Write>(
    output: &mut W,
    state: VariableState,
    premises: &[i32],
    consequent: &[i32],
) -> io::Result<VariableState> {
    let next = VariableState::prepare_for_conflict_check(premises, consequent);
    let answer = next.answer;
    let after = next.state;
    match answer {
        Application::Consistent => {
            writeln!(output, "prepared")?;
            say_mentioned(output, &after, premises, consequent)?;
            return Ok(after);
        }
        Application::Contradiction(x) => say_contradiction(output, x),
        Application::Refused(why) => say_refused(output, why.number()),
    }?;
    Ok(state)
}
