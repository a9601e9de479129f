// A line's command, and its answer.
use crate::check_commands::{answer_check, answer_mirrored_check};
use crate::range_commands::answer_on_ranges;
use crate::record_commands::{answer_add, answer_create, answer_remove};
use checking::variable_state::VariableState;
use disjunctive::DisjunctivePropagator;
use replay_lines::lines::say_error;
use replay_lines::parts::{Lists, first_word};
use replay_lines::state_commands::{answer_apply, answer_empty, answer_prepare, answer_query};
use replay_lines::words::Command;
use std::io;
use std::io::Write;

// What is kept between commands: the record, once one was asked for, and the variable state.
#[derive(Clone, Copy)]
pub struct Session {
    record: Option<DisjunctivePropagator>,
    state: VariableState,
}

impl Session {
    // No record yet, and the empty state.
    pub fn new() -> Session {
        Session {
            record: None,
            state: VariableState::default(),
        }
    }

    // A line's answer, and `end` after it. Empty lines and those that start with # have none.
    pub fn answer_line<W: Write>(&mut self, output: &mut W, line: &[u8]) -> io::Result<()> {
        // a transcript has this mark before its commands
        let line = line.strip_prefix(b"> ").unwrap_or(line);
        let (word, rest) = first_word(line);
        if word.is_empty() || line.starts_with(b"#") {
            return Ok(());
        }
        self.answer_word(output, word, rest)?;
        writeln!(output, "end")
    }

    // The answer to a line's first word and what stands after it.
    fn answer_word<W: Write>(
        &mut self,
        output: &mut W,
        word: &[u8],
        rest: &[u8],
    ) -> io::Result<()> {
        match (Command::of(word), Lists::of(rest)) {
            (Some(command), Some(lists)) if lists.count() == 1 || command.takes_lists() => {
                self.answer_command(output, command, &lists)
            }
            _ => say_error(output),
        }
    }

    // The answer to a command on lists of numbers.
    fn answer_command<W: Write>(
        &mut self,
        output: &mut W,
        command: Command,
        lists: &Lists,
    ) -> io::Result<()> {
        let first = lists.list(0);
        match command {
            Command::Create => self.record = Some(answer_create(output, first)?),
            Command::Add => self.record = answer_add(output, self.record, first)?,
            Command::Remove => self.record = answer_remove(output, self.record, first)?,
            Command::State => self.state = answer_empty(output)?,
            Command::Apply => self.state = answer_apply(output, self.state, first)?,
            Command::Query(query) => answer_query(output, self.state, query, first)?,
            Command::Prepare => {
                self.state = answer_prepare(output, self.state, first, lists.list(1))?;
            }
            Command::Check => answer_check(output, lists)?,
            Command::CheckMirrored => answer_mirrored_check(output, lists)?,
            Command::OnRanges(question) => {
                answer_on_ranges(output, self.record, question, lists)?;
            }
        }
        Ok(())
    }
}
