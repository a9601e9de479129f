// The protocol's commands.

// A question on the variable state.
#[derive(Clone, Copy)]
pub enum Query {
    IsTrue,
    Lower,
    Upper,
    Show,
}

// A question on a fixed schedule.
#[derive(Clone, Copy)]
pub enum Fixed {
    Page,
    Charges,
    Free,
    Busiest,
}

// A question on ranges that may have barred starts.
#[derive(Clone, Copy)]
pub enum Barred {
    Run,
    Mirror,
    Quick,
    Precede,
    Conflict,
    ConflictPage,
}

// A question on the bound that the precedences give one task of such ranges.
#[derive(Clone, Copy)]
pub enum OneBound {
    Value,
    Reason,
}

// A question on the record and on ranges.
#[derive(Clone, Copy)]
pub enum OnRanges {
    Fixed(Fixed),
    Barred(Barred),
    OneBound(OneBound),
}

// A command.
#[derive(Clone, Copy)]
pub enum Command {
    Create,
    Add,
    Remove,
    State,
    Apply,
    Query(Query),
    Prepare,
    Check,
    CheckMirrored,
    OnRanges(OnRanges),
}

impl Command {
    // The command of a word, if it is one.
    pub fn of(word: &[u8]) -> Option<Command> {
        let command = match word {
            b"create" => Command::Create,
            b"add" => Command::Add,
            b"remove" => Command::Remove,
            b"state" => Command::State,
            b"apply" => Command::Apply,
            b"is-true" => Command::Query(Query::IsTrue),
            b"lower" => Command::Query(Query::Lower),
            b"upper" => Command::Query(Query::Upper),
            b"show" => Command::Query(Query::Show),
            b"prepare" => Command::Prepare,
            b"check" => Command::Check,
            b"check-mirrored" => Command::CheckMirrored,
            b"page" => Command::OnRanges(OnRanges::Fixed(Fixed::Page)),
            b"charges" => Command::OnRanges(OnRanges::Fixed(Fixed::Charges)),
            b"free" => Command::OnRanges(OnRanges::Fixed(Fixed::Free)),
            b"busiest" => Command::OnRanges(OnRanges::Fixed(Fixed::Busiest)),
            b"run" => Command::OnRanges(OnRanges::Barred(Barred::Run)),
            b"mirror" => Command::OnRanges(OnRanges::Barred(Barred::Mirror)),
            b"quick" => Command::OnRanges(OnRanges::Barred(Barred::Quick)),
            b"precede" => Command::OnRanges(OnRanges::Barred(Barred::Precede)),
            b"conflict" => Command::OnRanges(OnRanges::Barred(Barred::Conflict)),
            b"conflict-page" => Command::OnRanges(OnRanges::Barred(Barred::ConflictPage)),
            b"precede-bound" => Command::OnRanges(OnRanges::OneBound(OneBound::Value)),
            b"precede-why" => Command::OnRanges(OnRanges::OneBound(OneBound::Reason)),
            _ => return None,
        };
        Some(command)
    }

    // Whether it takes several lists of numbers; the others take one.
    pub fn takes_lists(self) -> bool {
        matches!(
            self,
            Command::Prepare | Command::Check | Command::CheckMirrored | Command::OnRanges(_)
        )
    }
}
