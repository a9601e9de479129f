// The tariff as code: its table, and what a number of minutes costs by it.
ghost use Rattle.std.specs.Prelude.{◌≡◌, ◌≤◌, min};
ghost use Rattle.charges.specs.Tariff.{cost_of_minutes};
ghost use Rattle.charges.specs.Charges.{MINUTES};

// A row of the tariff: the last hour that it is for, and what each hour begun of it costs, in cents.
#[derive(Clone, Copy)]
pub struct Row {
    pub upto: u32,
    pub cents: u32,
}

// The table, all of the tariff that the code has: `tariff` is its definition.
const TARIFF: [Row; 2] = [
    Row {
        upto: 24,
        cents: 25,
    },
    Row {
        upto: 59,
        cents: 40,
    },
];

// The cost of a number of minutes. For each row, the hours that are begun and not charged by the rows before are charged at once.
pub fn cost_of(minutes: u32) -> u32
    requires { minutes ≤ MINUTES }
    ensures { result ≡ cost_of_minutes minutes }
{
    let hours = minutes.div_ceil(60);
    let mut done = 0;
    let mut cost = 0;
    for row in &TARIFF {
        let reached = hours.min(row.upto);
        cost += (reached - done) * row.cents;
        done = reached;
    }
    cost
}
