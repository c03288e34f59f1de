use rl_base::Text;

/// What a command line asks for.
#[derive(Debug, Drop)]
pub enum Order {
    /// Says whether the network text is accepted.
    Check {
        net: Text,
    },
    /// Prints the network's tables.
    Tables {
        net: Text,
    },
    /// Drives so many rounds, with so many attempts for each train.
    Rounds {
        net: Text,
        rounds: u32,
        tries: u32,
    },
    /// Drives the turns of a schedule.
    Drive {
        net: Text,
        schedule: Text,
        tries: u32,
    },
    /// Runs on threads until each train rests: on so many, or on as many as the network asks for, with so
    /// many turns of each node between two looks.
    Run {
        net: Text,
        tries: u32,
        workers: Option<u32>,
        round: u32,
    },
    /// Examines a report.
    Audit {
        net: Text,
        report: Text,
    },
    /// Makes a network of so many stations and drives it.
    Make {
        n: u32,
    },
}
