use net_settle::Form;

/// How many workers run a session where no number is said.
pub const DEFAULT_WORKERS: u32 = 4;

/// What the program can be asked to do.
#[derive(Clone, Copy, Debug, PartialEq, Eq)]
pub enum Task {
    /// To run a session on threads.
    Run {
        workers: u32,
    },
    /// To run a session in the order of its lines.
    Serial,
    /// To check an output.
    Check,
    /// To make a session from a number, and to run it both ways: of 2 to 64 banks, 1 to 32 pairs and 1 to 20,000
    /// commands, in at most 1 to 64 workers.
    Load {
        seed: u64,
        banks: u8,
        pairs: u8,
        commands: u32,
        workers: u32,
    },
    /// To run a session whose banks have clients, in the order of its lines.
    Clients,
    /// To read an output, and tell what the banks pay.
    Payments {
        form: Form,
    },
    /// To run a session on threads while a reader watches it.
    Watch,
}
