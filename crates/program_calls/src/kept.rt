ghost use Rattle.std.specs.Prelude.{◌≡◌, map, string_bytes};
ghost use Rattle.program_calls.specs.Forms.{kept_task_named, kept_task_of};

/// What the program can be asked to do with a kept session.
#[derive(Clone, Copy, Debug, PartialEq, Eq)]
pub enum KeptTask {
    /// To run a new session, and to keep it in the journal file.
    Keep,
    /// To go on with the session that the journal file holds.
    Restart,
}

/// What the words ask for of a kept session: `keep` or `restart`, alone. `None` for all other words, which `read_words` reads. It takes no
/// memory.
pub fn kept_task(words: &[String]) -> Option<KeptTask>
    ensures { result ≡ kept_task_of (map string_bytes words.now) }
{
    match words {
        [word] => task_named(word.as_str()),
        _ => None,
    }
}

fn task_named(word: &str) -> Option<KeptTask>
    ensures { result ≡ kept_task_named word.now }
{
    match word {
        "keep" => Some(KeptTask::Keep),
        "restart" => Some(KeptTask::Restart),
        _ => None,
    }
}
