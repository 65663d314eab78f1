//! What all subcommands use of the system: random keys, and standard error.
use hashbag_shell::output::write_text;
use hashbag_shell::trouble::Trouble;
use std::hash::RandomState;

/// Returns a hash state with random keys, since strangers may choose the articles.
pub fn random_state<'a>(rt: &HostRuntime) -> Result<RandomState, Trouble<'a>> {
    match RandomState::new(rt) {
        Ok(state) => Ok(state),
        Err(error) => Err(Trouble::Random(error)),
    }
}

/// Writes a text to standard error, unless nothing is to be said. A failed write is ignored: the work is already committed.
pub fn say(rt: &HostRuntime, quiet: bool, text: &str) {
    if !quiet {
        let _ = write_text(&mut rt.stderr(), text.as_bytes());
    }
}
