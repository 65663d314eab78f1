//! The outputs: the refusals and the balance.
use hashbag_ledger_db::settings::Settings;
use hashbag_ledger_db::unkept::UnkeptReport;
use hashbag_shell::one_file::is_one_file;
use hashbag_shell::output::{Output, write_text};
use hashbag_shell::trouble::Trouble;

/// The outputs that were opened.
#[derive(Drop)]
pub struct Outputs<'a> {
    refusals: Output<'a>,
    balance: Output<'a>,
}

/// Returns whether two names are of one file. Equal names always are, even if there is no such file.
pub fn is_same(rt: &HostRuntime, first: &str, second: &str) -> bool {
    first == second || is_one_file(rt, first, second)
}

/// Returns the name of an output that is also an input or the other output, if there is one. The balance may replace the stock at the
/// beginning.
pub fn conflict<'a>(rt: &HostRuntime, settings: &Settings<'a>) -> Option<&'a str> {
    for output in [settings.output, settings.refused] {
        if let Some(name) = output {
            for file in settings.files.iter().copied() {
                if is_same(rt, name, file) {
                    return Some(name);
                }
            }
        }
    }
    let refused = settings.refused?;
    for other in [settings.start, settings.output] {
        if let Some(name) = other
            && is_same(rt, refused, name)
        {
            return Some(refused);
        }
    }
    None
}

impl<'a> Outputs<'a> {
    /// Opens the outputs that are named.
    ///
    /// # Errors
    ///
    /// `File` names the output that can't be opened, `Memory` if an allocation fails. Then the files are unchanged.
    pub fn open(rt: &HostRuntime, settings: &Settings<'a>) -> Result<Outputs<'a>, Trouble<'a>> {
        let refusals = Output::open(rt, settings.refused)?;
        match Output::open(rt, settings.output) {
            Ok(balance) => Ok(Outputs { refusals, balance }),
            Err(trouble) => {
                refusals.abandon(rt);
                Err(trouble)
            }
        }
    }

    /// Writes nothing: the files are unchanged.
    pub fn abandon(self, rt: &HostRuntime) {
        self.refusals.abandon(rt);
        self.balance.abandon(rt);
    }

    /// Writes the refusals, and then the balance.
    ///
    /// # Errors
    ///
    /// `File` names the output that can't be written, `Memory` if an allocation fails. A file that can't be written is unchanged.
    pub fn write(self, rt: &HostRuntime, report: &UnkeptReport) -> Result<(), Trouble<'a>> {
        let Outputs { refusals, balance } = self;
        let written = write_refusals(rt, refusals, report.refusals.as_slice());
        match (written, &report.balance) {
            (Ok(()), Some(text)) => balance.write(rt, text.as_slice()),
            (written, _) => {
                balance.abandon(rt);
                written
            }
        }
    }
}

/// Writes the refusals to their output, or to standard error.
///
/// # Errors
///
/// Why they can't be written.
pub fn write_refusals<'a>(
    rt: &HostRuntime,
    output: Output<'a>,
    text: &[u8],
) -> Result<(), Trouble<'a>> {
    match output {
        Output::Standard => write_text(&mut rt.stderr(), text),
        named => named.write(rt, text),
    }
}
