//! The jobs of the program: each reads its inputs into a bag, and writes the text that shows the bag.
use crate::bag::{Bag, empty_bag};
use crate::blocks::{BY_COMMAND, BY_OPTION, HostBlocks};
use crate::inputs::Work;
use crate::names::check;
use crate::output::{HostOutput, write};
use hashbag_ops::{keep_common, take_away};
use hashbag_shell::output::Output;
use hashbag_shell::progress::Progress;
use hashbag_shell::status::{DENIED, DONE};
use hashbag_shell::text::with_option;
use hashbag_shell::trouble::{Trouble, plural};
use hashbag_words_lib::choice::Choice;
use hashbag_words_lib::counter::TextCounter;
use hashbag_words_lib::inputs::Blocks;
use hashbag_words_lib::lines::BadLines;
use hashbag_words_lib::rule::{Pieces, Rule};
use hashbag_words_lib::settings::{Ask, By, Pair, Settings, Tokens};
use hashbag_words_lib::shown_text::Shown;
use regex::Regex;
use std::alloc::Global;
use std::mem;

/// Returns the pattern that the arguments name, if they name one.
///
/// # Errors
///
/// `Arguments` if the pattern is no regular expression, or hasn't the group that is to be counted.
pub fn pattern_of<'a>(alloc: Global, ask: Ask<'_, '_>) -> Result<Option<Regex>, Trouble<'a>> {
    let Some(tokens) = ask.tokens() else {
        return Ok(None);
    };
    let By::Pattern(text, group) = tokens.by else {
        return Ok(None);
    };
    let pattern = match Regex::new(alloc, text) {
        Ok(pattern) => pattern,
        Err(regex::Error::OutOfMemory) => return Err(Trouble::Memory),
        Err(error) => {
            let what = format!(in alloc; "--pattern: {error}")?;
            return Err(Trouble::Arguments(what));
        }
    };
    let groups = pattern.captures_len().saturating_sub(1);
    if group > groups {
        let groups = groups as u64;
        let s = plural(&groups);
        let what = format!(in alloc; "--group: {group}: the pattern has {groups} group{s}")?;
        return Err(Trouble::Arguments(what));
    }
    Ok(Some(pattern))
}

// Returns what of a line is counted. `pattern` is the compiled pattern, if the arguments name one.
fn pieces_of<'r>(by: By<'_>, pattern: Option<&'r Regex>) -> Pieces<'r> {
    match (by, pattern) {
        (By::Pattern(_, group), Some(pattern)) => match group.checked_sub(1) {
            Some(index) => Pieces::Groups(pattern, index),
            None => Pieces::Matches(pattern),
        },
        (By::Field(index, separator), _) => Pieces::Field(index, separator),
        (By::Lines, _) => Pieces::Lines,
        (By::UnicodeWords, _) => Pieces::UnicodeWords,
        _ => Pieces::Words,
    }
}

// Returns what of a line is counted, and how. `pattern` is the compiled pattern, if the arguments name one.
fn rule_of<'r>(tokens: Tokens<'_>, pattern: Option<&'r Regex>) -> Rule<'r> {
    Rule {
        pieces: pieces_of(tokens.by, pattern),
        fold: tokens.fold,
        lossy: tokens.lossy,
    }
}

// Counts the tokens of the inputs, and returns the text that shows the tokens.
fn count<'a, 'b>(
    work: &mut Work<'_, 'a, '_>,
    tokens: Tokens<'a>,
    bag: &'b mut Bag,
) -> Result<Shown<'b>, Trouble<'a>> {
    if let By::Column(name, delimiter) = tokens.by {
        work.count_columns(name, delimiter, tokens.fold, bag)?;
        return work.show(bag);
    }
    work.show_tokens(rule_of(tokens, work.pattern), bag)
}

// Reads the two inputs of a job on a pair: the first into the bag, and the second into a new bag.
fn take_pair<'a>(
    work: &mut Work<'_, 'a, '_>,
    pair: Pair<'a>,
    bag: &mut Bag,
) -> Result<Bag, Trouble<'a>> {
    let mut other = empty_bag(work.rt)?;
    work.add_all(pair.rows, bag, &[pair.first])?;
    work.add_all(pair.rows, &mut other, &[pair.second])?;

    // From here on tokens are only looked up in `other`. With all slots carried, a look-up reads one table.
    other.finish_carry();
    Ok(other)
}

// Returns whether bytes that aren't UTF-8 are replaced.
fn is_lossy(ask: Ask<'_, '_>) -> bool {
    ask.tokens().is_some_and(|tokens| tokens.lossy)
}

// Returns the option or the command that messages name as the cure for an input that isn't UTF-8.
fn cure_of(ask: Ask<'_, '_>) -> &'static str {
    match ask.tokens() {
        Some(_) => BY_OPTION,
        None => BY_COMMAND,
    }
}

// Does a job that counts in a bag, which is empty. Returns the text that the job writes.
fn text_of_job<'a, 'b>(
    work: &mut Work<'_, 'a, '_>,
    bag: &'b mut Bag,
) -> Result<Shown<'b>, Trouble<'a>> {
    match work.settings.ask {
        Ask::Count(tokens, _) => return count(work, tokens, bag),
        Ask::Merge(form, _) => return work.show_rows(form, bag),
        Ask::Less(pair) => {
            let other = take_pair(work, pair, bag)?;
            take_away(bag, &other);
        }
        Ask::Common(pair) => {
            let other = take_pair(work, pair, bag)?;
            keep_common(bag, &other);
        }
        // Never: these write as they read.
        Ask::Tokens(..) | Ask::MergeSorted(_) => {}
    }
    work.show(bag)
}

// Ends the reports on the inputs. If reading them failed, the message names the option or the command that is the cure.
fn ended<'a, T: Drop>(
    work: &mut Work<'_, 'a, '_>,
    done: Result<T, Trouble<'a>>,
) -> Result<T, Trouble<'a>> {
    work.blocks.end_report();
    let (alloc, cure) = (work.rt.alloc(), cure_of(work.settings.ask));
    match done {
        Ok(done) => Ok(done),
        Err(trouble) => Err(with_option(alloc, trouble, cure)),
    }
}

// Does a job that counts in a bag, which is empty, and writes the job's text. Returns whether the text shows no row.
fn write_counts<'a>(
    work: &mut Work<'_, 'a, '_>,
    output: Output<'a>,
    bag: &mut Bag,
) -> Result<bool, Trouble<'a>> {
    let made = text_of_job(work, bag);
    match ended(work, made) {
        Ok(shown) => write(work.rt, output, shown),
        Err(trouble) => {
            output.abandon(work.rt);
            Err(trouble)
        }
    }
}

// Writes each token of the inputs as a line.
fn write_tokens<'a>(
    work: &mut Work<'_, 'a, '_>,
    tokens: Tokens<'a>,
    output: Output<'a>,
) -> Result<(), Trouble<'a>> {
    let rule = rule_of(tokens, work.pattern);
    let (output, done) = work.write_tokens(rule, HostOutput::new(work.rt, output));
    output.close(ended(work, done))
}

// Adds up neighbouring rows of the one input, and writes the sums. Returns whether no row is shown.
fn write_sums<'a>(work: &mut Work<'_, 'a, '_>, output: Output<'a>) -> Result<bool, Trouble<'a>> {
    let (output, done) = work.write_sums(HostOutput::new(work.rt, output));
    output.close(ended(work, done))
}

// Does a job on the inputs of these names, with an empty bag, and writes the job's text. Returns whether no row is shown.
fn read_and_write<'a>(
    rt: &HostRuntime,
    settings: &Settings<'a, '_>,
    pattern: Option<&Regex>,
    names: &[&'a str],
    bag: &mut Bag,
) -> Result<bool, Trouble<'a>> {
    let output = Output::open(rt, settings.output)?;
    let progress = Progress::new(rt, settings.reports, names);
    let mut work = work_of(
        rt,
        settings,
        names,
        pattern,
        progress,
        cure_of(settings.ask),
    );
    match settings.ask {
        Ask::Tokens(tokens, _) => {
            write_tokens(&mut work, tokens, output)?;
            Ok(false)
        }
        Ask::MergeSorted(_) => write_sums(&mut work, output),
        _ => write_counts(&mut work, output, bag),
    }
}

// Returns what a job works with. Its inputs are in the encoding that the arguments name; messages name `cure` for an input that isn't.
fn work_of<'s, 'a, 'm>(
    rt: &'s HostRuntime,
    settings: &'s Settings<'a, 'm>,
    names: &'s [&'a str],
    pattern: Option<&'s Regex>,
    progress: Progress,
    cure: &'static str,
) -> Work<'s, 'a, 'm> {
    let encoding = settings.ask.encoding();
    Work {
        rt,
        settings,
        names,
        pattern,
        encoding,
        blocks: HostBlocks::new(rt, progress, encoding, !is_lossy(settings.ask), cure),
    }
}

// Returns the bag of the lines of a file.
fn lines_of<'a>(
    work: &mut Work<'_, 'a, '_>,
    name: &'a str,
    fold: bool,
) -> Result<Bag, Trouble<'a>> {
    let (rt, lossy) = (work.rt, false);
    let rule = |pieces| Rule {
        pieces,
        fold,
        lossy,
    };
    let lines = rule(Pieces::Lines);
    let mut counter = TextCounter::new(rt.alloc(), empty_bag(rt)?, lines, BadLines::Rejected);
    work.count_all(&mut counter, &[name])?;
    let mut bag = counter.into_sink();
    bag.finish_carry();
    Ok(bag)
}

// Returns the tokens that aren't shown: the lines of a file, if one is named.
fn excepted<'s, 'a>(
    rt: &'s HostRuntime,
    settings: &'s Settings<'a, '_>,
    names: &'s [&'a str],
) -> Result<Option<Bag>, Trouble<'a>> {
    let Some(name) = settings.except else {
        return Ok(None);
    };
    let mut work = Work {
        rt,
        settings,
        names,
        pattern: None,
        encoding: None,
        blocks: HostBlocks::new(
            rt,
            Progress::silent(),
            None,
            !is_lossy(settings.ask),
            BY_COMMAND,
        ),
    };
    match lines_of(&mut work, name, settings.ask.folds()) {
        Ok(lines) => Ok(Some(lines)),
        Err(trouble) => Err(with_option(rt.alloc(), trouble, BY_COMMAND)),
    }
}

/// Does the job and returns the exit status. `pattern` is what [`pattern_of`] returned.
///
/// # Errors
///
/// The first failure. Then a file that the arguments name as output is unchanged.
pub fn run<'a>(
    rt: &HostRuntime,
    settings: &Settings<'a, '_>,
    pattern: Option<&Regex>,
    names: &[&'a str],
) -> Result<u8, Trouble<'a>> {
    check(rt, settings, names)?;
    let except = excepted(rt, settings, names)?;
    let choice = Choice {
        except: except.as_ref(),
        ..settings.choice
    };
    let settings = Settings {
        choice,
        ..*settings
    };
    let mut bag = empty_bag(rt)?;
    let is_empty = read_and_write(rt, &settings, pattern, names, &mut bag);
    // The program ends soon, and the system then takes all memory back at once.
    mem::forget(bag);
    Ok(if is_empty? && settings.fail_empty {
        DENIED
    } else {
        DONE
    })
}
