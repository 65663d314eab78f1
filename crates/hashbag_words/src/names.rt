//! The names of the inputs.
use crate::folders::is_folder;
use hashbag_shell::one_file::is_one_file;
use hashbag_shell::status::{BAD_INPUT, IO_FAILED};
use hashbag_shell::table::job_in;
use hashbag_shell::tips::is_near;
use hashbag_shell::trouble::Trouble;
use hashbag_words_lib::options::OPTIONS;
use hashbag_words_lib::settings::{Ask, Settings};
use hashbag_words_lib::troubles::of_text;
use std::alloc::{AllocError, Global};
use std::io::ErrorKind;
use std::{fs, io};

/// Reads the file that `--files-from` names.
///
/// # Errors
///
/// The file can't be read, or isn't UTF-8; or the file has a NUL byte, and `null` is false. `Memory` if an allocation fails.
pub fn read_list<'a>(rt: &HostRuntime, name: &'a str, null: bool) -> Result<String, Trouble<'a>> {
    let (name, read) = match name {
        "-" => ("standard input", io::read_to_string(rt.alloc(), rt.stdin())),
        _ => (name, fs::read_to_string(rt, name)),
    };
    let list = read.map_err(|error| of_text(rt.alloc(), name, error))?;
    if !null && list.contains('\0') {
        let what = format!(in rt.alloc();
            "{name}: a name has a NUL byte; `--null` reads names that end in one"
        );
        return Err(Trouble::with_status(what, BAD_INPUT));
    }
    Ok(list)
}

/// Returns the trouble. If an input doesn't exist, and its name is near the name of a job, the message also names the job.
pub fn with_near_job<'a>(alloc: Global, trouble: Trouble<'a>) -> Trouble<'a> {
    let Trouble::File { file, error } = trouble else {
        return trouble;
    };
    if error.kind() == ErrorKind::NotFound {
        for line in OPTIONS {
            if let Some(job) = job_in(line)
                && is_near(alloc, file, job).is_ok_and(|near| near)
            {
                let what = format!(in alloc; "{file}: {error}; is it the job `{job}`?");
                return Trouble::with_status(what, IO_FAILED);
            }
        }
    }
    Trouble::File { file, error }
}

// Returns the names in a list, one for each line, or each ending in a NUL byte. Empty ones are skipped.
fn listed(alloc: Global, list: &str, null: bool) -> Result<Vec<&str>, AllocError> {
    let mut names = Vec::new(alloc);
    if null {
        for name in list.split('\0') {
            if !name.is_empty() {
                names.push(name)?;
            }
        }
        return Ok(names);
    }
    for line in list.lines() {
        if !line.is_empty() {
            names.push(line)?;
        }
    }
    Ok(names)
}

/// Returns the names of all inputs of a job: those of the list, if there is one.
///
/// # Errors
///
/// An allocation fails.
pub fn inputs_of<'a>(
    alloc: Global,
    settings: &Settings<'a, '_>,
    list: Option<&'a String>,
) -> Result<Vec<&'a str>, AllocError> {
    if let Some(list) = list {
        let null = settings.ask.many().is_some_and(|many| many.null);
        return listed(alloc, list.as_str(), null);
    }
    let mut names = Vec::new(alloc);
    match settings.ask {
        Ask::MergeSorted(name) => names.push(name)?,
        Ask::Less(pair) | Ask::Common(pair) => {
            names.push(pair.first)?;
            names.push(pair.second)?;
        }
        Ask::Count(_, many) | Ask::Tokens(_, many) | Ask::Merge(_, many) => match many.files {
            Some(files) => names.extend_from_slice(files)?,
            None if many.recursive => names.push(".")?,
            None => names.push("-")?,
        },
    }
    Ok(names)
}

// Returns the trouble that the file of `--except` is also `what`: the output, or an input.
fn excepted_twice<'a>(rt: &HostRuntime, name: &str, what: &str) -> Trouble<'a> {
    let what = format!(in rt.alloc(); "--except: {name}: it is {what}");
    Trouble::with_status(what, BAD_INPUT)
}

// Checks that the file of tokens that aren't shown is neither the output nor one of the inputs.
fn check_except<'a>(
    rt: &HostRuntime,
    settings: &Settings<'a, '_>,
    names: &[&'a str],
) -> Result<(), Trouble<'a>> {
    let Some(name) = settings.except else {
        return Ok(());
    };
    if let Some(output) = settings.output
        && is_one_file(rt, name, output)
    {
        return Err(excepted_twice(rt, name, "the output"));
    }
    for input in names {
        if is_one_file(rt, name, input) {
            return Err(excepted_twice(rt, name, "one of the inputs"));
        }
    }
    Ok(())
}

// Checks that no input is a folder. The inputs of a recursive job are files already.
fn check_folders<'a>(
    rt: &HostRuntime,
    settings: &Settings<'a, '_>,
    names: &[&'a str],
) -> Result<(), Trouble<'a>> {
    if settings.ask.is_recursive() {
        return Ok(());
    }
    let cure = match settings.ask.many() {
        Some(_) => "; `-r` reads the files in it",
        None => "",
    };
    for name in names {
        if is_folder(rt, name) {
            let what = format!(in rt.alloc(); "{name}: a folder{cure}");
            return Err(Trouble::with_status(what, IO_FAILED));
        }
    }
    Ok(())
}

/// Checks that standard input is read at most once, that the output isn't one of the inputs, that no input is a folder, and that the file of
/// `--except` is neither the output nor an input.
///
/// # Errors
///
/// One of these checks fails; the message says which one. `Memory` if an allocation fails.
pub fn check<'a>(
    rt: &HostRuntime,
    settings: &Settings<'a, '_>,
    names: &[&'a str],
) -> Result<(), Trouble<'a>> {
    let mut reads = u64::from(settings.ask.files_from() == Some("-"));
    if settings.except == Some("-") {
        reads = reads.saturating_add(1);
    }
    for name in names {
        if *name == "-" {
            reads = reads.saturating_add(1);
        }
        if let Some(output) = settings.output
            && is_one_file(rt, name, output)
        {
            let what = format!(in rt.alloc(); "{output}: the output is one of the inputs");
            return Err(Trouble::with_status(what, BAD_INPUT));
        }
    }
    if reads > 1 {
        let what = "standard input is named twice".to_string(rt.alloc())?;
        return Err(Trouble::Arguments(what));
    }
    check_folders(rt, settings, names)?;
    check_except(rt, settings, names)
}
